//! What the tests of reports and of the daemon read and write, of one device `g`.

ghost use Rattle.std.specs.Prelude.{◌≡◌, IfOk, length};

use gps_fixed::{NoMemory, Stamp};
use gps_report::{Name, Names};
use std::alloc::Global;

pub(crate) const RMC: &[u8] =
    b"$GPRMC,123519,A,4807.038,N,01131.000,E,022.4,084.4,230394,003.1,W*6A\r\n";

pub(crate) const ACTIVE: &[u8] =
    b"{\"class\":\"DEVICE\",\"path\":\"g\",\"activated\":\"1970-01-01T00:00:05.000Z\"}\r\n";

pub(crate) const ENDED: &[u8] = b"{\"class\":\"DEVICE\",\"path\":\"g\"}\r\n";

pub(crate) const FIVE: Stamp = Stamp { sec: 5, nsec: 0 };

pub(crate) type Parts<'a> = &'a [&'a [u8]];

pub(crate) fn joined(alloc: Global, parts: Parts<'_>) -> Result<Vec<u8>, NoMemory> {
    let mut bytes = Vec::new(alloc);
    for part in parts {
        bytes.extend_from_slice(*part)?;
    }
    Ok(bytes)
}

/// The names of one device.
pub(crate) fn one_name(alloc: Global) -> Result<Names, NoMemory>
    ensures { IfOk result (λ names. length names ≡ 1) }
{
    let Ok(name) = Name::of(alloc, b"g") else {
        return Err(NoMemory);
    };
    let mut list = Vec::new(alloc);
    list.push(name)?;
    match Names::of(list) {
        Some(names) => Ok(names),
        None => Err(NoMemory),
    }
}
