ghost use Rattle.std.specs.Prelude.{◌≡◌, ◌<◌, ◌≤◌, ◌++◌, OnOk, drop, length};
ghost use Rattle.pseudo_nmea.specs.Sentences.{ending};

use gps_fixed::{Bytes, NoMemory, upper_hex_digit};
use nmea_frame::checksum;

/// Ends the sentence whose body begins at this place: `*`, its checksum in upper case, CR and LF.
pub(crate) fn end_sentence(out: &mut Bytes, from: usize) -> Result<(), NoMemory>
    requires { from ≤ length out.old }
    ensures { OnOk result (out.new ≡ out.old ++ ending (drop from out.old)) }
{
    let sum = checksum(&out.as_slice()[from..]);
    let end = [
        b'*',
        upper_hex_digit(sum / 16),
        upper_hex_digit(sum % 16),
        b'\r',
        b'\n',
    ];
    out.extend_from_slice(&end)
}
