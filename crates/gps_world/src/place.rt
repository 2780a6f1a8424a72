ghost use Rattle.std.specs.Prelude.{◌≡◌};
ghost use Rattle.gps_world.specs.Places.{same_place};

use gps_fixed::Bytes;
use std::alloc::Global;
use std::default::MadeWith;
use std::io::{self, ErrorKind};

/// Where bytes come from.
#[derive(Debug, Drop)]
pub enum Place {
    /// A file of this path, or what else opens under it, as a named pipe or a terminal.
    File(Bytes),
    /// A TCP connection to this HOST:PORT.
    Tcp(Bytes),
    /// The packets of a device of another daemon, at this HOST:PORT.
    Gpsd(Bytes),
}

/// A copy of the bytes, if there is memory for it.
pub(crate) fn copy_of(bytes: &Bytes) -> io::Result<Bytes> {
    match bytes.copy() {
        Ok(copy) => Ok(copy),
        Err(_) => Err(io::Error::from(ErrorKind::OutOfMemory)),
    }
}

impl Place {
    /// Whether it is the same place.
    pub fn is_same(&self, other: &Place) -> bool
        ensures { result ≡ same_place self.now other.now }
    {
        match (self, other) {
            (Place::File(one), Place::File(two)) => one == two,
            (Place::Tcp(one), Place::Tcp(two)) => one == two,
            (Place::Gpsd(one), Place::Gpsd(two)) => one == two,
            _ => false,
        }
    }

    /// A copy of the place, if there is memory for it.
    pub(crate) fn copy(&self) -> io::Result<Place> {
        match self {
            Place::File(path) => Ok(Place::File(copy_of(path)?)),
            Place::Tcp(address) => Ok(Place::Tcp(copy_of(address)?)),
            Place::Gpsd(address) => Ok(Place::Gpsd(copy_of(address)?)),
        }
    }
}

/// The default: a file without a name.
impl MadeWith<Global> for Place {
    fn made_with(alloc: Global) -> Place {
        Place::File(Bytes::new(alloc))
    }
}
