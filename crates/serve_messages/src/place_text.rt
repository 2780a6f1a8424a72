use gps_fixed::Bytes;
use gps_world::Place;
use std::{fmt, str};

/// A text of the command line.
pub fn text_of(bytes: &Bytes) -> &str {
    match str::from_utf8(bytes.as_slice()) {
        Ok(text) => text,
        Err(_) => "?",
    }
}

/// A place as its device word says it, as `file:/dev/ttyACM0`.
#[derive(Clone, Copy)]
pub struct PlaceText<'a>(pub &'a Place);

impl fmt::Display for PlaceText<'_> {
    fn fmt<W: fmt::Write>(&self, f: &mut fmt::Formatter<W>) -> fmt::Result {
        match self.0 {
            Place::File(path) => write!(f, "file:{}", text_of(path)),
            Place::Tcp(address) => write!(f, "tcp:{}", text_of(address)),
            Place::Gpsd(address) => write!(f, "gpsd:{}", text_of(address)),
        }
    }
}

/// A copy of a place, if there is memory for it. If not, nothing is said of the place.
pub fn copy_of(place: &Place) -> Option<Place> {
    match place {
        Place::File(path) => match path.copy() {
            Ok(path) => Some(Place::File(path)),
            Err(_) => None,
        },
        Place::Tcp(address) => match address.copy() {
            Ok(address) => Some(Place::Tcp(address)),
            Err(_) => None,
        },
        Place::Gpsd(address) => match address.copy() {
            Ok(address) => Some(Place::Gpsd(address)),
            Err(_) => None,
        },
    }
}
