ghost use Rattle.std.specs.Prelude.{◌≡◌};
ghost use Rattle.std.specs.List.{list_all};
ghost use Rattle.nmea_decode.specs.Kinds.{dim_of, is_address, is_upper, stated_system, talker_system};

use gps_report::{BEIDOU, GALILEO, GLONASS, GPS};

fn is_upper_case(text: &[u8]) -> bool
    ensures { result ≡ list_all is_upper text.now }
{
    text.iter().all(|c| b'A' <= *c && *c <= b'Z')
}

/// Whether sentences with this address are read: five upper-case letters that do not begin with the `P` of a maker's own.
pub(crate) fn is_read(address: &[u8]) -> bool
    ensures { result ≡ is_address address.now }
{
    address.len() == 5 && is_upper_case(address) && address[0] != b'P'
}

/// The system of a talker.
#[tactic(auto, unfolding(crate::specs::Kinds::talker_system))]
pub(crate) fn system_of_talker(talker: &[u8]) -> Option<u8>
    ensures { result ≡ talker_system talker.now }
{
    if talker == b"GP".as_slice() {
        Some(GPS)
    } else if talker == b"GL".as_slice() {
        Some(GLONASS)
    } else if talker == b"GA".as_slice() {
        Some(GALILEO)
    } else if talker == b"GB".as_slice() {
        Some(BEIDOU)
    } else {
        None
    }
}

/// The system that a GSA states.
#[tactic(auto, unfolding(crate::specs::Kinds::stated_system))]
pub(crate) fn system_stated(text: &[u8]) -> Option<u8>
    ensures { result ≡ stated_system text.now }
{
    if text == b"1".as_slice() {
        Some(GPS)
    } else if text == b"2".as_slice() {
        Some(GLONASS)
    } else if text == b"3".as_slice() {
        Some(GALILEO)
    } else if text == b"4".as_slice() {
        Some(BEIDOU)
    } else {
        None
    }
}

/// The dimensions of a GSA's fix: 1 none, 2 or 3.
#[tactic(auto, unfolding(crate::specs::Kinds::dim_of))]
pub(crate) fn dimensions(text: &[u8]) -> Option<u8>
    ensures { result ≡ dim_of text.now }
{
    if text == b"1".as_slice() {
        Some(1)
    } else if text == b"2".as_slice() {
        Some(2)
    } else if text == b"3".as_slice() {
        Some(3)
    } else {
        None
    }
}
