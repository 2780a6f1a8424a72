use gps_fixed::Stamp;
use gps_report::Note;

/// A note as it was heard: with the stamp of the first byte of its packet.
#[derive(Debug, Drop)]
pub struct Heard {
    pub note: Note,
    pub first: Stamp,
}
