use gps_report::Pair;
use packet_cut::CutterChange;
use pps_edges::Pulses;

/// What an open draft will make of the device. The epochs have changed already, and have a checkpoint to go back to.
#[derive(Drop)]
pub struct Draft {
    pub(crate) change: Option<CutterChange>,
    pub(crate) pulses: Pulses,
    pub(crate) toff: Option<Pair>,
}
