use gps_lane::{Piece, Rx, Tx};
use gps_outside::{ClientSink, Source};
use hub_promise::DeviceEnd;
use output_lines::SessionEnd;
use session_core::Item;
use shm_monitor::{Monitor, Numbered};

/// What is left of a device: its sources, both ends of its lanes, and how it ended.
#[derive(Drop)]
pub struct DeviceDone<S: Source, R> {
    pub source: Option<S>,
    pub edges: Option<S>,
    pub bytes_tx: Tx<Piece, R>,
    pub bytes_rx: Rx<Piece, R>,
    pub edges_tx: Option<Tx<Piece, R>>,
    pub edges_rx: Option<Rx<Piece, R>>,
    pub end: Option<DeviceEnd>,
}

/// What is left of a session: its source and its sink, both ends of its input lane, the receiving end of its outlet, and whether all its
/// items were written.
#[derive(Drop)]
pub struct SessionDone<S: Source, K: ClientSink, R> {
    pub number: u32,
    pub source: S,
    pub sink: K,
    pub input_tx: Tx<Piece, R>,
    pub input_rx: Rx<Piece, R>,
    pub items_rx: Rx<Item, R>,
    pub end: SessionEnd,
}

/// A unit's monitor, and the samples that it took, each number once, in order.
#[derive(Drop)]
pub struct MonitorDone {
    pub unit: u8,
    pub monitor: Monitor,
    pub taken: Vec<Numbered>,
}
