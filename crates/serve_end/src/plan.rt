use gps_fixed::Bytes;
use gps_report::Names;
use gps_world::Place;

/// What a daemon is to serve.
#[derive(Drop)]
pub struct Plan {
    /// The names of the devices.
    pub names: Names,
    /// Where the bytes of each device come from.
    pub inputs: Vec<Place>,
    /// Where the edges of each device come from, if it has a place for them.
    pub edges: Vec<Option<Place>>,
    /// The address to listen to, HOST:PORT.
    pub listen: Bytes,
    /// How many items may wait for each session.
    pub queue: u32,
    /// How many requests of each session are answered.
    pub requests: u32,
    /// The most symbols of one generation of the history.
    pub limit: u32,
    /// For how many watching sessions the devices wait.
    pub wait: u32,
    /// How many readings the monitor of each unit makes; with 0 there are no monitors.
    pub tries: u32,
}
