use gps_hub::HubNaming;
use serve_floor::Floor;
use serve_workers::{Bells, Spawner};
use std::sync::{Mutex, Wait};

/// What the door worker works with: what starts threads, and the floor and the bells that it shares with the other threads.
#[derive(Drop)]
pub struct DoorContext<'s, E, J: HubNaming, R: Wait + Copy> {
    pub spawner: Spawner<'s, E, R>,
    pub floor: &'s Mutex<Floor<J, R>>,
    pub bells: &'s Bells,
}
