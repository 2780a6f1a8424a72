use crate::floor::Floor;
use gps_hub::HubNaming;
use gps_world::{HeldPipes, World};
use std::sync::{Mutex, Wait};

/// The one call of a [`World`] that is needed by the thread that waits for the readers. The trait has none of the world's types: the closure of the
/// scope would have to send them.
pub trait Waker {
    /// Wakes the readers that wait at a FIFO for a writer. None waits there again until the answer is dropped.
    fn wake(&self) -> Option<HeldPipes>;
}

impl<W: World> Waker for W {
    fn wake(&self) -> Option<HeldPipes> {
        self.wake_readers()
    }
}

/// If the book refused a piece of some device, wakes every reader that may wait at a FIFO for a writer. Otherwise no FIFO is touched: its next
/// writer may wait there for the next daemon.
pub fn wake_readers<V: Waker, J: HubNaming, R: Wait + Copy>(
    rt: &R,
    floor: &Mutex<Floor<J, R>>,
    waker: &V,
) -> Option<HeldPipes> {
    let has_refused = floor.lock(rt).has_refused;
    if has_refused { waker.wake() } else { None }
}
