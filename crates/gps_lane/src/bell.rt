use std::sync::Wait;
use std::sync::atomic::{AtomicBool, Ordering};
use std::thread::Parker;
use std::time::Duration;

/// A thread sleeps on a bell until another thread rings it. Any number of threads may ring it, and one at most waits on it.
///
/// A ring stays until the next wait takes it, so a thread that looks for work after each wait misses none that was there
/// before a ring. A wait may end without a ring. None of this is in a clause: no proof speaks of waking.
#[derive(Drop)]
pub struct Bell {
    parker: Parker,
    closed: AtomicBool,
}

impl Bell {
    pub const fn new() -> Bell {
        Bell {
            parker: Parker::new(),
            closed: AtomicBool::new(false),
        }
    }

    /// Wakes the thread that waits, or lets its next wait end at once.
    pub fn ring(&self) {
        self.parker.unpark();
    }

    /// Sleeps until a ring.
    pub fn wait<R: Wait>(&self, rt: &R) {
        self.parker.park(rt);
    }

    /// Sleeps until a ring, but no longer than this.
    pub fn wait_for<R: Wait>(&self, rt: &R, most: Duration) {
        self.parker.park_timeout(rt, most);
    }

    /// Says that nothing more will come, and rings.
    pub fn close(&self) {
        self.closed.store(true, Ordering::SeqCst);
        self.ring();
    }

    /// Whether it was closed.
    pub fn is_closed(&self) -> bool {
        self.closed.load(Ordering::SeqCst)
    }
}
