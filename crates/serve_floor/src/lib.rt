//! What is done under the lock of the running daemon's hub, and who is woken after it: the pump takes what waits in the lanes, the publisher
//! stores samples, and the door worker admits sessions. This project's own.
#![tactic(auto)]

mod floor;
mod pumping;
mod rings;
mod waker;

pub use floor::{Burst, Floor, LinkRefusal, floor_of};
pub use pumping::{Publishing, pump, start_publisher};
pub use rings::{MOST, Rings};
pub use waker::{Waker, wake_readers};
