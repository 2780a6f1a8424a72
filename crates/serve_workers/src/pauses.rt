use gps_lane::Bell;
use std::sync::Wait;
use std::time::Duration;

/// How many milliseconds a thread sleeps after nothing came, so that an object of the outside that always answers at
/// once does not keep it busy.
const PAUSE: u64 = 1;

/// Sleeps for a moment, or until a ring. False, without any sleep, if the bell is closed.
pub(crate) fn pause<R: Wait>(rt: &R, own: &Bell) -> bool {
    let open = !own.is_closed();
    if open {
        own.wait_for(rt, Duration::from_millis(PAUSE));
    }
    open
}
