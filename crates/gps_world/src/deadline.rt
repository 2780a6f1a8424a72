use std::io;
use std::time::{Clock, Duration};

/// A moment of the machine's clock by which something must have come.
#[derive(Clone, Copy)]
pub(crate) struct Deadline {
    moment: Duration,
}

impl Deadline {
    /// This long from now on.
    pub(crate) fn after<C: Clock>(machine: &C, wait: Duration) -> io::Result<Deadline> {
        let now = machine.monotonic()?;
        Ok(Deadline {
            moment: now.saturating_add(wait),
        })
    }

    /// Whether it has passed. So it has if the clock cannot be read.
    pub(crate) fn has_passed<C: Clock>(self, machine: &C) -> bool {
        match machine.monotonic() {
            Ok(now) => now >= self.moment,
            Err(_) => true,
        }
    }
}
