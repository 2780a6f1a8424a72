//! How fast links are taken, and how often is said what happens to clients again and again.

use std::fmt;
use std::time::{self, Duration};

/// How many milliseconds lie between two links, once more came than fit into a burst.
const STEP: u64 = 100;

/// How many links are taken at once.
const BURST: u64 = 128;

/// How many seconds lie between two messages of clients that were turned away.
const PAUSE: u64 = 60;

/// How fast links are taken. Each link moves `until`, the moment up to which all of them are accounted for, by one step.
#[derive(Clone, Copy)]
pub struct Pace {
    until: Duration,
}

impl Pace {
    pub fn new() -> Pace {
        Pace {
            until: Duration::ZERO,
        }
    }

    /// Whether the next link has to wait a step.
    pub fn is_used_up(&self, now: Duration) -> bool {
        self.until.saturating_sub(now) >= Duration::from_millis(STEP * BURST)
    }

    /// Waits a step.
    pub fn rest<C: time::Clock>(&self, clock: &C) {
        clock.sleep(Duration::from_millis(STEP));
    }

    /// Counts a link that was taken.
    pub fn take(&mut self, now: Duration) {
        let from = self.until.max(now);
        self.until = from.saturating_add(Duration::from_millis(STEP));
    }
}

/// Whether a message that was last said then may be said again.
pub fn is_due(said: Option<Duration>, now: Duration) -> bool {
    match said {
        Some(said) => now.saturating_sub(said) >= Duration::from_secs(PAUSE),
        None => true,
    }
}

/// What happens to clients again and again, and how much of it was said.
#[derive(Clone, Copy)]
pub struct ToldCount {
    /// How often it happened.
    times: u64,
    /// How often when it was last said.
    said_times: u64,
    said: Option<Duration>,
}

impl ToldCount {
    pub fn nothing() -> ToldCount {
        ToldCount {
            times: 0,
            said_times: 0,
            said: None,
        }
    }

    /// It happened so often until now. Whether that is more than before.
    pub fn sees(&mut self, times: u64) -> bool {
        let is_more = times > self.times;
        self.times = times;
        is_more
    }

    /// How often it happened since it was said, if that is to be said now: at once, and then at most once a minute.
    pub fn due(&mut self, now: Duration) -> Option<Clients> {
        let number = self.times.saturating_sub(self.said_times);
        if number == 0 || !is_due(self.said, now) {
            return None;
        }
        self.said_times = self.times;
        self.said = Some(now);
        Some(Clients(number))
    }
}

/// This number of clients, with the verb of what was done to them.
#[derive(Clone, Copy)]
pub struct Clients(u64);

impl fmt::Display for Clients {
    fn fmt<W: fmt::Write>(&self, f: &mut fmt::Formatter<W>) -> fmt::Result {
        match self.0 {
            1 => f.write_str("a client was"),
            number => write!(f, "{} clients were", number),
        }
    }
}
