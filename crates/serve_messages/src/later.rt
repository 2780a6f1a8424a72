//! Messages that are said a little later, if what they say is still so.

use gps_fixed::NoMemory;
use std::alloc::Global;
use std::fmt::Display;
use std::sync::Arc;
use std::sync::atomic::{AtomicBool, Ordering};
use std::time::Duration;

/// How many seconds later.
const LATER: u64 = 1;

/// How many messages are put off at most.
const MOST: usize = 16;

/// A message that is due at a moment of the machine's clock.
#[derive(Drop)]
struct Later {
    due: Duration,
    /// Set once it need not be said.
    is_over: Arc<AtomicBool>,
    text: String,
}

/// The messages that are put off.
#[derive(Drop)]
pub struct PutOff {
    alloc: Global,
    list: Vec<Later>,
}

impl PutOff {
    pub fn new(alloc: Global) -> Result<PutOff, NoMemory> {
        let list = Vec::with_capacity(alloc, MOST)?;
        Ok(PutOff { alloc, list })
    }

    /// Puts a message off, if there is room for it. What it returns is set once the message need not be said.
    pub fn add<D: Display + Drop>(
        &mut self,
        message: D,
        now: Duration,
    ) -> Result<Arc<AtomicBool>, NoMemory> {
        if self.list.len() >= MOST {
            return Err(NoMemory);
        }
        let text = format!(in self.alloc; "{message}")?;
        let is_over = Arc::new(self.alloc, AtomicBool::new(false))?;
        let due = now.saturating_add(Duration::from_secs(LATER));
        self.list.push(Later {
            due,
            is_over: Arc::try_clone(&is_over)?,
            text,
        })?;
        Ok(is_over)
    }

    /// How long it is until the next is due.
    pub fn left(&self, now: Duration) -> Option<Duration> {
        let first = self.list.first()?;
        Some(first.due.saturating_sub(now))
    }

    /// The next that is due and still to be said. Each is due after those before it.
    pub fn take(&mut self, now: Duration) -> Option<String> {
        for _ in 0..MOST {
            let is_due = match self.list.first() {
                Some(first) => first.due <= now,
                None => false,
            };
            if !is_due {
                return None;
            }
            let Later {
                due: _,
                is_over,
                text,
            } = self.list.remove(0);
            if !is_over.load(Ordering::SeqCst) {
                return Some(text);
            }
        }
        None
    }
}
