//! The numbers of the daemon on standard error, each so many seconds.

use crate::messages::{Messages, Speaker, Tell, Voice};
use crate::tally::Tally;
use gps_fixed::NoMemory;
use std::sync::{Arc, Wait};
use std::thread::{self, Threads};
use std::time::{self, Duration};

/// Says the numbers as they are now.
pub fn tell_report<C: time::Clock, V: Tell>(clock: &C, voice: &V, tally: &Tally) {
    if let Ok(now) = clock.monotonic() {
        voice.tell(tally.report(now));
    }
}

/// Says the numbers again and again, for as long as the program runs.
fn report<R: Wait + time::Clock + Copy>(
    rt: R,
    messages: &Messages,
    tally: &Tally,
    pause: Duration,
) {
    let voice = Voice::new(rt, messages);
    for _ in rt.forever() {
        rt.sleep(pause);
        tell_report(&rt, &voice, tally);
    }
}

/// Starts the thread that says the numbers each so many seconds. It is never waited for.
pub fn start_report<R: Threads + Wait + time::Clock + Copy + Send + 'static>(
    rt: R,
    speaker: &Speaker,
    tally: &Arc<Tally>,
    seconds: u32,
) -> Result<(), NoMemory> {
    let messages = speaker.messages()?;
    let tally = Arc::try_clone(tally)?;
    let pause = Duration::from_secs(u64::from(seconds));
    match thread::spawn(&rt, move || report(rt, &messages, &tally, pause)) {
        Ok(_) => Ok(()),
        Err(_) => Err(NoMemory),
    }
}
