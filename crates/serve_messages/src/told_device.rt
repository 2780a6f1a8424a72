//! What is said of a device on standard error, and what has to be known of it for that.

use crate::messages::Tell;
use crate::place_text::{PlaceText, copy_of, text_of};
use crate::readability::Readability;
use crate::system::{DaemonReason, Reason};
use crate::tally::Meter;
use crate::terminal_check::TerminalCheck;
use cycle_gap::Split;
use gps_world::{DaemonFault, Loss, Place};
use std::alloc::Global;
use std::fmt;
use std::io::{self, ErrorKind};
use std::sync::Arc;
use std::sync::atomic::{AtomicBool, Ordering};
use std::time::Duration;

/// How many seconds a device is silent before that is said.
const SILENCE: u64 = 60;

/// Two successive reads that give nothing end at most this many seconds apart, unless this process was stopped in between.
const STEADY: u64 = 10;

/// How many seconds lie between two messages of a place that stays away.
const HOUR: u64 = 3_600;

/// The end of a message that says that a place is opened again.
#[derive(Clone, Copy)]
struct Again(Option<u32>);

impl fmt::Display for Again {
    fn fmt<W: fmt::Write>(&self, f: &mut fmt::Formatter<W>) -> fmt::Result {
        match self.0 {
            Some(seconds) => write!(f, "; it is opened again every {} s", seconds),
            None => Ok(()),
        }
    }
}

/// A time of the day, given in nanoseconds, as `12:00:01` or `12:00:01.20`.
#[derive(Clone, Copy)]
struct TimeText(u64);

impl fmt::Display for TimeText {
    fn fmt<W: fmt::Write>(&self, f: &mut fmt::Formatter<W>) -> fmt::Result {
        let hundredths = self.0 / 10_000_000;
        let seconds = hundredths / 100;
        write!(
            f,
            "{:02}:{:02}:{:02}",
            seconds / 3_600,
            seconds / 60 % 60,
            seconds % 60
        )?;
        match hundredths % 100 {
            0 => Ok(()),
            part => write!(f, ".{:02}", part),
        }
    }
}

/// That a place waits for a writer.
#[derive(Drop)]
struct Waiting(Place);

impl fmt::Display for Waiting {
    fn fmt<W: fmt::Write>(&self, f: &mut fmt::Formatter<W>) -> fmt::Result {
        write!(f, "waiting for a writer of {}", PlaceText(&self.0))
    }
}

/// A place that was lost, and gave no byte since.
#[derive(Clone, Copy)]
struct Outage {
    /// Why it cannot be opened, if that was said.
    closed: Option<ErrorKind>,
    /// When something was said of it.
    said: Duration,
}

/// A device that messages tell of.
#[derive(Drop)]
pub struct ToldDevice {
    place: Place,
    /// Whether a byte came.
    has_come: bool,
    /// Since when nothing came: the beginning of the first read after the last byte.
    since: Option<Duration>,
    /// When the last read that gave nothing ended, if no byte came since.
    looked: Option<Duration>,
    /// Whether the silence was said.
    is_silent: bool,
    /// What its first bytes tell, if it is a terminal.
    terminal: Option<TerminalCheck>,
    /// Whether it was said what its first read waits for.
    is_awaited: bool,
    /// Set once a writer has come, so that it is not said that it waits for one.
    has_writer: Option<Arc<AtomicBool>>,
    /// Whether it was said that a moment came in two parts.
    is_split: bool,
    /// Whether what it sends can be read; none for pulse edges.
    readability: Option<Readability>,
    /// Counts what it sends, if the numbers of the daemon are reported.
    meter: Option<Meter>,
    /// After how many seconds its place is opened again.
    reopen: Option<u32>,
    outage: Option<Outage>,
}

impl ToldDevice {
    pub fn new(place: Place, is_terminal: bool, reopen: Option<u32>) -> ToldDevice {
        ToldDevice {
            place,
            has_come: false,
            since: None,
            looked: None,
            is_silent: false,
            terminal: is_terminal.then(TerminalCheck::new),
            is_awaited: false,
            has_writer: None,
            is_split: false,
            readability: None,
            meter: None,
            reopen,
            outage: None,
        }
    }

    /// From now on its bytes are looked at, and counted if the numbers of the daemon are reported.
    pub fn look_at(&mut self, alloc: Global, meter: Option<Meter>) {
        self.readability = Some(Readability::new(alloc, self.terminal.is_some()));
        self.meter = meter;
    }

    /// Notes that a read begins that waits for bytes alone.
    pub fn begin(&mut self, now: Duration) {
        if self.since.is_none() {
            self.since = Some(now);
        }
    }

    /// Says of a terminal that is not raw how to set it.
    fn tell_cooked<V: Tell>(&self, voice: &V) {
        if let Place::File(path) = &self.place {
            let path = text_of(path);
            voice.tell_fault(format_args!(
                "file:{path} is a terminal that changes what comes: set it raw: stty -F {path} raw -echo"
            ));
        }
    }

    /// Notes that bytes came, and says so after a silence or an outage.
    pub fn heard<V: Tell>(&mut self, voice: &V, piece: &[u8], now: Duration) {
        self.begun();
        self.has_come = true;
        self.since = None;
        self.looked = None;
        let place = PlaceText(&self.place);
        if self.outage.take().is_some() {
            if let Some(readability) = &mut self.readability {
                readability.begin_anew();
            }
            self.terminal = self.terminal.is_some().then(TerminalCheck::new);
            voice.tell(format_args!("{place} is back"));
        } else if self.is_silent {
            voice.tell(format_args!("{place} speaks again"));
        }
        self.is_silent = false;
        let is_cooked = match &mut self.terminal {
            Some(terminal) => terminal.finds_cooked(piece),
            None => false,
        };
        if is_cooked {
            self.tell_cooked(voice);
        }
        if let Some(readability) = &mut self.readability {
            readability.heard(voice, &self.place, piece, now);
        }
        if let Some(meter) = &mut self.meter {
            meter.add(piece, now);
        }
    }

    /// Notes that nothing came because its place is away or is not open yet. That is no silence.
    pub fn not_there(&mut self) {
        self.since = None;
        self.looked = None;
    }

    /// Notes that nothing came this time, and says so after a minute.
    pub fn quiet<V: Tell>(&mut self, voice: &V, now: Duration) {
        let since = self.since.unwrap_or(now);
        self.since = Some(since);
        let is_long = now.saturating_sub(since) >= Duration::from_secs(SILENCE);
        // This process may have been stopped meanwhile: only the next read tells whether bytes came.
        let is_steady = match self.looked {
            Some(looked) => now.saturating_sub(looked) <= Duration::from_secs(STEADY),
            None => false,
        };
        self.looked = Some(now);
        if is_long && is_steady && !self.is_silent {
            self.is_silent = true;
            self.tell_silent(voice);
        }
    }

    /// Says that nothing came for a minute, and of a terminal that never gave a byte what finds its speed.
    fn tell_silent<V: Tell>(&self, voice: &V) {
        let place = PlaceText(&self.place);
        match &self.place {
            Place::File(path) if self.terminal.is_some() && !self.has_come => {
                let path = text_of(path);
                voice.tell(format_args!(
                    "{place} has been silent for {SILENCE} s; gpsrelay-port {path} sets it raw, and finds its speed"
                ));
            }
            _ => voice.tell(format_args!("{place} has been silent for {SILENCE} s")),
        }
    }

    /// Why a loss says that the place cannot be opened, if it does. Of a host one reason is like another: they may change with each try.
    fn closed_by(&self, loss: Loss) -> Option<ErrorKind> {
        match (loss, &self.place) {
            (Loss::Unopened(Some(error)), Place::File(_)) => Some(error.kind()),
            (Loss::Unopened(_), _) => Some(ErrorKind::NotFound),
            _ => None,
        }
    }

    /// Whether a loss is to be said: the first of an outage is, each new reason why it cannot be opened, and one each hour.
    fn is_news(&mut self, loss: Loss, now: Duration) -> bool {
        let closed = self.closed_by(loss);
        let before = match self.outage {
            Some(before) => before,
            None => {
                self.outage = Some(Outage { closed, said: now });
                return true;
            }
        };
        let is_new = closed.is_some() && closed != before.closed;
        let is_old = now.saturating_sub(before.said) >= Duration::from_secs(HOUR);
        if is_new || is_old {
            self.outage = Some(Outage {
                closed: closed.or(before.closed),
                said: now,
            });
        }
        is_new || is_old
    }

    /// Says that its place was lost and is opened again, if that is news.
    pub fn lost_place<V: Tell>(&mut self, voice: &V, loss: Loss, now: Duration) {
        self.is_silent = false;
        if !self.is_news(loss, now) {
            return;
        }
        let place = PlaceText(&self.place);
        let again = Again(self.reopen);
        match loss {
            Loss::Ended => voice.tell(format_args!("{place} has ended{again}")),
            Loss::Failed(error) => {
                let reason = Reason(error);
                voice.tell_fault(format_args!("{place} failed{reason}{again}"));
            }
            Loss::Daemon(fault) => {
                let reason = DaemonReason(fault);
                voice.tell_fault(format_args!("{place} failed: {reason}{again}"));
            }
            Loss::Unopened(error) => {
                let reason = Reason(error);
                voice.tell_fault(format_args!("{place} cannot be opened{reason}{again}"));
            }
        }
    }

    /// Says, once, that its next read connects to a host.
    pub fn tell_connecting<V: Tell>(&mut self, voice: &V) {
        if self.is_awaited {
            return;
        }
        self.is_awaited = true;
        let place = PlaceText(&self.place);
        voice.tell(format_args!("connecting to {place}"));
    }

    /// Its next read waits for a writer. Says so, once, a second later, unless one has come by then.
    pub fn tell_waiting<V: Tell>(&mut self, voice: &V) {
        if self.is_awaited {
            return;
        }
        self.is_awaited = true;
        if let Some(place) = copy_of(&self.place) {
            self.has_writer = voice.tell_later(Waiting(place));
        }
    }

    /// Notes that it waits for no writer any more.
    pub fn begun(&mut self) {
        if let Some(has_writer) = self.has_writer.take() {
            has_writer.store(true, Ordering::SeqCst);
        }
    }

    /// Says, once, that a moment came in two parts: `--cycle-gap` is too short.
    pub fn tell_split<V: Tell>(&mut self, voice: &V, split: Split) {
        if self.is_split {
            return;
        }
        self.is_split = true;
        let place = PlaceText(&self.place);
        let gap = split.gap;
        let moment = TimeText(split.tod);
        voice.tell_fault(format_args!(
            "{place}: --cycle-gap {gap} is too short: {moment} came in two parts"
        ));
    }

    /// Says that it has ended.
    pub fn tell_ended<V: Tell>(&self, voice: &V) {
        let place = PlaceText(&self.place);
        voice.tell(format_args!("{place} has ended"));
    }

    /// Says that it failed, and why, if it is another daemon.
    pub fn tell_daemon_failed<V: Tell>(&self, voice: &V, fault: DaemonFault) {
        let place = PlaceText(&self.place);
        let reason = DaemonReason(fault);
        voice.tell_fault(format_args!("{place} failed: {reason}"));
    }

    /// Says that it failed, with the system's reason.
    pub fn tell_failed<V: Tell>(&self, voice: &V, fault: Option<io::Error>) {
        let place = PlaceText(&self.place);
        let reason = Reason(fault);
        if self.has_come {
            voice.tell_fault(format_args!(
                "{place} failed{reason}; was it unplugged, or did its peer reset?"
            ));
        } else {
            voice.tell_fault(format_args!("{place} failed before a byte came{reason}"));
        }
    }

    /// Says that it was lost: its reader ends, though it has neither ended nor failed.
    pub fn tell_lost<V: Tell>(&self, voice: &V) {
        let place = PlaceText(&self.place);
        voice.tell_fault(format_args!("{place} was lost: out of memory, or no thread"));
    }
}
