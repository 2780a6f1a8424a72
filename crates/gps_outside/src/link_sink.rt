ghost use Rattle.std.specs.Prelude.{◌≡◌};
ghost use Rattle.std.specs.Io.{WritesAtMost};
ghost use Rattle.wire.specs.Calls.{Took};

use crate::quiet::is_quiet;
use crate::{ClientSink, WriteStep};
use std::alloc::Global;
use std::fs::File;
use std::io::{self, ErrorKind};
use std::marker::Model;
use std::rt::Files;
use std::time::{Clock, Duration};
use wire::Outward;

/// How many milliseconds one call of the system waits for room. A client that reads a little at a time leaves room that only the next call
/// sees, so this is a part of the second.
pub(crate) const STEP: u64 = 100;

/// A client that reads nothing for this number of milliseconds is a fault.
const PATIENCE: u64 = 1_000;

/// How many milliseconds the writing of what is left may take, once the sink knows that it ends soon.
const LEFT: u64 = 10_000;

/// How many milliseconds of a delivery pass before the system is asked whether the client's machine has everything. It is asked again after
/// twice as long, as its answer takes some milliseconds.
const UNASKED: u64 = 2_000;

/// How often a write is tried. More than fit into the time that it has.
const TRIES: u32 = 10_000;

/// How often what a client still sends is read. More than fit into the time for what is left.
const READS: u32 = 10_000_000;

/// How many bytes of that are read at once.
const REST: usize = 4_096;

/// The link of a client as a sink, a TCP stream with no buffer between: each try of a write is one call of the system.
///
/// It is seen as the bytes that the system took and the number of its faults. A write is a fault if the client reads nothing for a second; a
/// client that is slow but reads what it is sent keeps its link. Once the sink knows that it ends soon, all that is left has ten seconds, however the
/// client reads it. A write that a signal interrupts begins again.
///
/// It delivers within the same ten seconds: it says that nothing follows, reads and drops what the client still sends, and closes once the
/// client has closed its side. It closes after two seconds if the client's machine has acknowledged all bytes and the end, as nobody is owed
/// anything then. A socket that is closed while bytes of the client are unread is reset, and then the system drops what it had
/// still to send.
#[derive(Drop)]
pub struct LinkSink<R> {
    machine: R,
    alloc: Global,
    wire: Outward,
    /// Whether a write failed.
    broken: bool,
    // When the time for what is left is over, by the machine's clock.
    end: Option<Duration>,
    faults: u64,
}

impl<R> Model for LinkSink<R> {
    ghost use Rattle.gps_outside.specs.Sent.{Sent};

    ghost Value = { Sent };

    ghost view = { λ s. record { bytes = s.wire.bytes; faults = s.faults } };
}

fn timed_out() -> io::Error {
    io::Error::from(ErrorKind::TimedOut)
}

impl<R> LinkSink<R> {
    /// Writes to a stream whose writes time out after [`STEP`].
    pub(crate) fn new(machine: R, alloc: Global, wire: Outward) -> LinkSink<R>
        ensures { result ≡ record { bytes = wire.bytes; faults = 0 } }
    {
        LinkSink {
            machine,
            alloc,
            wire,
            broken: false,
            end: None,
            faults: 0,
        }
    }

    fn is_late(&self, now: Duration) -> bool {
        match self.end {
            Some(end) => now >= end,
            None => false,
        }
    }
}

impl<R: Clock> LinkSink<R> {
    /// Writes, and tries again until some bytes were written or the time is over.
    fn write_out(&mut self, piece: &[u8]) -> io::Result<usize>
        ensures fits { WritesAtMost result piece.now }
        ensures took { Took result piece.now self.old.bytes self.new.bytes }
        ensures faults { self.new.faults ≡ self.old.faults }
    {
        let mut since = self.machine.monotonic()?;
        let mut now = since;
        'tries: for _ in 0..TRIES {
            if self.is_late(now) {
                return Err(timed_out());
            }
            match self.wire.write(piece) {
                Err(error) if error.kind() == ErrorKind::Interrupted => {
                    now = self.machine.monotonic()?;
                    since = now;
                }
                Err(error) if is_quiet(&error) => {
                    if now.saturating_sub(since) >= Duration::from_millis(PATIENCE) {
                        return Err(timed_out());
                    }
                    now = self.machine.monotonic()?;
                }
                other => return other,
            }
        }
        Err(timed_out())
    }

    /// From the first time on, all that is left has ten seconds.
    fn set_end(&mut self)
        ensures { self.new ≡ self.old }
    {
        if self.end.is_some() {
            return;
        }
        if let Ok(now) = self.machine.monotonic() {
            self.end = Some(now.saturating_add(Duration::from_millis(LEFT)));
        }
    }
}

impl<R: Clock + Files<File = File>> LinkSink<R> {
    /// Reads and drops what the client still sends, until it has closed its side. A time-out: it has not, though it may have everything.
    fn drop_rest(&mut self) -> io::Result<()>
        ensures { self.new ≡ self.old }
    {
        let mut buf = [0u8; REST];
        let since = self.machine.monotonic()?;
        let mut unasked = Duration::from_millis(UNASKED);
        'reads: for _ in 0..READS {
            match self.wire.skip(&mut buf) {
                Ok(0) => return Ok(()),
                Ok(_) => {}
                Err(error) if is_quiet(&error) => {}
                Err(error) => return Err(error),
            }
            let now = self.machine.monotonic()?;
            if self.is_late(now) {
                break;
            }
            if now.saturating_sub(since) >= unasked {
                if self.wire.is_acknowledged(&self.machine, self.alloc) {
                    break;
                }
                unasked = unasked.saturating_add(unasked);
            }
        }
        Err(timed_out())
    }

    /// From here on nobody else reads the stream: its time-out says so to the link's source. The system reports a reset once, to the first
    /// read after it, and each later read is at the end.
    fn take_reading(&self) {
        self.wire.set_read_timeout(Duration::from_millis(STEP));
    }

    /// Says that nothing follows, and waits until the client has closed its side too.
    fn part(&mut self) -> io::Result<()>
        ensures { self.new ≡ self.old }
    {
        self.wire.end()?;
        self.drop_rest()
    }

    /// Whether the client has closed its side in time, after all that was written.
    fn has_parted(&mut self) -> bool
        ensures { self.new ≡ self.old }
    {
        self.wire.is_stream() && !self.broken && self.part().is_ok()
    }
}

impl<R: Clock + Files<File = File> + Drop> ClientSink for LinkSink<R> {
    ghost use Rattle.std.specs.Prelude.{Some};

    ghost faults = { λ s. s.faults };

    ghost written = { λ s. Some s.bytes };

    fn write(&mut self, piece: &[u8]) -> WriteStep {
        match self.write_out(piece) {
            Ok(n) if n > 0 => WriteStep::Wrote(n),
            _ => {
                self.broken = true;
                self.faults = self.faults.saturating_add(1);
                WriteStep::Failed
            }
        }
    }

    /// From the first time on, all that is left has ten seconds.
    fn end_soon(&mut self) {
        self.set_end();
    }

    /// Waits until the client has closed its side, within what is left of the ten seconds, or two once its machine has everything, and closes. If a
    /// write had failed, it closes at once.
    fn deliver(&mut self) -> bool {
        self.set_end();
        self.take_reading();
        let parted = self.has_parted();
        self.wire.close(Some(if parted { LEFT } else { PATIENCE }));
        if !parted {
            self.faults = self.faults.saturating_add(1);
        }
        parted
    }
}
