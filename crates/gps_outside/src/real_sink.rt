ghost use Rattle.std.specs.Prelude.{◌≡◌};
ghost use Rattle.std.specs.Io.{WritesAtMost};
ghost use Rattle.wire.specs.Calls.{Took};

use crate::{Sink, WriteStep};
use std::io::{self, ErrorKind};
use std::marker::Model;
use wire::Outward;

/// How often a write is tried that signals interrupt.
const TRIES: u32 = 10_000;

/// Standard output or a TCP stream as a sink, with no buffer between: each write is one call of the system.
///
/// It is seen as the bytes that the system took and the number of its faults. A write that fails is a fault, as one that timed out or took
/// no byte; one that a signal interrupts is tried again.
#[derive(Drop)]
pub struct RealSink {
    wire: Outward,
    faults: u64,
}

impl Model for RealSink {
    ghost use Rattle.gps_outside.specs.Sent.{Sent};

    ghost Value = { Sent };

    ghost view = { λ s. record { bytes = s.wire.bytes; faults = s.faults } };
}

impl RealSink {
    /// Writes standard output, or a TCP stream with the time-out that it has.
    pub fn new(wire: Outward) -> RealSink
        ensures { result ≡ record { bytes = wire.bytes; faults = 0 } }
    {
        RealSink { wire, faults: 0 }
    }

    /// Writes, and once more if a signal came before a byte was written.
    fn write_out(&mut self, piece: &[u8]) -> io::Result<usize>
        ensures fits { WritesAtMost result piece.now }
        ensures took { Took result piece.now self.old.bytes self.new.bytes }
        ensures faults { self.new.faults ≡ self.old.faults }
    {
        'tries: for _ in 0..TRIES {
            match self.wire.write(piece) {
                Err(error) if error.kind() == ErrorKind::Interrupted => {}
                other => return other,
            }
        }
        Err(io::Error::from(ErrorKind::Interrupted))
    }
}

impl Sink for RealSink {
    ghost use Rattle.std.specs.Prelude.{Some};

    ghost faults = { λ s. s.faults };

    ghost written = { λ s. Some s.bytes };

    fn write(&mut self, piece: &[u8]) -> WriteStep {
        match self.write_out(piece) {
            Ok(n) if n > 0 => WriteStep::Wrote(n),
            _ => {
                self.faults = self.faults.saturating_add(1);
                WriteStep::Failed
            }
        }
    }

    /// A stream is shut down on both sides, so that a read of it that waits ends at once, and dropped.
    fn finish(&mut self) {
        self.wire.close(None);
    }
}
