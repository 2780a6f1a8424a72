use crate::WriteStep;

/// Where the bytes for a client go: its link.
///
/// It has no call that closes it at once: a link ends by [`deliver`](ClientSink::deliver), which first delivers what was written.
pub trait ClientSink: Drop {
    ghost use Rattle.std.specs.Prelude.{◌≡◌, ℕ, ◌<◌, ◌≤◌, List, length, Option, None, true, false};
    ghost use Rattle.gps_outside.specs.declared.sink.WriteStep.{WriteStep};
    ghost use Rattle.gps_outside.specs.Counts.{Rose};
    ghost use Rattle.gps_outside.specs.Writes.{FailsOnly, FitsPiece, Writes};

    /// How often a write or the delivery failed.
    ghost faults: { Self → ℕ };

    /// The bytes written so far, if they are modelled.
    ghost written: { Self → Option (List ℕ) };

    /// All that its client sends, if that is told. No call changes it.
    ghost asks: { Self → Option (List ℕ) } = { λ _. None };

    /// What may be written to it next: anything, unless its type says less.
    ghost allows: { Self → List ℕ → Type 0 } = { λ _ _. Unit {0} };

    /// Writes a prefix of the piece, as much as goes at once.
    fn write(&mut self, piece: &[u8]) -> WriteStep
        requires some { 0 < length piece.now }
        requires allowed { allows self.old piece.now }

        // What was written. What its client sends stays as it was.
        ensures client { asks self.new ≡ asks self.old }
        ensures fits { FitsPiece result (length piece.now) }
        ensures bytes { Writes result piece.now (written self.old) (written self.new) }
        ensures unmodelled { written self.old ≡ None → written self.new ≡ None }

        // It failed exactly if the faults rose.
        ensures faults_stay { faults self.old ≤ faults self.new }
        ensures failed { result ≡ WriteStep.Failed → Rose (faults self.old) (faults self.new) }
        ensures fails_only { FailsOnly result (faults self.old) (faults self.new) };

    /// Says that what is still to be written is bounded, as when a session was closed, so that the sink may give it a bounded time.
    fn end_soon(&mut self)
        ensures client { asks self.new ≡ asks self.old }
        ensures bytes { written self.new ≡ written self.old }
        ensures faults { faults self.new ≡ faults self.old }
    {}

    /// Delivers what was written to the other side, once nothing is expected to follow, and ends a read of the same link that waits.
    ///
    /// False: it could not be delivered in time. A write after it may be a fault.
    fn deliver(&mut self) -> bool
        ensures client { asks self.new ≡ asks self.old }
        ensures bytes { written self.new ≡ written self.old }
        ensures faults_stay { faults self.old ≤ faults self.new }
        ensures failed { result ≡ false → Rose (faults self.old) (faults self.new) }
        ensures fails_only { result ≡ true → faults self.new ≡ faults self.old }
    {
        true
    }
}

ghost use Rattle.std.specs.Prelude.{◌≡◌, ◌≤◌, None, false, true};
ghost use Rattle.gps_outside.specs.Counts.{Rose};
ghost use Rattle.gps_outside.specs.Writes.{AllowsInParts, WritesAll};

/// Writes the whole piece to a client, by as many writes as it needs.
///
/// False: the sink failed, and a prefix of the piece was written. An empty piece is written without a call.
pub fn send_all<K: ClientSink>(sink: &mut K, piece: &[u8]) -> bool
    requires allowed { AllowsInParts K.asks K.written K.allows sink.old piece.now }

    // What was written. What its client sends stays as it was.
    ensures client { K.asks sink.new ≡ K.asks sink.old }
    ensures bytes { WritesAll result piece.now (K.written sink.old) (K.written sink.new) }
    ensures unmodelled { K.written sink.old ≡ None → K.written sink.new ≡ None }

    // It failed exactly if the faults rose.
    ensures faults_stay { K.faults sink.old ≤ K.faults sink.new }
    ensures failed { result ≡ false → Rose (K.faults sink.old) (K.faults sink.new) }
    ensures fails_only { result ≡ true → K.faults sink.new ≡ K.faults sink.old }
{
    let mut rest = piece;
    'writes: while !rest.is_empty() {
        match sink.write(rest) {
            WriteStep::Wrote(n) => rest = &rest[n..],
            WriteStep::Failed => return false,
        }
    }
    true
}
