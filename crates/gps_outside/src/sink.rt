/// The result of one write to a sink.
#[derive(Clone, Copy, Debug, PartialEq, Eq)]
pub enum WriteStep {
    /// This number of the piece's first bytes, at least one, was written.
    Wrote(usize),
    /// Nothing was written; the faults rose.
    Failed,
}

/// Where bytes go: a file, a pipe, a stream.
pub trait Sink: Drop {
    ghost use Rattle.std.specs.Prelude.{◌≡◌, ℕ, ◌<◌, ◌≤◌, List, length, Option};
    ghost use Rattle.gps_outside.specs.declared.sink.WriteStep.{WriteStep};
    ghost use Rattle.gps_outside.specs.Counts.{Rose};
    ghost use Rattle.gps_outside.specs.Told.{Goes, Stays};
    ghost use Rattle.gps_outside.specs.Writes.{FailsOnly, FitsPiece, Writes};

    /// Whether it can be written: a sink is open until `finish`.
    ghost takes: { Self → Type 0 } = { λ _. Unit {0} };

    /// How often a write failed.
    ghost faults: { Self → ℕ };

    /// The bytes written so far, if they are modelled.
    ghost written: { Self → Option (List ℕ) };

    /// Writes a prefix of the piece, as much as goes at once.
    fn write(&mut self, piece: &[u8]) -> WriteStep
        // The piece is not empty. The sink is open, and stays open.
        requires some { 0 < length piece.now }
        requires takes { takes self.old }
        ensures takes { takes self.new }

        // What is written.
        ensures fits { FitsPiece result (length piece.now) }
        ensures bytes { Writes result piece.now (written self.old) (written self.new) }

        // A fault is counted exactly if it failed.
        ensures faults_stay { faults self.old ≤ faults self.new }
        ensures failed { result ≡ WriteStep.Failed → Rose (faults self.old) (faults self.new) }
        ensures fails_only { FailsOnly result (faults self.old) (faults self.new) };

    /// Says that nothing follows, so that the file or connection under it may be closed.
    fn finish(&mut self)
        ensures bytes { Goes Stays (written self.old) (written self.new) }
        ensures faults { faults self.new ≡ faults self.old }
    {}
}

ghost use Rattle.std.specs.Prelude.{◌≡◌, ◌≤◌, [], false, true};
ghost use Rattle.gps_outside.specs.Counts.{Rose};
ghost use Rattle.gps_outside.specs.Writes.{WritesAll};

/// Writes the whole piece, by as many writes as it needs.
///
/// False: the sink failed, and a prefix of the piece was written. An empty piece is written without a call.
pub fn write_all<K: Sink>(sink: &mut K, piece: &[u8]) -> bool
    // The sink is open, and stays open.
    requires takes { K.takes sink.old }
    ensures takes { K.takes sink.new }

    // What is written.
    ensures bytes { WritesAll result piece.now (K.written sink.old) (K.written sink.new) }

    // A fault is counted exactly if the sink failed. An empty piece does not reach it.
    ensures faults_stay { K.faults sink.old ≤ K.faults sink.new }
    ensures failed { result ≡ false → Rose (K.faults sink.old) (K.faults sink.new) }
    ensures fails_only { result ≡ true → K.faults sink.new ≡ K.faults sink.old }
    ensures empty { piece.now ≡ [] → (result ≡ true) × (sink.new ≡ sink.old) }
{
    let mut rest = piece;
    'writes: while !rest.is_empty() {
        match sink.write(rest) {
            WriteStep::Wrote(n) => rest = &rest[n..],
            WriteStep::Failed => return false,
        }
    }
    true
}
