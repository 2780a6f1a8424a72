/// The result of one read of a source.
#[derive(Clone, Copy, Debug, PartialEq, Eq)]
pub enum ReadStep {
    /// This number of bytes, at least one, is at the head of the buffer.
    Got(usize),
    /// Nothing is left.
    End,
    /// The read was quiet: nothing came in time. The quiets rose.
    Quiet,
    /// The source failed; the faults rose.
    Failed,
}

/// Where bytes come from: a file, a pipe, a stream.
pub trait Source: Drop {
    ghost use Rattle.std.specs.Prelude.{◌≡◌, ℕ, ◌<◌, ◌≤◌, length, Option, IfSome, true};
    ghost use Rattle.gps_outside.specs.declared.source.ReadStep.{ReadStep};
    ghost use Rattle.gps_outside.specs.Counts.{Rose};
    ghost use Rattle.gps_outside.specs.Told.{Stream, Goes, HasMore, MayLose, Stays};
    ghost use Rattle.gps_outside.specs.Reads.{CountsQuiet, FailsOnly, FitsBuffer, Reads};

    /// How often a read failed.
    ghost faults: { Self → ℕ };

    /// How often a read was quiet.
    ghost quiets: { Self → ℕ };

    /// The bytes read so far and those left, if the source has modelled contents.
    ghost content: { Self → Option Stream };

    /// Whether a read that fails now loses nothing of what is left.
    ghost keeps_at_fault: { Self → Type 0 } = { λ _. ⊥ };

    /// Takes the next bytes, as many as come at once and fit into the buffer.
    fn read(&mut self, buf: &mut [u8]) -> ReadStep
        // What is read.
        requires { 0 < length buf.old }
        ensures fits { FitsBuffer result (length buf.old) }
        ensures bytes { Reads result buf.new (content self.old) (content self.new) }

        // What it counts: a fault for a failure, a quiet read if nothing came in time.
        ensures faults_stay { faults self.old ≤ faults self.new }
        ensures quiets_stay { quiets self.old ≤ quiets self.new }
        ensures failed { result ≡ ReadStep.Failed → Rose (faults self.old) (faults self.new) }
        ensures quiet { result ≡ ReadStep.Quiet → Rose (quiets self.old) (quiets self.new) }
        ensures fails_only { FailsOnly result (faults self.old) (faults self.new) }
        ensures counts_quiet { CountsQuiet result (quiets self.old) (quiets self.new) }

        // A failure leaves the bytes of a source that keeps them.
        ensures kept { keeps_at_fault self.old → result ≡ ReadStep.Failed → Goes Stays (content self.old) (content self.new) };

    /// Whether bytes are ready, so that the next read gives some without waiting. False says nothing.
    fn is_ready(&self) -> bool
        ensures kept { result ≡ true → keeps_at_fault self.now }
        ensures more { result ≡ true → IfSome (content self.now) HasMore }
    {
        false
    }

    /// Says that nothing more will be read, so that the file or connection under it may be closed. What is left may be lost.
    #[tactic(auto, using(crate::proofs::Going::loses_nothing))]
    fn finish(&mut self)
        ensures content { Goes MayLose (content self.old) (content self.new) }
        ensures faults { faults self.new ≡ faults self.old }
        ensures quiets { quiets self.new ≡ quiets self.old }
    {}
}
