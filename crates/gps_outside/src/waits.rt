use crate::Source;

/// A source whose reads can be told how long to wait for bytes, and that can be opened before it is read.
pub trait Waits: Source {
    ghost use Rattle.std.specs.Prelude.{◌≡◌};

    /// The next reads wait for bytes for this number of milliseconds; none: for as long as they do of themselves.
    fn set_wait(&mut self, wait: Option<u32>)
        ensures content { Self.Source.content self.new ≡ Self.Source.content self.old }
        ensures faults { Self.Source.faults self.new ≡ Self.Source.faults self.old }
        ensures quiets { Self.Source.quiets self.new ≡ Self.Source.quiets self.old };

    /// Opens what the next read would open, which may take long. If that fails, the next read is the fault.
    fn open(&mut self)
        ensures content { Self.Source.content self.new ≡ Self.Source.content self.old }
        ensures faults { Self.Source.faults self.new ≡ Self.Source.faults self.old }
        ensures quiets { Self.Source.quiets self.new ≡ Self.Source.quiets self.old }
    {}

    /// Whether it is open: then a quiet read means that no byte came while it waited.
    fn is_there(&self) -> bool;
}
