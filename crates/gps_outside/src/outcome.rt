ghost use Rattle.std.specs.Prelude.{◌≡◌};
ghost use Rattle.gps_outside.specs.Outcomes.{status_of};

/// How a command ended that reads a source and writes a sink.
#[derive(Clone, Copy, Debug, PartialEq, Eq)]
pub enum CommandOutcome {
    /// The source was read to its end, and all was written.
    Done,
    /// A read failed.
    ReadFault,
    /// A read was quiet for the thousandth time.
    TooQuiet,
    /// A write failed.
    WriteFault,
    /// As many bytes as the limit allows were read, and one more came.
    Full,
    /// The line of this number, from 1 on, was refused. Only a command that reads lines ends so.
    BadLine { number: u64 },
    NoMemory,
}

impl CommandOutcome {
    /// The exit status.
    pub fn status(self) -> u8
        ensures { result ≡ status_of self }
    {
        match self {
            CommandOutcome::Done => 0,
            CommandOutcome::ReadFault => 3,
            CommandOutcome::TooQuiet => 3,
            CommandOutcome::WriteFault => 4,
            CommandOutcome::Full => 5,
            CommandOutcome::BadLine { .. } => 6,
            CommandOutcome::NoMemory => 7,
        }
    }
}
