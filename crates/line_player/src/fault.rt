ghost use Rattle.std.specs.Prelude.{◌≡◌};
ghost use Rattle.line_player.specs.Outcomes.{outcome_of};

use gps_outside::CommandOutcome;

/// Why a play goes no further.
#[derive(Clone, Copy, Debug, PartialEq, Eq)]
pub(crate) enum Fault {
    /// The line of this number was refused.
    BadLine { number: u64 },
    /// The sink failed.
    Sink,
    NoMemory,
}

impl Fault {
    /// How a play ends by it.
    pub(crate) fn outcome(self) -> CommandOutcome
        ensures { result ≡ outcome_of self }
    {
        match self {
            Fault::BadLine { number } => CommandOutcome::BadLine { number },
            Fault::Sink => CommandOutcome::WriteFault,
            Fault::NoMemory => CommandOutcome::NoMemory,
        }
    }
}
