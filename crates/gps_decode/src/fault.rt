ghost use Rattle.std.specs.Prelude.{◌≡◌};
ghost use Rattle.gps_decode.specs.Outcomes.{outcome_of};

use gps_outside::CommandOutcome;

/// Why lines were not written.
#[derive(Clone, Copy, Debug, PartialEq, Eq)]
pub(crate) enum Fault {
    /// The sink failed.
    Sink,
    NoMemory,
}

impl Fault {
    /// How a command ends by it.
    pub(crate) fn outcome(self) -> CommandOutcome
        ensures { result ≡ outcome_of self }
    {
        match self {
            Fault::Sink => CommandOutcome::WriteFault,
            Fault::NoMemory => CommandOutcome::NoMemory,
        }
    }
}
