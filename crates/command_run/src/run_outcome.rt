ghost use Rattle.std.specs.Prelude.{◌≡◌};
ghost use Rattle.command_run.specs.Commands.{run_status};

use gps_outside::CommandOutcome;

/// The status of an invalid command line.
pub const REFUSED: u8 = 2;

/// How the words of a command line were done.
#[derive(Clone, Copy, Debug, PartialEq, Eq)]
pub enum RunOutcome {
    /// They are invalid, and nothing was read or written.
    Refused,
    /// Their command ended so. Without memory for the words it is as if their command had met that.
    Ended(CommandOutcome),
}

impl RunOutcome {
    /// The exit status.
    pub fn status(self) -> u8
        ensures { result ≡ run_status self }
    {
        match self {
            RunOutcome::Refused => REFUSED,
            RunOutcome::Ended(outcome) => outcome.status(),
        }
    }
}
