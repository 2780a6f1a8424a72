ghost use Rattle.replay_player.specs.Playing.{AdmitsTo, ComesTo, RefusesTo};

use gps_fixed::NoMemory;
use report_book::BookFault;
use session_core::PlainOutlet;

/// What became of an event.
#[derive(Clone, Copy, Debug, PartialEq, Eq)]
pub enum EventStep {
    /// It has happened.
    Made,
    /// The event may not come now, and nothing has changed.
    Refused,
}

/// The same of a fault of a book.
fn event_step_of_fault(fault: BookFault) -> Result<EventStep, NoMemory>
    ensures { RefusesTo fault result }
{
    match fault {
        BookFault::NoMemory => Err(NoMemory),
        _ => Ok(EventStep::Refused),
    }
}

/// The same of a call of a book.
pub(crate) fn event_step_of(outcome: Result<(), BookFault>) -> Result<EventStep, NoMemory>
    ensures { ComesTo outcome result }
{
    match outcome {
        Ok(()) => Ok(EventStep::Made),
        Err(fault) => event_step_of_fault(fault),
    }
}

/// The same of an admission to a book.
pub(crate) fn event_step_of_admission(
    outcome: Result<u32, (PlainOutlet, BookFault)>,
) -> Result<EventStep, NoMemory>
    ensures { AdmitsTo outcome result }
{
    match outcome {
        Ok(_) => Ok(EventStep::Made),
        Err((_, fault)) => event_step_of_fault(fault),
    }
}
