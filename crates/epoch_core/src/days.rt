ghost use Rattle.std.specs.Prelude.{◌≡◌};
ghost use Rattle.epoch_core.specs.Days.{carried, given_day};
ghost use Rattle.epoch_core.specs.Steps.{days_after};

use gps_report::Note;

/// The last day that is known, 2100-01-01, in days since 1970-01-01.
const LAST_DAY: u32 = 47_482;

/// Half a day in nanoseconds.
const HALF_A_DAY: u64 = 43_200_000_000_000;

/// What is kept of a receiver's calendar: the day that is known, and the last time of day.
#[derive(Clone, Copy, Debug)]
pub struct Days {
    pub day: Option<u32>,
    pub last_tod: Option<u64>,
}

/// The day at a note that gives none: one more if the time of day fell by more than half a day.
#[tactic(auto, unfolding(crate::specs::Days::carried, crate::specs::Days::day_after))]
fn carry(tod: Option<u64>, last: Option<u64>, day: Option<u32>) -> Option<u32>
    ensures { result ≡ carried tod last day }
{
    let passes = match (last, tod) {
        (Some(last), Some(tod)) => last.saturating_sub(tod) > HALF_A_DAY,
        _ => false,
    };
    if !passes {
        return day;
    }
    match day {
        Some(day) if day < LAST_DAY => Some(day + 1),
        _ => None,
    }
}

fn given(note: &Note) -> Option<u32>
    ensures { result ≡ given_day note.now }
{
    match note.day {
        Some(day) => Some(day.unsigned_abs()),
        None => None,
    }
}

impl Days {
    #[tactic(auto, unfolding(crate::specs::Steps::days_after))]
    pub fn after(self, note: &Note) -> Days
        ensures { result ≡ days_after self note.now }
    {
        let carried = carry(note.tod, self.last_tod, self.day);
        Days {
            day: given(note).or(carried),
            last_tod: note.tod.or(self.last_tod),
        }
    }
}
