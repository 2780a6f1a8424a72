ghost use Rattle.std.specs.Prelude.{◌≡◌, ◌+◌, ◌*◌, ◌≤◌, ◌<◌, ◌++◌, ◌==◌, ◌||◌, not, [], length, OnOk, OnErr};
ghost use Rattle.std.specs.Option.{option_to_list};
ghost use Rattle.shm_segment.specs.declared.view.Numbered.{Numbered};
ghost use Rattle.serve_workers.specs.Watching.{Climbs, each_once, IsBeginning};

use crate::pauses::pause;
use gps_fixed::NoMemory;
use gps_lane::Bell;
use shm_monitor::{Monitor, Numbered, Reading};
use shm_segment::Segment;
use std::sync::Wait;

/// Makes the given number of readings, and keeps the pairs that were taken with a new number: all that the monitor took, each number
/// once. It makes fewer only when out of memory: then it keeps the pairs before the one for which there was no room.
///
/// After a reading that gave nothing new it sleeps for a millisecond, or until its bell is rung, as long as that is not
/// closed.
pub fn run_monitor<R: Wait>(
    rt: &R,
    segment: &Segment,
    monitor: &mut Monitor,
    tries: u32,
    own: &Bell,
    taken: &mut Vec<Numbered>,
) -> Result<(), NoMemory>
    // The monitor reads this segment, and has taken nothing yet.
    requires part { monitor.old.segment ≡ segment.now }
    requires new { monitor.old.taken ≡ [] }
    requires empty { taken.old.items ≡ [] }

    // The pairs that are kept: all with a new number, or the first of them if it is out of memory.
    ensures all { OnOk result (taken.new.items ≡ each_once monitor.new.taken) }
    ensures first { IsBeginning taken.new.items (each_once monitor.new.taken) }
    ensures missing { OnErr result (length taken.new.items < length (each_once monitor.new.taken)) }
    ensures climbs { Climbs taken.new.items }

    // The readings made at least two loads each, all of one segment.
    ensures loads { OnOk result (length monitor.old.kept + 2 * tries ≤ length monitor.new.kept) }
    ensures segment { monitor.new.segment ≡ monitor.old.segment }
{
    let mut made = 0u32;
    'tries: while made < tries {
        made += 1;
        if let Some(pair) = new_pair(segment, monitor, taken.is_empty()) {
            taken.push(pair)?;
        } else {
            pause(rt, own);
        }
    }
    Ok(())
}

/// Makes a reading, and gives its pair if none was taken before or its number is new.
fn new_pair(segment: &Segment, monitor: &mut Monitor, first: bool) -> Option<Numbered>
    requires part { monitor.old.segment ≡ segment.now }
    requires first { first ≡ (length (each_once monitor.old.taken) == 0) }
    ensures pair { each_once monitor.new.taken ≡ each_once monitor.old.taken ++ option_to_list result }
    ensures climbs { Climbs (each_once monitor.new.taken) }
    ensures loads { length monitor.old.kept + 2 ≤ length monitor.new.kept }
    ensures segment { monitor.new.segment ≡ monitor.old.segment }
{
    let before = monitor.last();
    let reading = monitor.try_read(segment);
    let _ = monitor.last();
    match reading {
        Reading::Taken(pair) => {
            if is_new(first, before, pair.number) {
                Some(pair)
            } else {
                None
            }
        }
        Reading::NotReady { count: _, valid: _ } => None,
        Reading::Clash {
            before: _,
            after: _,
        } => None,
    }
}

/// Whether no pair of this number was taken, if the last one has the number `before`.
fn is_new(first: bool, before: u32, number: u32) -> bool
    ensures { result ≡ (first || not (number == before)) }
{
    first || number != before
}
