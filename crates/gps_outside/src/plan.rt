ghost use Rattle.std.specs.Prelude.{◌≡◌, drop};
ghost use Rattle.std.specs.Vec.Iter.{into_iter_items};
ghost use Rattle.gps_outside.specs.Plans.{first_of};

use std::vec::IntoIter;

/// What the next read of a source in memory does.
#[derive(Clone, Copy, Debug, PartialEq, Eq)]
pub enum ReadPlan {
    /// Gives at most this number of bytes; 0 counts as 1.
    Give(usize),
    Quiet,
    Fail,
}

/// What an object in memory answers if nothing is left.
#[derive(Clone, Copy, Debug, PartialEq, Eq)]
pub enum AtEnd {
    End,
    Quiet,
}

/// What the next write to a sink in memory does.
#[derive(Clone, Copy, Debug, PartialEq, Eq)]
pub enum WritePlan {
    /// Takes at most this number of bytes; 0 counts as 1.
    Take(usize),
    Fail,
}

/// What the next call of a door in memory does.
#[derive(Drop)]
pub enum DoorPlan<I, K> {
    /// Gives this link: its source and its sink.
    Link(I, K),
    Quiet,
    Fail,
}

/// Takes the next entry of a plan; none comes after it.
pub(crate) fn next_entry<T>(plan: &mut IntoIter<T>) -> Option<T>
    ensures entry { result ≡ first_of (into_iter_items plan.old) }
    ensures rest { into_iter_items plan.new ≡ drop 1 (into_iter_items plan.old) }
{
    plan.next()
}
