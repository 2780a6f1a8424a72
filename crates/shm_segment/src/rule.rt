use crate::view::View;
use atomic_table::TableRule;

/// The rule that every step on a segment keeps.
pub struct SegmentRule;

impl TableRule<(), View, u32> for SegmentRule {
    ghost use Rattle.shm_segment.specs.Rule.{HoldsOf};
    ghost use Rattle.shm_segment.specs.Views.{publisher};
    ghost use Rattle.std.specs.Prelude.{[]};

    ghost holds = { λ first state. HoldsOf first state };

    ghost first = { λ first. publisher first [] 0 };
}
