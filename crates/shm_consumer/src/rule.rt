use crate::view::View;
use atomic_table::TableRule;

/// The rule that every step on a hand-off segment keeps.
pub struct HandOffRule;

impl TableRule<(), View, u32> for HandOffRule {
    ghost use Rattle.shm_consumer.specs.Rule.{HoldsOf};
    ghost use Rattle.shm_consumer.specs.Views.{opener};

    ghost holds = { λ first state. HoldsOf first state };

    ghost first = { opener };
}
