use crate::view::SeatView;
use atomic_table::TableRule;

/// The rule that every step on the table keeps.
pub struct ShareRule;

impl TableRule<(), SeatView, ()> for ShareRule {
    ghost use Rattle.stamp_shares.specs.Rule.{HoldsOf};
    ghost use Rattle.stamp_shares.specs.Views.{opening_view};

    ghost holds = { λ _ state. HoldsOf state };

    ghost first = { λ _. opening_view };
}
