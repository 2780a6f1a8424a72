use crate::view::DoorView;
use atomic_table::TableRule;

/// The rule that every step on the table keeps.
pub struct DoorRule;

impl TableRule<(), DoorView, ()> for DoorRule {
    ghost use Rattle.std.specs.Prelude.{[]};
    ghost use Rattle.hub_door.specs.Rule.{HoldsOf};
    ghost use Rattle.hub_door.specs.Views.{keeper};

    ghost holds = { λ _ state. HoldsOf state };

    ghost first = { λ _. keeper [] };
}
