use crate::naming::DoorNaming;
use crate::table::TableSeat;
use std::marker::Model;
use std::sync::ledger::Share;

/// The door worker's token of one hub. It knows the lanes of each session that was admitted through it, in order, and whether the door has
/// closed or failed.
#[derive(Drop)]
pub struct DoorSeat<J: DoorNaming> {
    pub(crate) note: TableSeat,
    pub(crate) share: Share<J>,
}

impl<J: DoorNaming> Model for DoorSeat<J> {
    ghost use Rattle.std.specs.Prelude.{◌≡◌, ◌<◌, [], length};
    ghost use Rattle.hub_door.specs.Admissions.{Admissions, admissions};
    ghost use Rattle.hub_door.specs.Views.{noted};

    ghost Value = { Admissions };

    ghost view = { λ d. admissions d.note.me.0.list };

    ghost invariant = { λ d. (d.note.table_id ≡ J.table) × (d.note.me ≡ (noted d.note.me.0.list, [])) × (d.share.parts ≡ J.whole)
        × (0 < d.share.parts) × (d.share.amount ≡ length d.note.me.0.list) };
}
