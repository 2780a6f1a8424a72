// The steps on the door's table.
ghost use Rattle.std.specs.Prelude.{◌≡◌, [], ◌∷◌, ◌++◌};
ghost use Rattle.hub_door.specs.Views.{IsKeeperOf, IsNoteOf, keeper, noted};
ghost use Rattle.gps_fixed.specs.Lists.{IsPrefix};

use crate::plays::{AddsEntry, ChecksNote, Entering, JoinsNote, Notes};
use crate::table::{DoorWord, TableSeat};
use std::mem;

/// Shows that a note is a prefix of the hub's list, and renews it.
pub(crate) fn compare(word: &DoorWord, hub: &mut TableSeat, seat: &mut TableSeat)
    requires one { word.now.shared.table_id.words ≡ 1 }
    requires hub { IsKeeperOf word.now.shared.table_id hub.old.table_id hub.old.me }
    requires seat { IsNoteOf word.now.shared.table_id seat.old.table_id seat.old.me }
    ensures begins { IsPrefix seat.old.me.0.list hub.old.me.0.list }
    ensures hub { (hub.new.table_id ≡ hub.old.table_id) × (hub.new.me ≡ hub.old.me) }
    ensures seat { (seat.new.table_id ≡ seat.old.table_id) × (seat.new.me ≡ (noted hub.old.me.0.list, [])) }
{
    let fresh = word.shared.split_seat::<Notes>(hub);
    let old = mem::replace(seat, fresh);
    word.shared.join_seat::<JoinsNote>(hub, old);
    word.shared.load::<ChecksNote>(hub, 0);
}

/// Adds an entry to the hub's list.
pub(crate) fn add<E: Entering>(word: &DoorWord, hub: &mut TableSeat)
    requires one { word.now.shared.table_id.words ≡ 1 }
    requires hub { IsKeeperOf word.now.shared.table_id hub.old.table_id hub.old.me }
    ensures { (hub.new.table_id ≡ hub.old.table_id) × (hub.new.me ≡ (keeper (hub.old.me.0.list ++ E.entry ∷ []), [])) }
{
    word.shared.store::<AddsEntry<E>>(hub, 0, 0);
}

/// A note of the hub's list.
pub(crate) fn renew(word: &DoorWord, hub: &mut TableSeat, seat: &mut TableSeat)
    requires one { word.now.shared.table_id.words ≡ 1 }
    requires hub { IsKeeperOf word.now.shared.table_id hub.old.table_id hub.old.me }
    ensures hub { (hub.new.table_id ≡ hub.old.table_id) × (hub.new.me ≡ hub.old.me) }
    ensures seat { (seat.new.table_id ≡ hub.old.table_id) × (seat.new.me ≡ (noted hub.old.me.0.list, [])) }
{
    *seat = word.shared.split_seat::<Notes>(hub);
}
