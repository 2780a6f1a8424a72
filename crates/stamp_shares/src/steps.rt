// The steps on the table of stamps.
ghost use Rattle.std.specs.Prelude.{◌≡◌, ◌+◌, [], ◌∷◌, ◌++◌};
ghost use Rattle.stamp_shares.specs.Shares.{AreShares, given_to, new_share, with_stamp};
ghost use Rattle.stamp_shares.specs.Views.{IsCounter, IsGiver, IsHolder, counting, giving, holding, share_in};

use crate::plays::{Begins, Gives, Giving, Shows, TakesIn, Vacates};
use crate::table::{ShareWord, TableSeat};
use std::mem;

/// Begins a share.
pub(crate) fn begin(word: &ShareWord, roll: &mut TableSeat) -> TableSeat
    requires one { word.now.shared.table_id.words ≡ 1 }
    requires roll { IsCounter word.now.shared.table_id roll.old.table_id roll.old.me }
    ensures roll { (roll.new.table_id ≡ roll.old.table_id) × (roll.new.me ≡ (counting (roll.old.me.0.begun + 1) roll.old.me.0.shares, [])) }
    ensures share { (result.table_id ≡ roll.old.table_id) × (result.me ≡ (holding (new_share roll.old.me.0.begun), [])) }
{
    word.shared.split_seat::<Begins>(roll)
}

/// Gives a stamp to a share.
pub(crate) fn give<E: Giving>(word: &ShareWord, giver: &mut TableSeat, share: &mut TableSeat)
    requires one { word.now.shared.table_id.words ≡ 1 }
    requires giver { IsGiver word.now.shared.table_id giver.old.table_id giver.old.me }
    requires share { IsHolder word.now.shared.table_id share.old.table_id share.old.me }
    ensures giver { (giver.new.table_id ≡ giver.old.table_id)
        × (giver.new.me ≡ (giving (giver.old.me.0.given ++ given_to E.stamp (share_in share.old.me.0) ∷ []), [])) }
    ensures share { (share.new.table_id ≡ giver.old.table_id) × (share.new.me ≡ (holding (with_stamp E.stamp (share_in share.old.me.0)), [])) }
{
    let vacant = word.shared.split_seat::<Vacates>(giver);
    let held = mem::replace(share, vacant);
    word.shared.join_seat::<TakesIn>(giver, held);
    *share = word.shared.split_seat::<Gives<E>>(giver);
}

/// Takes in a share that has ended.
pub(crate) fn take_in(word: &ShareWord, roll: &mut TableSeat, share: TableSeat)
    requires one { word.now.shared.table_id.words ≡ 1 }
    requires roll { IsCounter word.now.shared.table_id roll.old.table_id roll.old.me }
    requires share { IsHolder word.now.shared.table_id share.table_id share.me }
    ensures roll { (roll.new.table_id ≡ roll.old.table_id)
        × (roll.new.me ≡ (counting roll.old.me.0.begun (roll.old.me.0.shares ++ share_in share.me.0 ∷ []), [])) }
{
    word.shared.join_seat::<TakesIn>(roll, share);
}

/// The shares that have ended are what was given to them.
pub(crate) fn show(word: &ShareWord, giver: &mut TableSeat, roll: TableSeat)
    requires one { word.now.shared.table_id.words ≡ 1 }
    requires giver { IsGiver word.now.shared.table_id giver.old.table_id giver.old.me }
    requires roll { IsCounter word.now.shared.table_id roll.table_id roll.me }
    ensures giver { (giver.new.table_id ≡ giver.old.table_id) × (giver.new.me ≡ (giving giver.old.me.0.given, [])) }
    ensures shares { AreShares giver.old.me.0.given roll.me.0.shares }
{
    word.shared.join_seat::<TakesIn>(giver, roll);
    word.shared.load::<Shows>(giver, 0);
}
