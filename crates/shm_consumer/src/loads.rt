// The taker's four kinds of load and its one store. Each is one step on one word, which keeps the rule.
ghost use Rattle.std.specs.Prelude.{◌≡◌, ◌≢◌, ◌+◌, ◌<◌, ◌≤◌, [], length, slice_index, None};
ghost use Rattle.shm_segment.specs.Words.{body_places};
ghost use Rattle.shm_consumer.specs.Rule.{IsRecounted, RisesStrictly};
ghost use Rattle.shm_consumer.specs.Taking.{IsTaking};
ghost use Rattle.shm_consumer.specs.Views.{counted, validated, fetched, recounted, cleared};

use crate::hand_off::{HandOff, HandSeat};
use crate::plays::{BodyWord, Clears, FirstCount, LastCount, Valid};
use shm_segment::{BODY, COUNT, VALID};

/// The first count, which begins a reading.
pub(crate) fn load_count(hand: &HandOff, seat: &mut HandSeat) -> u32
    requires { IsTaking hand.now seat.old.table_id seat.old.me }
    ensures { (seat.new.table_id ≡ seat.old.table_id) × (seat.new.me ≡ (counted seat.old.me.0 result, [])) }
{
    hand.table
        .shared
        .load::<FirstCount>(seat, usize::from(COUNT)) as u32
}

/// valid.
pub(crate) fn load_valid(hand: &HandOff, seat: &mut HandSeat) -> u64
    requires part { IsTaking hand.now seat.old.table_id seat.old.me }
    requires reading { length seat.old.me.0.reading ≡ 1 }
    ensures seat { (seat.new.table_id ≡ seat.old.table_id) × (seat.new.me ≡ (validated seat.old.me.0 result, [])) }
    ensures value { result ≤ 1 }
{
    hand.table.shared.load::<Valid>(seat, usize::from(VALID))
}

/// The word at this place of the body.
pub(crate) fn load_body(hand: &HandOff, seat: &mut HandSeat, place: u8) -> (u8, u64)
    requires part { IsTaking hand.now seat.old.table_id seat.old.me }
    requires place { place < 9 }
    requires reading { length seat.old.me.0.reading ≡ place + 2 }
    ensures word { result.0 ≡ slice_index body_places place }
    ensures seat { (seat.new.table_id ≡ seat.old.table_id) × (seat.new.me ≡ (fetched seat.old.me.0 (slice_index body_places place) result.1, [])) }
{
    let word = BODY[usize::from(place)];
    (
        word,
        hand.table.shared.load::<BodyWord>(seat, usize::from(word)),
    )
}

/// The second count.
pub(crate) fn load_count_again(hand: &HandOff, seat: &mut HandSeat) -> u32
    requires part { IsTaking hand.now seat.old.table_id seat.old.me }
    requires reading { length seat.old.me.0.reading ≡ 11 }
    ensures seat { (seat.new.table_id ≡ seat.old.table_id) × (seat.new.me ≡ (recounted seat.old.me.0 result, [])) }
    ensures last { IsRecounted seat.old.me.0 result }
{
    hand.table
        .shared
        .load::<LastCount>(seat, usize::from(COUNT)) as u32
}

/// valid 0, with which the pair that was read is consumed.
pub(crate) fn store_clear(hand: &HandOff, seat: &mut HandSeat)
    requires part { IsTaking hand.now seat.old.table_id seat.old.me }
    requires read { seat.old.me.0.read ≢ None }
    ensures seat { (seat.new.table_id ≡ seat.old.table_id) × (seat.new.me ≡ (cleared seat.old.me.0, [])) }
    ensures rises { RisesStrictly 0 (cleared seat.old.me.0).consumed }
{
    hand.table
        .shared
        .store::<Clears>(seat, usize::from(VALID), 0);
}
