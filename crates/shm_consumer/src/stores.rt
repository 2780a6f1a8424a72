// The five kinds of store. Each is one step on one word, which keeps the rule.
ghost use Rattle.std.specs.Prelude.{◌≡◌, ◌+◌, ◌-◌, ◌*◌, ◌/◌, ◌%◌, ◌<◌, ◌≤◌, [], length, slice_index};
ghost use Rattle.shm_segment.specs.Samples.{IsSample, body_of};
ghost use Rattle.shm_segment.specs.Words.{body_at, body_places};
ghost use Rattle.shm_consumer.specs.Views.{begun, stored};
ghost use Rattle.shm_consumer.specs.Giving.{IsGiving};

use crate::hand_off::{HandOff, HandSeat};
use crate::plays::{Beginning, Begins, Stores};
use shm_segment::{BODY, COUNT, PubStep, Sample, VALID};

/// valid 0, with which the sample joins the giver's list.
pub(crate) fn store_invalid<B: Beginning>(
    hand: &HandOff,
    seat: &mut HandSeat,
    sample: Sample,
) -> PubStep
    requires at { IsGiving hand.now seat.old.table_id seat.old.me 0 }
    requires number { hand.now.first + length seat.old.me.0.known.samples < 1073741823 }
    requires range { IsSample sample }
    requires picked { sample ≡ B.sample }
    ensures part { (seat.new.table_id ≡ seat.old.table_id) × (seat.new.me ≡ (begun seat.old.me.0 sample, [])) }
    ensures answer { result ≡ PubStep.Stored 9 0 }
{
    hand.table
        .shared
        .store::<Begins<B>>(seat, usize::from(VALID), 0);
    PubStep::Stored {
        word: VALID,
        value: 0,
    }
}

/// The odd count.
pub(crate) fn store_odd(hand: &HandOff, seat: &mut HandSeat, number: u32) -> PubStep
    requires at { IsGiving hand.now seat.old.table_id seat.old.me 1 }
    requires number { number ≡ hand.now.first + seat.old.me.0.known.stores / 13 }
    ensures part { (seat.new.table_id ≡ seat.old.table_id) × (seat.new.me ≡ (stored seat.old.me.0, [])) }
    ensures answer { result ≡ PubStep.Stored 1 (2 * number + 1) }
{
    let value = 2 * u64::from(number) + 1;
    hand.table
        .shared
        .store::<Stores>(seat, usize::from(COUNT), value);
    PubStep::Stored { word: COUNT, value }
}

/// A word of the body.
pub(crate) fn store_body(hand: &HandOff, seat: &mut HandSeat, sample: &Sample, place: u8) -> PubStep
    requires place { place < 9 }
    requires at { IsGiving hand.now seat.old.table_id seat.old.me (place + 2) }
    requires body { body_at seat.old.me.0.known.samples (seat.old.me.0.known.stores / 13 + 1) ≡ body_of sample.now }
    ensures part { (seat.new.table_id ≡ seat.old.table_id) × (seat.new.me ≡ (stored seat.old.me.0, [])) }
    ensures answer { result ≡ PubStep.Stored (slice_index body_places place) (slice_index (body_of sample.now) place) }
{
    let word = BODY[usize::from(place)];
    let value = sample.word(place);
    hand.table
        .shared
        .store::<Stores>(seat, usize::from(word), value);
    PubStep::Stored { word, value }
}

/// The even count, which publishes the sample.
pub(crate) fn store_even(hand: &HandOff, seat: &mut HandSeat, number: u32) -> PubStep
    requires at { IsGiving hand.now seat.old.table_id seat.old.me 11 }
    requires number { number ≡ hand.now.first + seat.old.me.0.known.stores / 13 }
    ensures part { (seat.new.table_id ≡ seat.old.table_id) × (seat.new.me ≡ (stored seat.old.me.0, [])) }
    ensures answer { result ≡ PubStep.Stored 1 (2 * number + 2) }
{
    let value = 2 * u64::from(number) + 2;
    hand.table
        .shared
        .store::<Stores>(seat, usize::from(COUNT), value);
    PubStep::Stored { word: COUNT, value }
}

/// valid 1.
pub(crate) fn store_valid(hand: &HandOff, seat: &mut HandSeat) -> PubStep
    requires at { IsGiving hand.now seat.old.table_id seat.old.me 12 }
    ensures part { (seat.new.table_id ≡ seat.old.table_id) × (seat.new.me ≡ (stored seat.old.me.0, [])) }
    ensures answer { result ≡ PubStep.Stored 9 1 }
{
    hand.table
        .shared
        .store::<Stores>(seat, usize::from(VALID), 1);
    PubStep::Stored {
        word: VALID,
        value: 1,
    }
}
