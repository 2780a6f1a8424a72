ghost use Rattle.std.specs.Prelude.{◌≡◌, ◌+◌, ◌<◌, ◌≤◌, [], length};
ghost use Rattle.shm_consumer.specs.Rule.{Agrees, RisesStrictly, IsOnce};
ghost use Rattle.shm_consumer.specs.Taking.{untaken, TakesAs, HasConsumed, IsAbove, HasSteps};
ghost use Rattle.shm_consumer.specs.Views.{newcomer};

use crate::consumption::{Consumption, TakeStep};
use crate::hand_off::{HandOff, HandSeat};
use crate::loads::{load_body, load_count, load_count_again, load_valid, store_clear};
use crate::notice::HandNotice;
use crate::plays::{Meets, Notices};
use shm_segment::Sample;
use std::marker::Model;

/// Consumes samples from a hand-off segment. Contracts see the pairs that it consumed, its loads and stores, and the
/// values of its running reading.
#[derive(Drop)]
pub struct Taker {
    seat: HandSeat,
    // How many values of the running reading are loaded: count, valid, the words of the body, count.
    at: u8,
    count: u32,
    body: [u64; 9],
}

impl Model for Taker {
    ghost use Rattle.shm_consumer.specs.Taking.{Taking, taking, values_of, IsTaker};

    ghost Value = { Taking };

    ghost view = { λ t. taking t.seat.table_id t.seat.me.0 (values_of t.at t.count t.body) };

    ghost invariant = { λ t. IsTaker t.seat.me t.at t.count t.body };
}

impl Taker {
    /// The taker of a new segment.
    pub(crate) fn of(seat: HandSeat) -> Taker
        requires { seat.me ≡ (newcomer seat.me.0.first, []) }
        ensures { result ≡ untaken (record { table = seat.table_id; first = seat.me.0.first }) }
    {
        Taker {
            seat,
            at: 0,
            count: 0,
            body: [0; 9],
        }
    }

    fn take_count(&mut self, hand: &HandOff) -> TakeStep
        requires part { self.old.segment ≡ hand.now }
        requires at { length self.old.reading ≡ 0 }
        ensures takes { TakesAs self.old result self.new }
        ensures rises { RisesStrictly 0 self.new.consumed }
    {
        self.count = load_count(hand, &mut self.seat);
        self.at = 1;
        TakeStep::Loaded {
            word: 1,
            value: u64::from(self.count),
        }
    }

    fn take_valid(&mut self, hand: &HandOff) -> TakeStep
        requires part { self.old.segment ≡ hand.now }
        requires at { length self.old.reading ≡ 1 }
        ensures takes { TakesAs self.old result self.new }
        ensures rises { RisesStrictly 0 self.new.consumed }
    {
        let valid = load_valid(hand, &mut self.seat);
        if valid == 0 {
            self.at = 0;
            return TakeStep::Ended(Consumption::NotReady {
                count: self.count,
                valid,
            });
        }
        self.at = 2;
        TakeStep::Loaded {
            word: 9,
            value: valid,
        }
    }

    fn take_body(&mut self, hand: &HandOff) -> TakeStep
        requires part { self.old.segment ≡ hand.now }
        requires from { 2 ≤ length self.old.reading }
        requires to { length self.old.reading < 11 }
        ensures takes { TakesAs self.old result self.new }
        ensures rises { RisesStrictly 0 self.new.consumed }
    {
        let place = self.at - 2;
        let (word, value) = load_body(hand, &mut self.seat, place);
        self.body[usize::from(place)] = value;
        self.at += 1;
        TakeStep::Loaded { word, value }
    }

    fn take_count_again(&mut self, hand: &HandOff) -> TakeStep
        requires part { self.old.segment ≡ hand.now }
        requires at { length self.old.reading ≡ 11 }
        ensures takes { TakesAs self.old result self.new }
        ensures rises { RisesStrictly 0 self.new.consumed }
    {
        let before = self.count;
        let after = load_count_again(hand, &mut self.seat);
        if before != after {
            self.at = 0;
            return TakeStep::Ended(Consumption::Clash { before, after });
        }
        self.at = 12;
        TakeStep::Loaded {
            word: 1,
            value: u64::from(after),
        }
    }

    fn clear(&mut self, hand: &HandOff) -> TakeStep
        requires part { self.old.segment ≡ hand.now }
        requires at { length self.old.reading ≡ 12 }
        ensures takes { TakesAs self.old result self.new }
        ensures rises { RisesStrictly 0 self.new.consumed }
    {
        store_clear(hand, &mut self.seat);
        self.at = 0;
        TakeStep::Cleared {
            number: self.count / 2,
            sample: Sample::of_body(&self.body),
        }
    }

    /// Makes the one next step of the running reading, or of a new one: the loads of count, valid, the nine words of the
    /// body and count, and then the store of valid 0.
    ///
    /// A valid of 0 ends the reading with NotReady, and a second count that differs from the first with Clash. A second
    /// count that equals the first is Loaded; the step after it clears valid and answers Cleared. Each number is above
    /// all those before it, so no sample is consumed twice.
    #[tactic(auto, using(crate::proofs::Positions::rises_once))]
    pub fn step(&mut self, hand: &HandOff) -> TakeStep
        requires { self.old.segment ≡ hand.now }
        ensures takes { TakesAs self.old result self.new }
        ensures one { length self.new.made ≡ length self.old.made + 1 }
        ensures segment { self.new.segment ≡ self.old.segment }
        ensures rises { RisesStrictly 0 self.new.consumed }
        ensures once { IsOnce self.new.consumed }
    {
        if self.at == 0 {
            self.take_count(hand)
        } else if self.at == 1 {
            self.take_valid(hand)
        } else if self.at < 11 {
            self.take_body(hand)
        } else if self.at == 11 {
            self.take_count_again(hand)
        } else {
            self.clear(hand)
        }
    }

    /// Drops an unfinished reading, and makes one by steps of its own: two if valid is 0, twelve at a Clash, and
    /// thirteen if it consumes a sample.
    ///
    /// The number of a consumed sample is half of the count that was loaded twice. It is above all those consumed before,
    /// so no sample is consumed twice.
    #[tactic(auto, using(crate::proofs::Positions::rises_once))]
    pub fn consume(&mut self, hand: &HandOff) -> Consumption
        // What the reading gives, and in how many steps.
        requires { self.old.segment ≡ hand.now }
        ensures consumed { HasConsumed self.old result self.new }
        ensures above { IsAbove self.old.consumed result }
        ensures steps { HasSteps result (length self.old.made) (length self.new.made) }

        // The segment stays. No sample is consumed twice.
        ensures segment { self.new.segment ≡ self.old.segment }
        ensures rises { RisesStrictly 0 self.new.consumed }
        ensures once { IsOnce self.new.consumed }
    {
        self.at = 0;
        self.take_count(hand);
        if let TakeStep::Ended(not_ready) = self.take_valid(hand) {
            return not_ready;
        }
        for _ in 0..9u32 {
            self.take_body(hand);
        }
        if let TakeStep::Ended(clash) = self.take_count_again(hand) {
            return clash;
        }
        match self.clear(hand) {
            TakeStep::Cleared { number, sample } => Consumption::Consumed { number, sample },
            TakeStep::Loaded { word: _, value: _ } | TakeStep::Ended(_) => unreachable!(),
        }
    }

    /// Compares the consumed pairs with a notice: each pair whose number the notice reaches is its sample of that number.
    /// It loads word 0 twice.
    pub fn meet(&mut self, hand: &HandOff, notice: HandNotice)
        requires taker { self.old.segment ≡ hand.now }
        requires notice { notice.segment ≡ hand.now }
        ensures agrees { Agrees self.old.segment.first notice.known self.old.consumed }
        ensures unchanged { self.new ≡ self.old }
        ensures rises { RisesStrictly 0 self.new.consumed }
    {
        let HandNotice { seat } = notice;
        hand.table.shared.join_seat::<Notices>(&mut self.seat, seat);
        hand.table.shared.load::<Meets>(&mut self.seat, 0);
    }
}
