ghost use Rattle.std.specs.Prelude.{◌≡◌, ◌≤◌, []};
ghost use Rattle.shm_segment.specs.Publishing.{BeginsAs, StepsAs, IsPublishing, opened, noticed, next_of};
ghost use Rattle.shm_consumer.specs.Views.{giver};

use crate::hand_off::{HandOff, HandSeat};
use crate::notice::HandNotice;
use crate::plays::Notices;
use crate::stores::{store_body, store_even, store_invalid, store_odd, store_valid};
use gps_fixed::Stamp;
use shm_segment::{Begin, Phase, PubStep, Sample};
use std::marker::{Brand, Model};

/// The greatest number of a sample: count is then 2,147,483,646.
const GREATEST: u32 = 1_073_741_823;

/// The one that stores samples into a hand-off segment. Contracts see its samples, its number of stores, its phase and
/// its begun sample, as they do of a publisher.
#[derive(Drop)]
pub struct Giver {
    seat: HandSeat,
    number: u32,
    phase: Phase,
    sample: Sample,
}

impl Model for Giver {
    ghost use Rattle.shm_segment.specs.Publishing.{Publishing};
    ghost use Rattle.shm_consumer.specs.Giving.{giving, IsGiver};

    ghost Value = { Publishing };

    ghost view = { λ g. giving g.seat.table_id g.seat.me.0 g.phase g.sample };

    ghost invariant = { λ g. IsGiver g.seat.table_id g.seat.me g.number g.phase g.sample };
}

fn after_body(place: u8) -> Phase
    ensures { result ≡ next_of (Phase.ToBody place) }
{
    if place < 8 {
        Phase::ToBody(place + 1)
    } else {
        Phase::ToEven
    }
}

impl Giver {
    /// The giver of a new segment.
    pub(crate) fn of(seat: HandSeat, first: u32) -> Giver
        requires view { seat.me ≡ (giver first [] 0, []) }
        requires first { first ≤ 1073741823 }
        ensures { result ≡ opened (record { table = seat.table_id; first = first }) }
    {
        let zero = Stamp { sec: 0, nsec: 0 };
        Giver {
            seat,
            number: first,
            phase: Phase::Idle,
            sample: Sample {
                reference: zero,
                host: zero,
                precision: 0,
            },
        }
    }

    /// Begins a sample if none is being stored and the count is not spent. It makes no store.
    ///
    /// Busy comes exactly if the phase is not Idle, CountSpent exactly if it is Idle and the count is 2,147,483,646.
    pub fn begin(&mut self, sample: Sample) -> Begin
        ensures begins { BeginsAs self.old sample result self.new }
        ensures segment { self.new.segment ≡ self.old.segment }
        ensures kept { IsPublishing self.new }
    {
        sample.show_range();
        match self.phase {
            Phase::Idle => {
                if self.number == GREATEST {
                    return Begin::CountSpent;
                }
                self.sample = sample;
                self.phase = Phase::ToInvalid;
                Begin::Begun
            }
            phase => Begin::Busy(phase),
        }
    }

    /// Makes the one next of the sample's thirteen stores; Idle exactly if none is begun.
    pub fn step(&mut self, hand: &HandOff) -> PubStep
        requires { self.old.segment ≡ hand.now }
        ensures steps { StepsAs self.old result self.new }
        ensures segment { self.new.segment ≡ self.old.segment }
        ensures kept { IsPublishing self.new }
    {
        match self.phase {
            Phase::Idle => PubStep::Idle,
            Phase::ToInvalid => {
                let stored = store_invalid::<Brand>(hand, &mut self.seat, self.sample);
                self.phase = Phase::ToOdd;
                stored
            }
            Phase::ToOdd => {
                let stored = store_odd(hand, &mut self.seat, self.number);
                self.phase = Phase::ToBody(0);
                stored
            }
            Phase::ToBody(place) => {
                let stored = store_body(hand, &mut self.seat, &self.sample, place);
                self.phase = after_body(place);
                stored
            }
            Phase::ToEven => {
                let stored = store_even(hand, &mut self.seat, self.number);
                self.phase = Phase::ToValid;
                stored
            }
            Phase::ToValid => {
                let stored = store_valid(hand, &mut self.seat);
                self.number += 1;
                self.phase = Phase::Idle;
                stored
            }
        }
    }

    /// A copy of what was published: the giver's first number, list and number of stores. It loads word 0.
    pub fn notice(&mut self, hand: &HandOff) -> HandNotice
        requires { self.old.segment ≡ hand.now }
        ensures notice { result ≡ noticed self.old }
        ensures unchanged { self.new ≡ self.old }
        ensures kept { IsPublishing self.old }
    {
        HandNotice {
            seat: hand.table.shared.split_seat::<Notices>(&mut self.seat),
        }
    }
}
