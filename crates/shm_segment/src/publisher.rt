ghost use Rattle.std.specs.Prelude.{◌≡◌, ◌+◌, ◌/◌, ◌≤◌, []};
ghost use Rattle.shm_segment.specs.Publishing.{BeginsAs, StepsAs, IsPublishing, count_of, flag_of, next_of, opened, noticed};
ghost use Rattle.shm_segment.specs.Rule.{IsBorneOut};
ghost use Rattle.shm_segment.specs.Words.{published_after};
ghost use Rattle.shm_segment.specs.Views.{publisher, known};

use crate::plays::{Accounts, Hears, Monitors, Notices};
use crate::sample::Sample;
use crate::seats::{Account, MonitorSeat, Notice};
use crate::segment::{Segment, TableSeat};
use crate::stores::{store_body, store_even, store_invalid, store_odd, store_valid};
use gps_fixed::Stamp;
use std::marker::{Brand, Model};

/// The greatest number of a sample: count is then 2,147,483,646.
const GREATEST: u32 = 1_073_741_823;

/// Which store comes next.
#[derive(Clone, Copy, Debug, PartialEq, Eq)]
pub enum Phase {
    /// No sample is begun.
    Idle,
    /// valid 0.
    ToInvalid,
    /// The odd count.
    ToOdd,
    /// The word at this place of the body, 0 to 8 in the order of their stores.
    ToBody(u8),
    /// The even count, which publishes the sample.
    ToEven,
    /// valid 1.
    ToValid,
}

impl Phase {
    fn next(self) -> Phase
        ensures { result ≡ next_of self }
    {
        match self {
            Phase::Idle => Phase::Idle,
            Phase::ToInvalid => Phase::ToOdd,
            Phase::ToOdd => Phase::ToBody(0),
            Phase::ToBody(place) if place < 8 => Phase::ToBody(place + 1),
            Phase::ToBody(_) => Phase::ToEven,
            Phase::ToEven => Phase::ToValid,
            Phase::ToValid => Phase::Idle,
        }
    }

    fn flag(self) -> u32
        ensures { result ≡ flag_of self }
    {
        match self {
            Phase::Idle | Phase::ToInvalid | Phase::ToOdd => 0,
            Phase::ToBody(_) | Phase::ToEven => 1,
            Phase::ToValid => 2,
        }
    }
}

/// What [`Publisher::begin`] did.
#[derive(Clone, Copy, Debug, PartialEq, Eq)]
pub enum Begin {
    Begun,
    /// A sample is being stored; the publisher is at this phase.
    Busy(Phase),
    /// The count is at its greatest, 2,147,483,646.
    CountSpent,
}

/// What [`Publisher::step`] did.
#[derive(Clone, Copy, Debug, PartialEq, Eq)]
pub enum PubStep {
    /// It stored this value in this word.
    Stored { word: u8, value: u64 },
    /// There was nothing to store.
    Idle,
}

/// The one that stores into a segment. Contracts see its samples, its number of stores, its phase and its begun sample.
#[derive(Drop)]
pub struct Publisher {
    seat: TableSeat,
    number: u32,
    phase: Phase,
    sample: Sample,
}

impl Model for Publisher {
    ghost use Rattle.shm_segment.specs.Publishing.{Publishing, publishing, IsPublisher};

    ghost Value = { Publishing };

    ghost view = { λ p. publishing p.seat.table_id p.seat.me.0 p.phase p.sample };

    ghost invariant = { λ p. IsPublisher p.seat.table_id p.seat.me p.number p.phase p.sample };
}

impl Publisher {
    /// The publisher of a new segment.
    pub(crate) fn of(seat: TableSeat, first: u32) -> Publisher
        requires view { seat.me ≡ (publisher first [] 0, []) }
        requires first { first ≤ 1073741823 }
        ensures { result ≡ opened (record { table = seat.table_id; first = first }) }
    {
        let zero = Stamp { sec: 0, nsec: 0 };
        Publisher {
            seat,
            number: first,
            phase: Phase::Idle,
            sample: Sample {
                reference: zero,
                host: zero,
                precision: 0,
            },
        }
    }

    /// Begins a sample if none is being stored and the count is not spent. It makes no store.
    pub fn begin(&mut self, sample: Sample) -> Begin
        ensures begins { BeginsAs self.old sample result self.new }
        ensures segment { self.new.segment ≡ self.old.segment }
        ensures kept { IsPublishing self.new }
    {
        sample.show_range();
        match self.phase {
            Phase::Idle => {
                if self.number == GREATEST {
                    return Begin::CountSpent;
                }
                self.sample = sample;
                self.phase = Phase::ToInvalid;
                Begin::Begun
            }
            phase => Begin::Busy(phase),
        }
    }

    /// What the next store is.
    pub fn phase(&self) -> Phase
        ensures phase { result ≡ self.now.phase }
        ensures kept { IsPublishing self.now }
    {
        self.phase
    }

    /// Makes the one next store, if there is one: it leads from the words after some stores to those after one more.
    pub fn step(&mut self, segment: &Segment) -> PubStep
        requires { self.old.segment ≡ segment.now }
        ensures steps { StepsAs self.old result self.new }
        ensures segment { self.new.segment ≡ self.old.segment }
        ensures kept { IsPublishing self.new }
    {
        match self.phase {
            Phase::Idle => PubStep::Idle,
            Phase::ToInvalid => {
                let stored = store_invalid::<Brand>(segment, &mut self.seat, self.sample);
                self.phase = Phase::ToOdd;
                stored
            }
            Phase::ToOdd => {
                let stored = store_odd(segment, &mut self.seat, self.number);
                self.phase = Phase::ToBody(0);
                stored
            }
            Phase::ToBody(place) => {
                let stored = store_body(segment, &mut self.seat, &self.sample, place);
                self.phase = self.phase.next();
                stored
            }
            Phase::ToEven => {
                let stored = store_even(segment, &mut self.seat, self.number);
                self.phase = Phase::ToValid;
                stored
            }
            Phase::ToValid => {
                let stored = store_valid(segment, &mut self.seat);
                self.number += 1;
                self.phase = Phase::Idle;
                stored
            }
        }
    }

    /// What the word count is. It is even but while a body is written, and half of it is then the number of the last
    /// published sample.
    pub fn count(&self) -> u32
        ensures count { result ≡ count_of self.now }
        ensures published { result / 2 ≡ self.now.segment.first + published_after self.now.stores }
        ensures kept { IsPublishing self.now }
    {
        2 * self.number + self.phase.flag()
    }

    /// A copy of the publisher's first number, list and number of stores. It loads word 0.
    pub fn notice(&mut self, segment: &Segment) -> Notice
        requires { self.old.segment ≡ segment.now }
        ensures notice { result ≡ noticed self.old }
        ensures unchanged { self.new ≡ self.old }
    {
        Notice {
            seat: segment.table.shared.split_seat::<Notices>(&mut self.seat),
        }
    }

    /// A seat for a monitor, which has read nothing. It loads word 0.
    pub fn monitor_seat(&mut self, segment: &Segment) -> MonitorSeat
        requires { self.old.segment ≡ segment.now }
        ensures part { result ≡ self.old.segment }
        ensures unchanged { self.new ≡ self.old }
    {
        MonitorSeat {
            seat: segment.table.shared.split_seat::<Monitors>(&mut self.seat),
        }
    }

    /// Learns of a monitor's pairs and loads: each pair is a sample of the publisher's own list, and each load is its
    /// word after a number of stores between those that the monitor knew of and the publisher's.
    pub fn hear(&mut self, segment: &Segment, account: Account)
        requires publisher { self.old.segment ≡ segment.now }
        requires account { account.segment ≡ segment.now }
        ensures heard { IsBorneOut self.old.segment.first (known self.old.samples self.old.stores) account.taken account.kept }
        ensures unchanged { self.new ≡ self.old }
    {
        let Account { seat } = account;
        segment
            .table
            .shared
            .join_seat::<Accounts>(&mut self.seat, seat);
        segment.table.shared.load::<Hears>(&mut self.seat, 0);
    }
}
