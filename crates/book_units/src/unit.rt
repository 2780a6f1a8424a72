ghost use Rattle.std.specs.Prelude.{◌≡◌, ◌≢◌, ◌+◌, ◌<◌, ◌≤◌, [], ◌∷◌, length, IfOk, OnOk};
ghost use Rattle.std.specs.Arc.{arc_value};
ghost use Rattle.shm_segment.specs.Publishing.{noticed};
ghost use Rattle.book_units.specs.Changes.{UnitGains, UnitTurns};
ghost use Rattle.book_units.specs.Steps.{BearsOut, Steps, StoresAs, state_of};
ghost use Rattle.book_units.specs.Units.{IsNew, IsUnit, left_of, published_by};

use gps_fixed::NoMemory;
use shm_segment::{
    Account, Begin, MonitorSeat, Notice, Phase, PubStep, Publisher, Sample, Segment,
};
use std::alloc::Global;
use std::collections::VecDeque;
use std::marker::Model;
use std::sync::Arc;

/// The most samples that wait at one unit, so that those that are left can be counted in 32 bits.
const MOST_WAITING: usize = 4_294_967_294;

/// What [`crate::Units::publish_step`] did.
#[derive(Clone, Copy, Debug, PartialEq, Eq)]
pub enum UnitStep {
    /// It stored this value in this word.
    Stored { word: u8, value: u64 },
    /// No sample was being stored, and none waits.
    Empty,
    /// No sample was being stored, one waits, and count is at its greatest, 2,147,483,646. The sample goes on waiting.
    Spent,
}

/// What a unit shows of itself.
#[derive(Clone, Copy, Debug, PartialEq, Eq)]
pub struct UnitState {
    /// How many samples were published in this run.
    pub published: u32,
    /// The segment's word count.
    pub count: u32,
    /// How many samples are begun and not published, or wait.
    pub left: u32,
}

/// One unit. Contracts see its publisher, its waiting samples, where its last turn was, and its room.
#[derive(Drop)]
pub(crate) struct Unit {
    segment: Arc<Segment>,
    publisher: Publisher,
    waiting: VecDeque<Sample>,
    /// The segment's first number.
    first: u32,
    /// How many samples were published at the last turn.
    from: u32,
    /// How many samples the last turn carried.
    carry: u32,
}

impl Model for Unit {
    ghost use Rattle.std.specs.Arc.{arc_value};
    ghost use Rattle.std.specs.VecDeque.{deque_len, deque_capacity};
    ghost use Rattle.std.specs.Prelude.{◌≡◌, ◌-◌, min};
    ghost use Rattle.book_units.specs.Units.{RoomView, IsUnit, room_view, IsUnitOf};

    ghost Value = { RoomView };

    ghost view = { λ u. room_view u.publisher u.waiting.items u.from u.carry (min (deque_capacity u.waiting) 4_294_967_294 - deque_len u.waiting) };

    ghost invariant = { λ u. IsUnitOf (arc_value u.segment) u.first (room_view u.publisher u.waiting.items u.from u.carry 0).unit };
}

impl Unit {
    /// A unit of a new segment.
    pub(crate) fn new(alloc: Global, first: u32) -> Result<Unit, NoMemory>
        requires { first ≤ 1073741823 }
        ensures new { IfOk result (λ u. IsNew first u.unit) }
        ensures kept { IfOk result (λ u. IsUnit u.unit) }
    {
        let (segment, publisher) = Segment::new(alloc, first)?;
        let segment = Arc::new(alloc, segment)?;
        Ok(Unit {
            segment,
            publisher,
            waiting: VecDeque::new(alloc),
            first,
            from: 0,
            carry: 0,
        })
    }

    /// Makes room for this many more samples. Refused also if more than 4,294,967,294 could wait then.
    pub(crate) fn reserve(&mut self, more: usize) -> Result<(), NoMemory>
        ensures unit { self.new.unit ≡ self.old.unit }
        ensures room { OnOk result (more ≤ self.new.spare) }
        ensures keeps { self.old.spare ≤ self.new.spare }
        ensures kept { IsUnit self.new.unit }
    {
        if more > MOST_WAITING - self.waiting.len() {
            return Err(NoMemory);
        }
        self.waiting.reserve(more)?;
        Ok(())
    }

    /// Queues a sample after the others. Takes no memory.
    pub(crate) fn add(&mut self, sample: Sample)
        requires { 0 < self.old.spare }
        ensures gains { UnitGains (sample ∷ []) self.old.unit self.new.unit }
        ensures room { self.new.spare + 1 ≡ self.old.spare }
        ensures kept { IsUnit self.new.unit }
    {
        self.waiting.push_back_reserved(sample);
    }

    fn published(&self) -> u32
        ensures { result ≡ published_by self.now.unit }
    {
        self.publisher.count() / 2 - self.first
    }

    fn left(&self) -> u32
        ensures { result ≡ length (left_of self.now.unit) }
    {
        let waiting = self.waiting.len() as u32;
        match self.publisher.phase() {
            Phase::Idle | Phase::ToValid => waiting,
            Phase::ToInvalid | Phase::ToOdd | Phase::ToBody(_) | Phase::ToEven => waiting + 1,
        }
    }

    pub(crate) fn state(&self) -> UnitState
        ensures state { result ≡ state_of self.now.unit }
    {
        UnitState {
            published: self.published(),
            count: self.publisher.count(),
            left: self.left(),
        }
    }

    /// Carries the sample that is begun and not published, and then the waiting ones. Takes no memory.
    pub(crate) fn turn(&mut self)
        ensures turns { UnitTurns self.old.unit self.new.unit }
        ensures room { self.new.spare ≡ self.old.spare }
        ensures kept { IsUnit self.new.unit }
    {
        let carry = self.left();
        self.from = self.published();
        self.carry = carry;
    }

    /// Begins the first waiting sample if none is being stored, and makes one store, or none. Takes no memory.
    pub(crate) fn publish_step(&mut self) -> UnitStep
        ensures steps { Steps result self.old.unit self.new.unit }
        ensures kept { IsUnit self.new.unit }
    {
        if self.publisher.phase() != Phase::Idle {
            return self.store();
        }
        let Some(sample) = self.waiting.front() else {
            return UnitStep::Empty;
        };
        match self.publisher.begin(*sample) {
            Begin::Begun => {
                self.waiting.pop_front();
                self.store()
            }
            Begin::CountSpent => UnitStep::Spent,
            Begin::Busy(_) => unreachable!(),
        }
    }

    /// Makes the next store of the sample that is being stored.
    fn store(&mut self) -> UnitStep
        requires { self.old.unit.publisher.phase ≢ Phase.Idle }
        ensures stores { StoresAs self.old.unit result self.new.unit }
        ensures kept { IsUnit self.new.unit }
    {
        let step = self.publisher.step(&self.segment);
        match step {
            PubStep::Stored { word, value } => UnitStep::Stored { word, value },
            PubStep::Idle => unreachable!(),
        }
    }

    pub(crate) fn monitor_seat(&mut self) -> Result<(Arc<Segment>, MonitorSeat), NoMemory>
        ensures part { IfOk result (λ r. (arc_value r.0 ≡ self.old.unit.publisher.segment) × (r.1 ≡ self.old.unit.publisher.segment)) }
        ensures unchanged { self.new ≡ self.old }
        ensures kept { IsUnit self.new.unit }
    {
        let segment = Arc::try_clone(&self.segment)?;
        let seat = self.publisher.monitor_seat(&self.segment);
        Ok((segment, seat))
    }

    pub(crate) fn notice(&mut self) -> Notice
        ensures notice { result ≡ noticed self.old.unit.publisher }
        ensures unchanged { self.new ≡ self.old }
        ensures kept { IsUnit self.new.unit }
    {
        self.publisher.notice(&self.segment)
    }

    pub(crate) fn hear(&mut self, account: Account)
        requires { account.segment ≡ self.old.unit.publisher.segment }
        ensures heard { BearsOut self.old.unit account.taken account.kept }
        ensures unchanged { self.new ≡ self.old }
        ensures kept { IsUnit self.new.unit }
    {
        self.publisher.hear(&self.segment, account);
    }
}
