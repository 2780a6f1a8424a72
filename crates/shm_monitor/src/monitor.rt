ghost use Rattle.std.specs.Prelude.{◌≡◌, ◌+◌, ◌<◌, ◌≤◌, length};
ghost use Rattle.shm_segment.specs.Rule.{Rises, last_from};
ghost use Rattle.shm_monitor.specs.Loads.{Agrees};
ghost use Rattle.shm_monitor.specs.MonitorView.{opening, LoadsAs, HasRead, IsNotOld, informed, accounted};

use crate::loads::{load_body, load_count, load_count_again, load_valid};
use crate::plays::Meets;
use crate::reading::{MonStep, Reading};
use shm_segment::{
    Account, Accounts, COUNT, MonitorSeat, Notice, Numbered, Sample, Segment, TableSeat, VALID,
};
use std::marker::Model;

/// Takes samples from a segment. Contracts see what it knows of the stores, its pairs, its loads, and its running reading.
#[derive(Drop)]
pub struct Monitor {
    seat: TableSeat,
    // How many values of the running reading are loaded: count, valid and the words of the body.
    at: u8,
    count: u32,
    valid: u64,
    body: [u64; 9],
    last: u32,
}

impl Model for Monitor {
    ghost use Rattle.std.specs.Prelude.{◌∷◌, take};
    ghost use Rattle.shm_monitor.specs.MonitorView.{MonitorView, watching, IsMonitor};

    ghost Value = { MonitorView };

    ghost view = { λ m. watching m.seat.table_id m.seat.me.0 (take m.at (m.count ∷ m.valid ∷ m.body)) };

    ghost invariant = { λ m. IsMonitor m.seat.me m.at m.count m.valid m.body m.last };
}

impl Monitor {
    /// A monitor that has not read yet.
    pub fn of(seat: MonitorSeat) -> Monitor
        ensures { result ≡ opening seat }
    {
        let MonitorSeat { seat } = seat;
        Monitor {
            seat,
            at: 0,
            count: 0,
            valid: 0,
            body: [0; 9],
            last: 0,
        }
    }

    fn read_count(&mut self, segment: &Segment) -> MonStep
        requires part { self.old.segment ≡ segment.now }
        requires at { length self.old.reading ≡ 0 }
        ensures { LoadsAs self.old result self.new }
    {
        self.count = load_count(segment, &mut self.seat);
        self.at = 1;
        MonStep::Loaded {
            word: COUNT,
            value: u64::from(self.count),
        }
    }

    fn read_valid(&mut self, segment: &Segment) -> MonStep
        requires part { self.old.segment ≡ segment.now }
        requires at { length self.old.reading ≡ 1 }
        ensures { LoadsAs self.old result self.new }
    {
        let valid = load_valid(segment, &mut self.seat);
        if valid == 0 {
            self.at = 0;
            return MonStep::Done(Reading::NotReady {
                count: self.count,
                valid,
            });
        }
        self.valid = valid;
        self.at = 2;
        MonStep::Loaded {
            word: VALID,
            value: valid,
        }
    }

    fn read_body(&mut self, segment: &Segment) -> MonStep
        requires part { self.old.segment ≡ segment.now }
        requires from { 2 ≤ length self.old.reading }
        requires to { length self.old.reading < 11 }
        ensures { LoadsAs self.old result self.new }
    {
        let place = self.at - 2;
        let (word, value) = load_body(segment, &mut self.seat, place);
        self.body[usize::from(place)] = value;
        self.at += 1;
        MonStep::Loaded { word, value }
    }

    fn read_count_again(&mut self, segment: &Segment) -> MonStep
        requires part { self.old.segment ≡ segment.now }
        requires at { length self.old.reading ≡ 11 }
        ensures { LoadsAs self.old result self.new }
    {
        let before = self.count;
        let after = load_count_again(segment, &mut self.seat);
        self.at = 0;
        if before != after {
            return MonStep::Done(Reading::Clash { before, after });
        }
        self.last = after / 2;
        MonStep::Done(Reading::Taken(Numbered {
            number: self.last,
            sample: Sample::of_body(&self.body),
        }))
    }

    /// Makes the one next load of the running reading, or of a new one: count, valid, the nine words of the body, count.
    /// A valid of 0 ends the reading with NotReady, and the second count with Taken or Clash.
    #[tactic(auto, using(crate::proofs::Positions::load_segment, crate::proofs::Positions::load_one))]
    pub fn step(&mut self, segment: &Segment) -> MonStep
        requires { self.old.segment ≡ segment.now }
        ensures loads { LoadsAs self.old result self.new }
        ensures segment { self.new.segment ≡ self.old.segment }
        ensures one { length self.new.kept ≡ length self.old.kept + 1 }
    {
        if self.at == 0 {
            self.read_count(segment)
        } else if self.at == 1 {
            self.read_valid(segment)
        } else if self.at < 11 {
            self.read_body(segment)
        } else {
            self.read_count_again(segment)
        }
    }

    /// Drops an unfinished reading, and makes one by loads of its own: two if valid is 0, else twelve.
    ///
    /// The number of a taken sample is half of the count that was loaded twice. It is not below the last one, nor below
    /// any that a notice reached which was met before.
    pub fn try_read(&mut self, segment: &Segment) -> Reading
        requires { self.old.segment ≡ segment.now }
        ensures read { HasRead self.old result self.new }
        ensures not_old { IsNotOld self.old result }
        ensures loads { (length self.old.kept + 2 ≤ length self.new.kept) × (length self.new.kept ≤ length self.old.kept + 12) }
        ensures segment { self.new.segment ≡ self.old.segment }
    {
        self.at = 0;
        self.read_count(segment);
        if let MonStep::Done(reading) = self.read_valid(segment) {
            return reading;
        }
        for _ in 0..9u32 {
            self.read_body(segment);
        }
        match self.read_count_again(segment) {
            MonStep::Done(reading) => reading,
            MonStep::Loaded { word: _, value: _ } => unreachable!(),
        }
    }

    /// The number of the last taken sample, and 0 before the first. The numbers do not fall.
    pub fn last(&self) -> u32
        ensures last { result ≡ last_from 0 self.now.taken }
        ensures rises { Rises 0 self.now.taken }
    {
        self.last
    }

    /// Compares the pairs with a notice: each pair whose number the notice reaches is its sample of that number. From now
    /// on the monitor knows of as many stores as the notice says, or of more. It loads word 0 twice.
    pub fn meet(&mut self, segment: &Segment, notice: Notice)
        requires monitor { self.old.segment ≡ segment.now }
        requires notice { notice.segment ≡ segment.now }
        ensures agrees { Agrees self.old.segment.first notice.known self.old.taken }
        ensures told { notice.known.stores ≤ self.new.known.stores }
        ensures informed { self.new ≡ informed self.old notice.known }
    {
        let Notice { seat } = notice;
        segment
            .table
            .shared
            .join_seat::<Meets>(&mut self.seat, seat);
        segment.table.shared.load::<Meets>(&mut self.seat, 0);
    }

    /// A copy of the monitor's pairs and loads. It loads word 0.
    pub fn account(&mut self, segment: &Segment) -> Account
        requires { self.old.segment ≡ segment.now }
        ensures account { result ≡ accounted self.old }
        ensures unchanged { self.new ≡ self.old }
    {
        Account {
            seat: segment.table.shared.split_seat::<Accounts>(&mut self.seat),
        }
    }
}
