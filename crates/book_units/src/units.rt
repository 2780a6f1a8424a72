ghost use Rattle.std.specs.Prelude.{◌≡◌, ℕ, ◌+◌, ◌*◌, ◌<◌, ◌≤◌, ◌==◌, if◌then◌else◌, [], ◌∷◌, length, take, slice_index, slice_index_or, IfOk, OnOk, map};
ghost use Rattle.std.specs.Arc.{arc_value};
ghost use Rattle.std.specs.List.{All, AllZip};
ghost use Rattle.shm_segment.specs.Publishing.{noticed};
ghost use Rattle.book_units.specs.Changes.{AreTurned, EachUnit, UnitGains, UnitTurns, turned};
ghost use Rattle.book_units.specs.Samples.{sample_of, samples_in, samples_of};
ghost use Rattle.book_units.specs.Steps.{BearsOut, Publishes, state_of};
ghost use Rattle.book_units.specs.Units.{UnitView, HasRoom, HasRoomAt, IsInOrder, IsNew, IsUnit, segment_of};

use crate::unit::{Unit, UnitState, UnitStep};
use gps_fixed::NoMemory;
use gps_report::{Body, Pair, Report};
use shm_segment::{Account, MonitorSeat, Notice, Sample, Segment};
use std::alloc::Global;
use std::marker::Model;
use std::sync::Arc;

/// The precision of a time that came over a serial line: half a second.
const SERIAL: i8 = -1;

/// The precision of a time that a pulse marked: about a microsecond.
const PULSE: i8 = -20;

/// The units of a book: unit 2d has the serial times of device d, unit 2d + 1 its pulses. Contracts see the list of
/// units, and the list of how many more samples each has room for.
#[derive(Drop)]
pub struct Units {
    units: Vec<Unit>,
}

impl Model for Units {
    ghost use Rattle.std.specs.List.{All};
    ghost use Rattle.book_units.specs.Units.{UnitsView, RoomView, IsUnit, units_view};

    ghost Value = { UnitsView };

    ghost view = { λ s. units_view s.units.items };

    ghost invariant = { λ s. All (λ (r : RoomView). IsUnit r.unit) s.units.items };
}

fn sample(pair: Pair, precision: i8) -> Sample
    ensures { result ≡ sample_of precision pair }
{
    Sample {
        reference: pair.reference,
        host: pair.host,
        precision,
    }
}

#[tactic(auto, using(crate::proofs::Rooms::turned_more, crate::proofs::Rooms::turned_all))]
fn turn_all(units: &mut [Unit])
    ensures { AreTurned units.old units.new }
{
    for unit in units.iter_mut() {
        unit.turn();
    }
}

impl Units {
    /// The two units of each device, in the order of the devices, whose segments begin at these numbers.
    #[tactic(auto, using(crate::proofs::Rooms::new_none, crate::proofs::Rooms::new_more, crate::proofs::Rooms::new_all))]
    pub fn new(alloc: Global, devices: u8, firsts: [u32; 16]) -> Result<Units, NoMemory>
        requires devices { devices ≤ 8 }
        requires firsts { All (λ first. first ≤ 1073741823) firsts }
        ensures new { IfOk result (λ s. AllZip IsNew (take (2 * devices) firsts) s.units) }
        ensures count { IfOk result (λ s. length s.units ≡ 2 * devices) }
    {
        let mut units = Vec::new(alloc);
        for first in &firsts[..2 * usize::from(devices)] {
            units.push(Unit::new(alloc, *first)?)?;
        }
        Ok(Units { units })
    }

    /// How many units there are. Of each, the samples since the last turn are the published ones and those that are left.
    pub fn count(&self) -> usize
        ensures count { result ≡ length self.now.units }
        ensures order { All IsInOrder self.now.units }
        ensures kept { All IsUnit self.now.units }
    {
        self.units.len()
    }

    /// Makes room at both units of a device for this many more samples. Refused also if more than 4,294,967,294 could
    /// wait at one of them then. A refusal changes no unit.
    pub fn reserve(&mut self, device: u8, more: usize) -> Result<(), NoMemory>
        requires { 2 * device + 1 < length self.old.units }
        ensures units { self.new.units ≡ self.old.units }
        ensures room { OnOk result (HasRoomAt device more self.new.spare) }
    {
        let serial = 2 * usize::from(device);
        self.reserve_at(serial, more)?;
        self.reserve_at(serial + 1, more)
    }

    fn reserve_at(&mut self, u: usize, more: usize) -> Result<(), NoMemory>
        requires { u < length self.old.units }
        ensures units { self.new.units ≡ self.old.units }
        ensures room { OnOk result (more ≤ slice_index self.new.spare u) }
        ensures others { (v : ℕ) → slice_index self.old.spare v ≤ slice_index self.new.spare v }
    {
        let unit = &mut self.units[u];
        unit.reserve(more)
    }

    /// Queues the samples of these reports, each at its unit and in order. Takes no memory.
    #[tactic(auto, using(crate::proofs::Rooms::added_none, crate::proofs::Rooms::next_room, crate::proofs::Rooms::added_more, crate::proofs::Rooms::added_all))]
    pub fn add_all(&mut self, reports: &[Report])
        requires { HasRoom self.old.spare reports.now }
        ensures { EachUnit (λ u. UnitGains (samples_of u reports.now)) self.old.units self.new.units }
    {
        for report in reports {
            self.add(report);
        }
    }

    fn add(&mut self, report: &Report)
        requires { (u : ℕ) → length (samples_in u report.now.device report.now.body) ≤ slice_index self.old.spare u }
        ensures gains { EachUnit (λ u. UnitGains (samples_in u report.now.device report.now.body)) self.old.units self.new.units }
        ensures room { (u : ℕ) → slice_index self.new.spare u + length (samples_in u report.now.device report.now.body) ≡ slice_index self.old.spare u }
    {
        let serial = 2 * usize::from(report.device);
        match &report.body {
            Body::Toff(pair) => self.put(serial, sample(*pair, SERIAL)),
            Body::Pps(pair) => self.put(serial + 1, sample(*pair, PULSE)),
            Body::Packet(_) | Body::Tpv(_) | Body::Sky(_) | Body::Device(_) => {}
        }
    }

    fn put(&mut self, u: usize, sample: Sample)
        requires { 0 < slice_index self.old.spare u }
        ensures gains { EachUnit (λ v. UnitGains (if v == u then sample ∷ [] else [])) self.old.units self.new.units }
        ensures room { (v : ℕ) → slice_index self.new.spare v + length (if v == u then sample ∷ [] else []) ≡ slice_index self.old.spare v }
    {
        let unit = &mut self.units[u];
        unit.add(sample);
    }

    /// Carries, at each unit, the sample that is begun and not published, and then the waiting ones. Takes no memory.
    pub fn turn(&mut self)
        ensures turned { self.new.units ≡ map turned self.old.units }
        ensures turns { EachUnit (λ _. UnitTurns) self.old.units self.new.units }
        ensures room { self.new.spare ≡ self.old.spare }
    {
        turn_all(self.units.as_mut_slice());
    }

    /// Begins the first waiting sample of a unit if none is being stored there, and makes one store, or none. Takes no
    /// memory.
    pub fn publish_step(&mut self, u: u8) -> UnitStep
        requires { u < length self.old.units }
        ensures { Publishes u result self.old.units self.new.units }
    {
        let unit = &mut self.units[usize::from(u)];
        unit.publish_step()
    }

    /// Shares the unit's segment, and then makes a seat for a monitor of it.
    pub fn monitor_seat(&mut self, u: u8) -> Result<(Arc<Segment>, MonitorSeat), NoMemory>
        requires { u < length self.old.units }
        ensures part { IfOk result (λ r. (x : UnitView) → (arc_value r.0 ≡ segment_of (slice_index_or self.old.units u x))
            × (r.1 ≡ segment_of (slice_index_or self.old.units u x))) }
        ensures unchanged { self.new ≡ self.old }
    {
        let unit = &mut self.units[usize::from(u)];
        unit.monitor_seat()
    }

    /// What the unit's publisher has published, as a notice for a monitor. Takes no memory.
    pub fn notice(&mut self, u: u8) -> Notice
        requires { u < length self.old.units }
        ensures notice { (x : UnitView) → result ≡ noticed (slice_index_or self.old.units u x).publisher }
        ensures unchanged { self.new ≡ self.old }
    {
        let unit = &mut self.units[usize::from(u)];
        unit.notice()
    }

    /// Learns what a monitor of the unit's segment took and loaded. Takes no memory.
    pub fn hear(&mut self, u: u8, account: Account)
        requires unit { u < length self.old.units }
        requires account { (x : UnitView) → account.segment ≡ segment_of (slice_index_or self.old.units u x) }
        ensures heard { (x : UnitView) → BearsOut (slice_index_or self.old.units u x) account.taken account.kept }
        ensures unchanged { self.new ≡ self.old }
    {
        let unit = &mut self.units[usize::from(u)];
        unit.hear(account);
    }

    pub fn unit(&self, u: u8) -> UnitState
        requires { u < length self.now.units }
        ensures { (x : UnitView) → result ≡ state_of (slice_index_or self.now.units u x) }
    {
        let unit = &self.units[usize::from(u)];
        unit.state()
    }
}
