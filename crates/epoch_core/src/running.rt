ghost use Rattle.std.specs.Prelude.{◌≡◌, ◌∷◌, ◌++◌, ◌≤◌, ◌+◌, [], true, cond, map, length, IfOk, OnOk, OnErr, List, None};
ghost use Rattle.std.specs.List.{list_all};
ghost use Rattle.gps_report.specs.Fits.{Fits, is_satellite, where_given};
ghost use Rattle.epoch_core.specs.Days.{is_known_day};
ghost use Rattle.epoch_core.specs.Quantities.{serial_time as serial_time_of, breaks as breaks_from};
ghost use Rattle.epoch_core.specs.Satellites.{is_gsa as gsa, used_id_by, used_ids_in, same_used_id, same_satellite, system_of as named_system};
ghost use Rattle.epoch_core.specs.Epochs.{is_eoe as eoe};
ghost use Rattle.epoch_core.specs.Fixes.{fix_of as fix_made};
ghost use Rattle.epoch_core.specs.Kept.{Ran};
ghost use Rattle.epoch_core.specs.Steps.{all_added, nothing_ran, ran_grown, ran_sky, ran_closing, ran_told, toff_told};
ghost use Rattle.epoch_core.specs.Keys.{by_key, used_id_key};
ghost use Rattle.epoch_core.specs.Tidy.{is_used_id};
ghost use Rattle.epoch_core.specs.Checkpoints.{point_of, ran_at};

use crate::fixes::fix_of;
use crate::marks::sky_sats;
use crate::once::Once;
use crate::point::Point;
use crate::said::{Said, serial_time};
use crate::used_id::UsedId;
use gps_fixed::{NoMemory, Stamp};
use gps_report::{Body, Note, NoteKind, Pair, Satellite, Sats, Sky, Tag};
use std::alloc::Global;
use std::marker::Model;

/// The running epoch: its quantities, and its satellites and used ids, each once.
#[derive(Debug, Drop)]
pub struct Running {
    said: Said,
    sats: Once<Satellite>,
    used_ids: Once<UsedId>,
}

impl Model for Running {
    ghost use Rattle.epoch_core.specs.Kept.{Ran};
    ghost use Rattle.epoch_core.specs.Tidy.{IsTidy};

    ghost Value = { Ran };

    ghost view = { λ r. record { said = r.said; sats = r.sats; used_ids = r.used_ids } };

    ghost invariant = { λ r. IsTidy r.sats r.used_ids };
}

pub fn is_gsa(kind: NoteKind) -> bool
    ensures { result ≡ gsa kind }
{
    matches!(kind, NoteKind::Gsa)
}

pub fn is_eoe(kind: NoteKind) -> bool
    ensures { result ≡ eoe kind }
{
    matches!(kind, NoteKind::Eoe)
}

pub fn system_of(satellite: &Satellite) -> Option<u8>
    ensures { result ≡ named_system satellite.now }
{
    match satellite.gnss {
        Some((system, _)) => Some(system),
        None => None,
    }
}

/// The Toff of an epoch, if its next note is the first that has a serial time.
#[tactic(auto, unfolding(crate::specs::Steps::toff_told, crate::specs::Steps::said_grown))]
fn push_toff(
    out: &mut Vec<Body>,
    said: &Said,
    note: &Note,
    first: Stamp,
    day: Option<u32>,
) -> Result<(), NoMemory>
    requires fits { Fits note.now }
    requires day { where_given is_known_day day ≡ true }
    ensures { OnOk result (out.new.items ≡ out.old.items ++ toff_told said.now (record { note = note.now; first = first; day = day })) }
{
    match (said.stamped, serial_time(note.tod, day)) {
        (None, Some(reference)) => {
            let host = said.first.unwrap_or(first);
            out.push(Body::Toff(Pair { reference, host }))?;
            Ok(())
        }
        _ => Ok(()),
    }
}

/// Adds the satellites of a note. A refusal changes nothing. It only forwards, for the prover: its contract speaks of the note.
#[tactic(auto, using(crate::proofs::Sameness::sats_added, crate::proofs::Sameness::sats_fit))]
fn add_satellites(sats: &mut Once<Satellite>, note: &Note) -> Result<(), NoMemory>
    requires kept { list_all is_satellite sats.old ≡ true }
    requires fits { Fits note.now }
    ensures ok { OnOk result (sats.new ≡ all_added same_satellite sats.old note.now.sats) }
    ensures fits { list_all is_satellite sats.new ≡ true }
    ensures err { OnErr result (sats.new ≡ sats.old) }
{
    sats.add_all(note.sats.as_slice())
}

/// Adds the ids that a GSA calls used. A refusal changes nothing.
#[tactic(auto, using(crate::proofs::Sameness::used_ids_added, crate::proofs::Sameness::used_ids_fit))]
fn add_used(used_ids: &mut Once<UsedId>, note: &Note) -> Result<(), NoMemory>
    requires kept { list_all is_used_id used_ids.old ≡ true }
    requires fits { Fits note.now }
    ensures ok { OnOk result (used_ids.new ≡ all_added same_used_id used_ids.old (used_ids_in note.now)) }
    ensures fits { list_all is_used_id used_ids.new ≡ true }
    ensures err { OnErr result (used_ids.new ≡ used_ids.old) }
{
    if is_gsa(note.kind) {
        add_ids(used_ids, note.used.as_slice(), note.system)
    } else {
        Ok(())
    }
}

#[tactic(auto, using(crate::proofs::Sameness::ids_next, crate::proofs::Sameness::ids_front))]
fn add_ids(used_ids: &mut Once<UsedId>, ids: &[u32], system: Option<u8>) -> Result<(), NoMemory>
    ensures ok { OnOk result (used_ids.new ≡ all_added (by_key used_id_key) used_ids.old (map (used_id_by system) ids.now)) }
    ensures err { OnErr result (used_ids.new ≡ used_ids.old) }
{
    let len = used_ids.len();
    for id in ids {
        match used_ids.add(&UsedId { id: *id, system }) {
            Ok(()) => {}
            Err(refused) => {
                used_ids.truncate(len);
                return Err(refused);
            }
        }
    }
    Ok(())
}

/// Adds the satellites and the used ids of a note. A refusal changes nothing.
#[tactic(auto, using(crate::proofs::Added::added_front))]
fn add_lists(
    sats: &mut Once<Satellite>,
    used_ids: &mut Once<UsedId>,
    note: &Note,
) -> Result<(), NoMemory>
    // What the lists and the note have to satisfy.
    requires sats { list_all is_satellite sats.old ≡ true }
    requires used_ids { list_all is_used_id used_ids.old ≡ true }
    requires fits { Fits note.now }

    // What the lists are after it.
    ensures sats { OnOk result (sats.new ≡ all_added same_satellite sats.old note.now.sats) }
    ensures used_ids { OnOk result (used_ids.new ≡ all_added same_used_id used_ids.old (used_ids_in note.now)) }
    ensures sats_fit { list_all is_satellite sats.new ≡ true }
    ensures used_ids_fit { list_all is_used_id used_ids.new ≡ true }

    // What a refusal leaves.
    ensures sats_err { OnErr result (sats.new ≡ sats.old) }
    ensures used_ids_err { OnErr result (used_ids.new ≡ used_ids.old) }
{
    let len = sats.len();
    add_satellites(sats, note)?;
    match add_used(used_ids, note) {
        Ok(()) => Ok(()),
        Err(refused) => {
            sats.truncate(len);
            Err(refused)
        }
    }
}

impl Running {
    /// No epoch runs. Takes no memory.
    #[tactic(auto, unfolding(crate::specs::Steps::nothing_ran))]
    pub fn new(alloc: Global) -> Running
        ensures { result ≡ nothing_ran }
    {
        Running {
            said: Said::nothing(),
            sats: Once::new(alloc),
            used_ids: Once::new(alloc),
        }
    }

    /// Whether a note with this tag begins another epoch.
    pub fn is_broken_by(&self, tag: Option<Tag>) -> bool
        ensures { result ≡ breaks_from tag self.now.said }
    {
        self.said.breaks(tag)
    }

    pub fn point(&self) -> Point
        ensures { result ≡ point_of self.now }
    {
        Point {
            said: self.said,
            sats: self.sats.len(),
            used_ids: self.used_ids.len(),
        }
    }

    /// Goes back to what the epoch was at the point.
    #[tactic(auto, using(crate::proofs::Sameness::all_fit_front))]
    pub fn undo(&mut self, point: &Point)
        ensures { self.new ≡ ran_at point.now self.old }
    {
        self.sats.truncate(point.sats);
        self.used_ids.truncate(point.used_ids);
        self.said = point.said;
    }

    /// One more note of this epoch. A refusal changes nothing.
    #[tactic(auto, unfolding(crate::specs::Steps::ran_grown))]
    fn grow(&mut self, note: &Note, first: Stamp, day: Option<u32>) -> Result<(), NoMemory>
        requires fits { Fits note.now }
        requires day { where_given is_known_day day ≡ true }
        ensures ok { OnOk result (self.new ≡ ran_grown self.old (record { note = note.now; first = first; day = day })) }
        ensures err { OnErr result (self.new ≡ self.old) }
    {
        add_lists(&mut self.sats, &mut self.used_ids, note)?;
        self.said.grow(note, first, serial_time(note.tod, day));
        Ok(())
    }

    #[tactic(auto, unfolding(crate::specs::Steps::ran_sky))]
    fn sky(&self, alloc: Global) -> Result<Sky, NoMemory>
        ensures { IfOk result (λ sky. sky ≡ ran_sky self.now) }
    {
        let sats = sky_sats(alloc, self.sats.as_slice(), &self.used_ids)?;
        Ok(Sky {
            time: self.said.time,
            pdop: self.said.pdop,
            hdop: self.said.hdop,
            vdop: self.said.vdop,
            sats: Sats::from_vec(sats),
        })
    }

    fn push_tpv(&self, out: &mut Vec<Body>) -> Result<(), NoMemory>
        ensures { OnOk result (out.new.items ≡ out.old.items ++ cond self.now.said.has_fix (Body.Tpv (fix_made self.now.said) ∷ []) []) }
    {
        if self.said.has_fix {
            out.push(Body::Tpv(fix_of(&self.said)))?;
        }
        Ok(())
    }

    fn push_sky(&self, alloc: Global, out: &mut Vec<Body>) -> Result<(), NoMemory>
        ensures { OnOk result (out.new.items ≡ out.old.items ++ cond self.now.said.has_sky (Body.Sky (ran_sky self.now) ∷ []) []) }
    {
        if self.said.has_sky {
            let sky = self.sky(alloc)?;
            out.push(Body::Sky(sky))?;
        }
        Ok(())
    }

    /// The Tpv and the Sky of the epoch, as it closes.
    #[tactic(auto, unfolding(crate::specs::Steps::ran_closing))]
    pub fn close(&self, alloc: Global, out: &mut Vec<Body>) -> Result<(), NoMemory>
        ensures { OnOk result (out.new.items ≡ out.old.items ++ ran_closing self.now) }
    {
        self.push_tpv(out)?;
        self.push_sky(alloc, out)
    }

    /// One more note of this epoch, and what it gives: a Toff, and the closing if the note ends the epoch.
    /// A refusal changes nothing but `out`.
    #[tactic(auto, unfolding(crate::specs::Steps::ran_told))]
    pub fn tell(
        &mut self,
        alloc: Global,
        note: &Note,
        first: Stamp,
        day: Option<u32>,
        out: &mut Vec<Body>,
    ) -> Result<(), NoMemory>
        requires fits { Fits note.now }
        requires day { where_given is_known_day day ≡ true }
        ensures ok { OnOk result (self.new ≡ ran_grown self.old (record { note = note.now; first = first; day = day })) }
        ensures told { OnOk result (out.new.items ≡ out.old.items ++ ran_told self.old (record { note = note.now; first = first; day = day })) }
        ensures err { OnErr result (self.new ≡ self.old) }
    {
        push_toff(out, &self.said, note, first, day)?;
        if is_eoe(note.kind) {
            self.end(alloc, note, first, day, out)
        } else {
            self.grow(note, first, day)
        }
    }

    /// The last note of this epoch, which then closes. A refusal changes nothing but `out`.
    #[tactic(auto, using(crate::proofs::Grown::grown_back))]
    fn end(
        &mut self,
        alloc: Global,
        note: &Note,
        first: Stamp,
        day: Option<u32>,
        out: &mut Vec<Body>,
    ) -> Result<(), NoMemory>
        requires fits { Fits note.now }
        requires day { where_given is_known_day day ≡ true }
        ensures ok { OnOk result (self.new ≡ ran_grown self.old (record { note = note.now; first = first; day = day })) }
        ensures told { OnOk result (out.new.items ≡ out.old.items ++ ran_closing self.new) }
        ensures err { OnErr result (self.new ≡ self.old) }
    {
        let before = self.point();
        self.grow(note, first, day)?;
        match self.close(alloc, out) {
            Ok(()) => Ok(()),
            Err(refused) => {
                self.undo(&before);
                Err(refused)
            }
        }
    }

    pub fn copy(&self, alloc: Global) -> Result<Running, NoMemory>
        ensures { IfOk result (λ r. r ≡ self.now) }
    {
        let sats = self.sats.copy(alloc)?;
        let used_ids = self.used_ids.copy(alloc)?;
        Ok(Running {
            said: self.said,
            sats,
            used_ids,
        })
    }

    /// The number of satellites and used ids.
    #[tactic(auto, using(crate::proofs::Counts::few_kept))]
    pub fn kept(&self) -> u32
        ensures exact { result ≡ length self.now.sats + length self.now.used_ids }
        ensures bound { result ≤ 155_446 }
    {
        let sats = self.sats.len();
        let used_ids = self.used_ids.len();
        (sats + used_ids) as u32
    }
}
