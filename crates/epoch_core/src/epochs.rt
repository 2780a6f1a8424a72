ghost use Rattle.std.specs.Prelude.{◌≡◌, ◌≤◌, ◌+◌, ◌∷◌, ◌++◌, [], true, false, None, Some, List, length, unwrap_or, cond, IfOk, OnOk, OnErr};
ghost use Rattle.std.specs.List.{list_all};
ghost use Rattle.gps_report.specs.Fits.{Fits, where_given};
ghost use Rattle.epoch_core.specs.declared.heard.Heard.{Heard};
ghost use Rattle.epoch_core.specs.Days.{is_known_day};
ghost use Rattle.epoch_core.specs.Epochs.{Gains, left, leaves_a_second, is_eoe as eoe};
ghost use Rattle.epoch_core.specs.Quantities.{breaks};
ghost use Rattle.epoch_core.specs.Kept.{Ran, EpochsKept, EpochsView, StandsFor};
ghost use Rattle.epoch_core.specs.Steps.{nothing_ran, kept_caused, kept_after, ran_closing, ran_grown, ran_before, ran_caused};

use crate::checkpoint::{Checkpoint, set_aside};
use crate::days::Days;
use crate::running::{Running, is_eoe};
use gps_fixed::{NoMemory, Stamp};
use gps_report::{Body, Note, NoteKind};
use std::alloc::Global;
use std::marker::Model;
use std::mem;

/// The running epoch of one receiver, with the day and the last time of day; nothing of closed epochs.
///
/// It may keep a checkpoint, and goes back to it without memory.
#[derive(Debug, Drop)]
pub struct Epochs {
    alloc: Global,
    days: Days,
    running: Running,
    checkpoint: Option<Checkpoint>,
}

impl Model for Epochs {
    ghost use Rattle.epoch_core.specs.Kept.{EpochsView};
    ghost use Rattle.epoch_core.specs.Checkpoints.{kept_now, back_from, IsSound};

    ghost Value = { EpochsView };

    ghost view = { λ e. record { now = kept_now e.days e.running; back = back_from e.checkpoint e.running } };

    ghost invariant = { λ e. IsSound e.days e.running e.checkpoint };
}

impl Epochs {
    /// No note was heard. Takes no memory.
    #[tactic(auto, unfolding(crate::specs::Checkpoints::back_from, crate::specs::Checkpoints::HoldsCheckpoint), using(crate::proofs::Renewed::stands_new))]
    pub fn new(alloc: Global) -> Epochs
        ensures stands { StandsFor result.now [] }
        ensures unmarked { result.back ≡ None }
    {
        Epochs {
            alloc,
            days: Days {
                day: None,
                last_tod: None,
            },
            running: Running::new(alloc),
            checkpoint: None,
        }
    }

    /// Replaces the running epoch; the old one is set aside if there is a checkpoint.
    #[tactic(auto, using(crate::proofs::Renewed::back_stays, crate::proofs::Renewed::checkpoint_stays))]
    fn renew(&mut self, fresh: Running)
        ensures { self.new ≡ record { now = record self.old.now { ran = fresh }; back = self.old.back } }
    {
        let old = mem::replace(&mut self.running, fresh);
        set_aside(&mut self.checkpoint, old);
    }

    /// Makes the present state the checkpoint, in place of an earlier one. Takes no memory.
    #[tactic(auto, unfolding(crate::specs::Checkpoints::back_from, crate::specs::Checkpoints::HoldsCheckpoint), using(crate::proofs::Grown::at_now, crate::proofs::Grown::within_now))]
    pub fn checkpoint(&mut self)
        ensures { self.new ≡ record { now = self.old.now; back = Some self.old.now } }
    {
        self.checkpoint = Some(Checkpoint {
            days: self.days,
            point: self.running.point(),
            aside: None,
        });
    }

    /// Drops the checkpoint. Takes no memory.
    #[tactic(auto, unfolding(crate::specs::Checkpoints::back_from, crate::specs::Checkpoints::HoldsCheckpoint))]
    pub fn commit(&mut self)
        ensures { self.new ≡ record { now = self.old.now; back = None } }
    {
        self.checkpoint = None;
    }

    /// Goes back to the checkpoint, if there is one, and drops it. Takes no memory.
    #[tactic(auto, unfolding(crate::specs::Checkpoints::back_from, crate::specs::Checkpoints::HoldsCheckpoint))]
    pub fn undo(&mut self)
        ensures { self.new ≡ record { now = unwrap_or self.old.back self.old.now; back = None } }
    {
        let checkpoint = mem::replace(&mut self.checkpoint, None);
        if let Some(checkpoint) = checkpoint {
            let Checkpoint { days, point, aside } = checkpoint;
            if let Some(old) = aside {
                self.running = old;
            }
            self.running.undo(&point);
            self.days = days;
        }
    }

    /// A note that begins another epoch: the running one closes.
    #[tactic(auto, unfolding(crate::specs::Steps::ran_caused, crate::specs::Steps::ran_before))]
    fn begin(&mut self, note: &Note, first: Stamp, day: Option<u32>) -> Result<Vec<Body>, NoMemory>
        requires fits { Fits note.now }
        requires day { where_given is_known_day day ≡ true }
        requires begins { breaks note.now.tag self.old.now.ran.said ≡ true }
        ensures ok { OnOk result (self.new
            ≡ record {
              now = record self.old.now {
                ran = ran_grown (ran_before self.old.now.ran (record { note = note.now; first = first; day = day }))
                    (record { note = note.now; first = first; day = day });
              };
              back = self.old.back;
            }) }
        ensures told { IfOk result (λ out. out.items ≡ ran_caused self.old.now.ran (record { note = note.now; first = first; day = day })) }
        ensures err { OnErr result (self.new ≡ self.old) }
    {
        let mut out = Vec::new(self.alloc);
        self.running.close(self.alloc, &mut out)?;
        let mut fresh = Running::new(self.alloc);
        fresh.tell(self.alloc, note, first, day, &mut out)?;
        self.renew(fresh);
        Ok(out)
    }

    /// A note of the running epoch, or the first of all.
    #[tactic(auto, unfolding(crate::specs::Steps::ran_caused, crate::specs::Steps::ran_before), using(crate::proofs::Renewed::back_grown, crate::proofs::Renewed::checkpoint_grown))]
    fn go_on(&mut self, note: &Note, first: Stamp, day: Option<u32>) -> Result<Vec<Body>, NoMemory>
        requires fits { Fits note.now }
        requires day { where_given is_known_day day ≡ true }
        requires begins { breaks note.now.tag self.old.now.ran.said ≡ false }
        ensures ok { OnOk result (self.new
            ≡ record {
              now = record self.old.now {
                ran = ran_grown (ran_before self.old.now.ran (record { note = note.now; first = first; day = day }))
                    (record { note = note.now; first = first; day = day });
              };
              back = self.old.back;
            }) }
        ensures told { IfOk result (λ out. out.items ≡ ran_caused self.old.now.ran (record { note = note.now; first = first; day = day })) }
        ensures err { OnErr result (self.new ≡ self.old) }
    {
        let mut out = Vec::new(self.alloc);
        self.running.tell(self.alloc, note, first, day, &mut out)?;
        Ok(out)
    }

    fn tell(&mut self, note: &Note, first: Stamp, day: Option<u32>) -> Result<Vec<Body>, NoMemory>
        requires fits { Fits note.now }
        requires day { where_given is_known_day day ≡ true }
        ensures ok { OnOk result (self.new
            ≡ record {
              now = record self.old.now {
                ran = ran_grown (ran_before self.old.now.ran (record { note = note.now; first = first; day = day }))
                    (record { note = note.now; first = first; day = day });
              };
              back = self.old.back;
            }) }
        ensures told { IfOk result (λ out. out.items ≡ ran_caused self.old.now.ran (record { note = note.now; first = first; day = day })) }
        ensures err { OnErr result (self.new ≡ self.old) }
    {
        if self.running.is_broken_by(note.tag) {
            self.begin(note, first, day)
        } else {
            self.go_on(note, first, day)
        }
    }

    /// After a note: an end of epoch leaves no epoch running, and the calendar is the note's.
    fn end_note(&mut self, kind: NoteKind, days: Days)
        requires { where_given is_known_day days.day ≡ true }
        ensures { self.new ≡ record {
          now = record { ran = cond (eoe kind) nothing_ran self.old.now.ran; day = days.day; last_tod = days.last_tod };
          back = self.old.back;
        } }
    {
        if is_eoe(kind) {
            self.renew(Running::new(self.alloc));
        }
        self.days = days;
    }

    #[tactic(auto, unfolding(crate::specs::Steps::kept_after, crate::specs::Steps::kept_caused, crate::specs::Steps::ran_next), using(crate::proofs::Low::days_known, crate::proofs::Low::told_all_low, crate::proofs::Low::few_told))]
    fn step(&mut self, note: &Note, first: Stamp) -> Result<Vec<Body>, NoMemory>
        requires fits { Fits note.now }
        ensures ok { OnOk result (self.new ≡ record { now = kept_after self.old.now (record { note = note.now; first = first }); back = self.old.back }) }
        ensures told { IfOk result (λ out. out.items ≡ kept_caused self.old.now (record { note = note.now; first = first })) }
        ensures low { IfOk result (λ out. list_all leaves_a_second out.items ≡ true) }
        ensures few { IfOk result (λ out. length out.items ≤ 5) }
        ensures err { OnErr result (self.new ≡ self.old) }
    {
        let days = self.days.after(note);
        let out = self.tell(note, first, days.day)?;
        self.end_note(note.kind, days);
        Ok(out)
    }

    /// The reports that one more note causes: the Tpv and the Sky of an epoch that it closes by beginning another, a Toff
    /// if it is the first of its epoch with a time of day at which the day is known, then the Tpv and the Sky of an epoch
    /// that it ends. `first` is the stamp of the first byte of its packet. The whole second after each Toff's reference is a
    /// stamp as well. A refusal changes nothing; the checkpoint stays.
    #[tactic(auto, using(crate::proofs::Told::gained))]
    pub fn take(&mut self, note: &Note, first: Stamp) -> Result<Vec<Body>, NoMemory>
        // What the note adds, to the list of notes and to the reports.
        requires { Fits note.now }
        ensures gains { IfOk result (λ out. (notes : List Heard) → StandsFor self.old.now notes
            → Gains notes (record { note = note.now; first = first }) out.items) }
        ensures stands { OnOk result ((notes : List Heard) → StandsFor self.old.now notes
            → StandsFor self.new.now (notes ++ record { note = note.now; first = first } ∷ [])) }

        // The checkpoint, and bounds of the reports.
        ensures checkpoint { OnOk result (self.new.back ≡ self.old.back) }
        ensures low { IfOk result (λ out. list_all leaves_a_second out.items ≡ true) }
        ensures few { IfOk result (λ out. length out.items ≤ 5) }

        // What a refusal leaves.
        ensures err { OnErr result (self.new ≡ self.old) }
    {
        let out = self.step(note, first)?;
        Ok(out)
    }

    /// Closes the running epoch, as at the device's end; then no epoch runs. A refusal changes nothing; the checkpoint stays.
    #[tactic(auto, using(crate::proofs::Told::left_over, crate::proofs::Low::few_closing))]
    pub fn finish(&mut self) -> Result<Vec<Body>, NoMemory>
        ensures gains { IfOk result (λ out. (notes : List Heard) → StandsFor self.old.now notes → out.items ≡ left notes) }
        ensures few { IfOk result (λ out. length out.items ≤ 2) }
        ensures closed { OnOk result (self.new ≡ record { now = record self.old.now { ran = nothing_ran }; back = self.old.back }) }
        ensures err { OnErr result (self.new ≡ self.old) }
    {
        let mut out = Vec::new(self.alloc);
        self.running.close(self.alloc, &mut out)?;
        self.renew(Running::new(self.alloc));
        Ok(out)
    }

    /// Another that stands for the same notes, without the checkpoint.
    #[tactic(auto, unfolding(crate::specs::Checkpoints::back_from, crate::specs::Checkpoints::HoldsCheckpoint))]
    pub fn copy(&self) -> Result<Epochs, NoMemory>
        ensures { IfOk result (λ e. e ≡ record { now = self.now.now; back = None }) }
    {
        let running = self.running.copy(self.alloc)?;
        Ok(Epochs {
            alloc: self.alloc,
            days: self.days,
            running,
            checkpoint: None,
        })
    }

    /// The number of satellites and used ids of the running epoch, each once: at most 84,915 satellites that sentences name,
    /// 65,536 others of frames, and 4,995 ids with their system. Takes no memory.
    pub fn kept(&self) -> u32
        ensures exact { result ≡ length self.now.now.ran.sats + length self.now.now.ran.used_ids }
        ensures bound { result ≤ 155_446 }
    {
        self.running.kept()
    }
}
