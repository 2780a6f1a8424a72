ghost use Rattle.std.specs.Prelude.{◌≡◌};
ghost use Rattle.gps_outside.specs.Links.{AsksOf, IsUnread, IsUnwritten};
ghost use Rattle.gps_outside.specs.DoorPlans.{HaveLinks, by_entry};

use crate::plan::next_entry;
use crate::{AtEnd, ClientSink, Door, DoorPlan, DoorStep, Source};
use std::marker::Model;
use std::vec::IntoIter;

/// A door in memory that follows a plan, entry by entry. After the plan it is closed, or quiet for ever, as `at_end` says.
#[derive(Drop)]
pub struct MemoryDoor<I: Source, K: ClientSink> {
    plan: IntoIter<DoorPlan<I, K>>,
    at_end: AtEnd,
    faults: u64,
    quiets: u64,
}

impl<I: Source, K: ClientSink> Model for MemoryDoor<I, K> {
    ghost use Rattle.std.specs.Vec.Iter.{into_iter_items};
    ghost use Rattle.gps_outside.specs.Links.{AsksOf, IsUnread, IsUnwritten};
    ghost use Rattle.gps_outside.specs.DoorPlans.{Gate, HaveLinks};

    ghost Value = { Gate I K };

    ghost view = { λ s. record { plan = into_iter_items s.plan; at_end = s.at_end; faults = s.faults; quiets = s.quiets } };

    // No link was used before it is returned.
    ghost invariant = { λ s. HaveLinks
        (λ source. IsUnread (I.content source) (I.faults source) (I.quiets source))
        (λ sink. IsUnwritten (K.written sink) (K.faults sink))
        (λ source sink. AsksOf (I.content source) (K.asks sink)) (into_iter_items s.plan) };
}

impl<I: Source, K: ClientSink> MemoryDoor<I, K> {
    /// Nothing was read from a link's source and nothing was written to its sink, if their contents are modelled. What the sink says that
    /// its client sends is what is left in the source.
    pub fn new(plan: Vec<DoorPlan<I, K>>, at_end: AtEnd) -> MemoryDoor<I, K>
        requires { HaveLinks
            (λ source. IsUnread (I.content source) (I.faults source) (I.quiets source))
            (λ sink. IsUnwritten (K.written sink) (K.faults sink))
            (λ source sink. AsksOf (I.content source) (K.asks sink)) plan.items }
        ensures { result ≡ record { plan = plan.items; at_end = at_end; faults = 0; quiets = 0 } }
    {
        MemoryDoor {
            plan: plan.into_iter(),
            at_end,
            faults: 0,
            quiets: 0,
        }
    }

    /// How often the door failed.
    pub fn faults(&self) -> u64
        ensures { result ≡ self.now.faults }
    {
        self.faults
    }

    /// How often no link waited.
    pub fn quiets(&self) -> u64
        ensures { result ≡ self.now.quiets }
    {
        self.quiets
    }
}

impl<I: Source, K: ClientSink> Door for MemoryDoor<I, K> {
    ghost use Rattle.std.specs.Prelude.{◌≡◌, ◌≤◌, Some};
    ghost use Rattle.gps_outside.specs.declared.door.DoorStep.{DoorStep};
    ghost use Rattle.gps_outside.specs.Counts.{Rose};
    ghost use Rattle.gps_outside.specs.Links.{Admits, AsksOf, FailsOnly, IfLink, IsUnread, IsUnwritten};
    ghost use Rattle.gps_outside.specs.DoorPlans.{answer_of, gate_after, links_of};

    type In = I;

    type Out = K;

    ghost faults = { λ s. s.faults };

    ghost quiets = { λ s. s.quiets };

    ghost links = { λ s. Some (links_of s.plan) };

    fn accept(&mut self) -> DoorStep<I, K>
        // What each door promises.
        ensures links { Admits result (Some (links_of self.old.plan)) (Some (links_of self.new.plan)) }
        ensures unread { IfLink result (λ source sink. IsUnread (I.content source) (I.faults source) (I.quiets source)) }
        ensures unwritten { IfLink result (λ source sink. IsUnwritten (K.written sink) (K.faults sink)) }
        ensures client { IfLink result (λ source sink. AsksOf (I.content source) (K.asks sink)) }
        ensures faults_stay { self.old.faults ≤ self.new.faults }
        ensures quiets_stay { self.old.quiets ≤ self.new.quiets }
        ensures failed { result ≡ DoorStep.Failed → Rose self.old.faults self.new.faults }
        ensures only { FailsOnly result self.old.faults self.new.faults }
        ensures quiet { result ≡ DoorStep.Quiet → Rose self.old.quiets self.new.quiets }

        // This one answers as its plan says.
        ensures answer { result ≡ answer_of self.old }
        ensures after { self.new ≡ gate_after result self.old }
    {
        let step = step_by(next_entry(&mut self.plan), self.at_end);
        match &step {
            DoorStep::Link(_, _) => {}
            DoorStep::Closed => {}
            DoorStep::Quiet => self.quiets = self.quiets.saturating_add(1),
            DoorStep::Failed => self.faults = self.faults.saturating_add(1),
        }
        step
    }
}

/// What an entry of the plan answers.
fn step_by<I, K>(entry: Option<DoorPlan<I, K>>, at_end: AtEnd) -> DoorStep<I, K>
    ensures { result ≡ by_entry entry at_end }
{
    match (entry, at_end) {
        (None, AtEnd::End) => DoorStep::Closed,
        (None, AtEnd::Quiet) => DoorStep::Quiet,
        (Some(DoorPlan::Link(source, sink)), _) => DoorStep::Link(source, sink),
        (Some(DoorPlan::Quiet), _) => DoorStep::Quiet,
        (Some(DoorPlan::Fail), _) => DoorStep::Failed,
    }
}
