ghost use Rattle.std.specs.Prelude.{◌≡◌, ◌≤◌, ◌&&◌, ◌*◌, not, nat_eq, nat_lt, replicate, List, [], length, IfOk, Ok};
ghost use Rattle.std.specs.List.{list_any};
ghost use Rattle.std.specs.Cmp.Lexicographic.{pointwise};
ghost use Rattle.gps_fixed.specs.Limits.{most_history};
ghost use Rattle.replay_player.specs.Effects.{declares, most_devices, numbers};
ghost use Rattle.replay_player.specs.Playing.{DeclaresAs, Opens, declared_state};

use crate::event_step::EventStep;
use crate::replay_book::ReplayBook;
use gps_fixed::NoMemory;
use gps_report::{Name, Names};
use std::alloc::Global;
use std::marker::Model;

/// How many devices may be declared.
const MOST_DEVICES: usize = 8;

/// The devices and units that a script declares before its first event.
#[derive(Drop)]
pub struct Declarations {
    alloc: Global,
    limit: u32,
    names: Vec<Name>,
    firsts: [u32; 16],
}

impl Model for Declarations {
    ghost use Rattle.replay_player.specs.Playing.{DeclaredView, IsDeclared};

    ghost Value = { DeclaredView };

    ghost view = { λ d. record { names = d.names.items; firsts = d.firsts } };

    ghost invariant = { λ d. IsDeclared d.limit d.names.items d.firsts };
}

/// Whether one of these names is this one.
fn is_taken(names: &[Name], name: &Name) -> bool
    ensures { result ≡ list_any (λ other. pointwise nat_eq other name.now) names.now }
{
    names.iter().any(|other| *other == *name)
}

impl Declarations {
    /// No device yet, and every unit's samples are numbered from 1 on. Takes no memory.
    pub fn new(alloc: Global, limit: u32) -> Declarations
        requires some { 1 ≤ limit }
        requires most { limit ≤ most_history }
        ensures { result ≡ record { names = []; firsts = replicate 16 0 } }
    {
        Declarations {
            alloc,
            limit,
            names: Vec::new(alloc),
            firsts: [0; 16],
        }
    }

    /// Whether there is room for a device of this name, and none has it.
    fn is_new(&self, name: &Name) -> bool
        ensures { result ≡ (nat_lt (length self.now.names) most_devices && not (list_any (λ other. pointwise nat_eq other name.now) self.now.names)) }
    {
        self.names.len() < MOST_DEVICES && !is_taken(self.names.as_slice(), name)
    }

    /// The next device has this name.
    pub fn declare(&mut self, name: Name) -> Result<EventStep, NoMemory>
        ensures { DeclaresAs result (declares name (declared_state self.old.names self.old.firsts)) self.new }
    {
        if !self.is_new(&name) {
            return Ok(EventStep::Refused);
        }
        self.names.push(name)?;
        Ok(EventStep::Made)
    }

    /// A unit's samples are numbered from the one after this number on.
    pub fn number(&mut self, u: u64, first: u32) -> EventStep
        requires { first ≤ 1073741823 }
        ensures { DeclaresAs (Ok result) (numbers u first (declared_state self.old.names self.old.firsts)) self.new }
    {
        if u >= 2 * self.names.len() as u64 {
            return EventStep::Refused;
        }
        self.firsts[u as usize] = first;
        EventStep::Made
    }

    /// The stage of these devices: no event has come.
    pub fn begin(self) -> Result<ReplayBook, NoMemory>
        ensures { IfOk result (λ s. Opens self.names self.firsts s) }
    {
        let Declarations {
            alloc,
            limit,
            names,
            firsts,
        } = self;
        match Names::of(names) {
            Some(names) => ReplayBook::new(alloc, names, limit, firsts),
            None => unreachable!(),
        }
    }
}
