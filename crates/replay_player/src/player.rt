//! Any event of a script.

ghost use Rattle.std.specs.Prelude.{◌≡◌, ◌≤◌, ◌++◌, IfOk, OnOk, List, [], replicate};
ghost use Rattle.gps_fixed.specs.Limits.{most_history, most_queue};
ghost use Rattle.replay_script.specs.Events.{Fits};
ghost use Rattle.replay_player.specs.Effects.{effect};
ghost use Rattle.replay_player.specs.Ending.{Leaves};
ghost use Rattle.replay_player.specs.Ends.{closings_at_end, written_at_end};
ghost use Rattle.replay_player.specs.Players.{LinePlayed, PlayerStandsFor};
ghost use Rattle.replay_player.specs.Playing.{BookStandsFor, declared_state};
ghost use Rattle.replay_player.specs.States.{State, new_state};

use crate::declarations::Declarations;
use crate::event_step::EventStep;
use crate::replay_book::ReplayBook;
use crate::script_end::ScriptEnd;
use gps_fixed::{Bytes, NoMemory};
use replay_script::ScriptEvent;
use std::alloc::Global;

/// A script that is being played.
#[derive(Drop)]
pub enum Player {
    /// No event has come: devices and units are declared.
    Declaring(Declarations),
    /// An event has come.
    Playing(ReplayBook),
}

/// On a stage.
fn play_on(
    mut stage: ReplayBook,
    queue: u32,
    event: ScriptEvent,
    out: &mut Bytes,
) -> Result<Option<Player>, NoMemory>
    requires least { 1 ≤ queue }
    requires most { queue ≤ most_queue }
    requires fits { Fits event }
    requires known { (state : State) × BookStandsFor stage state }
    ensures played { (state : State) → BookStandsFor stage state → LinePlayed result (effect queue state event) out.old out.new }
{
    match stage.play(queue, event, out)? {
        EventStep::Made => Ok(Some(Player::Playing(stage))),
        EventStep::Refused => Ok(None),
    }
}

/// Before the first event, which opens the stage.
fn play_first(
    mut declarations: Declarations,
    queue: u32,
    event: ScriptEvent,
    out: &mut Bytes,
) -> Result<Option<Player>, NoMemory>
    requires least { 1 ≤ queue }
    requires most { queue ≤ most_queue }
    requires fits { Fits event }
    ensures played { LinePlayed result (effect queue (declared_state declarations.names declarations.firsts) event) out.old out.new }
{
    match event {
        ScriptEvent::Nothing => Ok(Some(Player::Declaring(declarations))),
        ScriptEvent::Device(name) => match declarations.declare(name)? {
            EventStep::Made => Ok(Some(Player::Declaring(declarations))),
            EventStep::Refused => Ok(None),
        },
        ScriptEvent::Segment { unit, first } => match declarations.number(unit, first) {
            EventStep::Made => Ok(Some(Player::Declaring(declarations))),
            EventStep::Refused => Ok(None),
        },
        event => {
            let stage = declarations.begin()?;
            play_on(stage, queue, event, out)
        }
    }
}

impl Player {
    /// No line was played. Takes no memory.
    pub fn new(alloc: Global, limit: u32) -> Player
        requires some { 1 ≤ limit }
        requires most { limit ≤ most_history }
        ensures { PlayerStandsFor result new_state }
    {
        Player::Declaring(Declarations::new(alloc, limit))
    }

    /// Does what an event does, and adds what it writes; none if it may not come now. An outlet keeps `queue` items if the event
    /// says no other number.
    pub fn play(
        self,
        queue: u32,
        event: ScriptEvent,
        out: &mut Bytes,
    ) -> Result<Option<Player>, NoMemory>
        requires least { 1 ≤ queue }
        requires most { queue ≤ most_queue }
        requires fits { Fits event }
        requires known { (state : State) × PlayerStandsFor self state }
        ensures played { (state : State) → PlayerStandsFor self state → LinePlayed result (effect queue state event) out.old out.new }
    {
        match self {
            Player::Declaring(declarations) => play_first(declarations, queue, event, out),
            Player::Playing(stage) => play_on(stage, queue, event, out),
        }
    }

    /// Ends the script: no event may follow.
    pub fn end(self) -> Result<ScriptEnd, NoMemory>
        requires known { (state : State) × PlayerStandsFor self state }
        ensures leaves { (state : State) → PlayerStandsFor self state → IfOk result (λ end. Leaves end (written_at_end state)) }
    {
        match self {
            Player::Declaring(declarations) => end_first(declarations),
            Player::Playing(stage) => ScriptEnd::of(stage),
        }
    }
}

impl Player {
    /// Does what happens at a script's end, and adds only its closing lines, without the items that are left.
    pub fn finish_quietly(self, out: &mut Bytes) -> Result<(), NoMemory>
        requires known { (state : State) × PlayerStandsFor self state }
        ensures writes { (state : State) → PlayerStandsFor self state → OnOk result (out.new ≡ out.old ++ closings_at_end state) }
    {
        match self {
            Player::Declaring(declarations) => close_first(declarations, out),
            Player::Playing(stage) => close_on(stage, out),
        }
    }
}

/// On a stage. It only forwards, for the prover: its contract is of each state that the stage stands for.
fn close_on(mut stage: ReplayBook, out: &mut Bytes) -> Result<(), NoMemory>
    ensures { (state : State) → BookStandsFor stage state → OnOk result (out.new ≡ out.old ++ closings_at_end state) }
{
    stage.end_quietly(out)
}

/// The same if no event came, on the stage of the declarations.
fn close_first(declarations: Declarations, out: &mut Bytes) -> Result<(), NoMemory>
    ensures { OnOk result (out.new ≡ out.old ++ closings_at_end (declared_state declarations.names declarations.firsts)) }
{
    let stage = declarations.begin()?;
    close_on(stage, out)
}

/// The same if no event came, on the stage of the declarations.
fn end_first(declarations: Declarations) -> Result<ScriptEnd, NoMemory>
    ensures { IfOk result (λ end. Leaves end (written_at_end (declared_state declarations.names declarations.firsts))) }
{
    let stage = declarations.begin()?;
    ScriptEnd::of(stage)
}
