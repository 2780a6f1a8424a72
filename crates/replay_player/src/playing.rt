//! Any event of a script, on a stage.

ghost use Rattle.std.specs.Prelude.{◌≡◌, ◌≤◌, List, []};
ghost use Rattle.gps_fixed.specs.Limits.{most_queue};
ghost use Rattle.replay_script.specs.Events.{Fits};
ghost use Rattle.replay_player.specs.Effects.{effect};
ghost use Rattle.replay_player.specs.Playing.{Acts, BookStandsFor};
ghost use Rattle.replay_player.specs.States.{State};

use crate::event_step::EventStep;
use crate::replay_book::ReplayBook;
use gps_fixed::{Bytes, NoMemory};
use replay_script::ScriptEvent;

impl ReplayBook {
    /// Does what an event does, and adds what it writes. Devices and units are declared before a stage is there, so it refuses them.
    pub fn play(
        &mut self,
        queue: u32,
        event: ScriptEvent,
        out: &mut Bytes,
    ) -> Result<EventStep, NoMemory>
        requires least { 1 ≤ queue }
        requires most { queue ≤ most_queue }
        requires fits { Fits event }
        requires known { (state : State) × BookStandsFor self.old state }
        ensures acts { (state : State) → BookStandsFor self.old state → Acts result (effect queue state event) self.new out.old out.new }
    {
        match event {
            ScriptEvent::Nothing => Ok(EventStep::Made),
            ScriptEvent::Device(_) => Ok(EventStep::Refused),
            ScriptEvent::Segment { unit: _, first: _ } => Ok(EventStep::Refused),
            ScriptEvent::Feed { device, at, bytes } => self.feed(device, at, bytes.as_slice()),
            ScriptEvent::Edge { device, edge } => self.edge(device, edge),
            ScriptEvent::End(device) => self.end_device(device),
            ScriptEvent::Lose(device) => self.lose_device(device),
            ScriptEvent::Open { session, cap } => self.open_with(session, cap, queue),
            ScriptEvent::Input { session, bytes } => self.input(session, bytes.as_slice()),
            ScriptEvent::Hang(session) => self.hang(session),
            ScriptEvent::Take { session, most } => self.take(session, most, out),
            ScriptEvent::Monitor { monitor, unit } => self.watch(monitor, unit),
            ScriptEvent::Store { unit, steps } => self.store(unit, steps),
            ScriptEvent::Load { monitor, steps } => self.load(monitor, steps, out),
        }
    }
}
