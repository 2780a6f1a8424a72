ghost use Rattle.std.specs.Prelude.{◌≡◌, ◌≤◌};
ghost use Rattle.gps_fixed.specs.Limits.{most_history, most_queue};
ghost use Rattle.gps_replay.specs.Scripts.{IsReplaying};
ghost use Rattle.replay_player.specs.States.{new_state};

use crate::script::Script;
use gps_fixed::{Bytes, NoMemory};
use line_player::{EndStep, LineStep, PlaysLines};
use std::alloc::Global;

/// The lines of a script. Of their output only the closing lines are written.
#[derive(Drop)]
pub(crate) struct Quiet {
    script: Script,
    unwritten: Bytes,
}

impl Quiet {
    /// No line was played. Takes no memory.
    pub(crate) fn new(alloc: Global, limit: u32, queue: u32) -> Quiet
        requires some { 1 ≤ limit }
        requires most { limit ≤ most_history }
        requires least { 1 ≤ queue }
        requires within { queue ≤ most_queue }
        ensures queue { result.script.queue ≡ queue }
        ensures stands { IsReplaying result.script.queue result.script.player new_state }
    {
        Quiet {
            script: Script::new(alloc, limit, queue),
            unwritten: Bytes::new(alloc),
        }
    }
}

impl PlaysLines for Quiet {
    ghost use Rattle.gps_replay.specs.Closings.{ClosesWith, closing_rules};
    ghost use Rattle.gps_replay.specs.Scripts.{IsReplaying};
    ghost use Rattle.replay_player.specs.States.{State as ScriptState};

    ghost State = { ScriptState };

    ghost rules = { λ q. closing_rules q.script.queue };

    ghost stands = { λ q state. IsReplaying q.script.queue q.script.player state };

    ghost ends = { λ q left. ClosesWith q.script.queue q.script.player left };

    ghost steps_left = { λ _. 0 };

    #[tactic(auto, using(crate::proofs::Silent::silently, crate::proofs::Silent::rules_same))]
    fn line(&mut self, text: &[u8], _out: &mut Bytes) -> Result<LineStep, NoMemory> {
        self.unwritten.clear();
        self.script.line(text, &mut self.unwritten)
    }

    #[tactic(auto, using(crate::proofs::Endings::closes))]
    fn end(&mut self) -> Result<(), NoMemory> {
        Ok(())
    }

    /// The closing lines are few, and make one part.
    #[tactic(auto, using(crate::proofs::Endings::closing_state, crate::proofs::Endings::closed))]
    fn end_step(&mut self, out: &mut Bytes) -> Result<EndStep, NoMemory> {
        self.script.finish_quietly(out)?;
        Ok(EndStep::Last)
    }
}
