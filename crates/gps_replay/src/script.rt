ghost use Rattle.std.specs.Prelude.{◌≡◌, ◌≤◌, ◌++◌, Some, OnOk};
ghost use Rattle.gps_fixed.specs.Limits.{most_history, most_queue};
ghost use Rattle.gps_replay.specs.Scripts.{IsReplaying, end_step_of};
ghost use Rattle.replay_player.specs.Ends.{closings_at_end};
ghost use Rattle.replay_player.specs.States.{State, new_state};

use gps_fixed::{Bytes, NoMemory};
use line_player::{EndStep, LineStep, PlaysLines};
use replay_player::{Player, ScriptEnd};
use replay_script::event_of;
use std::alloc::Global;

/// The lines of a script, each played as its event.
#[derive(Drop)]
pub(crate) struct Script {
    alloc: Global,
    queue: u32,
    /// None once a line was refused, the script has ended, or memory ran out.
    player: Option<Player>,
    /// What is left, once the script has ended.
    end: Option<ScriptEnd>,
}

fn put(place: &mut Option<Player>, player: Player)
    ensures { place.new ≡ Some player }
{
    *place = Some(player);
}

fn put_end(place: &mut Option<ScriptEnd>, end: ScriptEnd)
    ensures { place.new ≡ Some end }
{
    *place = Some(end);
}

/// The step of an end that adds more, or nothing more.
fn end_step_of(more: bool) -> EndStep
    ensures { result ≡ end_step_of more }
{
    if more { EndStep::More } else { EndStep::Last }
}

impl Script {
    /// No line was played. Takes no memory.
    pub(crate) fn new(alloc: Global, limit: u32, queue: u32) -> Script
        requires some { 1 ≤ limit }
        requires most { limit ≤ most_history }
        requires least { 1 ≤ queue }
        requires within { queue ≤ most_queue }
        ensures queue { result.queue ≡ queue }
        ensures stands { IsReplaying result.queue result.player new_state }
    {
        Script {
            alloc,
            queue,
            player: Some(Player::new(alloc, limit)),
            end: None,
        }
    }

    /// Adds the closing lines of the script's end, without the items that are left.
    pub(crate) fn finish_quietly(&mut self, out: &mut Bytes) -> Result<(), NoMemory>
        requires known { (state : State) × IsReplaying self.old.queue self.old.player state }
        ensures writes { (state : State) → IsReplaying self.old.queue self.old.player state
            → OnOk result (out.new ≡ out.old ++ closings_at_end state) }
    {
        match self.player.take() {
            Some(player) => player.finish_quietly(out),
            None => unreachable!(),
        }
    }
}

impl PlaysLines for Script {
    ghost use Rattle.gps_replay.specs.Run.{rules_of};
    ghost use Rattle.gps_replay.specs.Scripts.{HasLeft, IsReplaying, most_steps};
    ghost use Rattle.replay_player.specs.States.{State as ScriptState};

    ghost State = { ScriptState };

    ghost rules = { λ s. rules_of s.queue };

    ghost stands = { λ s state. IsReplaying s.queue s.player state };

    ghost ends = { λ s left. HasLeft s.end left };

    ghost steps_left = { λ s. most_steps s.end };

    #[tactic(auto, using(crate::proofs::Rounds::no_event, crate::proofs::Rounds::refused, crate::proofs::Rounds::made))]
    fn line(&mut self, text: &[u8], out: &mut Bytes) -> Result<LineStep, NoMemory> {
        let Some(event) = event_of(self.alloc, text)? else {
            return Ok(LineStep::Refused);
        };
        let Some(player) = self.player.take() else {
            unreachable!()
        };
        match player.play(self.queue, event, out)? {
            Some(player) => {
                put(&mut self.player, player);
                Ok(LineStep::Made)
            }
            None => Ok(LineStep::Refused),
        }
    }

    #[tactic(auto, using(crate::proofs::Endings::has_left))]
    fn end(&mut self) -> Result<(), NoMemory> {
        match self.player.take() {
            Some(player) => {
                let end = player.end()?;
                put_end(&mut self.end, end);
                Ok(())
            }
            None => unreachable!(),
        }
    }

    #[tactic(auto, using(crate::proofs::Endings::part_of, crate::proofs::Endings::is_more))]
    fn end_step(&mut self, out: &mut Bytes) -> Result<EndStep, NoMemory> {
        match &mut self.end {
            Some(end) => {
                let more = end.step(out)?;
                Ok(end_step_of(more))
            }
            None => unreachable!(),
        }
    }
}
