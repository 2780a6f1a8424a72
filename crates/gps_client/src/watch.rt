ghost use Rattle.std.specs.Prelude.{◌≡◌};
ghost use Rattle.gps_client.specs.Answers.{Gives};
ghost use Rattle.gps_client.specs.Objects.{policy_at, watch_at};

use crate::LineFault;
use crate::cursor::Cursor;
use gps_report::Policy;
use json_line::{Class, Key, head};
use std::alloc::Global;

impl<'a> Cursor<'a> {
    #[tactic(auto, unfolding(crate::specs::Objects::policy_at))]
    fn policy(&mut self, alloc: Global) -> Result<Policy, LineFault>
        ensures { Gives (λ x. x) self.new result (policy_at self.old) }
    {
        let enable = self.truth_member(Key::Enable).ok_or(LineFault::NotALine)?;
        let json = self.truth_member(Key::Json).ok_or(LineFault::NotALine)?;
        let nmea = self.truth_member(Key::Nmea).ok_or(LineFault::NotALine)?;
        let raw = self.up_to_member(Key::Raw, 2).ok_or(LineFault::NotALine)? as u8;
        let pps = self.truth_member(Key::Pps).ok_or(LineFault::NotALine)?;
        let device = self.name_member_if(alloc, Key::Device)?;
        Ok(Policy {
            enable,
            json,
            nmea,
            raw,
            pps,
            device,
        })
    }

    /// A WATCH object.
    #[tactic(auto, unfolding(crate::specs::Objects::watch_at))]
    pub fn watch(&mut self, alloc: Global) -> Result<Policy, LineFault>
        ensures { Gives (λ x. x) self.new result (watch_at self.old) }
    {
        if !self.pass(head(Class::Watch)) {
            return Err(LineFault::NotALine);
        }
        let policy = self.policy(alloc)?;
        if self.pass(b"}") {
            Ok(policy)
        } else {
            Err(LineFault::NotALine)
        }
    }
}
