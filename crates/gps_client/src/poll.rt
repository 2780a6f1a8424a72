ghost use Rattle.std.specs.Prelude.{◌≡◌};
ghost use Rattle.json_line.specs.declared.names.Key.TheVariants as key;
ghost use Rattle.gps_client.specs.Answers.{Gives};
ghost use Rattle.gps_client.specs.Reading.{list_at, member_at};
ghost use Rattle.gps_client.specs.Objects.{poll_at, polled_at, sky_at, tpv_at};

use crate::cursor::Cursor;
use crate::fix::TpvObjects;
use crate::list::list;
use crate::sky::SkyObjects;
use crate::{Fixes, LineFault, Polled, Skies};
use json_line::{Class, Key, head, label};
use std::alloc::Global;

impl<'a> Cursor<'a> {
    fn fixes(&mut self, alloc: Global) -> Result<Fixes, LineFault>
        ensures { Gives (λ x. x) self.new result (member_at key.Tpv (list_at tpv_at) self.old) }
    {
        if !self.pass(label(Key::Tpv)) {
            return Err(LineFault::NotALine);
        }
        let items = list(alloc, self, &TpvObjects { alloc })?;
        Ok(Fixes::of(items))
    }

    fn skies(&mut self, alloc: Global) -> Result<Skies, LineFault>
        ensures { Gives (λ x. x) self.new result (member_at key.Sky (list_at sky_at) self.old) }
    {
        if !self.pass(label(Key::Sky)) {
            return Err(LineFault::NotALine);
        }
        let items = list(alloc, self, &SkyObjects { alloc })?;
        Ok(Skies::of(items))
    }

    #[tactic(auto, unfolding(crate::specs::Objects::polled_at))]
    fn polled(&mut self, alloc: Global) -> Result<Polled, LineFault>
        ensures { Gives (λ x. x) self.new result (polled_at self.old) }
    {
        let time = self.time_member_if(Key::Time).ok_or(LineFault::NotALine)?;
        let active = self
            .up_to_member(Key::Active, 255)
            .ok_or(LineFault::NotALine)? as u8;
        let tpv = self.fixes(alloc)?;
        let sky = self.skies(alloc)?;
        Ok(Polled {
            time,
            active,
            tpv,
            sky,
        })
    }

    /// A POLL object.
    #[tactic(auto, unfolding(crate::specs::Objects::poll_at))]
    pub fn poll(&mut self, alloc: Global) -> Result<Polled, LineFault>
        ensures { Gives (λ x. x) self.new result (poll_at self.old) }
    {
        if !self.pass(head(Class::Poll)) {
            return Err(LineFault::NotALine);
        }
        let polled = self.polled(alloc)?;
        if self.pass(b"}") {
            Ok(polled)
        } else {
            Err(LineFault::NotALine)
        }
    }
}
