ghost use Rattle.std.specs.Prelude.{◌≡◌};
ghost use Rattle.json_line.specs.declared.names.Key.TheVariants as key;
ghost use Rattle.gps_client.specs.Answers.{Gives};
ghost use Rattle.gps_client.specs.Reading.{list_at, member_at, such};
ghost use Rattle.gps_client.specs.Objects.{are_few, device_at, devices_at};

use crate::cursor::Cursor;
use crate::list::{Reads, list};
use crate::{LineFault, Listed};
use gps_fixed::Stamp;
use gps_report::Name;
use json_line::{Class, Key, head, label};
use std::alloc::Global;

impl<'a> Cursor<'a> {
    /// A DEVICE object.
    #[tactic(auto, unfolding(crate::specs::Objects::device_at))]
    pub fn device(&mut self, alloc: Global) -> Result<(Name, Option<Stamp>), LineFault>
        ensures { Gives (λ x. x) self.new result (device_at self.old) }
    {
        if !self.pass(head(Class::Device)) {
            return Err(LineFault::NotALine);
        }
        let path = self.name_member(alloc, Key::Path)?;
        match self.time_member_if(Key::Activated) {
            Some(activated) if self.pass(b"}") => Ok((path, activated)),
            _ => Err(LineFault::NotALine),
        }
    }

    fn listed(&mut self, alloc: Global) -> Result<Listed, LineFault>
        ensures { Gives (λ x. x) self.new result (member_at key.Devices (such are_few (list_at device_at)) self.old) }
    {
        if !self.pass(label(Key::Devices)) {
            return Err(LineFault::NotALine);
        }
        let items = list(alloc, self, &DeviceObjects { alloc })?;
        if items.len() <= 8 {
            Ok(Listed::of(items))
        } else {
            Err(LineFault::NotALine)
        }
    }

    /// A DEVICES object.
    #[tactic(auto, unfolding(crate::specs::Objects::devices_at))]
    pub fn devices(&mut self, alloc: Global) -> Result<Listed, LineFault>
        ensures { Gives (λ x. x) self.new result (devices_at self.old) }
    {
        if !self.pass(head(Class::Devices)) {
            return Err(LineFault::NotALine);
        }
        let listed = self.listed(alloc)?;
        if self.pass(b"}") {
            Ok(listed)
        } else {
            Err(LineFault::NotALine)
        }
    }
}

/// Reads the devices of a DEVICES line.
#[derive(Drop)]
struct DeviceObjects {
    alloc: Global,
}

impl Reads<(Name, Option<Stamp>)> for DeviceObjects {
    ghost use Rattle.gps_client.specs.Objects.{device_at};

    ghost reading = { λ reader. device_at };

    fn read(&self, cursor: &mut Cursor<'_>) -> Result<(Name, Option<Stamp>), LineFault> {
        cursor.device(self.alloc)
    }
}
