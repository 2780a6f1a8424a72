ghost use Rattle.std.specs.Prelude.{◌≡◌, option_map};
ghost use Rattle.json_line.specs.Lines.{error, version};
ghost use Rattle.gps_client.specs.Answers.{Gives};
ghost use Rattle.gps_client.specs.Reading.{word_at};
ghost use Rattle.gps_client.specs.Objects.{error_at, object_of};

use crate::cursor::Cursor;
use crate::{Line, LineFault};
use gps_report::CommandFault;
use json_line::Class;
use std::alloc::Global;

/// The object of a VERSION line, which is always the same.
#[tactic(auto, using(crate::proofs::Heads::version_is))]
fn version_object() -> &'static [u8]
    ensures { result.now ≡ version }
{
    b"{\"class\":\"VERSION\",\"release\":\"gpsrelay-1\",\"rev\":\"1\",\"proto_major\":3,\"proto_minor\":1}"
}

/// The object of an ERROR line.
#[tactic(auto, using(crate::proofs::Heads::unknown_is, crate::proofs::Heads::bad_json_is, crate::proofs::Heads::bad_watch_is, crate::proofs::Heads::too_long_is))]
fn error_object(fault: CommandFault) -> &'static [u8]
    ensures { result.now ≡ error fault }
{
    match fault {
        CommandFault::Unknown => b"{\"class\":\"ERROR\",\"message\":\"Unrecognized request\"}",
        CommandFault::BadJson => b"{\"class\":\"ERROR\",\"message\":\"Malformed JSON\"}",
        CommandFault::BadWatch => b"{\"class\":\"ERROR\",\"message\":\"Invalid WATCH\"}",
        CommandFault::TooLong => b"{\"class\":\"ERROR\",\"message\":\"Request too long\"}",
    }
}

impl<'a> Cursor<'a> {
    #[tactic(auto, unfolding(crate::specs::Objects::error_at))]
    fn error(&mut self) -> Option<CommandFault>
        ensures { option_map (λ x. (x, self.new)) result ≡ error_at self.old }
    {
        if self.pass(error_object(CommandFault::Unknown)) {
            Some(CommandFault::Unknown)
        } else if self.pass(error_object(CommandFault::BadJson)) {
            Some(CommandFault::BadJson)
        } else if self.pass(error_object(CommandFault::BadWatch)) {
            Some(CommandFault::BadWatch)
        } else if self.pass(error_object(CommandFault::TooLong)) {
            Some(CommandFault::TooLong)
        } else {
            None
        }
    }

    /// The object of a class.
    pub fn object(&mut self, alloc: Global, class: Class) -> Result<Line, LineFault>
        ensures { Gives (λ x. x) self.new result (object_of class self.old) }
    {
        match class {
            Class::Version if self.pass(version_object()) => Ok(Line::Version),
            Class::Version => Err(LineFault::NotALine),
            Class::Devices => Ok(Line::Devices(self.devices(alloc)?)),
            Class::Device => {
                let (path, activated) = self.device(alloc)?;
                Ok(Line::Device { path, activated })
            }
            Class::Watch => Ok(Line::Watch(self.watch(alloc)?)),
            Class::Poll => Ok(Line::Poll(self.poll(alloc)?)),
            Class::Tpv => {
                let (device, fix) = self.tpv(alloc)?;
                Ok(Line::Tpv { device, fix })
            }
            Class::Sky => {
                let (device, sky) = self.sky(alloc)?;
                Ok(Line::Sky { device, sky })
            }
            Class::Toff => {
                let (device, pair) = self.toff(alloc)?;
                Ok(Line::Toff { device, pair })
            }
            Class::Pps => {
                let (device, pair) = self.pps(alloc)?;
                Ok(Line::Pps { device, pair })
            }
            Class::Error => match self.error() {
                Some(fault) => Ok(Line::Error(fault)),
                None => Err(LineFault::NotALine),
            },
        }
    }
}
