ghost use Rattle.std.specs.Prelude.{◌≡◌, option_map};
ghost use Rattle.gps_client.specs.Answers.{Gives};
ghost use Rattle.json_line.specs.declared.names.Key.TheVariants as key;
ghost use Rattle.gps_client.specs.Reading.{member_at, such, whole_at};
ghost use Rattle.gps_client.specs.Objects.{fix_at, is_mode, position_at, tpv_at};

use crate::LineFault;
use crate::cursor::Cursor;
use crate::list::Reads;
use gps_report::{Fix, Name, Position};
use json_line::{Class, Key, head, label};
use std::alloc::Global;

impl<'a> Cursor<'a> {
    #[tactic(auto, unfolding(crate::specs::Objects::position_at))]
    fn position(&mut self) -> Option<Option<Position>>
        ensures { option_map (λ x. (x, self.new)) result ≡ position_at self.old }
    {
        if !self.pass(label(Key::Lat)) {
            return Some(None);
        }
        let lat = self.fixed(9)?;
        let lon = self.fixed_member(Key::Lon, 9)?;
        Some(Some(Position { lat, lon }))
    }

    fn mode(&mut self) -> Option<u8>
        ensures { option_map (λ x. (x, self.new)) result ≡ member_at key.Mode (such is_mode whole_at) self.old }
    {
        let mode = self.whole_member(Key::Mode)?;
        if 1 <= mode && mode <= 3 {
            Some(mode as u8)
        } else {
            None
        }
    }

    #[tactic(auto, unfolding(crate::specs::Objects::fix_at))]
    fn fix(&mut self) -> Option<Fix>
        ensures { option_map (λ x. (x, self.new)) result ≡ fix_at self.old }
    {
        let mode = self.mode()?;
        let time = self.time_member_if(Key::Time)?;
        let position = self.position()?;
        let alt_hae = self.fixed_member_if(Key::AltHae, 3)?;
        let alt_msl = self.fixed_member_if(Key::AltMsl, 3)?;
        let geoid_sep = self.fixed_member_if(Key::GeoidSep, 3)?;
        let track = self.fixed_member_if(Key::Track, 4)?;
        let speed = self.fixed_member_if(Key::Speed, 3)?;
        let climb = self.fixed_member_if(Key::Climb, 3)?;
        Some(Fix {
            mode,
            time,
            position,
            alt_hae,
            alt_msl,
            geoid_sep,
            track,
            speed,
            climb,
        })
    }

    /// A TPV object.
    #[tactic(auto, unfolding(crate::specs::Objects::tpv_at))]
    pub fn tpv(&mut self, alloc: Global) -> Result<(Name, Fix), LineFault>
        ensures { Gives (λ x. x) self.new result (tpv_at self.old) }
    {
        if !self.pass(head(Class::Tpv)) {
            return Err(LineFault::NotALine);
        }
        let name = self.name_member(alloc, Key::Device)?;
        match self.fix() {
            Some(fix) if self.pass(b"}") => Ok((name, fix)),
            _ => Err(LineFault::NotALine),
        }
    }
}

/// Reads the fixes of a POLL.
#[derive(Drop)]
pub struct TpvObjects {
    pub alloc: Global,
}

impl Reads<(Name, Fix)> for TpvObjects {
    ghost use Rattle.gps_client.specs.Objects.{tpv_at};

    ghost reading = { λ reader. tpv_at };

    fn read(&self, cursor: &mut Cursor<'_>) -> Result<(Name, Fix), LineFault> {
        cursor.tpv(self.alloc)
    }
}
