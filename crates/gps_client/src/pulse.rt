ghost use Rattle.std.specs.Prelude.{◌≡◌, option_map, Some, None, if◌then◌else◌};
ghost use Rattle.gps_client.specs.Answers.{Gives};
ghost use Rattle.gps_client.specs.Objects.{pair_at, pps_at, precision_rest, toff_at};

use crate::LineFault;
use crate::cursor::Cursor;
use gps_fixed::Stamp;
use gps_report::{Name, Pair};
use json_line::{Class, Key, head, label};
use std::alloc::Global;

impl<'a> Cursor<'a> {
    #[tactic(auto, unfolding(crate::specs::Objects::pair_at))]
    fn pair(&mut self) -> Option<Pair>
        ensures { option_map (λ x. (x, self.new)) result ≡ pair_at self.old }
    {
        let real_sec = self.up_to_member(Key::RealSec, 9_999_999_999)?;
        let real_nsec = self.up_to_member(Key::RealNsec, 999_999_999)?;
        let clock_sec = self.up_to_member(Key::ClockSec, 9_999_999_999)?;
        let clock_nsec = self.up_to_member(Key::ClockNsec, 999_999_999)?;
        let reference = Stamp {
            sec: real_sec as i64,
            nsec: real_nsec as u32,
        };
        let host = Stamp {
            sec: clock_sec as i64,
            nsec: clock_nsec as u32,
        };
        Some(Pair { reference, host })
    }

    /// A TOFF object.
    #[tactic(auto, unfolding(crate::specs::Objects::toff_at))]
    pub fn toff(&mut self, alloc: Global) -> Result<(Name, Pair), LineFault>
        ensures { Gives (λ x. x) self.new result (toff_at self.old) }
    {
        if !self.pass(head(Class::Toff)) {
            return Err(LineFault::NotALine);
        }
        let name = self.name_member(alloc, Key::Device)?;
        match self.pair() {
            Some(pair) if self.pass(b"}") => Ok((name, pair)),
            _ => Err(LineFault::NotALine),
        }
    }

    /// The precision of a pulse, which is always the same.
    fn precision(&mut self) -> bool
        ensures passed { precision_rest self.old ≡ if result then Some self.new else None }
    {
        self.pass(label(Key::Precision)) && self.pass(b"-20")
    }

    /// A PPS object.
    #[tactic(auto, unfolding(crate::specs::Objects::pps_at))]
    pub fn pps(&mut self, alloc: Global) -> Result<(Name, Pair), LineFault>
        ensures { Gives (λ x. x) self.new result (pps_at self.old) }
    {
        if !self.pass(head(Class::Pps)) {
            return Err(LineFault::NotALine);
        }
        let name = self.name_member(alloc, Key::Device)?;
        match self.pair() {
            Some(pair) if self.precision() && self.pass(b"}") => Ok((name, pair)),
            _ => Err(LineFault::NotALine),
        }
    }
}
