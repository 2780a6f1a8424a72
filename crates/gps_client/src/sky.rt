ghost use Rattle.std.specs.Prelude.{◌≡◌, option_map, count_by};
ghost use Rattle.json_line.specs.declared.names.Key.TheVariants as key;
ghost use Rattle.json_line.specs.Names.{satellite_head};
ghost use Rattle.gps_client.specs.Answers.{Gives};
ghost use Rattle.gps_client.specs.Reading.{list_at, member_at, member_if_at, up_to};
ghost use Rattle.gps_client.specs.Objects.{counted_at, gnss_at, is_counted, satellite_at, satellite_row, sky_at, sky_row};

use crate::LineFault;
use crate::cursor::Cursor;
use crate::list::{Reads, list};
use gps_report::{Name, Satellite, Sats, Sky};
use json_line::{Class, Key, head, label};
use std::alloc::Global;

/// A sky with the counts that its line gives.
#[derive(Drop)]
pub struct Counted {
    pub sky: Sky,
    pub all: u64,
    pub used: u64,
}

/// How the object of a satellite begins.
#[tactic(auto, using(crate::proofs::Heads::satellite_begins))]
fn satellite_head() -> &'static [u8]
    ensures { result.now ≡ satellite_head }
{
    b"{\"PRN\":"
}

fn count_used(satellites: &[Satellite]) -> usize
    ensures { result ≡ count_by (λ s. s.used) satellites.now }
{
    satellites.iter().filter(|s| s.used).count()
}

impl<'a> Cursor<'a> {
    #[tactic(auto, unfolding(crate::specs::Objects::gnss_at))]
    fn gnss(&mut self) -> Option<Option<(u8, u16)>>
        ensures { option_map (λ x. (x, self.new)) result ≡ gnss_at self.old }
    {
        if !self.pass(label(Key::Gnssid)) {
            return Some(None);
        }
        let system = self.up_to(255)?;
        let id = self.up_to_member(Key::Svid, 65_535)?;
        Some(Some((system as u8, id as u16)))
    }

    fn signal(&mut self) -> Option<Option<u8>>
        ensures { option_map (λ x. (x, self.new)) result ≡ member_if_at key.Sigid (up_to 255) self.old }
    {
        if !self.pass(label(Key::Sigid)) {
            return Some(None);
        }
        let signal = self.up_to(255)?;
        Some(Some(signal as u8))
    }

    #[tactic(auto, unfolding(crate::specs::Objects::satellite_row))]
    fn satellite_members(&mut self) -> Option<Satellite>
        ensures { option_map (λ x. (x, self.new)) result ≡ satellite_row self.old }
    {
        let prn = self.up_to(4_294_967_295)? as u32;
        let el = self.signed_member_if(Key::El)?;
        let az = self.up_to_member_if(Key::Az, 4_294_967_295)?;
        let ss = self.up_to_member_if(Key::Ss, 4_294_967_295)?;
        let used = self.truth_member(Key::Used)?;
        let gnss = self.gnss()?;
        let signal = self.signal()?;
        Some(Satellite {
            prn,
            el,
            az,
            ss,
            used,
            gnss,
            signal,
        })
    }

    #[tactic(auto, unfolding(crate::specs::Objects::satellite_at))]
    fn satellite(&mut self) -> Option<Satellite>
        ensures { option_map (λ x. (x, self.new)) result ≡ satellite_at self.old }
    {
        self.need(satellite_head())?;
        let satellite = self.satellite_members()?;
        self.need(b"}")?;
        Some(satellite)
    }

    fn satellites(&mut self, alloc: Global) -> Result<Vec<Satellite>, LineFault>
        ensures { Gives (λ v. v.items) self.new result (member_at key.Satellites (list_at satellite_at) self.old) }
    {
        if !self.pass(label(Key::Satellites)) {
            return Err(LineFault::NotALine);
        }
        list(alloc, self, &Satellites)
    }

    #[tactic(auto, unfolding(crate::specs::Objects::counted_at))]
    fn counted(&mut self, alloc: Global) -> Result<Counted, LineFault>
        ensures { Gives (λ c. c) self.new result (counted_at self.old) }
    {
        let time = self.time_member_if(Key::Time).ok_or(LineFault::NotALine)?;
        let pdop = self
            .hundredths_member_if(Key::Pdop)
            .ok_or(LineFault::NotALine)?;
        let hdop = self
            .hundredths_member_if(Key::Hdop)
            .ok_or(LineFault::NotALine)?;
        let vdop = self
            .hundredths_member_if(Key::Vdop)
            .ok_or(LineFault::NotALine)?;
        let all = self.whole_member(Key::NSat).ok_or(LineFault::NotALine)?;
        let used = self.whole_member(Key::USat).ok_or(LineFault::NotALine)?;
        let sats = Sats::from_vec(self.satellites(alloc)?);
        let sky = Sky {
            time,
            pdop,
            hdop,
            vdop,
            sats,
        };
        Ok(Counted { sky, all, used })
    }
}

/// Whether the counts are those of the satellites.
fn is_counted(counted: &Counted) -> bool
    ensures { result ≡ is_counted counted.now }
{
    let satellites = counted.sky.sats.as_slice();
    counted.all == satellites.len() as u64 && counted.used == count_used(satellites) as u64
}

/// Reads the satellites of a sky.
struct Satellites;

impl Reads<Satellite> for Satellites {
    ghost use Rattle.gps_client.specs.Objects.{satellite_at};

    ghost reading = { λ reader. satellite_at };

    fn read(&self, cursor: &mut Cursor<'_>) -> Result<Satellite, LineFault> {
        cursor.satellite().ok_or(LineFault::NotALine)
    }
}

impl<'a> Cursor<'a> {
    #[tactic(auto, unfolding(crate::specs::Objects::sky_row))]
    fn sky_members(&mut self, alloc: Global) -> Result<Sky, LineFault>
        ensures { Gives (λ x. x) self.new result (sky_row self.old) }
    {
        let counted = self.counted(alloc)?;
        if is_counted(&counted) {
            let Counted { sky, .. } = counted;
            Ok(sky)
        } else {
            Err(LineFault::NotALine)
        }
    }

    /// A SKY object.
    #[tactic(auto, unfolding(crate::specs::Objects::sky_at))]
    pub fn sky(&mut self, alloc: Global) -> Result<(Name, Sky), LineFault>
        ensures { Gives (λ x. x) self.new result (sky_at self.old) }
    {
        if !self.pass(head(Class::Sky)) {
            return Err(LineFault::NotALine);
        }
        let name = self.name_member(alloc, Key::Device)?;
        let sky = self.sky_members(alloc)?;
        if self.pass(b"}") {
            Ok((name, sky))
        } else {
            Err(LineFault::NotALine)
        }
    }
}

/// Reads the skies of a POLL.
#[derive(Drop)]
pub struct SkyObjects {
    pub alloc: Global,
}

impl Reads<(Name, Sky)> for SkyObjects {
    ghost use Rattle.gps_client.specs.Objects.{sky_at};

    ghost reading = { λ reader. sky_at };

    fn read(&self, cursor: &mut Cursor<'_>) -> Result<(Name, Sky), LineFault> {
        cursor.sky(self.alloc)
    }
}
