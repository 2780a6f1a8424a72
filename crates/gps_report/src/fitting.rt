ghost use Rattle.std.specs.Prelude.{◌≡◌, ◌↔◌, IsTrue};
ghost use Rattle.std.specs.List.{list_all};
ghost use Rattle.gps_report.specs.Fits.{Fits, is_day, is_dim, is_id, is_named_system, is_satellite, is_sentence_satellite, is_frame_satellite, is_tod, where_given};

use crate::{BEIDOU, GALILEO, GLONASS, GPS, Note, Satellite};

fn is_named(system: u8) -> bool
    ensures { result ≡ is_named_system system }
{
    matches!(system, GPS | GALILEO | BEIDOU | GLONASS)
}

fn is_of_sentence(satellite: &Satellite) -> bool
    ensures { result ≡ is_sentence_satellite satellite.now }
{
    let named = match satellite.gnss {
        Some((system, id)) => is_named(system) && u32::from(id) == satellite.prn,
        None => true,
    };
    let low = match satellite.signal {
        Some(signal) => signal <= 15,
        None => true,
    };
    (1..=999).contains(&satellite.prn) && named && low
}

fn is_of_frame(satellite: &Satellite) -> bool
    ensures { result ≡ is_frame_satellite satellite.now }
{
    match satellite.gnss {
        Some((system, id)) => {
            id <= 255
                && satellite.prn == u32::from(id) + 100 * u32::from(system)
                && satellite.signal.is_none()
        }
        None => false,
    }
}

fn all_fit(satellites: &[Satellite]) -> bool
    ensures { result ≡ list_all is_satellite satellites.now }
{
    satellites
        .iter()
        .all(|s| is_of_sentence(s) || is_of_frame(s))
}

fn are_ids(ids: &[u32]) -> bool
    ensures { result ≡ list_all is_id ids.now }
{
    ids.iter().all(|id| 1 <= *id && *id <= 999)
}

fn fits_tod(tod: Option<u64>) -> bool
    ensures { result ≡ where_given is_tod tod }
{
    match tod {
        Some(tod) => tod < 86_400_000_000_000,
        None => true,
    }
}

fn fits_day(day: Option<i32>) -> bool
    ensures { result ≡ where_given is_day day }
{
    match day {
        Some(day) => day >= 0 && day <= 47_482,
        None => true,
    }
}

fn fits_dim(dim: Option<u8>) -> bool
    ensures { result ≡ where_given is_dim dim }
{
    match dim {
        Some(dim) => matches!(dim, 1 | 2 | 3),
        None => true,
    }
}

fn fits_system(system: Option<u8>) -> bool
    ensures { result ≡ where_given is_named_system system }
{
    match system {
        Some(system) => is_named(system),
        None => true,
    }
}

/// Whether a note can be one of a sentence or a frame: its ranges are those of their fields.
pub fn fits(note: &Note) -> bool
    ensures { IsTrue result ↔ Fits note.now }
{
    fits_tod(note.tod)
        && fits_day(note.day)
        && fits_dim(note.dim)
        && fits_system(note.system)
        && are_ids(note.used.as_slice())
        && all_fit(note.sats.as_slice())
}
