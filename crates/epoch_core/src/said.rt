ghost use Rattle.std.specs.Prelude.{◌≡◌, [], true};
ghost use Rattle.std.specs.Option.{option_or};
ghost use Rattle.gps_report.specs.Fits.{is_tod, where_given};
ghost use Rattle.epoch_core.specs.Days.{is_known_day};
ghost use Rattle.epoch_core.specs.Quantities.{said, serial_time as serial_time_of, tod_tag as tod_tag_of, itow_tag as itow_tag_of, is_fix_kind as fix_kind, is_sky_kind as sky_kind, differs as differs_from, breaks as breaks_from};
ghost use Rattle.epoch_core.specs.Steps.{retimed, said_grown};

use gps_fixed::{Stamp, utc_of};
use gps_report::{Note, NoteKind, Position, Tag};

/// What the notes of an epoch said: each quantity as the last note that has it says.
///
/// Units are those of a note. `first` is the stamp of the epoch's first packet, and `stamped` the serial time of the
/// first note that had one.
#[derive(Clone, Copy, Debug)]
pub struct Said {
    pub first: Option<Stamp>,
    pub tod_tag: Option<u64>,
    pub itow_tag: Option<u32>,
    pub time: Option<Stamp>,
    pub stamped: Option<Stamp>,
    pub status: Option<bool>,
    pub dim: Option<u8>,
    pub position: Option<Position>,
    pub alt_hae: Option<i64>,
    pub alt_msl: Option<i64>,
    pub geoid_sep: Option<i64>,
    pub track: Option<i64>,
    pub speed: Option<i64>,
    pub climb: Option<i64>,
    pub pdop: Option<u32>,
    pub hdop: Option<u32>,
    pub vdop: Option<u32>,
    pub has_fix: bool,
    pub has_sky: bool,
}

/// The point of time of a day and a time of that day, if both are given.
pub fn serial_time(tod: Option<u64>, day: Option<u32>) -> Option<Stamp>
    requires tod { where_given is_tod tod ≡ true }
    requires day { where_given is_known_day day ≡ true }
    ensures time { result ≡ serial_time_of tod day }
{
    match (tod, day) {
        (Some(tod), Some(day)) => Some(utc_of(day as i32, tod)),
        _ => None,
    }
}

pub fn tod_tag(tag: Option<Tag>) -> Option<u64>
    ensures { result ≡ tod_tag_of tag }
{
    match tag {
        Some(Tag::Tod(tod)) => Some(tod),
        _ => None,
    }
}

pub fn itow_tag(tag: Option<Tag>) -> Option<u32>
    ensures { result ≡ itow_tag_of tag }
{
    match tag {
        Some(Tag::Itow(itow)) => Some(itow),
        _ => None,
    }
}

/// An epoch with such a note has a fix.
pub fn is_fix_kind(kind: NoteKind) -> bool
    ensures { result ≡ fix_kind kind }
{
    matches!(
        kind,
        NoteKind::Gga | NoteKind::Rmc | NoteKind::Gll | NoteKind::Zda | NoteKind::Pvt
    )
}

/// An epoch with such a note has a sky.
pub fn is_sky_kind(kind: NoteKind) -> bool
    ensures { result ≡ sky_kind kind }
{
    matches!(kind, NoteKind::Gsv | NoteKind::Sat)
}

/// The time of a note that has a time of day replaces an earlier one.
fn retime(time: &mut Option<Stamp>, tod: Option<u64>, at: &Option<Stamp>)
    ensures { time.new ≡ retimed tod at.now time.old }
{
    if tod.is_some() {
        *time = *at;
    }
}

/// The first value that is given for a quantity stays.
fn keep<T: Copy>(quantity: &mut Option<T>, given: &Option<T>)
    ensures { quantity.new ≡ option_or quantity.old given.now }
{
    if quantity.is_none() {
        *quantity = *given;
    }
}

/// A quantity that is given replaces an earlier one.
fn renew<T: Copy>(quantity: &mut Option<T>, given: Option<T>)
    ensures { quantity.new ≡ option_or given quantity.old }
{
    if given.is_some() {
        *quantity = given;
    }
}

impl Said {
    /// What no notes said.
    #[tactic(auto, unfolding(crate::specs::Quantities::said))]
    pub fn nothing() -> Said
        ensures { result ≡ said [] }
    {
        Said {
            first: None,
            tod_tag: None,
            itow_tag: None,
            time: None,
            stamped: None,
            status: None,
            dim: None,
            position: None,
            alt_hae: None,
            alt_msl: None,
            geoid_sep: None,
            track: None,
            speed: None,
            climb: None,
            pdop: None,
            hdop: None,
            vdop: None,
            has_fix: false,
            has_sky: false,
        }
    }

    /// Whether a note with this tag begins another epoch: its tag differs from the last of its variant.
    #[tactic(auto, unfolding(crate::specs::Quantities::breaks))]
    pub fn breaks(&self, tag: Option<Tag>) -> bool
        ensures { result ≡ breaks_from tag self.now }
    {
        match tag {
            Some(Tag::Tod(tod)) => self.tod_tag.is_some_and(|last| last != tod),
            Some(Tag::Itow(itow)) => self.itow_tag.is_some_and(|last| last != itow),
            None => false,
        }
    }

    /// One more note of the epoch, whose serial time is `at`.
    #[tactic(auto, unfolding(crate::specs::Steps::said_grown))]
    pub fn grow(&mut self, note: &Note, first: Stamp, at: Option<Stamp>)
        ensures { self.new ≡ said_grown self.old note.now first at }
    {
        self.has_fix = is_fix_kind(note.kind) || self.has_fix;
        self.has_sky = is_sky_kind(note.kind) || self.has_sky;
        keep(&mut self.first, &Some(first));
        keep(&mut self.stamped, &at);
        retime(&mut self.time, note.tod, &at);
        renew(&mut self.tod_tag, tod_tag(note.tag));
        renew(&mut self.itow_tag, itow_tag(note.tag));
        renew(&mut self.status, note.status);
        renew(&mut self.dim, note.dim);
        renew(&mut self.position, note.position);
        renew(&mut self.alt_hae, note.alt_hae);
        renew(&mut self.alt_msl, note.alt_msl);
        renew(&mut self.geoid_sep, note.geoid_sep);
        renew(&mut self.track, note.track);
        renew(&mut self.speed, note.speed);
        renew(&mut self.climb, note.climb);
        renew(&mut self.pdop, note.pdop);
        renew(&mut self.hdop, note.hdop);
        renew(&mut self.vdop, note.vdop);
    }
}
