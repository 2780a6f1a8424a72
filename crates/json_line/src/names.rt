ghost use Rattle.std.specs.Prelude.{◌≡◌, ◌++◌, OnOk};
ghost use Rattle.json_line.specs.Names.{head_of, label_of};

use gps_fixed::{Bytes, NoMemory};

/// The classes of JSON objects.
#[derive(Clone, Copy, Debug, PartialEq, Eq)]
pub enum Class {
    Version,
    Devices,
    Device,
    Watch,
    Poll,
    Tpv,
    Sky,
    Toff,
    Pps,
    Error,
}

/// The members of JSON objects, but for `class` and `PRN`, which come first.
#[derive(Clone, Copy, Debug, PartialEq, Eq)]
pub enum Key {
    Activated,
    Active,
    AltHae,
    AltMsl,
    Az,
    Climb,
    ClockNsec,
    ClockSec,
    Device,
    Devices,
    El,
    Enable,
    GeoidSep,
    Gnssid,
    Hdop,
    Json,
    Lat,
    Lon,
    Message,
    Mode,
    NSat,
    Nmea,
    Path,
    Pdop,
    Pps,
    Precision,
    ProtoMajor,
    ProtoMinor,
    Raw,
    RealNsec,
    RealSec,
    Release,
    Rev,
    Satellites,
    Sigid,
    Sky,
    Speed,
    Ss,
    Svid,
    Time,
    Tpv,
    Track,
    USat,
    Used,
    Vdop,
}

/// How an object of a class begins.
#[tactic(auto, unfolding(crate::specs::Names::head_of))]
pub fn head(class: Class) -> &'static [u8]
    ensures { result.now ≡ head_of class }
{
    match class {
        Class::Version => b"{\"class\":\"VERSION\"",
        Class::Devices => b"{\"class\":\"DEVICES\"",
        Class::Device => b"{\"class\":\"DEVICE\"",
        Class::Watch => b"{\"class\":\"WATCH\"",
        Class::Poll => b"{\"class\":\"POLL\"",
        Class::Tpv => b"{\"class\":\"TPV\"",
        Class::Sky => b"{\"class\":\"SKY\"",
        Class::Toff => b"{\"class\":\"TOFF\"",
        Class::Pps => b"{\"class\":\"PPS\"",
        Class::Error => b"{\"class\":\"ERROR\"",
    }
}

/// What comes before the value of a member.
#[tactic(auto, unfolding(crate::specs::Names::label_of))]
pub fn label(key: Key) -> &'static [u8]
    ensures { result.now ≡ label_of key }
{
    match key {
        Key::Activated => b",\"activated\":",
        Key::Active => b",\"active\":",
        Key::AltHae => b",\"altHAE\":",
        Key::AltMsl => b",\"altMSL\":",
        Key::Az => b",\"az\":",
        Key::Climb => b",\"climb\":",
        Key::ClockNsec => b",\"clock_nsec\":",
        Key::ClockSec => b",\"clock_sec\":",
        Key::Device => b",\"device\":",
        Key::Devices => b",\"devices\":",
        Key::El => b",\"el\":",
        Key::Enable => b",\"enable\":",
        Key::GeoidSep => b",\"geoidSep\":",
        Key::Gnssid => b",\"gnssid\":",
        Key::Hdop => b",\"hdop\":",
        Key::Json => b",\"json\":",
        Key::Lat => b",\"lat\":",
        Key::Lon => b",\"lon\":",
        Key::Message => b",\"message\":",
        Key::Mode => b",\"mode\":",
        Key::NSat => b",\"nSat\":",
        Key::Nmea => b",\"nmea\":",
        Key::Path => b",\"path\":",
        Key::Pdop => b",\"pdop\":",
        Key::Pps => b",\"pps\":",
        Key::Precision => b",\"precision\":",
        Key::ProtoMajor => b",\"proto_major\":",
        Key::ProtoMinor => b",\"proto_minor\":",
        Key::Raw => b",\"raw\":",
        Key::RealNsec => b",\"real_nsec\":",
        Key::RealSec => b",\"real_sec\":",
        Key::Release => b",\"release\":",
        Key::Rev => b",\"rev\":",
        Key::Satellites => b",\"satellites\":",
        Key::Sigid => b",\"sigid\":",
        Key::Sky => b",\"sky\":",
        Key::Speed => b",\"speed\":",
        Key::Ss => b",\"ss\":",
        Key::Svid => b",\"svid\":",
        Key::Time => b",\"time\":",
        Key::Tpv => b",\"tpv\":",
        Key::Track => b",\"track\":",
        Key::USat => b",\"uSat\":",
        Key::Used => b",\"used\":",
        Key::Vdop => b",\"vdop\":",
    }
}

/// The beginning of an object of a class.
pub fn push_head(out: &mut Bytes, class: Class) -> Result<(), NoMemory>
    ensures { OnOk result (out.new ≡ out.old ++ head_of class) }
{
    out.extend_from_slice(head(class))
}

/// What comes before the value of a member: a comma, the name in quotes and a colon.
#[inline(always)]
pub fn push_label(out: &mut Bytes, key: Key) -> Result<(), NoMemory>
    ensures { OnOk result (out.new ≡ out.old ++ label_of key) }
{
    out.extend_from_slice(label(key))
}
