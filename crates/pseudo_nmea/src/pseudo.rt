ghost use Rattle.std.specs.Prelude.{◌≡◌, ◌++◌, IfOk, OnOk};
ghost use Rattle.pseudo_nmea.specs.Sentences.{by_fix, rmc_body, gga_body, pseudo, sentence};

use crate::fields::{
    placed, push_clock, push_date, push_height, push_knots, push_latitude, push_longitude,
    push_text, push_track,
};
use crate::sentence::end_sentence;
use gps_fixed::{Bytes, NoMemory};
use gps_report::Fix;
use std::alloc::Global;

/// Longer than the two sentences of any fix.
const ROOM_OF_SENTENCES: usize = 256;

#[tactic(auto, unfolding(crate::specs::Sentences::rmc_body))]
fn push_rmc(out: &mut Bytes, fix: &Fix) -> Result<(), NoMemory>
    ensures { OnOk result (out.new ≡ out.old ++ rmc_body fix.now) }
{
    let place = placed(fix.position);
    out.extend_from_slice(b"GPRMC")?;
    push_clock(out, fix.time)?;
    push_text(out, by_fix(fix, b"V", b"A"))?;
    push_latitude(out, place)?;
    push_longitude(out, place)?;
    push_knots(out, fix.speed)?;
    push_track(out, fix.track)?;
    push_date(out, fix.time)?;
    push_text(out, b"")?;
    push_text(out, b"")?;
    push_text(out, by_fix(fix, b"N", b"A"))
}

#[tactic(auto, unfolding(crate::specs::Sentences::gga_body))]
fn push_gga(out: &mut Bytes, fix: &Fix) -> Result<(), NoMemory>
    ensures { OnOk result (out.new ≡ out.old ++ gga_body fix.now) }
{
    let place = placed(fix.position);
    out.extend_from_slice(b"GPGGA")?;
    push_clock(out, fix.time)?;
    push_latitude(out, place)?;
    push_longitude(out, place)?;
    push_text(out, by_fix(fix, b"0", b"1"))?;
    push_text(out, b"")?;
    push_text(out, b"")?;
    push_height(out, fix.alt_msl)?;
    push_text(out, b"M")?;
    push_height(out, fix.geoid_sep)?;
    push_text(out, b"M")?;
    push_text(out, b"")?;
    push_text(out, b"")
}

/// One text without a fix, the other with one.
#[tactic(auto, unfolding(crate::specs::Sentences::by_fix))]
fn by_fix<'a>(fix: &Fix, without: &'a [u8], with_one: &'a [u8]) -> &'a [u8]
    ensures { result.now ≡ by_fix fix.now without.now with_one.now }
{
    if fix.mode == 1 { without } else { with_one }
}

#[tactic(auto, using(crate::proofs::Endings::ended))]
fn push_rmc_sentence(out: &mut Bytes, fix: &Fix) -> Result<(), NoMemory>
    ensures { OnOk result (out.new ≡ out.old ++ sentence (rmc_body fix.now)) }
{
    out.push(b'$')?;
    let from = out.len();
    push_rmc(out, fix)?;
    end_sentence(out, from)
}

#[tactic(auto, using(crate::proofs::Endings::ended))]
fn push_gga_sentence(out: &mut Bytes, fix: &Fix) -> Result<(), NoMemory>
    ensures { OnOk result (out.new ≡ out.old ++ sentence (gga_body fix.now)) }
{
    out.push(b'$')?;
    let from = out.len();
    push_gga(out, fix)?;
    end_sentence(out, from)
}

/// Adds a fix as one RMC and one GGA sentence, as [`sentences_of`] says.
#[tactic(auto, unfolding(crate::specs::Sentences::pseudo))]
pub fn push_sentences(out: &mut Bytes, fix: &Fix) -> Result<(), NoMemory>
    ensures text { OnOk result (out.new ≡ out.old ++ pseudo fix.now) }
{
    push_rmc_sentence(out, fix)?;
    push_gga_sentence(out, fix)
}

/// A fix as one RMC and one GGA sentence, each with an upper-case checksum, CR and LF (NMEA 0183).
///
/// An absent quantity is an empty field, and so is one that lies outside the range which its field can hold. Times have
/// nine decimals, minutes of an angle seven, knots and heights three, the track four.
pub fn sentences_of(alloc: Global, fix: &Fix) -> Result<Bytes, NoMemory>
    ensures text { IfOk result (λ bytes. bytes ≡ pseudo fix.now) }
{
    let mut out = Bytes::new(alloc);
    out.reserve(ROOM_OF_SENTENCES)?;
    push_sentences(&mut out, fix)?;
    Ok(out)
}
