ghost use Rattle.std.specs.Prelude.{◌≡◌, ◌<◌, ◌++◌, OnOk};
ghost use Rattle.replay_script.specs.Sentences.{fraction, gga, gll, gsa, gsv, place, quality, rmc, sentence, time, vtg};

use gps_fixed::{Bytes, NoMemory, push_digits, upper_hex_digit};
use nmea_frame::checksum;

/// The body of a VTG.
#[tactic(auto, unfolding(crate::specs::Sentences::vtg))]
pub(crate) fn vtg() -> &'static [u8]
    ensures { result.now ≡ vtg }
{
    b"GPVTG,84.40,T,,M,0.50,N,0.93,K,A"
}

/// The body of a GSA.
#[tactic(auto, unfolding(crate::specs::Sentences::gsa))]
pub(crate) fn gsa() -> &'static [u8]
    ensures { result.now ≡ gsa }
{
    b"GPGSA,A,3,01,02,12,14,,,,,,,,,2.50,1.30,2.10"
}

/// The body of a GSV.
#[tactic(auto, unfolding(crate::specs::Sentences::gsv))]
pub(crate) fn gsv() -> &'static [u8]
    ensures { result.now ≡ gsv }
{
    b"GPGSV,1,1,04,01,40,083,46,02,17,308,41,12,07,344,39,14,22,228,45"
}

#[tactic(auto, unfolding(crate::specs::Sentences::time))]
fn push_time(out: &mut Bytes, second: u32) -> Result<(), NoMemory>
    ensures { OnOk result (out.new ≡ out.old ++ time second) }
{
    push_digits(out, second / 3_600, 2)?;
    push_digits(out, second / 60 % 60, 2)?;
    push_digits(out, second % 60, 2)?;
    out.extend_from_slice(b",")
}

#[tactic(auto, unfolding(crate::specs::Sentences::fraction))]
fn push_fraction(out: &mut Bytes, n: u32) -> Result<(), NoMemory>
    ensures { OnOk result (out.new ≡ out.old ++ fraction n) }
{
    push_digits(out, n, 5)
}

#[tactic(auto, unfolding(crate::specs::Sentences::place))]
fn push_place(out: &mut Bytes, n: u32) -> Result<(), NoMemory>
    ensures { OnOk result (out.new ≡ out.old ++ place n) }
{
    out.extend_from_slice(b"4807.")?;
    push_fraction(out, n)?;
    out.extend_from_slice(b",N,01131.")?;
    push_fraction(out, n)?;
    out.extend_from_slice(b",E,")
}

/// Adds the body of an RMC.
#[tactic(auto, unfolding(crate::specs::Sentences::rmc))]
pub(crate) fn push_rmc(out: &mut Bytes, second: u32, n: u32) -> Result<(), NoMemory>
    ensures { OnOk result (out.new ≡ out.old ++ rmc second n) }
{
    out.extend_from_slice(b"GPRMC,")?;
    push_time(out, second)?;
    out.extend_from_slice(b"A,")?;
    push_place(out, n)?;
    out.extend_from_slice(b"0.50,84.40,010624,,,A")
}

#[tactic(auto, unfolding(crate::specs::Sentences::quality))]
fn push_quality(out: &mut Bytes) -> Result<(), NoMemory>
    ensures { OnOk result (out.new ≡ out.old ++ quality) }
{
    out.extend_from_slice(b"1,04,0.90,545.4,M,46.9,M,,")
}

/// Adds the body of a GGA.
#[tactic(auto, unfolding(crate::specs::Sentences::gga))]
pub(crate) fn push_gga(out: &mut Bytes, second: u32, n: u32) -> Result<(), NoMemory>
    ensures { OnOk result (out.new ≡ out.old ++ gga second n) }
{
    out.extend_from_slice(b"GPGGA,")?;
    push_time(out, second)?;
    push_place(out, n)?;
    push_quality(out)
}

/// Adds the body of a GLL.
#[tactic(auto, unfolding(crate::specs::Sentences::gll))]
pub(crate) fn push_gll(out: &mut Bytes, second: u32, n: u32) -> Result<(), NoMemory>
    ensures { OnOk result (out.new ≡ out.old ++ gll second n) }
{
    out.extend_from_slice(b"GPGLL,")?;
    push_place(out, n)?;
    push_time(out, second)?;
    out.extend_from_slice(b"A,A")
}

/// Adds the sentence of a body, without a line end.
#[tactic(auto, unfolding(crate::specs::Sentences::sentence))]
pub(crate) fn push_sentence(out: &mut Bytes, body: &[u8]) -> Result<(), NoMemory>
    ensures { OnOk result (out.new ≡ out.old ++ sentence body.now) }
{
    let sum = checksum(body);
    out.extend_from_slice(b"$")?;
    out.extend_from_slice(body)?;
    out.extend_from_slice(&[b'*', upper_hex_digit(sum / 16), upper_hex_digit(sum % 16)])
}
