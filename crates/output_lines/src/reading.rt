ghost use Rattle.std.specs.Prelude.{◌≡◌, ◌++◌, OnOk};
ghost use Rattle.std.specs.Fmt.{signed_decimal};
ghost use Rattle.output_lines.specs.Readings.{reading_line, reading_text, sample_text, stamp_text, taken_text, two_numbers};

use crate::word::push_numbered;
use gps_fixed::{Bytes, NoMemory, Stamp, push_decimal, push_digits};
use shm_monitor::{Numbered, Reading};
use shm_segment::Sample;

#[tactic(auto, unfolding(crate::specs::Readings::stamp_text))]
fn push_stamp(out: &mut Bytes, at: &Stamp) -> Result<(), NoMemory>
    ensures { OnOk result (out.new ≡ out.old ++ stamp_text at.now) }
{
    push_decimal(out, at.sec.unsigned_abs())?;
    out.push(b'.')?;
    push_digits(out, at.nsec, 9)
}

fn push_signed(out: &mut Bytes, value: i8) -> Result<(), NoMemory>
    ensures { OnOk result (out.new ≡ out.old ++ signed_decimal value) }
{
    if value < 0 {
        out.push(b'-')?;
    }
    push_decimal(out, u64::from(value.unsigned_abs()))
}

#[tactic(auto, unfolding(crate::specs::Readings::sample_text))]
fn push_sample(out: &mut Bytes, sample: &Sample) -> Result<(), NoMemory>
    ensures { OnOk result (out.new ≡ out.old ++ sample_text sample.now) }
{
    push_stamp(out, &sample.reference)?;
    out.push(b' ')?;
    push_stamp(out, &sample.host)?;
    out.push(b' ')?;
    push_signed(out, sample.precision)
}

#[tactic(auto, unfolding(crate::specs::Readings::taken_text))]
fn push_taken(out: &mut Bytes, pair: &Numbered) -> Result<(), NoMemory>
    ensures { OnOk result (out.new ≡ out.old ++ taken_text pair.now) }
{
    push_numbered(out, b"taken ", u64::from(pair.number))?;
    out.push(b' ')?;
    push_sample(out, &pair.sample)
}

#[tactic(auto, unfolding(crate::specs::Readings::two_numbers))]
fn push_two_numbers(out: &mut Bytes, word: &[u8], first: u64, second: u64) -> Result<(), NoMemory>
    ensures { OnOk result (out.new ≡ out.old ++ two_numbers word.now first second) }
{
    push_numbered(out, word, first)?;
    push_numbered(out, b" ", second)
}

#[tactic(auto, unfolding(crate::specs::Readings::reading_text))]
fn push_reading(out: &mut Bytes, reading: &Reading) -> Result<(), NoMemory>
    ensures { OnOk result (out.new ≡ out.old ++ reading_text reading.now) }
{
    match reading {
        Reading::Taken(pair) => push_taken(out, pair),
        Reading::Clash { before, after } => {
            push_two_numbers(out, b"clash ", u64::from(*before), u64::from(*after))
        }
        Reading::NotReady { count, valid } => {
            push_two_numbers(out, b"notready ", u64::from(*count), *valid)
        }
    }
}

/// Adds the line of a reading that has ended; stamps have nine decimals. Of a monitor that stands for a unit, the unit's
/// number is given.
#[tactic(auto, unfolding(crate::specs::Readings::reading_line))]
pub fn push_reading_line(out: &mut Bytes, monitor: u8, reading: &Reading) -> Result<(), NoMemory>
    ensures line { OnOk result (out.new ≡ out.old ++ reading_line monitor reading.now) }
{
    push_numbered(out, b"m", u64::from(monitor))?;
    out.push(b' ')?;
    push_reading(out, reading)?;
    out.push(b'\n')
}
