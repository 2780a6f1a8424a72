ghost use Rattle.std.specs.Prelude.{◌≡◌, ◌++◌, OnOk};
ghost use Rattle.output_lines.specs.Closings.{cause_word, closing_line, end_word, unit_line, unit_text};

use crate::word::push_numbered;
use book_units::UnitState;
use gps_fixed::{Bytes, NoMemory};
use session_core::Close;

/// Whether the items of a closed session were written.
#[derive(Clone, Copy, Debug, PartialEq, Eq)]
pub enum SessionEnd {
    /// All of them.
    Drained,
    /// A write failed.
    WriteFault,
}

fn end_word(end: SessionEnd) -> &'static [u8]
    ensures { result.now ≡ end_word end }
{
    match end {
        SessionEnd::Drained => b"drained",
        SessionEnd::WriteFault => b"writefault",
    }
}

fn cause_word(why: Close) -> &'static [u8]
    ensures { result.now ≡ cause_word why }
{
    match why {
        Close::HungUp => b"hungup",
        Close::ReadFault => b"readfault",
        Close::DaemonEnd => b"daemonend",
        Close::TooManyRequests => b"toomany",
        Close::Overrun => b"overrun",
        Close::NoMemory => b"nomemory",
    }
}

/// Adds the closing line of a session to which this many items were pushed.
#[tactic(auto, unfolding(crate::specs::Closings::closing_line))]
pub fn push_closing_line(
    out: &mut Bytes,
    session: u32,
    end: SessionEnd,
    why: Close,
    items: u64,
) -> Result<(), NoMemory>
    ensures line { OnOk result (out.new ≡ out.old ++ closing_line session end why items) }
{
    push_numbered(out, b"s", u64::from(session))?;
    out.push(b' ')?;
    out.extend_from_slice(end_word(end))?;
    out.push(b' ')?;
    out.extend_from_slice(cause_word(why))?;
    push_numbered(out, b" ", items)?;
    out.push(b'\n')
}

#[tactic(auto, unfolding(crate::specs::Closings::unit_line))]
fn push_state(out: &mut Bytes, unit: u8, state: UnitState) -> Result<(), NoMemory>
    ensures { OnOk result (out.new ≡ out.old ++ unit_line unit state) }
{
    push_numbered(out, b"u", u64::from(unit))?;
    push_numbered(out, b" published ", u64::from(state.published))?;
    push_numbered(out, b" count ", u64::from(state.count))?;
    push_numbered(out, b" left ", u64::from(state.left))?;
    out.push(b'\n')
}

/// Adds the closing line of a unit that had a sample, and nothing of another.
#[tactic(auto, unfolding(crate::specs::Closings::unit_text))]
pub fn push_unit_line(out: &mut Bytes, unit: u8, state: UnitState) -> Result<(), NoMemory>
    ensures line { OnOk result (out.new ≡ out.old ++ unit_text unit state) }
{
    if u64::from(state.published) + u64::from(state.left) == 0 {
        Ok(())
    } else {
        push_state(out, unit, state)
    }
}
