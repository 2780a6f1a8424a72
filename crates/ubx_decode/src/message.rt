ghost use Rattle.std.specs.Prelude.{◌≡◌, ◌<◌, ◌+◌, ◌*◌, ◌==◌, length, slice_index, IfOk, OnErr};
ghost use Rattle.gps_report.specs.Fits.{Fits};
ghost use Rattle.ubx_decode.specs.Message.{HasItsLength, dop_note, entries_by_kind, entries_of, kind_of, note_by_kind, note_of};

use crate::pvt::pvt_note;
use crate::sat::sat_note;
use gps_fixed::{NoMemory, le_u16, le_u32};
use gps_report::{Note, NoteKind, Tag};
use std::alloc::Global;

/// The bytes of a frame without a payload.
const SHORTEST_FRAME: usize = 8;

/// The note of a frame: by its message, with each field in the units of [`Note`].
///
/// A frame of a class, id or payload length that is not read gives a note of kind Other with nothing in it. A field that is not
/// readable is an absent quantity. The sync characters, the length and the checksum are checked by the framer: of bytes that are no
/// frame, the same fields are read. Takes memory only for a NAV-SAT of at least one satellite: `NoMemory` comes if there is none for it,
/// and for no other frame.
#[tactic(auto, using(crate::proofs::Short::short_note))]
pub fn note_of_frame(alloc: Global, frame: &[u8]) -> Result<Note, NoMemory>
    ensures note { IfOk result (λ note. note ≡ note_of frame.now) }
    ensures fits { IfOk result Fits }
    ensures memory { OnErr result (0 < entries_of frame.now) }
{
    if frame.len() < SHORTEST_FRAME {
        return Ok(Note::empty(alloc, NoteKind::Other));
    }
    note_of_message(alloc, frame[2], frame[3], &frame[6..frame.len() - 2])
}

/// Whether the payload of a NAV-SAT is as long as its count of satellites says.
fn holds_its_count(payload: &[u8]) -> bool
    ensures { result ≡ (length payload.now == 8 + 12 * slice_index payload.now 5) }
{
    match payload {
        [_, _, _, _, _, count, ..] => payload.len() == 8 + 12 * usize::from(*count),
        _ => false,
    }
}

/// Which message it is, or Other.
#[tactic(auto, unfolding(crate::specs::Message::kind_of))]
fn kind_of(class: u8, id: u8, payload: &[u8]) -> NoteKind
    ensures kind { result ≡ kind_of class id payload.now }
    ensures length { HasItsLength result payload.now }
{
    match (class, id) {
        (0x01, 0x07) if payload.len() == 92 => NoteKind::Pvt,
        (0x01, 0x35) if holds_its_count(payload) => NoteKind::Sat,
        (0x01, 0x04) if payload.len() == 18 => NoteKind::Dop,
        (0x01, 0x61) if payload.len() == 4 => NoteKind::Eoe,
        _ => NoteKind::Other,
    }
}

/// The note of a NAV-DOP. Takes no memory.
#[tactic(auto, unfolding(crate::specs::Message::dop_note))]
fn dop_note(alloc: Global, payload: &[u8]) -> Note
    requires { length payload.now ≡ 18 }
    ensures { result ≡ dop_note payload.now }
{
    Note {
        tag: Some(Tag::Itow(le_u32(payload, 0))),
        pdop: Some(u32::from(le_u16(payload, 6))),
        vdop: Some(u32::from(le_u16(payload, 10))),
        hdop: Some(u32::from(le_u16(payload, 12))),
        ..Note::empty(alloc, NoteKind::Dop)
    }
}

fn note_of_message(alloc: Global, class: u8, id: u8, payload: &[u8]) -> Result<Note, NoMemory>
    ensures note { IfOk result (λ note. note ≡ note_by_kind (kind_of class id payload.now) payload.now) }
    ensures memory { OnErr result (0 < entries_by_kind (kind_of class id payload.now) payload.now) }
{
    match kind_of(class, id, payload) {
        NoteKind::Pvt => Ok(pvt_note(alloc, payload)),
        NoteKind::Sat => sat_note(alloc, payload),
        NoteKind::Dop => Ok(dop_note(alloc, payload)),
        other => Ok(Note::empty(alloc, other)),
    }
}
