ghost use Rattle.std.specs.Prelude.{◌≡◌, ◌≤◌, length, drop};
ghost use Rattle.packet_cut.specs.Heads.{head_of, first_of};
ghost use Rattle.packet_cut.specs.Next.{IsNext, JunkUpTo};

use crate::{Found, Head};
use gps_report::PacketKind;
use memchr::memchr2;
use nmea_frame::{Shape as SentenceShape, sentence_at};
use ubx_frame::{FrameFinder, Shape as FrameShape};

/// What a list of bytes holds from a place on, after the junk there.
pub(crate) enum Next {
    Packet(Found),
    /// No further packet: the rest begins at this place.
    Rest(usize),
}

/// The next packet from a place on, or the place of the rest. The frames are those of the same bytes.
#[tactic(auto, using(crate::proofs::Steps::junk_none, crate::proofs::Steps::junk_over, crate::proofs::Steps::junk_some, crate::proofs::Steps::next_packet))]
pub(crate) fn next_from(frames: &mut FrameFinder, bytes: &[u8], place: usize) -> Next
    requires inside { place ≤ length bytes.now }
    requires frames { frames.old ≡ bytes.now }
    ensures next { IsNext bytes.now place result }
    ensures frames { frames.new ≡ bytes.now }
{
    let mut start = place;
    'heads: loop {
        match head_from(frames, bytes, start) {
            Head::Packet(kind, len) => return Next::Packet(Found { kind, start, len }),
            Head::Pending => return Next::Rest(start),
            Head::Junk => start = first_byte_from(bytes, start + 1),
        }
    }
}

/// The next place at which a sentence or a frame may begin, or the end of the bytes.
fn first_byte_from(bytes: &[u8], place: usize) -> usize
    requires { place ≤ length bytes.now }
    ensures { JunkUpTo bytes.now place result }
{
    match bytes.get(place) {
        Some(b'$' | 0xB5) => place,
        _ => match memchr2(b'$', 0xB5, &bytes[place..]) {
            Some(behind) => place + behind,
            None => bytes.len(),
        },
    }
}

/// What the bytes are from a place on, as `head_at` says. Its first byte tells which of the two may begin there.
fn head_from(frames: &mut FrameFinder, bytes: &[u8], place: usize) -> Head
    requires inside { place ≤ length bytes.now }
    requires frames { frames.old ≡ bytes.now }
    ensures head { result ≡ head_of (drop place bytes.now) }
    ensures frames { frames.new ≡ bytes.now }
{
    match bytes.get(place) {
        Some(b'$') => head_of_sentence(sentence_at(&bytes[place..])),
        Some(0xB5) => head_of_frame(frames.at(place)),
        Some(_) => Head::Junk,
        None => Head::Pending,
    }
}

/// The head of bytes that begin no frame.
fn head_of_sentence(sentence: SentenceShape) -> Head
    ensures { result ≡ first_of sentence FrameShape.No }
{
    match sentence {
        SentenceShape::Whole(len) => Head::Packet(PacketKind::Nmea, len),
        SentenceShape::Pending => Head::Pending,
        SentenceShape::No => Head::Junk,
    }
}

/// The head of bytes that begin no sentence.
fn head_of_frame(frame: FrameShape) -> Head
    ensures { result ≡ first_of SentenceShape.No frame }
{
    match frame {
        FrameShape::Whole(len) => Head::Packet(PacketKind::Ubx, len),
        FrameShape::Pending => Head::Pending,
        FrameShape::No => Head::Junk,
    }
}
