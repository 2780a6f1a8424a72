ghost use Rattle.std.specs.Prelude.{◌≡◌, ◌≤◌, ◌↔◌, ◌⊎◌, ℕ, length, take};
ghost use Rattle.nmea_frame.specs.Sentence.{IsSentence, IsProperPrefix as BeginsSentence};
ghost use Rattle.ubx_frame.specs.Frame.{IsFrame, IsProperPrefix as BeginsFrame};
ghost use Rattle.packet_cut.specs.Heads.{head_of, first_of as first_shape};

use gps_report::PacketKind;
use nmea_frame::{Shape as SentenceShape, sentence_at};
use ubx_frame::{Shape as FrameShape, frame_at};

/// What a list of bytes begins with.
#[derive(Clone, Copy, Debug, PartialEq, Eq)]
pub enum Head {
    /// A packet of this number of bytes.
    Packet(PacketKind, usize),
    /// The beginning of a packet, and nothing more.
    Pending,
    /// A byte that belongs to no packet.
    Junk,
}

/// What the bytes begin with. Takes no memory.
pub fn head_at(bytes: &[u8]) -> Head
    ensures head { result ≡ head_of bytes.now }
    ensures sentence { (n : ℕ) → (result ≡ Head.Packet PacketKind.Nmea n) ↔ ((n ≤ length bytes.now) × IsSentence (take n bytes.now)) }
    ensures frame { (n : ℕ) → (result ≡ Head.Packet PacketKind.Ubx n) ↔ ((n ≤ length bytes.now) × IsFrame (take n bytes.now)) }
    ensures pending { (result ≡ Head.Pending) ↔ (BeginsSentence bytes.now ⊎ BeginsFrame bytes.now) }
{
    first_of(sentence_at(bytes), frame_at(bytes))
}

fn first_of(sentence: SentenceShape, frame: FrameShape) -> Head
    ensures { result ≡ first_shape sentence frame }
{
    match sentence {
        SentenceShape::Whole(len) => Head::Packet(PacketKind::Nmea, len),
        SentenceShape::Pending => match frame {
            FrameShape::Whole(len) => Head::Packet(PacketKind::Ubx, len),
            FrameShape::Pending => Head::Pending,
            FrameShape::No => Head::Pending,
        },
        SentenceShape::No => match frame {
            FrameShape::Whole(len) => Head::Packet(PacketKind::Ubx, len),
            FrameShape::Pending => Head::Pending,
            FrameShape::No => Head::Junk,
        },
    }
}
