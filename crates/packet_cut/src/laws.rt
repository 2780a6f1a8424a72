//! The laws of packets, as contracts of functions that do nothing.

ghost use Rattle.std.specs.Prelude.{◌≡◌, ◌≤◌, ◌↔◌, ◌⊎◌, ◌-◌, ◌*◌, ℕ, true, List, [], ◌∷◌, ◌++◌, length, take, drop, map};
ghost use Rattle.std.specs.List.{list_all};
ghost use Rattle.nmea_frame.specs.Sentence.{IsSentence, IsProperPrefix as BeginsSentence};
ghost use Rattle.ubx_frame.specs.Frame.{IsFrame, is_byte, IsProperPrefix as BeginsFrame};
ghost use Rattle.gps_report.specs.declared.packet.Packet.{Packet};
ghost use Rattle.gps_report.specs.declared.packet.PacketKind.{PacketKind};
ghost use Rattle.packet_cut.specs.declared.found.Found.{Found};
ghost use Rattle.packet_cut.specs.Heads.{head_of};
ghost use Rattle.packet_cut.specs.Packets.{Stamped, bytes_of, packets_of, rest_of, found_of, most_pending, moved, rest_of_bytes, found_packet};

use crate::Head;
use gps_report::PacketKind;

/// What a list of bytes begins with is decided by the sets of sentences and frames, and of their beginnings.
pub fn heads_go_by_the_sets()
    ensures sentence { (bytes : List ℕ) (n : ℕ) → (head_of bytes ≡ Head.Packet PacketKind.Nmea n) ↔ ((n ≤ length bytes) × IsSentence (take n bytes)) }
    ensures frame { (bytes : List ℕ) → list_all is_byte bytes ≡ true → (n : ℕ)
        → (head_of bytes ≡ Head.Packet PacketKind.Ubx n) ↔ ((n ≤ length bytes) × IsFrame (take n bytes)) }
    ensures pending { (bytes : List ℕ) → list_all is_byte bytes ≡ true → (head_of bytes ≡ Head.Pending) ↔ (BeginsSentence bytes ⊎ BeginsFrame bytes) }
{}

/// The rule by what a list begins with: a packet is found, and then those of what follows it; the beginning of a packet is the rest, and
/// there is no packet; else the first byte is junk, and the packets are those of what follows it.
pub fn packets_go_by_the_head()
    ensures packet { (bytes : List ℕ) (kind : PacketKind) (n : ℕ) → head_of bytes ≡ Head.Packet kind n
        → found_of bytes ≡ record { kind = kind; start = 0; len = n } ∷ map (moved n) (found_of (drop n bytes)) }
    ensures behind { (bytes : List ℕ) (kind : PacketKind) (n : ℕ) → head_of bytes ≡ Head.Packet kind n → rest_of_bytes bytes ≡ rest_of_bytes (drop n bytes) }
    ensures pending { (bytes : List ℕ) → head_of bytes ≡ Head.Pending → (found_of bytes ≡ []) × (rest_of_bytes bytes ≡ bytes) }
    ensures junk { (byte : ℕ) (bytes : List ℕ) → head_of (byte ∷ bytes) ≡ Head.Junk
        → (found_of (byte ∷ bytes) ≡ map (moved 1) (found_of bytes)) × (rest_of_bytes (byte ∷ bytes) ≡ rest_of_bytes bytes) }
{}

/// More bytes remove no packet and change none.
pub fn packets_are_a_beginning()
    ensures packets { (stream more : List Stamped) → (gained : List Packet) × (packets_of (stream ++ more) ≡ packets_of stream ++ gained) }
    ensures found { (bytes more : List ℕ) → (gained : List Found) × (found_of (bytes ++ more) ≡ found_of bytes ++ gained) }
{}

/// The packets that more bytes add are those of the rest with them, at their places in the whole list.
pub fn packets_go_on()
    ensures packets { (stream more : List Stamped) → packets_of (stream ++ more) ≡ packets_of stream ++ packets_of (rest_of stream ++ more) }
    ensures rest { (stream more : List Stamped) → rest_of (stream ++ more) ≡ rest_of (rest_of stream ++ more) }
    ensures found { (bytes more : List ℕ) → found_of (bytes ++ more)
        ≡ found_of bytes ++ map (moved (length bytes - length (rest_of_bytes bytes))) (found_of (rest_of_bytes bytes ++ more)) }
{}

/// Packets do not overlap, and each has at least 6 bytes.
pub fn packets_are_long()
    ensures packets { (stream : List Stamped) → 6 * length (packets_of stream) ≤ length stream }
    ensures found { (bytes : List ℕ) → 6 * length (found_of bytes) ≤ length bytes }
{}

/// The rest has at most 2,055 bytes.
pub fn rest_is_short()
    ensures stream { (stream : List Stamped) → length (rest_of stream) ≤ most_pending }
    ensures bytes { (bytes : List ℕ) → length (rest_of_bytes bytes) ≤ most_pending }
{}

/// The packets of stamped bytes are those that are found in the bytes, and their rest is that of the bytes.
pub fn stamps_change_no_packet()
    ensures packets { (stream : List Stamped) → packets_of stream ≡ map (found_packet stream) (found_of (bytes_of stream)) }
    ensures rest { (stream : List Stamped) → bytes_of (rest_of stream) ≡ rest_of_bytes (bytes_of stream) }
{}
