//! The laws of another daemon as a device, as contracts of functions that do nothing.

ghost use Rattle.std.specs.Prelude.{◌≡◌, ◌↔◌, List, ℕ, [], ◌++◌};
ghost use Rattle.upstream_laws.specs.Across.{CarriedAreItsPackets, FirstReportsComeAcross, OneDeviceIsTheOnlyOne, PacketsComeAcross, RepliesAreHead, ReportsComeAcross};
ghost use Rattle.upstream_laws.specs.Asking.{RequestIsUnderstood};
ghost use Rattle.upstream_laws.specs.Head.{Stand, behind, fresh, taken};
ghost use Rattle.upstream_laws.specs.Lines.{HasHead, HasNoHead, IsHead};

use crate::Stage;

/// A head is taken off exactly, and all that follows it is handed on; without a head nothing is. The bytes may be cut anywhere.
pub fn heads_are_taken_off()
    ensures handed { (head rest : List ℕ) → IsHead head → behind fresh (head ++ rest) ≡ rest }
    ensures nothing { (bytes : List ℕ) → (HasHead bytes → ⊥) → behind fresh bytes ≡ [] }
    ensures pieces { (stand : Stand) (first more : List ℕ) → behind stand (first ++ more) ≡ behind stand first ++ behind (taken stand first) more }
{}

/// Byte by byte the head ends exactly if the bytes begin with a head. There is none exactly if a line within its first 1,048,576 bytes
/// cannot begin as an object of any class does, or that number of bytes came without its end.
pub fn heads_end_exactly()
    ensures ended { (bytes : List ℕ) → ((taken fresh bytes).stage ≡ Stage.Behind) ↔ HasHead bytes }
    ensures bad { (bytes : List ℕ) → ((taken fresh bytes).stage ≡ Stage.Nowhere) ↔ HasNoHead bytes }
{}

/// The request, with any name of a device or without one, is read by this project's daemon as one request. After it a session that had
/// asked nothing is sent the packets of that device, or of all devices, as they came, and nothing else.
pub fn requests_are_understood()
    ensures { RequestIsUnderstood }
{}

/// What a session that asked once is written before the packets is a head (`head`). What is handed on of its bytes is the packets of the device
/// that it watches, joined; cut again these are the same packets, and those of a beginning of the bytes are the first of them (`packets`). They
/// are those that the device's stream gains after the request (`carried`). If its first byte came after the request, fixes and skies are
/// the same (`reports`), and of a beginning of the bytes the first of them (`first_reports`); stamps are not carried over. The device is
/// named by the request, or is the only one that reports, as that of a daemon with one device is (`alone`).
pub fn another_daemon_is_a_device()
    ensures head { RepliesAreHead }
    ensures packets { PacketsComeAcross }
    ensures carried { CarriedAreItsPackets }
    ensures reports { ReportsComeAcross }
    ensures first_reports { FirstReportsComeAcross }
    ensures alone { OneDeviceIsTheOnlyOne }
{}
