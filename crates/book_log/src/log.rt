ghost use Rattle.std.specs.Prelude.{◌≡◌, ◌≤◌, ◌++◌, [], length};
ghost use Rattle.gps_fixed.specs.Limits.{longest_piece};
ghost use Rattle.book_log.specs.Entries.{edged, ended, fed, lost};

use ghost_list::GhostList;
use gps_fixed::Stamp;
use gps_report::{Edge, EdgeKind};
use std::marker::Model;

/// What came of a device: bytes at one stamp, by their number, a pulse edge, its end or its loss.
#[derive(Clone, Copy)]
pub enum LogEvent {
    Fed {
        device: u8,
        count: u16,
        at: Stamp,
    },
    Edged {
        device: u8,
        kind: EdgeKind,
        seq: u32,
        at: Stamp,
    },
    Ended(u8),
    Lost(u8),
}

/// A log by its pieces: what came, in order, and the bytes of all pieces joined. It is kept in proofs alone, and has no bytes when the program runs: what
/// later reports and replies need of it is in the devices.
#[derive(Drop)]
pub struct Log {
    events: GhostList<LogEvent>,
    bytes: GhostList<u8>,
}

impl Model for Log {
    ghost use Rattle.std.specs.Prelude.{◌≡◌, List, length};
    ghost use Rattle.book_log.specs.Entries.{Entry};
    ghost use Rattle.book_log.specs.Pieces.{byte_count, entries_of};

    ghost Value = { List Entry };

    ghost view = { λ l. entries_of l.events l.bytes };

    ghost invariant = { λ l. byte_count l.events ≡ length l.bytes };
}

impl Log {
    /// An empty log.
    pub fn new() -> Log
        ensures { result ≡ [] }
    {
        Log {
            events: GhostList::new(),
            bytes: GhostList::new(),
        }
    }

    /// Adds a piece of bytes.
    #[tactic(auto, using(crate::proofs::PieceLaws::pushed_bytes, crate::proofs::PieceLaws::count_more))]
    pub fn push_piece(&mut self, device: u8, at: Stamp, bytes: &[u8])
        requires { length bytes.now ≤ longest_piece }
        ensures { self.new ≡ self.old ++ fed device at bytes.now }
    {
        let count = bytes.len() as u16;
        self.bytes.add_all(bytes);
        self.events.add(&LogEvent::Fed { device, count, at });
    }

    /// Adds a pulse edge.
    #[tactic(auto, using(crate::proofs::PieceLaws::pushed, crate::proofs::PieceLaws::count_more))]
    pub fn push_edge(&mut self, device: u8, edge: &Edge)
        ensures { self.new ≡ self.old ++ edged device edge.now }
    {
        let Edge { kind, seq, at } = *edge;
        self.events.add(&LogEvent::Edged {
            device,
            kind,
            seq,
            at,
        });
    }

    /// Adds a device's end.
    #[tactic(auto, using(crate::proofs::PieceLaws::pushed, crate::proofs::PieceLaws::count_more))]
    pub fn push_end(&mut self, device: u8)
        ensures { self.new ≡ self.old ++ ended device }
    {
        self.events.add(&LogEvent::Ended(device));
    }

    /// Adds a device's loss.
    #[tactic(auto, using(crate::proofs::PieceLaws::pushed, crate::proofs::PieceLaws::count_more))]
    pub fn push_loss(&mut self, device: u8)
        ensures { self.new ≡ self.old ++ lost device }
    {
        self.events.add(&LogEvent::Lost(device));
    }
}
