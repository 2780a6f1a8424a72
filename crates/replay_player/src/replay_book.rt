ghost use Rattle.std.specs.Prelude.{◌≡◌, ◌≤◌, List, [], length, nat_lt, IfOk};
ghost use Rattle.std.specs.List.{All};
ghost use Rattle.gps_fixed.specs.Limits.{most_history};
ghost use Rattle.replay_script.specs.Events.{IsPiece};
ghost use Rattle.book_log.specs.Entries.{edged, ended, fed, lost};
ghost use Rattle.replay_player.specs.Effects.{brings};
ghost use Rattle.replay_player.specs.Playing.{Acts, Opens, BookStandsFor};
ghost use Rattle.replay_player.specs.States.{State};

use crate::event_step::{EventStep, event_step_of};
use crate::unit_monitor::UnitMonitor;
use gps_fixed::{NoMemory, Stamp};
use gps_report::{Edge, Names};
use report_book::Book;
use session_core::PlainOutlet;
use std::alloc::Global;
use std::marker::Model;

/// A book and its monitors, on which the events of a script are played.
#[derive(Drop)]
pub struct ReplayBook {
    pub(crate) alloc: Global,
    /// The number of devices.
    pub(crate) devices: u8,
    pub(crate) book: Book<PlainOutlet>,
    pub(crate) watchers: Vec<UnitMonitor>,
}

impl Model for ReplayBook {
    ghost use Rattle.std.specs.Prelude.{◌≡◌, length};
    ghost use Rattle.replay_player.specs.Playing.{ReplayBookView};

    ghost Value = { ReplayBookView };

    ghost view = { λ s. record { devices = s.devices; book = s.book; watchers = s.watchers.items } };

    ghost invariant = { λ s. s.devices ≡ length s.book.names };
}

impl ReplayBook {
    /// A stage of devices with these names, whose units' numbers begin at these, and no event has come.
    pub fn new(
        alloc: Global,
        names: Names,
        limit: u32,
        firsts: [u32; 16],
    ) -> Result<ReplayBook, NoMemory>
        requires some { 1 ≤ limit }
        requires most { limit ≤ most_history }
        requires firsts { All (λ first. first ≤ 1073741823) firsts }
        ensures opens { IfOk result (λ s. Opens names firsts s) }
    {
        let devices = names.len() as u8;
        let book = Book::new(alloc, names, limit, firsts)?;
        Ok(ReplayBook {
            alloc,
            devices,
            book,
            watchers: Vec::new(alloc),
        })
    }

    /// Whether there is such a device.
    pub(crate) fn has_device(&self, d: u64) -> bool
        ensures { result ≡ nat_lt d (length self.now.book.names) }
    {
        d < u64::from(self.devices)
    }

    /// A device gets a piece of bytes.
    pub fn feed(&mut self, d: u64, at: Stamp, bytes: &[u8]) -> Result<EventStep, NoMemory>
        requires piece { IsPiece bytes.now }
        ensures acts { (state : State) → BookStandsFor self.old state → Acts result (brings d (fed d at bytes.now) state) self.new [] [] }
    {
        if !self.has_device(d) {
            return Ok(EventStep::Refused);
        }
        self.book.show();
        event_step_of(self.book.feed(d as u8, at, bytes))
    }

    /// A device gets a pulse edge.
    pub fn edge(&mut self, d: u64, edge: Edge) -> Result<EventStep, NoMemory>
        ensures acts { (state : State) → BookStandsFor self.old state → Acts result (brings d (edged d edge) state) self.new [] [] }
    {
        if !self.has_device(d) {
            return Ok(EventStep::Refused);
        }
        self.book.show();
        event_step_of(self.book.edge(d as u8, edge))
    }

    /// A device ends.
    pub fn end_device(&mut self, d: u64) -> Result<EventStep, NoMemory>
        ensures acts { (state : State) → BookStandsFor self.old state → Acts result (brings d (ended d) state) self.new [] [] }
    {
        if !self.has_device(d) {
            return Ok(EventStep::Refused);
        }
        self.book.show();
        event_step_of(self.book.end_device(d as u8))
    }

    /// A device is lost.
    pub fn lose_device(&mut self, d: u64) -> Result<EventStep, NoMemory>
        ensures acts { (state : State) → BookStandsFor self.old state → Acts result (brings d (lost d) state) self.new [] [] }
    {
        if !self.has_device(d) {
            return Ok(EventStep::Refused);
        }
        self.book.show();
        event_step_of(self.book.lose_device(d as u8))
    }
}
