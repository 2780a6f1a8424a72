//! What a book tells of its devices, its sessions and its units.

ghost use Rattle.std.specs.Prelude.{◌≡◌, length, count_by, slice_get, option_map, option_and_then};
ghost use Rattle.std.specs.List.{list_all};
ghost use Rattle.book_log.specs.Standing.{has_stopped};
ghost use Rattle.book_sessions.specs.Roster.{live_in, was_watched};
ghost use Rattle.book_units.specs.Steps.{state_of};

use crate::book::Book;
use book_units::UnitState;
use session_core::{Close, Outlet};

impl<O: Outlet> Book<O> {
    /// Whether each device has ended or was lost.
    pub fn all_ended(&self) -> bool
        ensures { result ≡ list_all (λ line. has_stopped line.stage) self.now.log.present.lines }
    {
        self.log.all_ended()
    }

    /// The number of symbols in the log of this generation.
    pub fn symbols(&self) -> u32
        ensures { result ≡ self.now.log.symbols }
    {
        self.log.symbols()
    }

    /// The number of generations before this one; at its greatest value it stays there.
    pub fn generation(&self) -> u64
        ensures { result ≡ self.now.log.generation }
    {
        self.log.generation()
    }

    /// The number of sessions that are not closed.
    pub fn live(&self) -> u32
        ensures { result ≡ live_in self.now.sessions }
    {
        self.roster.live()
    }

    /// The number of sessions that were opened in the whole run.
    pub fn opened(&self) -> u32
        ensures { result ≡ length self.now.sessions }
    {
        self.roster.opened()
    }

    /// The number of sessions, live or closed, that have had a mark with an enabled policy in the whole run.
    pub fn watched(&self) -> u32
        ensures { result ≡ count_by was_watched self.now.sessions }
    {
        self.roster.watched()
    }

    /// The number of items pushed to a session; none exactly if there is no such session.
    pub fn items(&self, s: u32) -> Option<u64>
        ensures { result ≡ option_map (λ a. a.session.items) (slice_get self.now.sessions s) }
    {
        self.roster.items(s)
    }

    /// The place of this generation's history at which a session was closed, and why; none exactly if it does not exist or is not
    /// closed.
    pub fn closing(&self, s: u32) -> Option<(u64, Close)>
        ensures { result ≡ option_and_then (λ a. a.session.closing) (slice_get self.now.sessions s) }
    {
        self.roster.closing(s)
    }

    /// How many samples a unit has published in this run, its word count, and how many are left; none exactly if there is no such unit.
    pub fn unit(&self, u: u8) -> Option<UnitState>
        ensures { result ≡ option_map state_of (slice_get self.now.units u) }
    {
        match self.check_unit(u) {
            Ok(()) => Some(self.units.unit(u)),
            Err(_) => None,
        }
    }
}
