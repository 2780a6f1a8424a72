ghost use Rattle.std.specs.Prelude.{◌≡◌, ◌≤◌, ◌<◌, ◌+◌, ◌*◌, ◌++◌, ◌⊎◌, ℕ, true, false, List, [], ◌∷◌, length, get_or, slice_get, Some, None, IfOk, IfErr, OnOk, OnErr, IfNone};
ghost use Rattle.std.specs.List.{All, list_all};
ghost use Rattle.std.specs.Arc.{arc_value};
ghost use Rattle.std.specs.Option.{option_to_list};
ghost use Rattle.gps_fixed.specs.Limits.{longest_piece, most_history};
ghost use Rattle.session_core.specs.declared.mark.Close.{Close as CloseValue};
ghost use Rattle.shm_segment.specs.Publishing.{noticed};
ghost use Rattle.book_log.specs.Entries.{edged, ended, fed, lost};
ghost use Rattle.book_log.specs.DeviceLogView.{turns_at};
ghost use Rattle.book_log.specs.Standing.{DevicesGoOn, has_stopped};
ghost use Rattle.book_replies.specs.Replies.{opening_reply};
ghost use Rattle.book_sessions.specs.MemberView.{MemberView};
ghost use Rattle.book_units.specs.Steps.{BearsOut};
ghost use Rattle.book_units.specs.Units.{UnitView, IsInOrder, IsUnit, segment_of};
ghost use Rattle.report_book.specs.Allowing.{MayAdd, MayInput};
ghost use Rattle.report_book.specs.BookView.{turned_if};
ghost use Rattle.report_book.specs.Moves.{AddsQuietly, Admits, Earns, HangsUp, AnswersRequests, IsNewBook, Moves, PublishesAt, ShutsAll, TakesFirst};
ghost use Rattle.report_book.specs.Refusals.{RefusesAs, RefusesOnly, RefusesWith, crowd_fault, device_fault, missing_session, missing_unit, session_fault};
ghost use Rattle.report_book.specs.Standing.{BookHolds};

use crate::fault::BookFault;
use crate::knowing::known;
use crate::placing::put;
use book_log::DeviceLog;
use book_replies::may_poll;
use book_sessions::Roster;
use book_units::{UnitStep, Units};
use gps_fixed::{NoMemory, Stamp};
use gps_report::{Edge, Names};
use session_core::{Close, Item, Outlet, PlainOutlet, TwoEnded};
use shm_segment::{Account, MonitorSeat, Notice, Segment};
use std::alloc::Global;
use std::marker::Model;
use std::sync::Arc;

/// The most samples that a piece of bytes adds to a unit.
const MOST_OF_PIECE: usize = 2568;

/// The most that an edge adds.
const MOST_OF_EDGE: usize = 1;

/// How many requests of each session are answered, if no other number is allowed.
const USUAL_REQUESTS: u32 = 65_536;

/// The devices of a daemon, its one history, its sessions, and its units.
///
/// A device is named by its number, from 0 on, and has two units: unit 2d has its serial times with precision -1, and unit 2d + 1 its
/// pulses with precision -20. Sessions are numbered from 0 in the order in which they were admitted. A refused call leaves the book as
/// it was.
#[derive(Drop)]
pub struct Book<O: Outlet> {
    alloc: Global,
    names: Names,
    /// How many requests of each session are answered.
    most_requests: u32,
    pub(crate) log: DeviceLog,
    pub(crate) roster: Roster<O>,
    pub(crate) units: Units,
}

impl<O: Outlet> Model for Book<O> {
    ghost use Rattle.report_book.specs.BookView.{BookView};
    ghost use Rattle.report_book.specs.Standing.{BookHolds};

    ghost Value = { BookView };

    ghost view = { λ b. record { names = b.names; most_requests = b.most_requests; log = b.log; sessions = b.roster; units = b.units.units } };

    ghost invariant = { λ b. BookHolds (record { names = b.names; most_requests = b.most_requests; log = b.log; sessions = b.roster; units = b.units.units }) };
}

impl<O: Outlet> Book<O> {
    /// A book of devices with these names, whose generations hold at most `limit` symbols, or those of one call if that is more. The
    /// samples of unit u are numbered from `firsts[u] + 1` on. Of each session 65,536 requests are answered.
    pub fn new(
        alloc: Global,
        names: Names,
        limit: u32,
        firsts: [u32; 16],
    ) -> Result<Book<O>, NoMemory>
        requires some { 1 ≤ limit }
        requires most { limit ≤ most_history }
        requires firsts { All (λ first. first ≤ 1073741823) firsts }
        ensures new { IfOk result (λ b. IsNewBook names limit firsts b) }
        ensures holds { IfOk result BookHolds }
    {
        let devices = names.len() as u8;
        let log = DeviceLog::new(alloc, devices, limit)?;
        let units = Units::new(alloc, devices, firsts)?;
        Ok(Book {
            alloc,
            names,
            most_requests: USUAL_REQUESTS,
            log,
            roster: Roster::new(alloc),
            units,
        })
    }

    /// Says how many requests of each session are answered: the next one closes the session. No session was opened yet.
    #[tactic(auto, using(crate::proofs::Calls::allowed_holds))]
    pub fn allow_requests(&mut self, most: u32)
        requires none { self.old.sessions ≡ [] }
        ensures { self.new ≡ record self.old { most_requests = most } }
    {
        self.most_requests = most;
    }

    fn check_device(&self, d: u8) -> Result<(), BookFault>
        ensures { RefusesOnly (device_fault self.now d) result }
    {
        if usize::from(d) >= self.names.len() {
            Err(BookFault::NoSuch)
        } else if self.log.has_stopped(d) {
            Err(BookFault::Ended)
        } else {
            Ok(())
        }
    }

    fn check_session(&self, s: u32) -> Result<(), BookFault>
        ensures { RefusesOnly (session_fault self.now s) result }
    {
        if !self.roster.exists(s) {
            Err(BookFault::NoSuch)
        } else if !self.roster.is_open(s) {
            Err(BookFault::Ended)
        } else {
            Ok(())
        }
    }

    fn check_exists(&self, s: u32) -> Result<(), BookFault>
        ensures { RefusesOnly (missing_session self.now s) result }
    {
        if self.roster.exists(s) {
            Ok(())
        } else {
            Err(BookFault::NoSuch)
        }
    }

    pub(crate) fn check_unit(&self, u: u8) -> Result<(), BookFault>
        ensures { RefusesOnly (missing_unit self.now u) result }
    {
        if usize::from(u) < 2 * self.names.len() {
            Ok(())
        } else {
            Err(BookFault::NoSuch)
        }
    }

    /// Gives a device its next piece of bytes, which came at this stamp. Its first piece is announced before its packets.
    ///
    /// A new generation begins first exactly if the log holds a symbol and would come to more than the limit.
    pub fn feed(&mut self, d: u8, at: Stamp, bytes: &[u8]) -> Result<(), BookFault>
        // The piece has 1 to 512 bytes.
        requires some { 1 ≤ length bytes.now }
        requires piece { length bytes.now ≤ longest_piece }
        requires may { MayAdd O.may d (fed d at bytes.now) self.old }

        // What the book gains.
        ensures fed { OnOk result (Moves O.exact (turns_at self.old.log (length bytes.now)) self.old self.new (fed d at bytes.now)) }
        ensures earns { OnOk result (Earns (turned_if (turns_at self.old.log (length bytes.now)) self.old) self.new (fed d at bytes.now)) }

        // When it is refused, and what a refusal leaves.
        ensures refusal { RefusesAs (device_fault self.old d) result }
        ensures limit { self.new.log.limit ≡ self.old.log.limit }
        ensures unchanged { OnErr result (self.new ≡ self.old) }
    {
        self.check_device(d)?;
        self.units.reserve(d, MOST_OF_PIECE)?;
        let shares = self.roster.listening();
        let added = self.log.feed(d, at, bytes, &self.names, shares)?;
        put(&mut self.roster, &mut self.units, &self.names, added);
        Ok(())
    }

    /// Gives a device its next pulse edge. A new generation begins first as at [`Book::feed`].
    pub fn edge(&mut self, d: u8, edge: Edge) -> Result<(), BookFault>
        requires may { MayAdd O.may d (edged d edge) self.old }
        ensures edged { OnOk result (Moves O.exact (turns_at self.old.log 1) self.old self.new (edged d edge)) }
        ensures earns { OnOk result (Earns (turned_if (turns_at self.old.log 1) self.old) self.new (edged d edge)) }
        ensures refusal { RefusesAs (device_fault self.old d) result }
        ensures limit { self.new.log.limit ≡ self.old.log.limit }
        ensures unchanged { OnErr result (self.new ≡ self.old) }
    {
        self.check_device(d)?;
        self.units.reserve(d, MOST_OF_EDGE)?;
        let shares = self.roster.listening();
        let added = self.log.edge(d, &edge, &self.names, shares)?;
        put(&mut self.roster, &mut self.units, &self.names, added);
        Ok(())
    }

    /// Ends a device: its running epoch is closed, and then it is announced that it has ended. No unit is given a sample.
    pub fn end_device(&mut self, d: u8) -> Result<(), BookFault>
        requires may { MayAdd O.may d (ended d) self.old }
        ensures ended { OnOk result (Moves O.exact false self.old self.new (ended d)) }
        ensures earns { OnOk result (Earns self.old self.new (ended d)) }
        ensures refusal { RefusesAs (device_fault self.old d) result }
        ensures limit { self.new.log.limit ≡ self.old.log.limit }
        ensures unchanged { OnErr result (self.new ≡ self.old) }
    {
        self.check_device(d)?;
        let shares = self.roster.listening();
        let added = self.log.end_device(d, &self.names, shares)?;
        put(&mut self.roster, &mut self.units, &self.names, added);
        Ok(())
    }

    /// A device is lost: it has ended, and nothing is announced. Takes no memory.
    pub fn lose_device(&mut self, d: u8) -> Result<(), BookFault>
        ensures lost { OnOk result (AddsQuietly self.old self.new (lost d)) }
        ensures earns { OnOk result (Earns self.old self.new (lost d)) }
        ensures refusal { RefusesOnly (device_fault self.old d) result }
        ensures limit { self.new.log.limit ≡ self.old.log.limit }
        ensures unchanged { OnErr result (self.new ≡ self.old) }
    {
        self.check_device(d)?;
        self.log.lose_device(d);
        Ok(())
    }

    /// Opens the next session, whose first item is the VERSION line. If it is refused, the outlet comes back.
    pub fn admit(&mut self, outlet: O) -> Result<u32, (O, BookFault)>
        // The outlet is empty, has room, and is open.
        requires empty { O.kept outlet ≡ [] }
        requires cap { 1 ≤ O.cap outlet }
        requires takes { O.takes outlet }
        requires may { O.may (O.name outlet) (opening_reply ∷ []) }

        // What an opening does.
        ensures number { IfOk result (λ s. s ≡ length self.old.sessions) }
        ensures admits { OnOk result (Admits (O.name outlet) (O.cap outlet) self.old self.new) }

        // When it is refused, and what a refusal leaves.
        ensures refusal { RefusesWith (crowd_fault self.old) result }
        ensures outlet { IfErr result (λ refusal. refusal.0 ≡ outlet) }
        ensures limit { self.new.log.limit ≡ self.old.log.limit }
        ensures unchanged { OnErr result (self.new ≡ self.old) }
    {
        match self
            .roster
            .admit(outlet, self.most_requests, self.log.place())
        {
            Ok(s) => Ok(s),
            Err((outlet, fault)) => Err((outlet, fault.into())),
        }
    }

    /// Gives a session the next piece of its input: each request that it ends is answered, in order, until the session is closed.
    pub fn input(&mut self, s: u32, piece: &[u8]) -> Result<(), BookFault>
        requires some { 1 ≤ length piece.now }
        requires piece { length piece.now ≤ longest_piece }
        requires may { MayInput O.may s piece.now self.old }

        // Each request is answered, or the call is refused and nothing changes.
        ensures hears { OnOk result (AnswersRequests O.exact s piece.now self.old self.new) }
        ensures refusal { RefusesAs (session_fault self.old s) result }
        ensures limit { self.new.log.limit ≡ self.old.log.limit }
        ensures unchanged { OnErr result (self.new ≡ self.old) }
    {
        self.check_session(s)?;
        let cut = self.roster.cut(s, piece)?;
        if cut.requests.is_empty() {
            self.roster.go_on(s, cut);
            return Ok(());
        }
        let polls = may_poll(cut.requests.as_slice());
        let known = known(self.alloc, &self.log, &self.names, polls)?;
        let place = self.log.place();
        self.roster.input(s, place, &known, &self.names, cut)?;
        Ok(())
    }

    /// Closes a session. Takes no memory.
    pub fn hang_up(&mut self, s: u32, why: Close) -> Result<(), BookFault>
        requires why { (why ≡ CloseValue.HungUp) ⊎ (why ≡ CloseValue.ReadFault) ⊎ (why ≡ CloseValue.NoMemory) }
        ensures hangs_up { OnOk result (HangsUp s why self.old self.new) }
        ensures refusal { RefusesOnly (session_fault self.old s) result }
        ensures limit { self.new.log.limit ≡ self.old.log.limit }
        ensures unchanged { OnErr result (self.new ≡ self.old) }
    {
        self.check_session(s)?;
        let place = self.log.place();
        self.roster.hang_up(s, place, why);
        Ok(())
    }

    /// Begins a unit's first waiting sample if none is being stored, and makes one store, or none. Takes no memory.
    pub fn publish_step(&mut self, u: u8) -> Result<UnitStep, BookFault>
        ensures publishes { IfOk result (λ step. PublishesAt u step self.old self.new) }
        ensures refusal { RefusesOnly (missing_unit self.old u) result }
        ensures limit { self.new.log.limit ≡ self.old.log.limit }
        ensures unchanged { OnErr result (self.new ≡ self.old) }
    {
        self.check_unit(u)?;
        Ok(self.units.publish_step(u))
    }

    /// Closes each live session, as the daemon has ended. Takes no memory.
    pub fn shut(&mut self)
        requires { list_all (λ line. has_stopped line.stage) self.old.log.present.lines ≡ true }
        ensures { ShutsAll self.old self.new }
    {
        let place = self.log.place();
        self.roster.shut(place);
    }

    /// A unit's segment, and a seat for a monitor of it.
    pub fn monitor_seat(&mut self, u: u8) -> Result<(Arc<Segment>, MonitorSeat), BookFault>
        ensures part { IfOk result (λ r. (free : UnitView) → (arc_value r.0 ≡ segment_of (get_or self.old.units u free))
            × (r.1 ≡ segment_of (get_or self.old.units u free))) }
        ensures refusal { RefusesAs (missing_unit self.old u) result }
        ensures unchanged { self.new ≡ self.old }
    {
        self.check_unit(u)?;
        let seat = self.units.monitor_seat(u)?;
        Ok(seat)
    }

    /// A copy of what a unit's publisher has published. Takes no memory.
    pub fn notice(&mut self, u: u8) -> Result<Notice, BookFault>
        ensures notice { IfOk result (λ notice. (free : UnitView) → notice ≡ noticed (get_or self.old.units u free).publisher) }
        ensures refusal { RefusesOnly (missing_unit self.old u) result }
        ensures unchanged { self.new ≡ self.old }
    {
        self.check_unit(u)?;
        Ok(self.units.notice(u))
    }

    /// A unit's publisher learns of a monitor's pairs and loads. Takes no memory.
    pub fn hear(&mut self, u: u8, account: Account) -> Result<(), BookFault>
        requires { u < length self.old.units → (free : UnitView) → account.segment ≡ segment_of (get_or self.old.units u free) }
        ensures heard { OnOk result ((free : UnitView) → BearsOut (get_or self.old.units u free) account.taken account.kept) }
        ensures refusal { RefusesOnly (missing_unit self.old u) result }
        ensures unchanged { self.new ≡ self.old }
    {
        self.check_unit(u)?;
        self.units.hear(u, account);
        Ok(())
    }

    /// What always holds of a book. A device that has not stopped stands for each stream that its opening stands for, followed by its
    /// symbols since. Of each unit the samples since the last turn are the published ones, and then those that are left, in order.
    pub fn show(&self)
        ensures holds { BookHolds self.now }
        ensures devices { DevicesGoOn self.now.log.opening self.now.log.present self.now.log.log }
        ensures order { All IsInOrder self.now.units }
        ensures units { All IsUnit self.now.units }
    {
        let _count = self.units.count();
    }
}

impl Book<PlainOutlet> {
    /// The item that was pushed first of those that a session's outlet holds; none exactly if it holds nothing. Takes no memory.
    pub fn take(&mut self, s: u32) -> Result<Option<Item>, BookFault>
        ensures item { IfOk result (λ item. (free : MemberView) → item ≡ slice_get (get_or self.old.sessions s free).session.kept 0) }
        ensures takes { OnOk result (TakesFirst s self.old self.new) }
        ensures refusal { RefusesOnly (missing_session self.old s) result }
        ensures limit { self.new.log.limit ≡ self.old.log.limit }
        ensures unchanged { OnErr result (self.new ≡ self.old) }
    {
        self.check_exists(s)?;
        let item = self.roster.take(s);
        Ok(item)
    }
}

impl<O: TwoEnded> Book<O> {
    /// Takes one item at the far end of a session's outlet and returns it: what the far end has received begins what the outlet keeps, and is
    /// all of it if there was none. Takes no memory.
    pub fn settle(&mut self, s: u32, far: &mut O::Far) -> Result<Option<Item>, BookFault>
        // The far end belongs to the outlet of the session.
        requires { s < length self.old.sessions → (free : MemberView) → O.belongs (O.far_name far.old) (get_or self.old.sessions s free).session.name }

        // What the far end gets: a prefix of what was kept, and all of it once there is no item.
        ensures got { IfOk result (λ item. O.got far.new ≡ O.got far.old ++ option_to_list item) }
        ensures prefix { OnOk result ((free : MemberView) → (rest : List (List ℕ)) × ((get_or self.new.sessions s free).session.kept ≡ O.got far.new ++ rest)) }
        ensures all { IfOk result (λ item. IfNone item ((free : MemberView) → O.got far.new ≡ (get_or self.new.sessions s free).session.kept)) }
        ensures far_name { O.far_name far.new ≡ O.far_name far.old }

        // When it is refused, and what a refusal leaves.
        ensures refusal { RefusesOnly (missing_session self.old s) result }
        ensures unchanged { self.new ≡ self.old }
        ensures far_stays { OnErr result (far.new ≡ far.old) }
    {
        self.check_exists(s)?;
        let item = self.roster.settle(s, far);
        Ok(item)
    }
}
