ghost use Rattle.std.specs.Prelude.{◌≡◌, ◌<◌, ◌≤◌, ◌++◌, true, false, [], ◌∷◌, length, get_or, slice_get, is_some, IfOk, IfErr, OnOk, OnErr, IfSome, IfNone, MatchOption, count_by};
ghost use Rattle.std.specs.List.{All, list_all};
ghost use Rattle.std.specs.Option.{option_and_then, option_to_list};
ghost use Rattle.book_log.specs.Standing.{has_stopped};
ghost use Rattle.book_sessions.specs.Roster.{was_watched};
ghost use Rattle.hub_door.specs.Admissions.{SessionLanes, admitting, dropping, finished, link_of, none_yet};
ghost use Rattle.report_book.specs.Moves.{PublishesAt, ShutsAll};
ghost use Rattle.report_book.specs.Refusals.{crowd_fault};
ghost use Rattle.report_book.specs.Standing.{BookHolds};
ghost use Rattle.hub_promise.specs.DaemonHub.{DaemonHub, MayGoOn};
ghost use Rattle.hub_promise.specs.Given.{TellsOnce};
ghost use Rattle.hub_promise.specs.Keeping.{IsClosed, IsUnused, NothingGot};
ghost use Rattle.hub_promise.specs.Parts.{AreAdmitted, devices_of, parts_of, subject_of, terms_of};
ghost use Rattle.gps_hub.specs.Admitting.{AdmitsAs, HasBound, IsCrowded, RefusesLink, drop_now};
ghost use Rattle.gps_hub.specs.Emptied.{GotAllOrOpen};
ghost use Rattle.gps_hub.specs.Pumping.{DevicePumped, IsWaiting, KeepsOtherInputs, KeepsOthers, SessionPumped};

use crate::device::pump as pump_device;
use crate::door::{finish, open, refusal_of, take_room};
use crate::inlets::{Inlets, Lasts, lasts_of, no_ends};
use crate::naming::HubNaming;
use crate::open_sessions::{Look, OpenSessions};
use crate::parted::Parted;
use crate::pumped::Pumped;
use crate::session::pump as pump_session;
use crate::settling::{empty_and_show, next_item};
use gps_lane::{Piece, Rx, Tx};
use hub_door::{DoorSeat, DoorTable, Keeper};
use hub_promise::DeviceEnd;
use report_book::{Book, BookFault, UnitStep};
use session_core::Item;
use std::alloc::Global;
use std::marker::Model;
use std::snapshot::Snapshot;
use std::sync::Wait;

/// The book of the running daemon, the receiving ends of the lanes of its devices and sessions, and the state of its door. One lock protects
/// all of it.
#[derive(Drop)]
pub struct Hub<J: HubNaming, R: Wait + Copy> {
    book: Book<Tx<Item, R>>,
    inlets: Vec<Inlets<R>>,
    lasts: Vec<Lasts>,
    ends: Vec<Option<DeviceEnd>>,
    inputs: Vec<Rx<Piece, R>>,
    keeper: Keeper<J>,
    open_sessions: OpenSessions,
    is_done: bool,
    is_shut: bool,
    wait: u32,
}

impl<J: HubNaming, R: Wait + Copy> Model for Hub<J, R> {
    ghost use Rattle.std.specs.Prelude.{◌≡◌};
    ghost use Rattle.hub_promise.specs.Keeping.{HubKeeps};
    ghost use Rattle.hub_promise.specs.Parts.{HubView};

    ghost Value = { HubView };

    ghost view = { λ h. record {
      book = h.book;
      inlets = h.inlets.items;
      ends = h.ends.items;
      inputs = h.inputs.items;
      door = h.keeper;
      wait = h.wait;
      is_shut = h.is_shut;
    } };

    ghost invariant = { λ h. HubKeeps J.terms
        (record { book = h.book; inlets = h.inlets.items; ends = h.ends.items; inputs = h.inputs.items; door = h.keeper; wait = h.wait; is_shut = h.is_shut })
        h.lasts.items × (h.is_done ≡ h.keeper.done) };
}

/// One step of a unit of the book.
fn publish_unit<R: Wait + Copy>(book: &mut Book<Tx<Item, R>>, u: u8) -> UnitStep
    requires { u < length book.old.units }
    ensures { PublishesAt u result book.old book.new }
{
    book.show();
    match book.publish_step(u) {
        Ok(step) => step,
        Err(_) => unreachable!(),
    }
}

impl<J: HubNaming, R: Wait + Copy> Hub<J, R> {
    /// A hub over a new book, with the lanes of its devices; and the token of the door's worker. The devices wait until `wait` sessions
    /// have watched, or the door has closed or failed.
    pub fn new(
        alloc: Global,
        book: Book<Tx<Item, R>>,
        inlets: Vec<Inlets<R>>,
        doors: DoorTable,
        wait: u32,
    ) -> Result<(Hub<J, R>, DoorSeat<J>), (Book<Tx<Item, R>>, Vec<Inlets<R>>)>
        // `J` is what no call of the hub changes.
        requires terms { J.terms ≡ terms_of book inlets.items wait }
        requires table { doors.table ≡ J.table }
        requires ledger { doors.ledger ≡ J.name }
        requires parts { doors.parts ≡ J.parts }
        requires whole { doors.parts ≡ J.whole }

        // The book is new, and nothing was received from the lanes of its devices.
        requires unused { IsUnused book }
        requires count { length inlets.items ≡ length book.names }
        requires nothing_got { All NothingGot inlets.items }
        requires wait { wait ≤ 64 }

        // The door's worker knows of nothing yet. If it is out of memory, the book and the lanes come back.
        ensures seat { IfOk result (λ r. r.1 ≡ none_yet) }
        ensures book { IfErr result (λ r. r.0 ≡ book) }
        ensures inlets { IfErr result (λ r. r.1 ≡ inlets) }
    {
        book.show();
        let Ok(lasts) = lasts_of(alloc, &inlets) else {
            return Err((book, inlets));
        };
        let Ok(ends) = no_ends(alloc, &inlets) else {
            return Err((book, inlets));
        };
        let (keeper, seat) = doors.open::<J>();
        let hub = Hub {
            book,
            inlets,
            lasts,
            ends,
            inputs: Vec::new(alloc),
            keeper,
            open_sessions: OpenSessions::new(alloc),
            is_done: false,
            is_shut: false,
            wait,
        };
        Ok((hub, seat))
    }

    /// How many sessions have watched, if the devices wait.
    fn waiting(&self) -> Option<u32>
        ensures { MatchOption result (MayGoOn (parts_of self.now)) (λ watched. IsWaiting self.now × (watched ≡ count_by was_watched self.now.book.sessions)) }
    {
        let watched = self.book.watched();
        if watched < self.wait && !self.is_done {
            Some(watched)
        } else {
            None
        }
    }

    /// Gets a piece of one lane of a device and gives it to the book. A device stops once both of its lanes have told how
    /// their source ended. It is lost if the book refuses a piece of it.
    pub fn device_piece(&mut self, d: u8) -> Pumped
        requires { d < length J.terms.names }
        ensures pumped { DevicePumped result d self.old self.new }
        ensures others { KeepsOthers d self.old self.new }
    {
        let at = usize::from(d);
        if self.ends[at].is_some() {
            return Pumped::Done;
        }
        if let Some(watched) = self.waiting() {
            return Pumped::Waiting { watched };
        }
        let pumped = pump_device(
            &mut self.book,
            &mut self.inlets[at],
            &mut self.lasts[at],
            &mut self.ends[at],
            d,
        );
        self.book.show();
        pumped
    }

    /// Gets a piece of a session's input lane and gives it to the book. A session is hung up if its source has ended, or if
    /// the book refuses a piece of it; no request of that piece is answered.
    pub fn session_piece(&mut self, s: u32) -> Pumped
        requires { s < length self.old.inputs }
        ensures pumped { SessionPumped result s self.old self.new }
        ensures others { KeepsOtherInputs s self.old self.new }
    {
        if self.book.closing(s).is_some() {
            return Pumped::Done;
        }
        let pumped = pump_session(&mut self.book, &mut self.inputs[s as usize], s);
        self.book.show();
        pumped
    }

    /// One step of a unit: it begins the first waiting sample if none is being stored, and makes one store, or none.
    pub fn publish(&mut self, u: u8) -> UnitStep
        requires { u < length J.terms.segments }
        ensures publishes { PublishesAt u result self.old.book self.new.book }
        ensures others { self.new ≡ record self.old { book = self.new.book } }
    {
        let step = publish_unit(&mut self.book, u);
        self.book.show();
        step
    }

    /// Notes that the door has closed or failed.
    pub fn door_done(&mut self, door: &mut DoorSeat<J>)
        ensures hub { self.new ≡ record self.old { door = finished self.old.door } }
        ensures door { door.new ≡ finished door.old }
    {
        finish(&mut self.keeper, self.is_done, door);
        self.is_done = true;
    }

    /// Admits a session over these lanes. If the book was shut before, it is closed at once.
    pub fn admit_link(
        &mut self,
        door: &mut DoorSeat<J>,
        outlet: Tx<Item, R>,
        input: Rx<Piece, R>,
    ) -> Result<u32, (Tx<Item, R>, Rx<Piece, R>, BookFault)>
        // The lanes are new, and the outlet is open.
        requires outlet { outlet.put ≡ [] }
        requires open { outlet.is_open ≡ true }
        requires input { input.got ≡ [] }

        // The outlet is about the hub's devices and what the client sends.
        requires about { outlet.about ≡ subject_of J.terms input.about.source }

        // The session is the next one. Both the hub and the door's worker note its lanes.
        ensures number { IfOk result (λ s. s ≡ length door.old.links) }
        ensures door { OnOk result (door.new ≡ admitting (link_of outlet.lane outlet.cap input.lane) door.old) }
        ensures admits { IfOk result (λ _. AdmitsAs (link_of outlet.lane outlet.cap input.lane) self.old.is_shut self.old.book self.new.book) }
        ensures changes { OnOk result (self.new
            ≡ record self.old {
              book = self.new.book;
              inputs = self.old.inputs
                  ++ input ∷ [];
              door = admitting (link_of outlet.lane outlet.cap input.lane) self.old.door;
            }) }

        // When it is refused, and what a refusal leaves.
        ensures refusal { RefusesLink (crowd_fault self.old.book) result }
        ensures outlet { IfErr result (λ r. r.0 ≡ outlet) }
        ensures input { IfErr result (λ r. r.1 ≡ input) }
        ensures unchanged { OnErr result (self.new ≡ self.old) }
        ensures same_door { OnErr result (door.new ≡ door.old) }
        ensures crowded { IfErr result (λ r. IsCrowded r.2 self.old.book) }
    {
        let Ok(()) = take_room(&mut self.inputs, &mut self.open_sessions) else {
            self.keeper.agree(door);
            let fault = refusal_of(&self.book);
            return Err((outlet, input, fault));
        };
        let lanes = (Snapshot::of(&outlet), Snapshot::of(&input));
        match open(&mut self.book, outlet, self.is_shut) {
            Ok(s) => {
                self.book.show();
                self.inputs.push_reserved(input);
                self.keeper.admit(door, lanes.0, lanes.1);
                self.open_sessions.add(s);
                Ok(s)
            }
            Err((outlet, fault)) => {
                self.keeper.agree(door);
                Err((outlet, input, fault))
            }
        }
    }

    /// Notes in the door's list that a link is dropped now because a bound is reached: 64 sessions are live, 100,000 were opened, or at least
    /// 64 are not yet released. `held` is the number of unreleased sessions, as the door's worker says.
    pub fn drop_link(&mut self, door: &mut DoorSeat<J>, held: usize)
        requires bound { HasBound (drop_now held self.old.book) }
        ensures opened { length self.old.book.sessions ≡ length door.old.links }
        ensures hub { self.new ≡ record self.old { door = dropping (drop_now held self.old.book) self.old.door } }
        ensures door { door.new ≡ dropping (drop_now held self.old.book) door.old }
    {
        let (live, opened) = (self.book.live(), self.book.opened());
        self.keeper.drop_link(door, live, opened, held);
    }

    /// Shuts the book if each device has ended or was lost: then no session is live, nor will one be. Otherwise changes nothing.
    pub fn shut(&mut self) -> bool
        ensures exact { result ≡ list_all (λ line. has_stopped line.stage) self.old.book.log.present.lines }
        ensures shuts { result ≡ true → ShutsAll self.old.book self.new.book }
        ensures closed { result ≡ true → All IsClosed self.new.book.sessions }
        ensures all { result ≡ true → All (λ end. is_some end ≡ true) self.new.ends }
        ensures changes { result ≡ true → self.new ≡ record self.old { book = self.new.book; is_shut = true } }
        ensures unchanged { result ≡ false → self.new ≡ self.old }
    {
        if !self.book.all_ended() {
            return false;
        }
        self.book.shut();
        self.book.show();
        self.is_shut = true;
        true
    }

    /// Gets the next item of a closed session's outlet, if there is one. None if the session is not closed.
    pub fn settle_outlet(
        &mut self,
        door: &mut DoorSeat<J>,
        s: u32,
        items: &mut Rx<Item, R>,
    ) -> Option<Item>
        requires there { s < length door.old.links }
        requires outlet { (free : SessionLanes) → items.old.lane ≡ (get_or door.old.links s free).outlet }
        ensures hub { self.new ≡ self.old }
        ensures door { door.new ≡ door.old }
        ensures items { items.new ≡ record items.old { got = items.old.got ++ option_to_list result } }
        ensures all { IfNone result (GotAllOrOpen s self.old items.new) }
    {
        self.keeper.agree(door);
        match self.book.closing(s) {
            Some(_) => next_item(&mut self.book, s, items),
            None => None,
        }
    }

    /// Receives the pieces that a closed session's input lane still holds, and answers none of their requests. Then the lane may be closed, so
    /// that nothing more can be put into it. Nothing changes if the session is not closed.
    pub fn settle_input(&mut self, door: &mut DoorSeat<J>, s: u32, pieces: &mut Tx<Piece, R>)
        // This is the sending end of the session's input lane. Nothing was put after the piece that tells how its source ended.
        requires there { s < length door.old.links }
        requires input { (free : SessionLanes) → pieces.old.lane ≡ (get_or door.old.links s free).input }
        requires once { TellsOnce pieces.old.put }

        // Only the two ends of this lane change.
        ensures hub { self.new ≡ record self.old { inputs = self.new.inputs } }
        ensures others { KeepsOtherInputs s self.old self.new }
        ensures door { door.new ≡ door.old }
        ensures pieces { pieces.new ≡ record pieces.old { is_open = pieces.new.is_open } }
    {
        if self.book.closing(s).is_none() {
            return;
        }
        self.keeper.agree(door);
        empty_and_show(pieces, &mut self.inputs[s as usize]);
    }

    /// What always holds of the hub, whenever the lock is taken. It includes that the log has only what the sources of the devices held, in order.
    pub fn show(&self)
        ensures { DaemonHub (parts_of self.now) }
    {
        let _wait = &self.wait;
    }

    /// The book.
    pub fn book(&self) -> &Book<Tx<Item, R>>
        ensures { result.now ≡ self.now.book }
    {
        &self.book
    }

    /// What is new of the session at a place of the list of those that were not closed at the last look; none past the end. If it is
    /// closed now, it leaves the list, and the last one takes its place.
    pub fn look(&mut self, place: usize) -> Option<Look>
        ensures session { IfSome result (λ look. look.session < length self.old.inputs) }
        ensures closed { IfSome result (λ look. look.closed
            ≡ is_some (option_and_then (λ member. member.session.closing) (slice_get self.old.book.sessions look.session))) }
        ensures unchanged { self.new ≡ self.old }
    {
        self.open_sessions.look(&self.book, place)
    }

    /// Takes the hub apart, once the door's worker is done. Takes no memory.
    pub fn part(mut self, mut door: DoorSeat<J>) -> Parted<R>
        ensures agrees { DaemonHub (record {
          book = result.book;
          devices = devices_of result.inlets.items result.ends.items;
          inputs = result.sessions.items;
          done = door.done;
          wait = J.terms.wait;
        }) }
        ensures count { length result.ends.items ≡ length result.inlets.items }
        ensures terms { terms_of result.book result.inlets.items J.terms.wait ≡ J.terms }
        ensures sessions { AreAdmitted door.links result.book.sessions result.sessions.items }
        ensures holds { BookHolds result.book }
        ensures same { (result.book ≡ self.book) × (result.ends.items ≡ self.ends) }
    {
        self.keeper.agree(&mut door);
        let Hub {
            book,
            inlets,
            lasts: _,
            ends,
            inputs,
            keeper: _,
            open_sessions: _,
            is_done: _,
            is_shut: _,
            wait: _,
        } = self;
        Parted {
            book,
            inlets,
            ends,
            sessions: inputs,
        }
    }
}
