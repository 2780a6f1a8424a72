ghost use Rattle.std.specs.Prelude.{◌≡◌, ◌≤◌, ◌<◌, ◌*◌, ◌||◌, [], length, IfOk, IfErr, IfSome, OnOk, OnErr, true, false};
ghost use Rattle.std.specs.List.{All};
ghost use Rattle.serve_floor.specs.declared.floor.Burst.TheVariants.{Over};
ghost use Rattle.book_sessions.specs.Roster.{most_live};
ghost use Rattle.hub_promise.specs.Keeping.{IsClosed};
ghost use Rattle.hub_promise.specs.Parts.{subject_of};
ghost use Rattle.hub_door.specs.Admissions.{admitting, finished, link_of};
ghost use Rattle.gps_hub.specs.Admitting.{IsCrowded};
ghost use Rattle.serve_floor.specs.Admitting.{DropsOne, TurnsAway};
ghost use Rattle.serve_floor.specs.Bursts.{AreAtRest, HasStopped, IsAtRestIn};

use crate::rings::{Call, Rings};
use gps_hub::{DoorSeat, Hub, HubNaming, Look, Pumped};
use gps_lane::{Piece, Rx, Tx};
use report_book::{BookFault, UnitStep};
use serve_workers::SessionBells;
use session_core::Item;
use std::alloc::Global;
use std::sync::{Arc, Wait};

/// The most pieces of devices that a burst takes. A burst holds the lock, so it is short: with 64 clients most of its time goes to their lanes.
const PIECES_A_BURST: u32 = 2;

/// The most looks at a device in a burst: at most eight devices are looked at for each piece.
const DEVICE_LOOKS: u32 = 8 * PIECES_A_BURST;

/// An upper bound of a loop: more than the sessions of a run.
const SESSION_LOOKS: u32 = 200_000;

/// The most stores that are made for one unit under one lock: those of 128 samples.
const STEPS: u16 = 1_664;

/// What a burst did.
#[derive(Clone, Copy, Debug, PartialEq, Eq)]
pub enum Burst {
    /// Pieces were taken, and the sessions were attended to.
    Fed,
    /// Pieces were taken, more may wait, and the sessions were left to a later burst.
    Held,
    /// There was nothing to take.
    Idle,
    /// All devices have stopped, and the book is shut.
    Over,
}

/// Why a link is refused.
#[derive(Clone, Copy, Debug, PartialEq, Eq)]
pub enum LinkRefusal {
    /// Too many sessions are live, were opened, or are not yet released.
    TooMany,
    NoMemory,
}

/// What a burst took of the devices' lanes.
#[derive(Clone, Copy, Debug, PartialEq, Eq)]
enum Taken {
    Nothing,
    /// All that waited.
    Whole,
    /// As much as a burst takes. More may wait.
    Part,
}

/// What the lock guards: the hub, how many devices and units it has, the device to look at next, the bells of each session, and whether the book
/// refused a piece of a device. Such a device is lost, and its readers may still read.
#[derive(Drop)]
pub struct Floor<J: HubNaming, R: Wait + Copy> {
    pub hub: Hub<J, R>,
    devices: u8,
    units: u8,
    next: u8,
    sessions: Vec<Arc<SessionBells>>,
    pub(crate) has_refused: bool,
    ghost devices_are: { devices ≡ length J.terms.names },
    ghost units_are: { units ≡ length J.terms.segments },
}

fn either(before: bool, now: bool) -> bool
    ensures { result ≡ (before || now) }
{
    before || now
}

/// What the lock guards, with no session yet.
pub fn floor_of<J: HubNaming, R: Wait + Copy>(
    alloc: Global,
    hub: Hub<J, R>,
    devices: u8,
) -> Floor<J, R>
    requires few { devices ≤ 8 }
    requires devices { devices ≡ length J.terms.names }
    requires units { 2 * devices ≡ length J.terms.segments }
{
    Floor {
        hub,
        devices,
        units: 2 * devices,
        next: 0,
        sessions: Vec::new(alloc),
        has_refused: false,
    }
}

impl<J: HubNaming, R: Wait + Copy> Floor<J, R> {
    /// The hub, once no thread is left.
    pub fn into_hub(self) -> Hub<J, R>
        ensures { result ≡ self.hub }
    {
        let Floor {
            hub,
            devices: _,
            units: _,
            next: _,
            sessions: _,
            has_refused: _,
        } = self;
        hub
    }

    /// Takes a piece of this device, if there is one. True if it did.
    fn feed(&mut self, device: u8) -> bool {
        if device >= self.devices {
            return false;
        }
        match self.hub.device_piece(device) {
            Pumped::Fed => true,
            Pumped::Refused(_) => {
                self.has_refused = true;
                true
            }
            Pumped::Empty | Pumped::Waiting { watched: _ } | Pumped::Done => false,
        }
    }

    /// Takes a piece of the next device, round robin. True if it did.
    fn feed_next(&mut self) -> bool {
        let fed = self.feed(self.next);
        let next = self.next.saturating_add(1);
        self.next = if next < self.devices { next } else { 0 };
        fed
    }

    /// Takes pieces of the devices, round robin, as many as a burst takes. It begins with the device after the one at which the last burst ended.
    fn feed_all(&mut self) -> Taken {
        let mut fed = 0u32;
        let mut idle = 0u8;
        for _ in 0..DEVICE_LOOKS {
            if self.feed_next() {
                fed = fed.saturating_add(1);
                idle = 0;
            } else {
                idle = idle.saturating_add(1);
            }
            if fed >= PIECES_A_BURST {
                return Taken::Part;
            }
            if idle >= self.devices {
                break;
            }
        }
        if fed > 0 {
            Taken::Whole
        } else {
            Taken::Nothing
        }
    }

    /// Takes a piece of a session's input, and notes the rings of its threads if there is something for them. True if it took one.
    fn attend(&mut self, look: Look, rings: &mut Rings) -> bool
        requires { look.session < length self.old.hub.inputs }
    {
        let fed = match self.hub.session_piece(look.session) {
            Pumped::Fed | Pumped::Refused(_) => true,
            Pumped::Empty | Pumped::Waiting { watched: _ } | Pumped::Done => false,
        };
        if let Some(bells) = self.sessions.get(look.session as usize) {
            let call = Call {
                has_room: fed,
                has_items: look.fresh,
                is_last: look.closed,
            };
            rings.add(bells, call);
        }
        fed
    }

    fn attend_all(&mut self, rings: &mut Rings) -> bool {
        let mut fed = false;
        let mut k = 0usize;
        for _ in 0..SESSION_LOOKS {
            let Some(look) = self.hub.look(k) else {
                break;
            };
            if self.attend(look, rings) {
                fed = true;
            }
            if !look.closed {
                k = k.saturating_add(1);
            }
        }
        fed
    }

    fn close_sessions(&self) {
        for bells in self.sessions.as_slice() {
            bells.close();
        }
    }

    /// Takes what waits in the lanes of devices and sessions. If `may_hold` is set, and the devices may have more, the sessions are left to a
    /// later burst. The bells to ring are noted in `rings`, for when the lock is free. If all devices have stopped, the book is shut, and the
    /// sessions are told.
    pub fn burst(&mut self, may_hold: bool, rings: &mut Rings) -> Burst
        ensures closed { result ≡ Over → All IsClosed self.new.hub.book.sessions }
        ensures stopped { result ≡ Over → All HasStopped self.new.hub.ends }
    {
        let taken = self.feed_all();
        let holds = may_hold && taken == Taken::Part;
        let heard = !holds && self.attend_all(rings);
        if self.hub.shut() {
            self.close_sessions();
            Burst::Over
        } else if holds {
            Burst::Held
        } else if heard || taken != Taken::Nothing {
            Burst::Fed
        } else {
            Burst::Idle
        }
    }

    /// Makes one store for a unit. False if there was none to make.
    #[tactic(auto, using(crate::proofs::Resting::empty_rests, crate::proofs::Resting::spent_rests))]
    fn store(&mut self, unit: u8) -> bool
        requires { unit < length J.terms.segments }
        ensures sessions { self.new.hub.book.sessions ≡ self.old.hub.book.sessions }
        ensures ends { self.new.hub.ends ≡ self.old.hub.ends }
        ensures none { result ≡ false → (self.new.hub.book.units ≡ self.old.hub.book.units) × IsAtRestIn unit self.new.hub.book.units }
    {
        match self.hub.publish(unit) {
            UnitStep::Stored { word: _, value: _ } => true,
            UnitStep::Empty => false,
            UnitStep::Spent => false,
        }
    }

    /// Makes at most `STEPS` stores for a unit. False if there was none to make.
    fn store_some(&mut self, unit: u8) -> bool
        requires { unit < length J.terms.segments }
        ensures sessions { self.new.hub.book.sessions ≡ self.old.hub.book.sessions }
        ensures ends { self.new.hub.ends ≡ self.old.hub.ends }
        ensures none { result ≡ false → (self.new.hub.book.units ≡ self.old.hub.book.units) × IsAtRestIn unit self.new.hub.book.units }
    {
        if !self.store(unit) {
            return false;
        }
        'steps: for _ in 1..STEPS {
            if !self.store(unit) {
                break;
            }
        }
        true
    }

    /// Makes at most `STEPS` stores for each unit. False if there was none to make.
    pub fn publish(&mut self) -> bool
        ensures sessions { self.new.hub.book.sessions ≡ self.old.hub.book.sessions }
        ensures ends { self.new.hub.ends ≡ self.old.hub.ends }
        ensures rest { result ≡ false → AreAtRest (length J.terms.segments) self.new.hub.book.units }
    {
        let mut stored = false;
        'units: for unit in 0..self.units {
            let some = self.store_some(unit);
            stored = either(stored, some);
        }
        stored
    }

    /// Whether a session is closed.
    pub fn is_closed(&self, session: u32) -> bool {
        self.hub.book().closing(session).is_some()
    }

    /// Drops a link because at least 64 sessions are not yet released, and notes it in the door's list.
    #[tactic(auto, using(crate::proofs::Admitting::drops_held))]
    pub fn drop_link(&mut self, door: &mut DoorSeat<J>, held: usize)
        requires many { most_live ≤ held }
        requires few { held ≤ length door.old.links }
        ensures { DropsOne held door.old door.new }
    {
        self.hub.drop_link(door, held);
    }

    /// Refuses a link because of the book's fault, and answers why. If there are too many sessions, notes it in the door's list; `held` are
    /// not yet released.
    #[tactic(auto, using(crate::proofs::Admitting::full_bound, crate::proofs::Admitting::drops_full))]
    fn turn_away(&mut self, door: &mut DoorSeat<J>, fault: BookFault, held: usize) -> LinkRefusal
        requires { IsCrowded fault self.old.hub.book }
        ensures { TurnsAway result held door.old door.new }
    {
        match fault {
            BookFault::TooManySessions { live: _, opened: _ } => {
                self.hub.drop_link(door, held);
                LinkRefusal::TooMany
            }
            BookFault::NoSuch | BookFault::Ended | BookFault::NoMemory => LinkRefusal::NoMemory,
        }
    }

    /// Admits a session with its bells, and answers its number. If there are too many sessions, notes the link as dropped in the door's list; `held`
    /// sessions are not yet released.
    pub fn admit(
        &mut self,
        door: &mut DoorSeat<J>,
        outlet: Tx<Item, R>,
        input: Rx<Piece, R>,
        bells: Arc<SessionBells>,
        held: usize,
    ) -> Result<u32, LinkRefusal>
        requires outlet { outlet.put ≡ [] }
        requires open { outlet.is_open ≡ true }
        requires input { input.got ≡ [] }
        requires about { outlet.about ≡ subject_of J.terms input.about.source }

        // It has the next number, and its lanes are in the door's list, or the answer says why it is refused.
        ensures number { IfOk result (λ s. s ≡ length door.old.links) }
        ensures door { OnOk result (door.new ≡ admitting (link_of outlet.lane outlet.cap input.lane) door.old) }
        ensures refused { IfErr result (λ why. TurnsAway why held door.old door.new) }
    {
        if self.sessions.push(bells).is_err() {
            return Err(LinkRefusal::NoMemory);
        }
        match self.hub.admit_link(door, outlet, input) {
            Ok(session) => Ok(session),
            Err((_, _, fault)) => {
                self.sessions.pop();
                Err(self.turn_away(door, fault, held))
            }
        }
    }
}
