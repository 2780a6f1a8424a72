use crate::{HeldPipes, Place};
use gps_fixed::Bytes;
use gps_outside::{ClientSink, Clock, Door, Source};

/// The result of opening something of the outside.
#[derive(Drop)]
pub enum Opened<T> {
    Ready(T),
    /// It could not be opened; the faults rose.
    Failed,
}

/// Opens the objects of the outside: sources by their places, a door by its address, and a clock.
pub trait World: Drop {
    ghost use Rattle.std.specs.Prelude.{◌≡◌, ◌≢◌, ℕ, ◌<◌, ◌≤◌, List, length, Option, None};
    ghost use Rattle.gps_outside.specs.Counts.{Rose};
    ghost use Rattle.gps_outside.specs.Links.{IsUnread};
    ghost use Rattle.gps_outside.specs.Ticks.{Dial};
    ghost use Rattle.gps_world.specs.declared.place.Place.{Place};
    ghost use Rattle.gps_world.specs.declared.world.Opened.{Opened};
    ghost use Rattle.gps_world.specs.Asking.{Asking, asked_for, listened_to};
    ghost use Rattle.gps_world.specs.Opening.{IfReady, IsAllLeft, Tells};

    type In: Source + Send;

    type Out: ClientSink + Send;

    type Now: Clock + Send;

    type Gate: Door<In = Self::In, Out = Self::Out> + Send;

    /// How often an input could not be opened.
    ghost input_faults: { Self → ℕ };

    /// How often listening failed.
    ghost listen_faults: { Self → ℕ };

    /// The places of the inputs that were asked for, in order, and the address that was listened to.
    ghost asked: { Self → Asking };

    /// The bytes of each place, if they are modelled.
    ghost behind: { Self → Place → Option (List ℕ) };

    /// The links of its door, if they are modelled.
    ghost links: { Self → Option (List (Self.In × Self.Out)) };

    /// The stamps of its clock, if they are modelled.
    ghost stamps: { Self → Option Dial };

    /// Opens a place. Nothing was read from the source that it gives.
    fn input(&mut self, place: Place) -> Opened<Self::In>
        // What is asked for, and the source that it gives: unused, with all bytes of its place.
        requires { length (asked self.old).places < 16 }
        ensures asked { asked self.new ≡ asked_for place (asked self.old) }
        ensures unread { IfReady result (λ source. IsUnread (Self.In.content source) (Self.In.faults source) (Self.In.quiets source)) }
        ensures bytes { IfReady result (λ source. IsAllLeft (behind self.old place) (Self.In.content source)) }

        // A failure counts as a fault of an input. Faults of listening stay.
        ensures failed { result ≡ Opened.Failed → Rose (input_faults self.old) (input_faults self.new) }
        ensures faults_stay { input_faults self.old ≤ input_faults self.new }
        ensures listen_faults { listen_faults self.new ≡ listen_faults self.old }

        // What does not change.
        ensures other_places { (other : Place) → other ≢ place → behind self.new other ≡ behind self.old other }
        ensures links { links self.new ≡ links self.old }
        ensures stamps { stamps self.new ≡ stamps self.old };

    /// Opens the door at an address, HOST:PORT.
    fn listen(&mut self, address: Bytes) -> Opened<Self::Gate>
        // What is asked for, and the door that it gives: unused, with the links of this world.
        requires { (asked self.old).address ≡ None }
        ensures asked { asked self.new ≡ listened_to address (asked self.old) }
        ensures unused { IfReady result (λ gate. (Self.Gate.faults gate ≡ 0) × (Self.Gate.quiets gate ≡ 0)) }
        ensures links { IfReady result (λ gate. Tells (links self.old) (Self.Gate.links gate)) }

        // A failure counts as a fault of listening. Faults of inputs stay.
        ensures failed { result ≡ Opened.Failed → Rose (listen_faults self.old) (listen_faults self.new) }
        ensures faults_stay { listen_faults self.old ≤ listen_faults self.new }
        ensures input_faults { input_faults self.new ≡ input_faults self.old }

        // What does not change.
        ensures places { (place : Place) → behind self.new place ≡ behind self.old place }
        ensures stamps { stamps self.new ≡ stamps self.old };

    /// Its clock.
    fn clock(&mut self) -> Self::Now
        ensures told { Tells (stamps self.old) (Self.Now.stamps result) }
        ensures asked { asked self.new ≡ asked self.old }
        ensures input_faults { input_faults self.new ≡ input_faults self.old }
        ensures listen_faults { listen_faults self.new ≡ listen_faults self.old }
        ensures places { (place : Place) → behind self.new place ≡ behind self.old place }
        ensures links { links self.new ≡ links self.old };

    /// Wakes the readers of its sources that wait at a named pipe, for a writer or for bytes: each finds a line feed there. For the
    /// end, once nobody needs what they read. None waits there again while the pipes that it gives are held.
    fn wake_readers(&self) -> Option<HeldPipes> {
        None
    }
}
