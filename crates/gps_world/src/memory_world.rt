ghost use Rattle.std.specs.Prelude.{◌≡◌, [], Some, IfSome};
ghost use Rattle.gps_outside.specs.Links.{IsUnread};
ghost use Rattle.gps_world.specs.Asking.{asked_nothing};
ghost use Rattle.std.specs.List.{prefix_len};
ghost use Rattle.gps_world.specs.MemoryWorlds.{HaveSources, source_at, without_first, differs};

use crate::{Asked, Opened, Place, World};
use gps_fixed::{Bytes, Stamp};
use gps_outside::{ClientSink, MemoryClock, MemoryDoor, Source};
use std::alloc::Global;
use std::marker::Model;

/// A world in memory. A place gives its sources in order; the door and the clock are given once, and after the clock one
/// that gives the clock's last stamp for ever.
#[derive(Drop)]
pub struct MemoryWorld<I: Source, K: ClientSink> {
    alloc: Global,
    places: Vec<(Place, I)>,
    door: Option<MemoryDoor<I, K>>,
    clock: Option<MemoryClock>,
    last: Stamp,
    asked: Asked,
    input_faults: u64,
}

impl<I: Source, K: ClientSink> Model for MemoryWorld<I, K> {
    ghost use Rattle.std.specs.Prelude.{◌≡◌, None, IfSome, IsSome};
    ghost use Rattle.gps_outside.specs.Links.{IsUnread};
    ghost use Rattle.gps_world.specs.MemoryWorlds.{Stock, HaveSources, clock_or, IsUnusedGate};

    ghost Value = { Stock I K };

    ghost view = { λ s. record {
      places = s.places.items;
      door = s.door;
      clock = clock_or s.last s.clock;
      asked = s.asked;
      input_faults = s.input_faults;
      listen_faults = 0;
    } };

    // No source was read before it is given; the door is there until it is asked for.
    ghost invariant = { λ s.
        HaveSources (λ source. IsUnread (I.content source) (I.faults source) (I.quiets source)) s.places.items
        × IfSome s.door IsUnusedGate
        × (s.asked.address ≡ None → IsSome s.door)
        × IfSome s.clock (λ clock. clock.last ≡ s.last) };
}

/// How many sources come before the first one of a place.
fn others_before<I>(places: &[(Place, I)], place: &Place) -> usize
    ensures { result ≡ prefix_len (differs place.now) places.now }
{
    places
        .iter()
        .take_while(|first| !first.0.is_same(place))
        .count()
}

/// Takes the first source of a place.
#[tactic(auto, using(crate::proofs::Firsts::found_takes, crate::proofs::Firsts::missing_takes))]
fn take_first<I: Drop>(places: &mut Vec<(Place, I)>, place: &Place) -> Option<I>
    ensures source { result ≡ source_at place.now places.old.items }
    ensures rest { places.new.items ≡ without_first place.now places.old.items }
{
    let at = others_before(places.as_slice(), place);
    if at < places.len() {
        Some(places.remove(at).1)
    } else {
        None
    }
}

impl<I: Source, K: ClientSink> MemoryWorld<I, K> {
    ghost use Rattle.gps_world.specs.MemoryWorlds.{IsUnusedGate};

    /// Nothing was read from the sources, if their contents are modelled, and the counts of the sources and the door are 0. Takes
    /// no memory.
    pub fn new(
        alloc: Global,
        places: Vec<(Place, I)>,
        door: MemoryDoor<I, K>,
        clock: MemoryClock,
    ) -> MemoryWorld<I, K>
        requires sources { HaveSources (λ source. IsUnread (I.content source) (I.faults source) (I.quiets source)) places.items }
        requires door { IsUnusedGate door }
        ensures { result ≡ record {
          places = places.items;
          door = Some door;
          clock = clock;
          asked = asked_nothing;
          input_faults = 0;
          listen_faults = 0;
        } }
    {
        let last = clock.last();
        MemoryWorld {
            alloc,
            places,
            door: Some(door),
            clock: Some(clock),
            last,
            asked: Asked::nothing(alloc),
            input_faults: 0,
        }
    }

    /// The places that were asked for, in order.
    pub fn asked(&self) -> &[Place]
        ensures { result.now ≡ self.now.asked.places }
    {
        self.asked.places()
    }
}

impl<I: Source + Send, K: ClientSink + Send> World for MemoryWorld<I, K> {
    ghost use Rattle.std.specs.Prelude.{◌≡◌, ◌≢◌, ◌<◌, ◌≤◌, length, Some, None, option_map};
    ghost use Rattle.gps_outside.specs.Counts.{Rose};
    ghost use Rattle.gps_outside.specs.Links.{IsUnread};
    ghost use Rattle.gps_outside.specs.DoorPlans.{links_of};
    ghost use Rattle.gps_world.specs.declared.place.Place.{Place};
    ghost use Rattle.gps_world.specs.declared.world.Opened.{Opened};
    ghost use Rattle.gps_world.specs.Asking.{asked_for, listened_to};
    ghost use Rattle.gps_world.specs.Opening.{IfReady, IsAllLeft, Tells};
    ghost use Rattle.gps_world.specs.MemoryWorlds.{source_at, opened_of, after_input, after_listen, after_clock, bytes_at, links_in};

    type In = I;

    type Out = K;

    type Now = MemoryClock;

    type Gate = MemoryDoor<I, K>;

    ghost input_faults = { λ s. s.input_faults };

    ghost listen_faults = { λ s. s.listen_faults };

    ghost asked = { λ s. s.asked };

    ghost behind = { λ s place. bytes_at I.content s.places place };

    ghost links = { λ s. Some (links_in s.door) };

    ghost stamps = { λ s. Some s.clock.dial };

    fn input(&mut self, place: Place) -> Opened<I>
        // What is asked for, and the source that it gives: unused, with all bytes of its place.
        requires { length self.old.asked.places < 16 }
        ensures asked { self.new.asked ≡ asked_for place self.old.asked }
        ensures unread { IfReady result (λ source. IsUnread (I.content source) (I.faults source) (I.quiets source)) }
        ensures bytes { IfReady result (λ source. IsAllLeft (bytes_at I.content self.old.places place) (I.content source)) }

        // A failure counts as a fault of an input. Faults of listening stay.
        ensures failed { result ≡ Opened.Failed → Rose self.old.input_faults self.new.input_faults }
        ensures faults_stay { self.old.input_faults ≤ self.new.input_faults }
        ensures listen_faults { self.new.listen_faults ≡ self.old.listen_faults }

        // What does not change.
        ensures other_places { (other : Place) → other ≢ place → bytes_at I.content self.new.places other ≡ bytes_at I.content self.old.places other }
        ensures links { Some (links_in self.new.door) ≡ Some (links_in self.old.door) }
        ensures stamps { Some self.new.clock.dial ≡ Some self.old.clock.dial }

        // This world answers with what it was given.
        ensures answer { result ≡ opened_of (source_at place self.old.places) }
        ensures after { self.new ≡ after_input place self.old }
    {
        let found = take_first(&mut self.places, &place);
        self.asked.add(place);
        match found {
            Some(source) => Opened::Ready(source),
            None => {
                self.input_faults = self.input_faults.saturating_add(1);
                Opened::Failed
            }
        }
    }

    fn listen(&mut self, address: Bytes) -> Opened<MemoryDoor<I, K>>
        // What is asked for, and the door that it gives: unused, with the links of this world.
        requires { self.old.asked.address ≡ None }
        ensures asked { self.new.asked ≡ listened_to address self.old.asked }
        ensures unused { IfReady result (λ gate. (gate.faults ≡ 0) × (gate.quiets ≡ 0)) }
        ensures links { IfReady result (λ gate. Tells (Some (links_in self.old.door)) (Some (links_of gate.plan))) }

        // A failure counts as a fault of listening. Faults of inputs stay.
        ensures failed { result ≡ Opened.Failed → Rose self.old.listen_faults self.new.listen_faults }
        ensures faults_stay { self.old.listen_faults ≤ self.new.listen_faults }
        ensures input_faults { self.new.input_faults ≡ self.old.input_faults }

        // What does not change.
        ensures places { (place : Place) → bytes_at I.content self.new.places place ≡ bytes_at I.content self.old.places place }
        ensures stamps { Some self.new.clock.dial ≡ Some self.old.clock.dial }

        // This world answers with what it was given.
        ensures answer { result ≡ opened_of self.old.door }
        ensures after { self.new ≡ after_listen address self.old }
    {
        self.asked.set_address(address);
        match self.door.take() {
            Some(door) => Opened::Ready(door),
            None => unreachable!(),
        }
    }

    fn clock(&mut self) -> MemoryClock
        // The clock shows the stamps of this world.
        ensures told { Tells (Some self.old.clock.dial) (Some result.dial) }

        // What does not change.
        ensures asked { self.new.asked ≡ self.old.asked }
        ensures input_faults { self.new.input_faults ≡ self.old.input_faults }
        ensures listen_faults { self.new.listen_faults ≡ self.old.listen_faults }
        ensures places { (place : Place) → bytes_at I.content self.new.places place ≡ bytes_at I.content self.old.places place }
        ensures links { Some (links_in self.new.door) ≡ Some (links_in self.old.door) }

        // This world answers with what it was given.
        ensures answer { result ≡ self.old.clock }
        ensures after { self.new ≡ after_clock self.old }
    {
        match self.clock.take() {
            Some(clock) => clock,
            None => MemoryClock::new(Vec::new(self.alloc), self.last),
        }
    }
}
