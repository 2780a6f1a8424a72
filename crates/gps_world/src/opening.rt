ghost use Rattle.std.specs.Prelude.{◌≡◌, ◌≢◌, ◌≤◌, ◌<◌, ◌+◌, ◌++◌, ◌⊎◌, [], ◌∷◌, None, Some, length, map, is_some, IfOk, OnOk, IfErr, Ok, Err};
ghost use Rattle.std.specs.List.{AllZip};
ghost use Rattle.std.specs.Option.{option_to_list};
ghost use Rattle.gps_outside.specs.Links.{IsUnread};
ghost use Rattle.gps_world.specs.Opening.{Tells};
ghost use Rattle.gps_world.specs.declared.place.Place.{Place};
ghost use Rattle.gps_world.specs.OpenInOrder.{AreUnread, AsksFor, FaultsStay, HasOneMore, OpeningHasCause, IsEdgeHeld, IsHeld, IsNoneOf, OpenAsks, TellsAsBefore, behind_once, places_in, sources_in, world_faults};

use crate::place::Place;
use crate::world::{Opened, World};
use gps_fixed::Bytes;
use std::alloc::Global;

/// Why nothing is served.
#[derive(Clone, Copy, Debug, PartialEq, Eq)]
pub enum Stop {
    /// An input could not be opened.
    Input,
    /// Listening failed.
    Listen,
    NoMemory,
}

/// What was opened.
#[derive(Drop)]
pub struct Outside<W: World> {
    pub inputs: Vec<W::In>,
    pub edges: Vec<Option<W::In>>,
    pub gate: W::Gate,
    pub clock: W::Now,
}

fn open_place<W: World>(world: &mut W, place: Place) -> Result<W::In, Stop>
    requires { length (W.asked world.old).places < 16 }

    // The outcome says what failed, and the counts of faults never fall.
    ensures cause { OpeningHasCause result (world_faults (W.input_faults world.old) (W.listen_faults world.old))
        (world_faults (W.input_faults world.new) (W.listen_faults world.new)) }
    ensures faults_stay { FaultsStay (world_faults (W.input_faults world.old) (W.listen_faults world.old))
        (world_faults (W.input_faults world.new) (W.listen_faults world.new)) }

    // What is asked for.
    ensures places { (W.asked world.new).places ≡ (W.asked world.old).places ++ place ∷ [] }
    ensures address { (W.asked world.new).address ≡ (W.asked world.old).address }

    // What is opened, and what stays as it was.
    ensures tells { TellsAsBefore (W.links world.old) (W.links world.new) (W.stamps world.old) (W.stamps world.new) }
    ensures unread { IfOk result (λ source. IsUnread (W.In.content source) (W.In.faults source) (W.In.quiets source)) }
    ensures held { IfOk result (λ source. IsHeld (W.behind world.old) W.In.content place source) }
    ensures others { (other : Place) → other ≢ place → W.behind world.new other ≡ W.behind world.old other }
{
    match world.input(place) {
        Opened::Ready(source) => Ok(source),
        Opened::Failed => Err(Stop::Input),
    }
}

#[tactic(auto, using(crate::proofs::Unread::one_more))]
fn open_one<W: World>(world: &mut W, place: Place, opened: &mut Vec<W::In>) -> Result<(), Stop>
    requires { length (W.asked world.old).places < 16 }

    // The outcome says what failed, and the counts of faults never fall.
    ensures cause { OpeningHasCause result (world_faults (W.input_faults world.old) (W.listen_faults world.old))
        (world_faults (W.input_faults world.new) (W.listen_faults world.new)) }
    ensures faults_stay { FaultsStay (world_faults (W.input_faults world.old) (W.listen_faults world.old))
        (world_faults (W.input_faults world.new) (W.listen_faults world.new)) }

    // What is asked for.
    ensures places { (W.asked world.new).places ≡ (W.asked world.old).places ++ place ∷ [] }
    ensures address { (W.asked world.new).address ≡ (W.asked world.old).address }

    // What is opened, and what stays as it was.
    ensures count { OnOk result (length opened.new.items ≡ length opened.old.items + 1) }
    ensures tells { TellsAsBefore (W.links world.old) (W.links world.new) (W.stamps world.old) (W.stamps world.new) }
    ensures unread { AreUnread W.In.content W.In.faults W.In.quiets opened.old.items → AreUnread W.In.content W.In.faults W.In.quiets opened.new.items }
    ensures held { OnOk result (HasOneMore (IsHeld (W.behind world.old) W.In.content place) opened.old.items opened.new.items) }
    ensures others { (other : Place) → other ≢ place → W.behind world.new other ≡ W.behind world.old other }
{
    match open_place(world, place) {
        Ok(source) => match opened.push(source) {
            Ok(()) => Ok(()),
            Err(_) => Err(Stop::NoMemory),
        },
        Err(stop) => Err(stop),
    }
}

fn open_inputs<W: World>(
    world: &mut W,
    places: Vec<Place>,
    room: Vec<W::In>,
) -> Result<Vec<W::In>, Stop>
    // At most 16 places are asked for in all, and the room is empty.
    requires few { length (W.asked world.old).places + length places.items ≤ 16 }
    requires empty { room.items ≡ [] }

    // The outcome says what failed, and the counts of faults never fall.
    ensures cause { OpeningHasCause result (world_faults (W.input_faults world.old) (W.listen_faults world.old))
        (world_faults (W.input_faults world.new) (W.listen_faults world.new)) }
    ensures faults_stay { FaultsStay (world_faults (W.input_faults world.old) (W.listen_faults world.old))
        (world_faults (W.input_faults world.new) (W.listen_faults world.new)) }

    // What is asked for, and what is opened.
    ensures asked { AsksFor result (W.asked world.old) (W.asked world.new) places.items }
    ensures count { IfOk result (λ opened. length opened.items ≡ length places.items) }
    ensures tells { TellsAsBefore (W.links world.old) (W.links world.new) (W.stamps world.old) (W.stamps world.new) }
    ensures unread { IfOk result (λ opened. AreUnread W.In.content W.In.faults W.In.quiets opened.items) }

    // Each source has the bytes of its place, if the place is given once, and other places keep theirs.
    ensures held { IfOk result (λ opened. AllZip (IsHeld (behind_once places.items (W.behind world.old)) W.In.content) places.items opened.items) }
    ensures others { OnOk result ((other : Place) → IsNoneOf other places.items → W.behind world.new other ≡ W.behind world.old other) }
{
    let mut opened = room;
    'places: for place in places {
        match open_one(world, place, &mut opened) {
            Ok(()) => {}
            Err(stop) => return Err(stop),
        }
    }
    Ok(opened)
}

fn open_edge<W: World>(world: &mut W, place: Option<Place>) -> Result<Option<W::In>, Stop>
    requires { length (W.asked world.old).places + length (option_to_list place) ≤ 16 }

    // The outcome says what failed, and the counts of faults never fall.
    ensures cause { OpeningHasCause result (world_faults (W.input_faults world.old) (W.listen_faults world.old))
        (world_faults (W.input_faults world.new) (W.listen_faults world.new)) }
    ensures faults_stay { FaultsStay (world_faults (W.input_faults world.old) (W.listen_faults world.old))
        (world_faults (W.input_faults world.new) (W.listen_faults world.new)) }

    // What is asked for.
    ensures places { (W.asked world.new).places ≡ (W.asked world.old).places ++ option_to_list place }
    ensures address { (W.asked world.new).address ≡ (W.asked world.old).address }

    // What is opened, and what stays as it was.
    ensures tells { TellsAsBefore (W.links world.old) (W.links world.new) (W.stamps world.old) (W.stamps world.new) }
    ensures unread { IfOk result (λ source. AreUnread W.In.content W.In.faults W.In.quiets (option_to_list source)) }
    ensures held { IfOk result (λ source. IsEdgeHeld (W.behind world.old) W.In.content place source) }
    ensures others { (other : Place) → IsNoneOf other (option_to_list place) → W.behind world.new other ≡ W.behind world.old other }
{
    match place {
        Some(place) => match open_place(world, place) {
            Ok(source) => Ok(Some(source)),
            Err(stop) => Err(stop),
        },
        None => Ok(None),
    }
}

#[tactic(auto, using(crate::proofs::Unread::next_more))]
fn open_next<W: World>(
    world: &mut W,
    place: Option<Place>,
    opened: &mut Vec<Option<W::In>>,
) -> Result<(), Stop>
    requires { length (W.asked world.old).places + length (option_to_list place) ≤ 16 }

    // The outcome says what failed, and the counts of faults never fall.
    ensures cause { OpeningHasCause result (world_faults (W.input_faults world.old) (W.listen_faults world.old))
        (world_faults (W.input_faults world.new) (W.listen_faults world.new)) }
    ensures faults_stay { FaultsStay (world_faults (W.input_faults world.old) (W.listen_faults world.old))
        (world_faults (W.input_faults world.new) (W.listen_faults world.new)) }

    // What is asked for.
    ensures places { (W.asked world.new).places ≡ (W.asked world.old).places ++ option_to_list place }
    ensures address { (W.asked world.new).address ≡ (W.asked world.old).address }

    // What is opened, and what stays as it was.
    ensures count { OnOk result (length opened.new.items ≡ length opened.old.items + 1) }
    ensures tells { TellsAsBefore (W.links world.old) (W.links world.new) (W.stamps world.old) (W.stamps world.new) }
    ensures unread { AreUnread W.In.content W.In.faults W.In.quiets (sources_in opened.old.items)
        → AreUnread W.In.content W.In.faults W.In.quiets (sources_in opened.new.items) }
    ensures held { OnOk result (HasOneMore (IsEdgeHeld (W.behind world.old) W.In.content place) opened.old.items opened.new.items) }
    ensures others { (other : Place) → IsNoneOf other (option_to_list place) → W.behind world.new other ≡ W.behind world.old other }
{
    match open_edge(world, place) {
        Ok(source) => match opened.push(source) {
            Ok(()) => Ok(()),
            Err(_) => Err(Stop::NoMemory),
        },
        Err(stop) => Err(stop),
    }
}

fn open_edges<W: World>(
    world: &mut W,
    places: Vec<Option<Place>>,
    room: Vec<Option<W::In>>,
) -> Result<Vec<Option<W::In>>, Stop>
    // At most 16 places are asked for in all, and the room is empty.
    requires few { length (W.asked world.old).places + length (places_in places.items) ≤ 16 }
    requires empty { room.items ≡ [] }

    // The outcome says what failed, and the counts of faults never fall.
    ensures cause { OpeningHasCause result (world_faults (W.input_faults world.old) (W.listen_faults world.old))
        (world_faults (W.input_faults world.new) (W.listen_faults world.new)) }
    ensures faults_stay { FaultsStay (world_faults (W.input_faults world.old) (W.listen_faults world.old))
        (world_faults (W.input_faults world.new) (W.listen_faults world.new)) }

    // What is asked for, and what is opened.
    ensures asked { AsksFor result (W.asked world.old) (W.asked world.new) (places_in places.items) }
    ensures count { IfOk result (λ opened. length opened.items ≡ length places.items) }
    ensures tells { TellsAsBefore (W.links world.old) (W.links world.new) (W.stamps world.old) (W.stamps world.new) }
    ensures unread { IfOk result (λ opened. AreUnread W.In.content W.In.faults W.In.quiets (sources_in opened.items)) }

    // The sources are those of the devices that have edges, with the bytes of their places, if these are given once.
    ensures pairs { IfOk result (λ opened. map is_some opened.items ≡ map is_some places.items) }
    ensures held { IfOk result (λ opened. AllZip (IsEdgeHeld (behind_once (places_in places.items) (W.behind world.old)) W.In.content)
        places.items opened.items) }
{
    let mut opened = room;
    'places: for place in places {
        match open_next(world, place, &mut opened) {
            Ok(()) => {}
            Err(stop) => return Err(stop),
        }
    }
    Ok(opened)
}

fn open_door<W: World>(world: &mut W, address: Bytes) -> Result<W::Gate, Stop>
    requires { (W.asked world.old).address ≡ None }

    // The outcome says what failed, and the counts of faults never fall.
    ensures stops { IfErr result (λ stop. stop ≡ Stop.Listen) }
    ensures cause { OpeningHasCause result (world_faults (W.input_faults world.old) (W.listen_faults world.old))
        (world_faults (W.input_faults world.new) (W.listen_faults world.new)) }
    ensures faults_stay { FaultsStay (world_faults (W.input_faults world.old) (W.listen_faults world.old))
        (world_faults (W.input_faults world.new) (W.listen_faults world.new)) }

    // What is asked for.
    ensures places { (W.asked world.new).places ≡ (W.asked world.old).places }
    ensures address { (W.asked world.new).address ≡ Some address }

    // The door is unused and has the links of the world.
    ensures links { IfOk result (λ gate. Tells (W.links world.old) (W.Gate.links gate)) }
    ensures stamps { W.stamps world.new ≡ W.stamps world.old }
    ensures unused { IfOk result (λ gate. (W.Gate.faults gate ≡ 0) × (W.Gate.quiets gate ≡ 0)) }
{
    match world.listen(address) {
        Opened::Ready(gate) => Ok(gate),
        Opened::Failed => Err(Stop::Listen),
    }
}

/// Opens the inputs in the order of the devices, then the places of edges, and then the door; it ends at the first that fails.
pub fn open<W: World>(
    alloc: Global,
    world: &mut W,
    inputs: Vec<Place>,
    edges: Vec<Option<Place>>,
    listen: Bytes,
) -> Result<Outside<W>, Stop>
    // At most 16 places are asked for in all, and the door was not.
    requires few { length (W.asked world.old).places + (length inputs.items + length (places_in edges.items)) ≤ 16 }
    requires address { (W.asked world.old).address ≡ None }

    // The outcome says what failed, and the counts of faults never fall.
    ensures cause { OpeningHasCause result (world_faults (W.input_faults world.old) (W.listen_faults world.old))
        (world_faults (W.input_faults world.new) (W.listen_faults world.new)) }
    ensures faults_stay { FaultsStay (world_faults (W.input_faults world.old) (W.listen_faults world.old))
        (world_faults (W.input_faults world.new) (W.listen_faults world.new)) }

    // What is asked for.
    ensures asked { OpenAsks result (W.asked world.old) (W.asked world.new) (inputs.items ++ places_in edges.items) listen }

    // The sources: one for each place, unused, with all bytes of the place, if it is given once.
    ensures inputs { IfOk result (λ outside. length outside.inputs.items ≡ length inputs.items) }
    ensures edges { IfOk result (λ outside. length outside.edges.items ≡ length edges.items) }
    ensures unread { IfOk result (λ outside. AreUnread W.In.content W.In.faults W.In.quiets outside.inputs.items
        × AreUnread W.In.content W.In.faults W.In.quiets (sources_in outside.edges.items)) }
    ensures pairs { IfOk result (λ outside. map is_some outside.edges.items ≡ map is_some edges.items) }
    ensures held { IfOk result (λ outside. AllZip (IsHeld (behind_once (inputs.items ++ places_in edges.items) (W.behind world.old)) W.In.content)
        inputs.items outside.inputs.items) }
    ensures held_edges { IfOk result (λ outside. AllZip (IsEdgeHeld (behind_once (inputs.items ++ places_in edges.items) (W.behind world.old)) W.In.content)
        edges.items outside.edges.items) }

    // The door and the clock are those of the world.
    ensures links { IfOk result (λ outside. Tells (W.links world.old) (W.Gate.links outside.gate)) }
    ensures stamps { IfOk result (λ outside. Tells (W.stamps world.old) (W.Now.stamps outside.clock)) }
    ensures unused { IfOk result (λ outside. (W.Gate.faults outside.gate ≡ 0) × (W.Gate.quiets outside.gate ≡ 0)) }
{
    match open_inputs(world, inputs, Vec::new(alloc)) {
        Ok(inputs) => match open_edges(world, edges, Vec::new(alloc)) {
            Ok(edges) => match open_door(world, listen) {
                Ok(gate) => {
                    let clock = world.clock();
                    Ok(Outside {
                        inputs,
                        edges,
                        gate,
                        clock,
                    })
                }
                Err(stop) => Err(stop),
            },
            Err(stop) => Err(stop),
        },
        Err(stop) => Err(stop),
    }
}
