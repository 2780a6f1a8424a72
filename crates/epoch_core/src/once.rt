ghost use Rattle.std.specs.Prelude.{◌≡◌, ◌<◌, ◌≤◌, ◌∷◌, ◌++◌, false, IfOk, OnOk, OnErr, List, [], length, map, take, nat_eq, ℕ, Some, None};
ghost use Rattle.std.specs.List.{list_any, slice_get, IsDistinct};
ghost use Rattle.std.specs.BTreeMap.{get as map_get};
ghost use Rattle.std.specs.Ordering.{nat_cmp};
ghost use Rattle.epoch_core.specs.Steps.{added, all_added};
ghost use Rattle.epoch_core.specs.Keys.{IsPlaced, few, at_place, by_key};

use gps_fixed::NoMemory;
use std::alloc::Global;
use std::collections::BTreeMap;
use std::marker::Model;

/// An element with a number that distinguishes it from others of its kind.
pub trait Keyed: Copy {
    ghost key: { Self → ℕ };

    fn key(&self) -> u64
        ensures { result ≡ key self.now };
}

/// How many elements the first one allocates room for.
const USUAL: usize = 16;

/// A list of up to this length is searched one by one; a longer one has a map of its places.
const FEW: usize = 64;

/// A list that takes each key once, in the order in which they came.
///
/// The keys are beside it, so that a search makes none again. `places` may know keys that the list has lost again: a place counts only
/// if the list has that key.
#[derive(Debug, Drop)]
pub struct Once<T: Keyed> {
    items: Vec<T>,
    keys: Vec<u64>,
    places: BTreeMap<u64, usize>,
}

impl<T: Keyed> Model for Once<T> {
    ghost use Rattle.std.specs.Prelude.{◌≡◌, List, map};
    ghost use Rattle.epoch_core.specs.Keys.{IsOnce};

    ghost Value = { List T };

    ghost view = { λ o. o.items.items };

    ghost invariant = { λ o. IsOnce T.key o.items.items o.places × (o.keys.items ≡ map T.key o.items.items) };
}

fn is_among(key: u64, keys: &[u64]) -> bool
    ensures { result ≡ list_any (λ k. nat_eq k key) keys.now }
{
    keys.iter().any(|k| *k == key)
}

fn item_at<T: Keyed>(items: &[T], place: usize) -> Option<T>
    ensures { result ≡ slice_get items.now place }
{
    items.get(place).copied()
}

fn place_of(places: &BTreeMap<u64, usize>, key: u64) -> Option<usize>
    ensures { result ≡ map_get nat_cmp places.now key }
{
    places.get(&key).copied()
}

fn is_placed<T: Keyed>(items: &[T], places: &BTreeMap<u64, usize>, key: u64) -> bool
    ensures { result ≡ at_place T.key items.now key (map_get nat_cmp places.now key) }
{
    match place_of(places, key) {
        Some(place) => match item_at(items, place) {
            Some(item) => item.key() == key,
            None => false,
        },
        None => false,
    }
}

/// Writes the place of each element into the map.
#[tactic(auto, using(crate::proofs::Places::placed_more, crate::proofs::Places::placed_none))]
fn place_all<T: Keyed>(items: &[T], places: &mut BTreeMap<u64, usize>) -> Result<(), NoMemory>
    requires { IsDistinct nat_eq (map T.key items.now) }
    ensures { OnOk result (IsPlaced T.key items.now places.new) }
{
    for (i, item) in items.iter().enumerate() {
        places.insert(item.key(), i)?;
    }
    Ok(())
}

/// Makes the map know each place of a list that has just become long.
fn place_long<T: Keyed>(items: &[T], places: &mut BTreeMap<u64, usize>) -> Result<(), NoMemory>
    requires distinct { IsDistinct nat_eq (map T.key items.now) }
    requires placed { few < length items.now → IsPlaced T.key items.now places.old }
    ensures placed { few < length items.now → IsPlaced T.key items.now places.new }
    ensures ok { OnOk result (few ≤ length items.now → IsPlaced T.key items.now places.new) }
{
    if items.len() == FEW {
        place_all(items, places)
    } else {
        Ok(())
    }
}

/// The map of the places of a list, if the list is long.
fn places_of<T: Keyed>(alloc: Global, items: &[T]) -> Result<BTreeMap<u64, usize>, NoMemory>
    requires { IsDistinct nat_eq (map T.key items.now) }
    ensures { IfOk result (λ m. few < length items.now → IsPlaced T.key items.now m) }
{
    let mut places = BTreeMap::new(alloc);
    if items.len() > FEW {
        place_all(items, &mut places)?;
    }
    Ok(places)
}

/// Makes the map ready for one more element with this key, if the list is long enough to need one.
fn place_next<T: Keyed>(
    items: &[T],
    places: &mut BTreeMap<u64, usize>,
    key: u64,
) -> Result<(), NoMemory>
    requires distinct { IsDistinct nat_eq (map T.key items.now) }
    requires apart { list_any (λ x. nat_eq (T.key x) key) items.now ≡ false }
    requires placed { few < length items.now → IsPlaced T.key items.now places.old }
    ensures placed { few < length items.now → IsPlaced T.key items.now places.new }
    ensures next { OnOk result (few ≤ length items.now → (x : T) → T.key x ≡ key → IsPlaced T.key (items.now ++ x ∷ []) places.new) }
{
    if items.len() < FEW {
        return Ok(());
    }
    place_long(items, places)?;
    places.insert(key, items.len())?;
    Ok(())
}

impl<T: Keyed> Once<T> {
    /// Nothing. Takes no memory.
    pub fn new(alloc: Global) -> Once<T>
        ensures { result ≡ [] }
    {
        Once {
            items: Vec::new(alloc),
            keys: Vec::new(alloc),
            places: BTreeMap::new(alloc),
        }
    }

    pub fn as_slice(&self) -> &[T]
        ensures { result.now ≡ self.now }
    {
        self.items.as_slice()
    }

    pub fn len(&self) -> usize
        ensures length { result ≡ length self.now }
        ensures distinct { IsDistinct nat_eq (map T.key self.now) }
    {
        self.items.len()
    }

    #[tactic(auto, using(crate::proofs::Places::listed))]
    pub fn has(&self, key: u64) -> bool
        ensures { result ≡ list_any (λ x. nat_eq (T.key x) key) self.now }
    {
        if self.items.len() <= FEW {
            is_among(key, self.keys.as_slice())
        } else {
            is_placed(self.items.as_slice(), &self.places, key)
        }
    }

    /// Adds an element, unless one with its key is there.
    pub fn add(&mut self, item: &T) -> Result<(), NoMemory>
        ensures ok { OnOk result (self.new ≡ added (by_key T.key) self.old item.now) }
        ensures err { OnErr result (self.new ≡ self.old) }
    {
        let key = item.key();
        if self.has(key) {
            return Ok(());
        }
        place_next(self.items.as_slice(), &mut self.places, key)?;
        let room = if self.items.is_empty() { USUAL } else { 1 };
        self.keys.reserve(room)?;
        self.items.reserve(room)?;
        self.items.push_reserved(*item);
        self.keys.push_reserved(key);
        Ok(())
    }

    /// Goes back to the first `len` elements.
    pub fn truncate(&mut self, len: usize)
        ensures { self.new ≡ take len self.old }
    {
        self.items.truncate(len);
        self.keys.truncate(len);
    }

    /// Adds elements in order, each unless one with its key is there. A refusal changes nothing.
    #[tactic(auto, using(crate::proofs::Added::added_next, crate::proofs::Added::added_front))]
    pub fn add_all(&mut self, more: &[T]) -> Result<(), NoMemory>
        ensures ok { OnOk result (self.new ≡ all_added (by_key T.key) self.old more.now) }
        ensures err { OnErr result (self.new ≡ self.old) }
    {
        let len = self.len();
        for item in more {
            match self.add(item) {
                Ok(()) => {}
                Err(refused) => {
                    self.truncate(len);
                    return Err(refused);
                }
            }
        }
        Ok(())
    }

    pub fn copy(&self, alloc: Global) -> Result<Once<T>, NoMemory>
        ensures { IfOk result (λ o. o ≡ self.now) }
    {
        let places = places_of(alloc, self.items.as_slice())?;
        let items = Vec::from_slice(alloc, self.items.as_slice())?;
        let keys = Vec::from_slice(alloc, self.keys.as_slice())?;
        Ok(Once {
            items,
            keys,
            places,
        })
    }
}
