ghost use Rattle.std.specs.Prelude.{◌≡◌, ◌++◌, ◌∷◌, []};

use crate::Chain;
use std::marker::Model;
use std::mem;
use std::snapshot::Snapshot;

/// A list without bytes, seen as its items. It only grows.
#[derive(Drop)]
pub struct GhostList<T> {
    items: Snapshot<Chain<T>>,
}

impl<T> Model for GhostList<T> {
    ghost use Rattle.std.specs.Prelude.{List};
    ghost use Rattle.ghost_list.specs.Chains.{items_of};

    ghost Value = { List T };

    ghost view = { λ s. items_of s.items.value };
}

impl<T> GhostList<T> {
    pub fn new() -> GhostList<T>
        ensures { result ≡ [] }
    {
        GhostList {
            items: Snapshot::of(&Chain::Nothing),
        }
    }

    /// Adds one item at its end.
    pub fn add(&mut self, item: &T)
        ensures { self.new ≡ self.old ++ item.now ∷ [] }
    {
        let before = mem::replace(&mut self.items, Snapshot::of(&Chain::Nothing));
        self.items = Snapshot::of(&Chain::More(before, Snapshot::of(item)));
    }

    /// Adds these items at its end, in order.
    pub fn add_all(&mut self, items: &[T])
        ensures { self.new ≡ self.old ++ items.now }
    {
        for i in 0..items.len() {
            self.add(&items[i]);
        }
    }

    /// Adds another list's items at its end.
    pub fn append(&mut self, other: GhostList<T>)
        ensures { self.new ≡ self.old ++ other }
    {
        let before = mem::replace(&mut self.items, Snapshot::of(&Chain::Nothing));
        let GhostList { items } = other;
        self.items = Snapshot::of(&Chain::Both(before, items));
    }
}
