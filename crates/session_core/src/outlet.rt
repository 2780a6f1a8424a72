use crate::Item;

/// The result of pushing an item.
#[derive(Clone, Copy, Debug, PartialEq, Eq)]
pub enum Push {
    Done,
    /// The item was dropped.
    Full,
}

/// Where the items of a session go, in order.
pub trait Outlet: Drop {
    ghost use Rattle.std.specs.Prelude.{◌≡◌, ◌↔◌, ◌≤◌, ℕ, Bool, true, List, [], ◌∷◌, ◌++◌, length};
    ghost use Rattle.session_core.specs.declared.outlet.Push.{Push};
    ghost use Rattle.session_core.specs.Naming.{OutletName};
    ghost use Rattle.session_core.specs.Pushing.{MatchPush};

    /// A suffix of the items that were pushed into it.
    ghost kept: { Self → List (List ℕ) };

    /// How many items it may hold.
    ghost cap: { Self → ℕ };

    /// What ties it to its far end, if it has one.
    ghost name: { Self → OutletName };

    /// It holds exactly what it keeps, so that it is full exactly if it keeps as many items as it may hold.
    ghost exact: { Bool };

    /// It still takes items.
    ghost takes: { Self → Type 0 } = { λ _. Unit {0} };

    /// What an outlet of this name may keep: anything, unless its type says less.
    ghost may: { OutletName → List (List ℕ) → Type 0 } = { λ _ _. Unit {0} };

    /// Takes no memory.
    fn push(&mut self, item: Item) -> Push
        requires takes { takes self.old }
        requires may { may (name self.old) (kept self.old ++ item ∷ []) }
        // It is open, and stays open. What it keeps.
        ensures takes { takes self.new }
        ensures kept { MatchPush result (kept self.new ≡ kept self.old ++ item ∷ []) (kept self.new ≡ kept self.old) }

        // When it is full.
        ensures full { result ≡ Push.Full → cap self.old ≤ length (kept self.old) }
        ensures exact { exact ≡ true → (result ≡ Push.Full) ↔ (cap self.old ≤ length (kept self.old)) }

        // What stays.
        ensures cap { cap self.new ≡ cap self.old }
        ensures name { name self.new ≡ name self.old };
}

/// An outlet whose items are taken at another end.
pub trait TwoEnded: Outlet {
    ghost use Rattle.std.specs.Prelude.{◌≡◌, ℕ, false, List, ◌++◌, IfNone};
    ghost use Rattle.std.specs.Option.{option_to_list};
    ghost use Rattle.session_core.specs.Naming.{OutletName};

    type Far;

    /// The items that a far end has received.
    ghost got: { Self.Far → List (List ℕ) };

    ghost far_name: { Self.Far → OutletName };

    /// The far end of this name belongs to the outlet of that name.
    ghost belongs: { OutletName → OutletName → Type 0 };

    /// Takes one item at the far end and returns it. Takes no memory. Only if it is the end, so that nothing more is pushed, may the two give
    /// back what memory they have.
    fn settle(&mut self, far: &mut Self::Far, is_end: bool) -> Option<Item>
        // The two ends belong together.
        requires { belongs (far_name far.old) (Self.name self.old) }
        ensures takes { is_end ≡ false → Self.takes self.old → Self.takes self.new }

        // What the far end gets: a prefix of what was kept, and all of it once there is no item.
        ensures item { got far.new ≡ got far.old ++ option_to_list result }
        ensures prefix { (rest : List (List ℕ)) × (Self.kept self.new ≡ got far.new ++ rest) }
        ensures all { IfNone result (got far.new ≡ Self.kept self.new) }

        // What stays.
        ensures kept { Self.kept self.new ≡ Self.kept self.old }
        ensures cap { Self.cap self.new ≡ Self.cap self.old }
        ensures name { Self.name self.new ≡ Self.name self.old }
        ensures far_name { far_name far.new ≡ far_name far.old };
}
