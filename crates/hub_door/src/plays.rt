use crate::view::{DoorView, Entry};
use atomic_table::{Join, Play, Split};
use std::marker::{Brand, PhantomData};

/// Which entry a store adds. Each call picks it.
pub trait Entering {
    ghost use Rattle.hub_door.specs.declared.view.Entry.{Entry};

    ghost entry: { Entry };
}

impl Entering for Brand {
    ghost use Rattle.hub_door.specs.declared.view.Entry.TheVariants.{Done};

    ghost entry = { Done };
}

/// The entry that says that the door has closed or failed.
pub struct Finishes;

impl Entering for Finishes {
    ghost use Rattle.hub_door.specs.declared.view.Entry.TheVariants.{Done};

    ghost entry = { Done };
}

/// A store that adds an entry to the hub's list.
pub struct AddsEntry<E: Entering> {
    marker: PhantomData<E>,
}

impl<E: Entering> Play<(), DoorView> for AddsEntry<E> {
    ghost use Rattle.std.specs.Prelude.{◌≡◌, [], ◌∷◌, ◌++◌};
    ghost use Rattle.hub_door.specs.Views.{keeper};

    ghost then = { λ step before word after. after ≡ (keeper (before.0.list ++ E.entry ∷ []), []) };
}

/// A note is cut off the hub's seat.
pub struct Notes;

impl Split<DoorView> for Notes {
    ghost use Rattle.hub_door.specs.Views.{noted};

    ghost left = { λ v. v };

    ghost right = { λ v. noted v.list };
}

/// A note is joined to the hub's seat.
pub struct JoinsNote;

impl Join<DoorView> for JoinsNote {
    ghost use Rattle.std.specs.Prelude.{[]};
    ghost use Rattle.hub_door.specs.Views.{meeting, noted};

    ghost both = { λ v w. meeting v w.list };

    ghost spent = { noted [] };
}

/// A load at which the hub's list and a note agree.
pub struct ChecksNote;

impl Play<(), DoorView> for ChecksNote {
    ghost use Rattle.std.specs.Prelude.{◌≡◌, []};
    ghost use Rattle.hub_door.specs.Views.{keeper};
    ghost use Rattle.gps_fixed.specs.Lists.{IsPrefix};

    ghost then = { λ step before word after. (after ≡ (keeper before.0.list, [])) × IsPrefix before.0.told before.0.list };
}
