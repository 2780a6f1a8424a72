ghost use Rattle.std.specs.Prelude.{◌≡◌, IfOk};
ghost use Rattle.hub_door.specs.Admissions.{Admissions, none_yet};

use crate::keeper::Keeper;
use crate::naming::{Cut, DoorNaming};
use crate::plays::Notes;
use crate::rule::DoorRule;
use crate::seat::DoorSeat;
use crate::view::DoorView;
use atomic_table::{Seat, Table};
use gps_fixed::NoMemory;
use std::alloc::Global;
use std::marker::Model;
use std::sync::ledger::Blank;

/// The table of the door: one word, under its rule.
pub type DoorWord = Table<(), DoorView, (), DoorRule, Global>;

/// A seat of the table.
pub type TableSeat = Seat<(), DoorView>;

/// The table of a hub's door and its ledger, before the hub.
#[derive(Drop)]
pub struct DoorTable {
    word: DoorWord,
    seat: TableSeat,
    blank: Blank,
}

impl Model for DoorTable {
    ghost use Rattle.std.specs.Prelude.{◌≡◌, []};
    ghost use Rattle.hub_door.specs.Admissions.{DoorId};
    ghost use Rattle.hub_door.specs.Views.{keeper};

    ghost Value = { DoorId };

    ghost view = { λ d. record { table = d.word.shared.table_id; ledger = d.blank.name; parts = d.blank.parts } };

    ghost invariant = { λ d. (d.word.shared.table_id.words ≡ 1) × (d.seat.table_id ≡ d.word.shared.table_id) × (d.seat.me ≡ (keeper [], []))
        × (d.blank.parts ≡ 1) };
}

impl DoorTable {
    /// A new table and ledger.
    pub fn new(alloc: Global) -> Result<DoorTable, NoMemory> {
        let (word, seat) = DoorWord::of_words(alloc, &[0], &())?;
        let blank = Blank::new(1);
        Ok(DoorTable { word, seat, blank })
    }

    /// The hub's side and the door worker's side, which know of nothing yet.
    pub fn open<J: DoorNaming>(self) -> (Keeper<J>, DoorSeat<J>)
        requires table { self.table ≡ J.table }
        requires ledger { self.ledger ≡ J.name }
        requires parts { self.parts ≡ J.parts }
        requires whole { self.parts ≡ J.whole }
        ensures keeper { result.0 ≡ none_yet }
        ensures seat { result.1 ≡ none_yet }
    {
        let DoorTable {
            word,
            mut seat,
            blank,
        } = self;
        let (ledger, share) = blank.open::<J>();
        let note = word.shared.split_seat::<Notes>(&mut seat);
        let keeper = Keeper {
            word,
            seat,
            ledger,
            cut: Cut::new(),
        };
        (keeper, DoorSeat { note, share })
    }
}
