ghost use Rattle.std.specs.Prelude.{◌≡◌, []};

use crate::giver::StampGiver;
use crate::naming::ShareNaming;
use crate::plays::Opens;
use crate::roll::StampRoll;
use crate::rule::ShareRule;
use crate::view::SeatView;
use atomic_table::{Seat, Table};
use gps_fixed::NoMemory;
use std::alloc::Global;
use std::marker::{Model, PhantomData};

/// The table of stamps: one word, under its rule.
pub type ShareWord = Table<(), SeatView, (), ShareRule, Global>;

/// A seat of the table.
pub type TableSeat = Seat<(), SeatView>;

/// A table of stamps, before its first stamp is given.
#[derive(Drop)]
pub struct StampTable {
    word: ShareWord,
    seat: TableSeat,
}

impl Model for StampTable {
    ghost use Rattle.std.specs.Prelude.{◌≡◌, []};
    ghost use Rattle.atomic_table.specs.Seated.{TableId};
    ghost use Rattle.stamp_shares.specs.Views.{opening_view};

    ghost Value = { TableId };

    ghost view = { λ t. t.word.shared.table_id };

    ghost invariant = { λ t. (t.word.shared.table_id.words ≡ 1) × (t.seat.table_id ≡ t.word.shared.table_id) × (t.seat.me ≡ (opening_view, [])) };
}

impl StampTable {
    pub fn new(alloc: Global) -> Result<StampTable, NoMemory> {
        let (word, seat) = ShareWord::of_words(alloc, &[0], &())?;
        Ok(StampTable { word, seat })
    }

    /// What gives stamps, and what begins shares. Nothing was given, and no share begun.
    pub fn open<J: ShareNaming>(self) -> (StampGiver<J>, StampRoll<J>)
        requires table { self ≡ J.table }
        ensures giver { result.0 ≡ [] }
        ensures roll { result.1 ≡ record { begun = 0; ended = [] } }
    {
        let StampTable { word, mut seat } = self;
        let roll = word.shared.split_seat::<Opens>(&mut seat);
        let giver = StampGiver {
            word,
            seat,
            naming: PhantomData,
        };
        let roll = StampRoll {
            seat: roll,
            naming: PhantomData,
        };
        (giver, roll)
    }
}
