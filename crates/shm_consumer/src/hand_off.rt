ghost use Rattle.std.specs.Prelude.{◌≡◌, ◌*◌, ◌≤◌, [], ◌∷◌, IfOk};
ghost use Rattle.shm_segment.specs.Publishing.{opened, words_now};
ghost use Rattle.shm_consumer.specs.Taking.{untaken};

use crate::giver::Giver;
use crate::plays::Parts;
use crate::rule::HandOffRule;
use crate::taker::Taker;
use crate::view::View;
use atomic_table::{Seat, Table};
use gps_fixed::NoMemory;
use std::alloc::Global;
use std::marker::Model;

/// The table of a hand-off segment: its words, under its rule.
pub type HandTable = Table<(), View, u32, HandOffRule, Global>;

/// A seat of the table.
pub type HandSeat = Seat<(), View>;

/// The twelve words of a segment, which one giver stores and one taker loads. The taker stores valid as well.
#[derive(Drop)]
pub struct HandOff {
    pub(crate) table: HandTable,
}

impl Model for HandOff {
    ghost use Rattle.std.specs.Prelude.{◌≡◌};
    ghost use Rattle.shm_segment.specs.Seats.{SegmentId};

    ghost Value = { SegmentId };

    ghost view = { λ h. record { table = h.table.shared.table_id; first = h.table.shared.key } };

    ghost invariant = { λ h. h.table.shared.table_id.words ≡ 12 };
}

impl HandOff {
    /// A segment without samples, its one giver and its one taker. The samples are numbered from `first + 1` on: count
    /// starts at twice `first`, valid at 0, mode at 1 and all else at 0.
    pub fn new(alloc: Global, first: u32) -> Result<(HandOff, Giver, Taker), NoMemory>
        requires { first ≤ 1073741823 }
        ensures first { IfOk result (λ r. r.0.first ≡ first) }
        ensures giver { IfOk result (λ r. r.1 ≡ opened r.0) }
        ensures taker { IfOk result (λ r. r.2 ≡ untaken r.0) }
        ensures words { IfOk result (λ r. words_now r.1 ≡ 1 ∷ 2 * first ∷ 0 ∷ 0 ∷ 0 ∷ 0 ∷ 0 ∷ 0 ∷ 0 ∷ 0 ∷ 0 ∷ 0 ∷ []) }
    {
        let words = [1, 2 * u64::from(first), 0, 0, 0, 0, 0, 0, 0, 0, 0, 0];
        let (table, mut seat) = HandTable::of_words(alloc, &words, &first)?;
        let taker = table.shared.split_seat::<Parts>(&mut seat);
        Ok((HandOff { table }, Giver::of(seat, first), Taker::of(taker)))
    }
}
