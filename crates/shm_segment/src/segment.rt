ghost use Rattle.std.specs.Prelude.{◌≡◌, ◌*◌, ◌≤◌, [], ◌∷◌, IfOk};
ghost use Rattle.shm_segment.specs.Publishing.{opened, words_now};

use crate::publisher::Publisher;
use crate::rule::SegmentRule;
use crate::view::View;
use atomic_table::{Seat, Table};
use gps_fixed::NoMemory;
use std::alloc::Global;
use std::marker::Model;

/// The table of a segment: its words, under its rule.
pub type SegmentTable = Table<(), View, u32, SegmentRule, Global>;

/// A seat of the table.
pub type TableSeat = Seat<(), View>;

/// The twelve words of a segment, which one publisher stores and any number of monitors load.
#[derive(Drop)]
pub struct Segment {
    pub table: SegmentTable,
}

impl Model for Segment {
    ghost use Rattle.std.specs.Prelude.{◌≡◌};
    ghost use Rattle.shm_segment.specs.Seats.{SegmentId};

    ghost Value = { SegmentId };

    ghost view = { λ s. record { table = s.table.shared.table_id; first = s.table.shared.key } };

    ghost invariant = { λ s. s.table.shared.table_id.words ≡ 12 };
}

impl Segment {
    /// A segment without samples, and its one publisher. The samples are numbered from `first + 1` on: count starts at
    /// twice `first`, valid at 0, mode at 1 and all else at 0.
    pub fn new(alloc: Global, first: u32) -> Result<(Segment, Publisher), NoMemory>
        requires { first ≤ 1073741823 }
        ensures opened { IfOk result (λ r. (r.0.first ≡ first) × (r.1 ≡ opened r.0)) }
        ensures words { IfOk result (λ r. words_now r.1 ≡ 1 ∷ 2 * first ∷ 0 ∷ 0 ∷ 0 ∷ 0 ∷ 0 ∷ 0 ∷ 0 ∷ 0 ∷ 0 ∷ 0 ∷ []) }
    {
        let words = [1, 2 * u64::from(first), 0, 0, 0, 0, 0, 0, 0, 0, 0, 0];
        let (table, seat) = SegmentTable::of_words(alloc, &words, &first)?;
        Ok((Segment { table }, Publisher::of(seat, first)))
    }
}
