use crate::hand_off::HandSeat;
use std::marker::Model;

/// A copy of the giver's first number, list and number of stores.
#[derive(Drop)]
pub struct HandNotice {
    pub(crate) seat: HandSeat,
}

impl Model for HandNotice {
    ghost use Rattle.std.specs.Prelude.{◌≡◌, []};
    ghost use Rattle.shm_consumer.specs.Views.{notice};
    ghost use Rattle.shm_segment.specs.Seats.{Noticed};

    ghost Value = { Noticed };

    ghost view = { λ n. record { segment = record { table = n.seat.table_id; first = n.seat.me.0.first }; known = n.seat.me.0.known } };

    ghost invariant = { λ n. n.seat.me ≡ (notice n.seat.me.0.first n.seat.me.0.known.samples n.seat.me.0.known.stores, []) };
}
