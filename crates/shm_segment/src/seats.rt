use crate::segment::TableSeat;
use std::marker::Model;

/// A copy of the publisher's first number, list and number of stores.
#[derive(Drop)]
pub struct Notice {
    pub seat: TableSeat,
}

impl Model for Notice {
    ghost use Rattle.std.specs.Prelude.{◌≡◌, []};
    ghost use Rattle.shm_segment.specs.Views.{notice};
    ghost use Rattle.shm_segment.specs.Seats.{Noticed};

    ghost Value = { Noticed };

    ghost view = { λ n. record { segment = record { table = n.seat.table_id; first = n.seat.me.0.first }; known = n.seat.me.0.known } };

    ghost invariant = { λ n. n.seat.me ≡ (notice n.seat.me.0.first n.seat.me.0.known.samples n.seat.me.0.known.stores, []) };
}

/// A copy of a monitor's taken pairs and kept loads.
#[derive(Drop)]
pub struct Account {
    pub seat: TableSeat,
}

impl Model for Account {
    ghost use Rattle.std.specs.Prelude.{◌≡◌, []};
    ghost use Rattle.shm_segment.specs.Views.{account};
    ghost use Rattle.shm_segment.specs.Seats.{Accounted};

    ghost Value = { Accounted };

    ghost view = { λ a. record {
      segment = record { table = a.seat.table_id; first = a.seat.me.0.first };
      taken = a.seat.me.0.taken;
      kept = a.seat.me.0.kept;
    } };

    ghost invariant = { λ a. a.seat.me ≡ (account a.seat.me.0.first a.seat.me.0.taken a.seat.me.0.kept, []) };
}

/// The seat of a monitor that has not read yet.
#[derive(Drop)]
pub struct MonitorSeat {
    pub seat: TableSeat,
}

impl Model for MonitorSeat {
    ghost use Rattle.std.specs.Prelude.{◌≡◌, []};
    ghost use Rattle.shm_segment.specs.Views.{newcomer};
    ghost use Rattle.shm_segment.specs.Seats.{SegmentId};

    ghost Value = { SegmentId };

    ghost view = { λ m. record { table = m.seat.table_id; first = m.seat.me.0.first } };

    ghost invariant = { λ m. m.seat.me ≡ (newcomer m.seat.me.0.first, []) };
}
