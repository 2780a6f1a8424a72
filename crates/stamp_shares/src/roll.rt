use crate::naming::ShareNaming;
use crate::table::TableSeat;
use std::marker::{Model, PhantomData};

/// The right to begin shares, which takes them in when they end. It has no bytes.
#[derive(Drop)]
pub struct StampRoll<J: ShareNaming> {
    pub(crate) seat: TableSeat,
    pub(crate) naming: PhantomData<J>,
}

impl<J: ShareNaming> Model for StampRoll<J> {
    ghost use Rattle.std.specs.Prelude.{◌≡◌, []};
    ghost use Rattle.stamp_shares.specs.Shares.{Roll};
    ghost use Rattle.stamp_shares.specs.Views.{counting};

    ghost Value = { Roll };

    ghost view = { λ r. record { begun = r.seat.me.0.begun; ended = r.seat.me.0.shares } };

    ghost invariant = { λ r. (r.seat.table_id ≡ J.table) × (r.seat.me ≡ (counting r.seat.me.0.begun r.seat.me.0.shares, [])) };
}
