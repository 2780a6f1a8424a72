use crate::naming::ShareNaming;
use crate::table::TableSeat;
use std::marker::{Model, PhantomData};

/// A reader's share of the stamps: those that were given to it. It has no bytes.
#[derive(Drop)]
pub struct StampShare<J: ShareNaming> {
    pub(crate) seat: TableSeat,
    pub(crate) naming: PhantomData<J>,
}

impl<J: ShareNaming> Model for StampShare<J> {
    ghost use Rattle.std.specs.Prelude.{◌≡◌, []};
    ghost use Rattle.stamp_shares.specs.declared.view.ShareView.{ShareView};
    ghost use Rattle.stamp_shares.specs.Views.{holding, share_in};

    ghost Value = { ShareView };

    ghost view = { λ s. share_in s.seat.me.0 };

    ghost invariant = { λ s. (s.seat.table_id ≡ J.table) × (s.seat.me ≡ (holding (share_in s.seat.me.0), [])) };
}
