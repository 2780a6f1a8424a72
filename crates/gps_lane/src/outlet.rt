use crate::{Pushed, Rx, Tx, settle, settle_or_close};
use session_core::{Item, Outlet, Push, TwoEnded};
use std::sync::Wait;

impl<R: Wait + Copy> Outlet for Tx<Item, R> {
    ghost use Rattle.std.specs.Prelude.{◌≡◌, true, false};
    ghost use Rattle.session_core.specs.Naming.{OutletName, of_table};
    ghost use Rattle.gps_lane.specs.Lane.{MayKeep};

    ghost kept = { λ s. s.put };

    ghost cap = { λ s. s.cap };

    ghost name = { λ s. OutletName.of_table s.lane s.about };

    ghost exact = { false };

    ghost takes = { λ s. s.is_open ≡ true };

    // What it keeps begins something that is due.
    ghost may = { MayKeep };

    fn push(&mut self, item: Item) -> Push {
        match Tx::push(self, item) {
            Pushed::Done => Push::Done,
            Pushed::Full(_) => Push::Full,
        }
    }
}

impl<R: Wait + Copy> TwoEnded for Tx<Item, R> {
    ghost use Rattle.std.specs.Prelude.{◌≡◌};
    ghost use Rattle.session_core.specs.Naming.{OutletName, of_table, table_of};

    type Far = Rx<Item, R>;

    ghost got = { λ far. far.got };

    ghost far_name = { λ far. OutletName.of_table far.lane far.about };

    ghost belongs = { λ far near. table_of far ≡ table_of near };

    fn settle(&mut self, far: &mut Rx<Item, R>, is_end: bool) -> Option<Item> {
        if is_end {
            settle_or_close(self, far)
        } else {
            settle(self, far)
        }
    }
}
