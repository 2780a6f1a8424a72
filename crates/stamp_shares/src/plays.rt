use crate::view::SeatView;
use atomic_table::{Join, Play, Split};
use std::marker::{Brand, PhantomData};

/// Which stamp is given. Each call picks it.
pub trait Giving {
    ghost use Rattle.gps_fixed.specs.Moment.{Moment};

    ghost stamp: { Moment };
}

impl Giving for Brand {
    ghost use Rattle.std.specs.Prelude.{pos};

    ghost stamp = { record { sec = pos 0; nsec = 0 } };
}

/// The seat that begins shares is cut off the first seat.
pub struct Opens;

impl Split<SeatView> for Opens {
    ghost use Rattle.std.specs.Prelude.{[]};
    ghost use Rattle.stamp_shares.specs.Views.{counting, giving};

    ghost left = { λ v. giving v.given };

    ghost right = { λ v. counting v.begun [] };
}

/// A share is begun.
pub struct Begins;

impl Split<SeatView> for Begins {
    ghost use Rattle.std.specs.Prelude.{◌+◌};
    ghost use Rattle.stamp_shares.specs.Shares.{new_share};
    ghost use Rattle.stamp_shares.specs.Views.{counting, holding};

    ghost left = { λ v. counting (v.begun + 1) v.shares };

    ghost right = { λ v. holding (new_share v.begun) };
}

/// A seat that holds nothing is cut off.
pub struct Vacates;

impl Split<SeatView> for Vacates {
    ghost use Rattle.stamp_shares.specs.Views.{nothing};

    ghost left = { λ v. v };

    ghost right = { λ _. nothing };
}

/// The shares of a seat are taken in.
pub struct TakesIn;

impl Join<SeatView> for TakesIn {
    ghost use Rattle.stamp_shares.specs.Views.{gathering, nothing};

    ghost both = { gathering };

    ghost spent = { nothing };
}

/// The share that was taken in is given a stamp, and cut off again.
pub struct Gives<E: Giving> {
    marker: PhantomData<E>,
}

impl<E: Giving> Split<SeatView> for Gives<E> {
    ghost use Rattle.std.specs.Prelude.{[], ◌∷◌, ◌++◌};
    ghost use Rattle.stamp_shares.specs.Shares.{given_to, with_stamp};
    ghost use Rattle.stamp_shares.specs.Views.{giving, holding, share_in};

    ghost left = { λ v. giving (v.given ++ given_to E.stamp (share_in v) ∷ []) };

    ghost right = { λ v. holding (with_stamp E.stamp (share_in v)) };
}

/// A load at which the shares that were taken in are what was given to them.
pub struct Shows;

impl Play<(), SeatView> for Shows {
    ghost use Rattle.std.specs.Prelude.{◌≡◌, []};
    ghost use Rattle.stamp_shares.specs.Shares.{AreShares};
    ghost use Rattle.stamp_shares.specs.Views.{giving};

    ghost then = { λ step before word after. (after ≡ (giving before.0.given, [])) × AreShares before.0.given before.0.shares };
}
