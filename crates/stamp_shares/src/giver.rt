ghost use Rattle.std.specs.Prelude.{◌≡◌, ◌+◌, [], ◌∷◌, ◌++◌};
ghost use Rattle.stamp_shares.specs.Shares.{AreShares, given_to, new_share, with_stamp};

use crate::naming::ShareNaming;
use crate::plays::Giving;
use crate::roll::StampRoll;
use crate::share::StampShare;
use crate::steps::{begin, give, show, take_in};
use crate::table::{ShareWord, TableSeat};
use gps_fixed::Stamp;
use std::marker::{Brand, Model, PhantomData};

/// What gives stamps to shares. It knows all that were given, and to whom.
#[derive(Drop)]
pub struct StampGiver<J: ShareNaming> {
    pub(crate) word: ShareWord,
    pub(crate) seat: TableSeat,
    pub(crate) naming: PhantomData<J>,
}

impl<J: ShareNaming> Model for StampGiver<J> {
    ghost use Rattle.std.specs.Prelude.{◌≡◌, List, []};
    ghost use Rattle.stamp_shares.specs.declared.view.Given.{Given};
    ghost use Rattle.stamp_shares.specs.Views.{giving};

    ghost Value = { List Given };

    ghost view = { λ g. g.seat.me.0.given };

    ghost invariant = { λ g. (g.word.shared.table_id ≡ J.table) × (g.word.shared.table_id.words ≡ 1) × (g.seat.table_id ≡ J.table)
        × (g.seat.me ≡ (giving g.seat.me.0.given, [])) };
}

impl<J: ShareNaming> StampGiver<J> {
    /// Begins a share, which has the next number.
    pub fn begin(&mut self, roll: &mut StampRoll<J>) -> StampShare<J>
        ensures same { self.new ≡ self.old }
        ensures roll { roll.new ≡ record roll.old { begun = roll.old.begun + 1 } }
        ensures share { result ≡ new_share roll.old.begun }
    {
        StampShare {
            seat: begin(&self.word, &mut roll.seat),
            naming: PhantomData,
        }
    }

    fn give_this<E: Giving>(&mut self, share: &mut StampShare<J>, stamp: &Stamp)
        requires picked { E.stamp ≡ stamp.now }
        ensures given { self.new ≡ self.old ++ given_to stamp.now share.old ∷ [] }
        ensures share { share.new ≡ with_stamp stamp.now share.old }
    {
        let StampGiver {
            word,
            seat,
            naming: _,
        } = self;
        give::<E>(word, seat, &mut share.seat);
        let _stamp = stamp;
    }

    /// Gives a stamp to a share.
    pub fn give(&mut self, share: &mut StampShare<J>, stamp: &Stamp)
        ensures given { self.new ≡ self.old ++ given_to stamp.now share.old ∷ [] }
        ensures share { share.new ≡ with_stamp stamp.now share.old }
    {
        self.give_this::<Brand>(share, stamp);
    }

    /// Ends a share.
    pub fn end(&mut self, roll: &mut StampRoll<J>, share: StampShare<J>)
        ensures same { self.new ≡ self.old }
        ensures roll { roll.new ≡ record roll.old { ended = roll.old.ended ++ share ∷ [] } }
    {
        let StampShare { seat, naming: _ } = share;
        take_in(&self.word, &mut roll.seat, seat);
    }

    /// Each share that has ended is what was given to it.
    pub fn settle(&mut self, roll: StampRoll<J>)
        ensures same { self.new ≡ self.old }
        ensures shares { AreShares self.old roll.ended }
    {
        let StampGiver {
            word,
            seat,
            naming: _,
        } = self;
        let StampRoll {
            seat: shares,
            naming: _,
        } = roll;
        show(word, seat, shares);
    }
}
