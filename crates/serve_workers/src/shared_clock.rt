ghost use Rattle.std.specs.Prelude.{◌≡◌, ◌+◌, [], ◌∷◌, ◌++◌};
ghost use Rattle.serve_workers.specs.Clocks.{Gave, IsAllowed, MayGive};
ghost use Rattle.stamp_shares.specs.Shares.{AreShares, given_to, new_share, stamps_in, with_stamp};

use gps_fixed::Stamp;
use gps_outside::Clock;
use stamp_shares::{ShareNaming, StampGiver, StampRoll, StampShare};
use std::marker::{Brand, Model, PhantomData};

/// What fixes the stamps that a shared clock may give, and those that it gives. Whoever shares a clock picks them.
pub trait Dials: ShareNaming {
    ghost use Rattle.std.specs.Prelude.{List, Option};
    ghost use Rattle.gps_fixed.specs.Moment.{Moment};
    ghost use Rattle.gps_outside.specs.Ticks.{Dial};

    /// The stamps that the clock may give, if it tells them.
    ghost may: { Option (List Moment) };

    /// What the clock tells of its stamps before it is shared.
    ghost first: { Option Dial };
}

impl Dials for Brand {
    ghost use Rattle.std.specs.Prelude.{None};

    ghost may = { None };

    ghost first = { None };
}

/// A clock that several readers share, behind a lock. Contracts see the stamps that it gave since, each with the share to which it was given.
#[derive(Drop)]
pub struct SharedClock<C: Clock, D: Dials> {
    clock: C,
    giver: StampGiver<D>,
    dials: PhantomData<D>,
}

impl<C: Clock, D: Dials> Model for SharedClock<C, D> {
    ghost use Rattle.std.specs.Prelude.{List};
    ghost use Rattle.gps_outside.specs.Ticks.{GivesAll};
    ghost use Rattle.gps_outside.specs.Told.{Goes};
    ghost use Rattle.serve_workers.specs.Clocks.{MayGive};
    ghost use Rattle.stamp_shares.specs.declared.view.Given.{Given};
    ghost use Rattle.stamp_shares.specs.Shares.{stamps_in};

    ghost Value = { List Given };

    ghost view = { λ s. s.giver };

    ghost invariant = { λ s. MayGive D.may (C.stamps s.clock) × Goes (GivesAll (stamps_in s.giver)) D.first (C.stamps s.clock) };
}

impl<C: Clock, D: Dials> SharedClock<C, D> {
    /// Shares a clock, which has given no stamp yet.
    #[tactic(auto, using(crate::proofs::Dialing::none_gave))]
    pub fn new(clock: C, giver: StampGiver<D>) -> SharedClock<C, D>
        requires may { MayGive D.may (C.stamps clock) }
        requires first { D.first ≡ C.stamps clock }
        requires none { giver ≡ [] }
        ensures { result ≡ [] }
    {
        SharedClock {
            clock,
            giver,
            dials: PhantomData,
        }
    }

    /// A share of its stamps, for one reader.
    pub fn begin(&mut self, roll: &mut StampRoll<D>) -> StampShare<D>
        ensures same { self.new ≡ self.old }
        ensures roll { roll.new ≡ record roll.old { begun = roll.old.begun + 1 } }
        ensures share { result ≡ new_share roll.old.begun }
    {
        self.giver.begin(roll)
    }

    /// The time now, for this share.
    #[tactic(auto, using(crate::proofs::Dialing::gives_allowed))]
    pub fn now(&mut self, share: &mut StampShare<D>) -> Stamp
        ensures allowed { IsAllowed D.may result }
        ensures given { self.new ≡ self.old ++ given_to result share.old ∷ [] }
        ensures share { share.new ≡ with_stamp result share.old }
    {
        let at = self.clock.now();
        self.giver.give(share, &at);
        at
    }

    /// The reader of a share has ended.
    pub fn end(&mut self, roll: &mut StampRoll<D>, share: StampShare<D>)
        ensures same { self.new ≡ self.old }
        ensures roll { roll.new ≡ record roll.old { ended = roll.old.ended ++ share ∷ [] } }
    {
        self.giver.end(roll, share);
    }

    /// The shares of the readers that have ended are what the clock gave to them.
    #[tactic(auto, using(crate::proofs::Dialing::gave))]
    pub fn settle(&mut self, roll: StampRoll<D>)
        ensures same { self.new ≡ self.old }
        ensures shares { AreShares self.old roll.ended }
        ensures by_clock { Gave D.first (stamps_in self.old) }
    {
        self.giver.settle(roll);
    }
}
