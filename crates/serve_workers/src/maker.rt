use crate::{Dials, SharedClock};
use gps_fixed::NoMemory;
use gps_lane::Piece;
use gps_outside::Clock;
use stamp_shares::StampShare;
use std::alloc::Global;
use std::sync::{Mutex, Wait};

/// How a reader makes a piece of the bytes that a read gave.
pub(crate) trait Maker {
    ghost use Rattle.std.specs.Prelude.{◌≡◌, ℕ, List, IfOk, OnErr};
    ghost use Rattle.gps_lane.specs.declared.piece.Piece.{Piece};
    ghost use Rattle.gps_lane.specs.Carried.{stamp_part};
    ghost use Rattle.gps_lane.specs.Sizes.{IsChunk};
    ghost use Rattle.serve_workers.specs.Sourced.{Carries};
    ghost use Rattle.serve_workers.specs.Stamping.{GivenOneAtMost, given_on};
    ghost use Rattle.stamp_shares.specs.declared.view.ShareView.{ShareView};

    /// The bytes that a piece carries.
    ghost part: { Piece → List ℕ };

    /// What holds of its pieces.
    ghost good: { Piece → Type 0 };

    /// The stamps that were given to it.
    ghost share: { Self → ShareView };

    fn piece<R: Wait>(&mut self, rt: &R, alloc: Global, bytes: &[u8]) -> Result<Piece, NoMemory>
        requires { IsChunk bytes.now }
        ensures bytes { IfOk result (λ piece. part piece ≡ bytes.now) }
        ensures good { IfOk result good }
        ensures carries { Carries part good }
        ensures stamped { IfOk result (λ piece. share self.new ≡ given_on (stamp_part piece) (share self.old)) }
        ensures late { OnErr result (GivenOneAtMost (share self.old) (share self.new)) };
}

/// Pieces of a session's requests.
#[derive(Drop)]
pub(crate) struct Requests;

impl Maker for Requests {
    ghost use Rattle.gps_lane.specs.Carried.{input_part};
    ghost use Rattle.serve_workers.specs.Readings.{IsInputPiece};
    ghost use Rattle.stamp_shares.specs.Shares.{new_share};

    ghost part = { input_part };

    ghost good = { IsInputPiece };

    ghost share = { λ _. new_share 0 };

    fn piece<R: Wait>(&mut self, _rt: &R, alloc: Global, bytes: &[u8]) -> Result<Piece, NoMemory> {
        Piece::input(alloc, bytes)
    }
}

/// Pieces of a device, each with a stamp that the shared clock gives for it.
#[derive(Drop)]
pub(crate) struct Stamped<'c, C: Clock, D: Dials> {
    pub(crate) clock: &'c Mutex<SharedClock<C, D>>,
    pub(crate) share: StampShare<D>,
}

impl<'c, C: Clock, D: Dials> Maker for Stamped<'c, C, D> {
    ghost use Rattle.gps_lane.specs.Carried.{device_part};
    ghost use Rattle.serve_workers.specs.Readings.{IsDevicePiece};

    ghost part = { device_part };

    ghost good = { IsDevicePiece D.may };

    ghost share = { λ m. m.share };

    fn piece<R: Wait>(&mut self, rt: &R, alloc: Global, bytes: &[u8]) -> Result<Piece, NoMemory> {
        let at = self.clock.lock(rt).now(&mut self.share);
        Piece::bytes(alloc, at, bytes)
    }
}
