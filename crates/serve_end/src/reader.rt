ghost use Rattle.std.specs.Prelude.{◌≡◌};
ghost use Rattle.serve_end.specs.Lanes.{Settles};

use gps_lane::{Piece, Rx, Tx, settle};
use gps_outside::Source;
use serve_workers::ReaderDone;
use std::sync::Wait;

/// A reader's source, and both ends of its lane.
#[derive(Drop)]
pub(crate) struct SettledReader<S: Source, R> {
    pub(crate) source: S,
    pub(crate) tx: Tx<Piece, R>,
    pub(crate) rx: Rx<Piece, R>,
}

/// Gets the next piece of a lane on which no thread works, if there is one.
fn settle_lane<R: Wait + Copy>(tx: &mut Tx<Piece, R>, rx: &mut Rx<Piece, R>)
    requires { rx.old.lane ≡ tx.old.lane }
    ensures tx { tx.new ≡ tx.old }
    ensures rx { Settles tx.old rx.old rx.new }
{
    let _ = settle(tx, rx);
}

/// Takes what a reader hands back, and settles its lane.
pub(crate) fn settle_reader<S: Source, R: Wait + Copy>(
    reader: ReaderDone<S, R>,
    rx: Rx<Piece, R>,
) -> SettledReader<S, R>
    requires { rx.lane ≡ reader.pieces.lane }
    ensures source { result.source ≡ reader.source }
    ensures tx { result.tx ≡ reader.pieces }
    ensures rx { Settles reader.pieces rx result.rx }
{
    let ReaderDone {
        source,
        pieces,
        ending: _,
        failed: _,
    } = reader;
    let mut tx = pieces;
    let mut rx = rx;
    settle_lane(&mut tx, &mut rx);
    SettledReader { source, tx, rx }
}
