ghost use Rattle.std.specs.Prelude.{◌≡◌, ◌++◌, [], ◌∷◌, true, IfSome};
ghost use Rattle.gps_lane.specs.Lane.{Begins};
ghost use Rattle.gps_lane.specs.Held.{AreDue};
ghost use Rattle.serve_workers.specs.Readings.{last_piece};
ghost use Rattle.serve_workers.specs.Putting.{puts_if};

use gps_lane::{Bell, Ending, Piece, Pushed, Tx};
use std::sync::Wait;

/// Puts a piece that is due, and waits for room if the lane is full. Once it is told to end, drops the piece, and answers false.
pub(crate) fn put<R: Wait + Copy>(
    rt: &R,
    pieces: &mut Tx<Piece, R>,
    piece: Piece,
    own: &Bell,
) -> bool
    requires open { pieces.old.is_open ≡ true }
    requires due { Begins AreDue pieces.old.about (pieces.old.put ++ piece ∷ []) }
    ensures { pieces.new ≡ puts_if result piece pieces.old }
{
    let mut next = piece;
    for _ in rt.forever() {
        if own.is_closed() {
            return false;
        }
        match pieces.push(next) {
            Pushed::Done => return true,
            Pushed::Full(back) => {
                next = back;
                own.wait(rt);
            }
        }
    }
    unreachable!()
}

/// Puts the last piece, unless the reader is told to end.
pub(crate) fn put_ending<R: Wait + Copy>(
    rt: &R,
    pieces: &mut Tx<Piece, R>,
    ending: Ending,
    own: &Bell,
    pump: &Bell,
) -> Option<Ending>
    requires open { pieces.old.is_open ≡ true }
    ensures puts { pieces.new ≡ record pieces.old { put = pieces.old.put ++ last_piece result } }
    ensures ending { IfSome result (λ last. last ≡ ending) }
{
    pieces.show_due();
    if put(rt, pieces, Piece::Last(ending), own) {
        pump.ring();
        Some(ending)
    } else {
        None
    }
}
