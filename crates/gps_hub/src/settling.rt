// What a closed session's lanes still hold is received, with both ends at hand.
ghost use Rattle.std.specs.Prelude.{◌≡◌, ◌<◌, ◌++◌, length, get_or, IfNone, Some};
ghost use Rattle.std.specs.Option.{option_to_list};
ghost use Rattle.book_sessions.specs.MemberView.{MemberView};
ghost use Rattle.session_core.specs.Naming.{table_of};
ghost use Rattle.gps_lane.specs.Held.{AreDue};
ghost use Rattle.hub_promise.specs.Given.{TellsOnce};
ghost use Rattle.hub_promise.specs.Steps.{GetsMore};
ghost use Rattle.gps_hub.specs.Emptied.{GotAll};

use gps_lane::{Piece, Rx, Tx, settle_or_close};
use report_book::Book;
use session_core::Item;
use std::sync::Wait;

/// The most pieces that an input lane may hold.
const PIECES: u32 = 64;

/// Gets the next item of a session's outlet, if there is one.
#[tactic(auto, using(hub_promise::proofs::Settling::settles, hub_promise::proofs::Settling::far_end))]
pub(crate) fn next_item<R: Wait + Copy>(
    book: &mut Book<Tx<Item, R>>,
    s: u32,
    items: &mut Rx<Item, R>,
) -> Option<Item>
    requires there { s < length book.old.sessions }
    requires outlet { (free : MemberView) → Some items.old.lane ≡ table_of (get_or book.old.sessions s free).session.name }
    ensures book { book.new ≡ book.old }
    ensures items { items.new ≡ record items.old { got = items.old.got ++ option_to_list result } }
    ensures all { IfNone result (GotAll s book.new items.new) }
{
    match book.settle(s, items) {
        Ok(item) => item,
        Err(_) => unreachable!(),
    }
}

/// Gets the next piece of a closed session's input lane, and drops it; false if there was none.
fn drop_piece<R: Wait + Copy>(pieces: &mut Tx<Piece, R>, input: &mut Rx<Piece, R>) -> bool
    requires one_lane { input.old.lane ≡ pieces.old.lane }
    requires once { TellsOnce pieces.old.put }
    ensures pieces { pieces.new ≡ record pieces.old { is_open = result } }
    ensures input { GetsMore input.old input.new }
{
    settle_or_close(pieces, input).is_some()
}

/// Gets what a closed session's input lane still holds, and drops it. Then the lane is closed.
#[tactic(auto, using(gps_lane::proofs::Closing::still_same))]
fn empty<R: Wait + Copy>(pieces: &mut Tx<Piece, R>, input: &mut Rx<Piece, R>)
    requires one_lane { input.old.lane ≡ pieces.old.lane }
    requires once { TellsOnce pieces.old.put }
    ensures pieces { pieces.new ≡ record pieces.old { is_open = pieces.new.is_open } }
    ensures input { GetsMore input.old input.new }
{
    'pieces: for _ in 0..=PIECES {
        if !drop_piece(pieces, input) {
            return;
        }
    }
}

/// The same, and what was received from the lane is a prefix of what its source holds.
#[tactic(auto, using(gps_lane::proofs::Held::begun_held))]
pub(crate) fn empty_and_show<R: Wait + Copy>(pieces: &mut Tx<Piece, R>, input: &mut Rx<Piece, R>)
    requires one_lane { input.old.lane ≡ pieces.old.lane }
    requires once { TellsOnce pieces.old.put }
    ensures pieces { pieces.new ≡ record pieces.old { is_open = pieces.new.is_open } }
    ensures input { GetsMore input.old input.new }
    ensures heard { AreDue input.new.about input.new.got }
{
    empty(pieces, input);
    input.show_due();
}
