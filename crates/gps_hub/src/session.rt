// What each piece of a session's input lane does to the book.
ghost use Rattle.std.specs.Prelude.{◌≡◌, ◌<◌, ◌⊎◌, ℕ, List, length, Some, None};
ghost use Rattle.book_sessions.specs.Roster.{IsOpenAt};
ghost use Rattle.gps_lane.specs.Ends.{Taking};
ghost use Rattle.gps_lane.specs.Lane.{MayKeep};
ghost use Rattle.report_book.specs.Allowing.{MayInput};
ghost use Rattle.report_book.specs.Moves.{HangsUp};
ghost use Rattle.report_book.specs.Refusals.{session_fault};
ghost use Rattle.report_book.specs.declared.fault.BookFault.TheVariants.{NoMemory as BookNoMemory};
ghost use Rattle.gps_lane.specs.declared.piece.Piece.TheVariants.{Input, Last};
ghost use Rattle.session_core.specs.declared.mark.Close.{Close as CloseValue};
ghost use Rattle.hub_promise.specs.Steps.{SessionStep, with_got};
ghost use Rattle.gps_lane.specs.Held.{AreDue};
ghost use Rattle.hub_promise.specs.Given.{why_of};
ghost use Rattle.hub_promise.specs.Giving.{MayHearNext};
ghost use Rattle.gps_hub.specs.Pumping.{LookedAt, TookInput};

use crate::pumped::Pumped;
use gps_lane::{Chunk, Ending, Piece, Rx, Tx};
use report_book::{Book, BookFault};
use session_core::{Close, Item};
use std::sync::Wait;

/// Why a session is hung up, if its source ended so.
fn why(ending: Ending) -> Close
    ensures why { result ≡ why_of ending }
    ensures known { (result ≡ CloseValue.HungUp) ⊎ (result ≡ CloseValue.ReadFault) ⊎ (result ≡ CloseValue.NoMemory) }
{
    match ending {
        Ending::End => Close::HungUp,
        Ending::Failed => Close::ReadFault,
        Ending::NoMemory => Close::NoMemory,
    }
}

/// Hangs up a session.
fn hang_up<R: Wait + Copy>(book: &mut Book<Tx<Item, R>>, s: u32, why: Close)
    requires runs { session_fault book.old s ≡ None }
    requires why { (why ≡ CloseValue.HungUp) ⊎ (why ≡ CloseValue.ReadFault) ⊎ (why ≡ CloseValue.NoMemory) }
    ensures { HangsUp s why book.old book.new }
{
    match book.hang_up(s, why) {
        Ok(()) => {}
        Err(_) => unreachable!(),
    }
}

fn hear<R: Wait + Copy>(book: &mut Book<Tx<Item, R>>, s: u32, bytes: &Chunk) -> Pumped
    requires runs { session_fault book.old s ≡ None }
    requires within { s < length book.old.sessions }
    requires open_one { IsOpenAt s book.old.sessions }
    requires may { MayInput MayKeep s bytes.now book.old }
    ensures step { (x : Taking Piece) → SessionStep s book.old book.new x (with_got (Input bytes.now) x) }
    ensures answer { TookInput result (Input bytes.now) s book.old book.new }
{
    book.show();
    match book.input(s, bytes.as_slice()) {
        Ok(()) => Pumped::Fed,
        Err(fault) => {
            hang_up(book, s, Close::NoMemory);
            Pumped::Refused(fault)
        }
    }
}

fn end<R: Wait + Copy>(book: &mut Book<Tx<Item, R>>, s: u32, ending: Ending)
    requires runs { session_fault book.old s ≡ None }
    requires within { s < length book.old.sessions }
    requires open_one { IsOpenAt s book.old.sessions }
    ensures step { (x : Taking Piece) → SessionStep s book.old book.new x (with_got (Last ending) x) }
    ensures hangs_up { HangsUp s (why_of ending) book.old book.new }
{
    book.show();
    hang_up(book, s, why(ending));
}

/// Gives the book a piece of a session's input lane.
fn take_input<R: Wait + Copy>(book: &mut Book<Tx<Item, R>>, s: u32, piece: Piece) -> Pumped
    requires runs { session_fault book.old s ≡ None }
    requires within { s < length book.old.sessions }
    requires open_one { IsOpenAt s book.old.sessions }
    requires may { (bytes : List ℕ) → piece ≡ Input bytes → MayInput MayKeep s bytes book.old }
    ensures step { (x : Taking Piece) → SessionStep s book.old book.new x (with_got piece x) }
    ensures answer { TookInput result piece s book.old book.new }
{
    match piece {
        Piece::Input(bytes) => hear(book, s, &bytes),
        Piece::Last(ending) => {
            end(book, s, ending);
            Pumped::Fed
        }
        Piece::Bytes { at: _, bytes: _ } => Pumped::Fed,
        Piece::Line(_) => Pumped::Fed,
    }
}

/// Gets a piece of a session's input lane, if there is one, and gives it to the book. What was received from the lane is a prefix of what its
/// source holds.
#[tactic(auto, using(gps_lane::proofs::Held::begun_held))]
pub(crate) fn pump<R: Wait + Copy>(
    book: &mut Book<Tx<Item, R>>,
    input: &mut Rx<Piece, R>,
    s: u32,
) -> Pumped
    requires runs { session_fault book.old s ≡ None }
    requires within { s < length book.old.sessions }
    requires open_one { IsOpenAt s book.old.sessions }
    requires may { MayHearNext s input.old book.old }

    // What the book did with the piece, and the answer.
    ensures step { SessionStep s book.old book.new input.old input.new }
    ensures answer { LookedAt result input.old input.new s book.old book.new }
    ensures empty { result ≡ Pumped.Empty → book.new ≡ book.old }

    // What was received is a prefix of what the source holds.
    ensures about { input.new.about ≡ input.old.about }
    ensures heard { AreDue input.new.about input.new.got }
{
    match input.pop() {
        Some(piece) => {
            input.show_due();
            take_input(book, s, piece)
        }
        None => {
            input.show_due();
            Pumped::Empty
        }
    }
}
