// What the door does to the book and to the list of admissions.
ghost use Rattle.std.specs.Prelude.{◌≡◌, ◌<◌, true, [], IfOk, IfErr, OnOk, OnErr, length, vec_len, vec_capacity};
ghost use Rattle.std.specs.List.{list_all};
ghost use Rattle.book_log.specs.Standing.{has_stopped};
ghost use Rattle.hub_promise.specs.Giving.{MayOpen};
ghost use Rattle.hub_door.specs.Admissions.{finished};
ghost use Rattle.report_book.specs.BookView.{BookView};
ghost use Rattle.report_book.specs.Moves.{Admits};
ghost use Rattle.report_book.specs.Refusals.{RefusesWith, crowd_fault};
ghost use Rattle.report_book.specs.Standing.{BookHolds};
ghost use Rattle.session_core.specs.Naming.{of_table};
ghost use Rattle.gps_hub.specs.Admitting.{ShutIf, fault_or_memory};

use crate::open_sessions::OpenSessions;
use gps_fixed::NoMemory;
use gps_lane::{Piece, Rx, Tx};
use hub_door::{DoorNaming, DoorSeat, Keeper};
use report_book::{Book, BookFault};
use session_core::Item;
use std::sync::Wait;

/// Notes that the door has closed or failed. It may have been noted before.
pub(crate) fn finish<J: DoorNaming>(keeper: &mut Keeper<J>, is_done: bool, door: &mut DoorSeat<J>)
    requires { is_done ≡ keeper.old.done }
    ensures keeper { keeper.new ≡ finished keeper.old }
    ensures door { door.new ≡ finished door.old }
{
    if is_done {
        keeper.agree(door);
    } else {
        keeper.finish(door);
    }
}

/// Opens the next session, which is closed at once if the book was shut.
pub(crate) fn open<R: Wait + Copy>(
    book: &mut Book<Tx<Item, R>>,
    outlet: Tx<Item, R>,
    is_shut: bool,
) -> Result<u32, (Tx<Item, R>, BookFault)>
    // The outlet is new and open. If the book was shut, all its devices have stopped.
    requires empty { outlet.put ≡ [] }
    requires open { outlet.is_open ≡ true }
    requires may { MayOpen outlet.lane outlet.about }
    requires ended { is_shut ≡ true → list_all (λ line. has_stopped line.stage) book.old.log.present.lines ≡ true }

    // The session is the next one, and is closed if the book was shut.
    ensures number { IfOk result (λ s. s ≡ length book.old.sessions) }
    ensures admits { IfOk result (λ _. (mid : BookView) × BookHolds mid
        × Admits (of_table outlet.lane outlet.about) outlet.cap book.old mid × ShutIf is_shut mid book.new) }

    // When it is refused, and what a refusal leaves.
    ensures refusal { RefusesWith (crowd_fault book.old) result }
    ensures outlet { IfErr result (λ refusal. refusal.0 ≡ outlet) }
    ensures unchanged { OnErr result (book.new ≡ book.old) }
{
    outlet.show();
    match book.admit(outlet) {
        Ok(s) => {
            book.show();
            shut_if(book, is_shut);
            Ok(s)
        }
        Err(refusal) => Err(refusal),
    }
}

/// Closes each live session, if the book was shut.
fn shut_if<R: Wait + Copy>(book: &mut Book<Tx<Item, R>>, is_shut: bool)
    requires { is_shut ≡ true → list_all (λ line. has_stopped line.stage) book.old.log.present.lines ≡ true }
    ensures { ShutIf is_shut book.old book.new }
{
    if is_shut {
        book.shut();
    }
}

/// Makes room for one more session.
pub(crate) fn take_room<R>(
    inputs: &mut Vec<Rx<Piece, R>>,
    open_sessions: &mut OpenSessions,
) -> Result<(), NoMemory>
    ensures items { inputs.new.items ≡ inputs.old.items }
    ensures room { OnOk result (vec_len inputs.new < vec_capacity inputs.new) }
    ensures sessions { open_sessions.new.list.items ≡ open_sessions.old.list.items }
    ensures sessions_room { OnOk result (vec_len open_sessions.new.list < vec_capacity open_sessions.new.list) }
{
    inputs.reserve(1)?;
    open_sessions.reserve()
}

/// Why no session may be admitted now: the book has too many, or it is out of memory.
pub(crate) fn refusal_of<R: Wait + Copy>(book: &Book<Tx<Item, R>>) -> BookFault
    ensures { result ≡ fault_or_memory (crowd_fault book.now) }
{
    let (live, opened) = (book.live(), book.opened());
    if live == 64 || opened == 100_000 {
        BookFault::TooManySessions { live, opened }
    } else {
        BookFault::NoMemory
    }
}
