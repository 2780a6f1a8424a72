ghost use Rattle.std.specs.Prelude.{◌≡◌, ◌<◌, ◌++◌, ◌∷◌, [], IfSome, OnOk, is_some, length, slice_get, vec_len, vec_capacity};
ghost use Rattle.std.specs.Option.{option_and_then};

use gps_fixed::NoMemory;
use gps_lane::Tx;
use report_book::Book;
use session_core::Item;
use std::alloc::Global;
use std::sync::Wait;

/// What is new of a session since the last look.
#[derive(Clone, Copy, Debug, PartialEq, Eq)]
pub struct Look {
    pub session: u32,
    /// Items were put to its outlet.
    pub fresh: bool,
    /// It is closed. It is not looked at again.
    pub closed: bool,
}

/// A session, and how many items had been put to it at the last look.
#[derive(Clone, Copy)]
struct OpenSession {
    session: u32,
    items: u64,
}

/// The sessions that were not closed at the last look, in no order.
#[derive(Drop)]
pub(crate) struct OpenSessions {
    list: Vec<OpenSession>,
}

impl OpenSessions {
    pub(crate) fn new(alloc: Global) -> OpenSessions {
        OpenSessions {
            list: Vec::new(alloc),
        }
    }

    /// Makes room for one more.
    pub(crate) fn reserve(&mut self) -> Result<(), NoMemory>
        ensures list { self.new.list.items ≡ self.old.list.items }
        ensures room { OnOk result (vec_len self.new.list < vec_capacity self.new.list) }
    {
        self.list.reserve(1)?;
        Ok(())
    }

    /// Adds a new session, for which there is room.
    pub(crate) fn add(&mut self, session: u32)
        requires room { vec_len self.old.list < vec_capacity self.old.list }
        ensures added { self.new.list.items ≡ self.old.list.items ++ record { session = session; items = 0 } ∷ [] }
    {
        self.list.push_reserved(OpenSession { session, items: 0 });
    }

    /// Looks at the session at a place of the list; none past the end. If it is closed, the last one takes its place.
    pub(crate) fn look<R: Wait + Copy>(
        &mut self,
        book: &Book<Tx<Item, R>>,
        place: usize,
    ) -> Option<Look>
        ensures there { IfSome result (λ look. look.session < length book.now.sessions) }
        ensures closed { IfSome result (λ look. look.closed
            ≡ is_some (option_and_then (λ member. member.session.closing) (slice_get book.now.sessions look.session))) }
    {
        if place >= self.list.len() {
            return None;
        }
        let OpenSession { session, items } = self.list[place];
        let now = book.items(session)?;
        let closed = book.closing(session).is_some();
        if closed {
            self.list.swap_remove(place);
        } else {
            self.list[place] = OpenSession {
                session,
                items: now,
            };
        }
        Some(Look {
            session,
            fresh: now > items,
            closed,
        })
    }
}
