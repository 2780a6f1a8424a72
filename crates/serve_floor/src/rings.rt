use serve_workers::SessionBells;
use std::alloc::Global;
use std::sync::Arc;

/// The most sessions that are not released yet: the 64 that may be live, and sixteen whose clients have still to take what is left.
pub const MOST: usize = 80;

/// What the threads of a session are told after a burst.
#[derive(Clone, Copy, Debug, PartialEq, Eq)]
pub(crate) struct Call {
    /// There is room for the reader.
    pub(crate) has_room: bool,
    /// There are items for the writer.
    pub(crate) has_items: bool,
    /// Nothing more will come.
    pub(crate) is_last: bool,
}

impl Call {
    fn is_needed(self) -> bool {
        self.has_room || self.has_items || self.is_last
    }

    fn make(self, bells: &Arc<SessionBells>) {
        if self.has_room {
            bells.reader.ring();
        }
        if self.is_last {
            bells.close();
        } else if self.has_items {
            bells.writer.ring();
        }
    }
}

#[derive(Drop)]
struct Ring {
    bells: Arc<SessionBells>,
    call: Call,
}

/// The rings of a burst. They are made once its lock is free, or at once if there is no room to keep them: waking a thread takes the system longer
/// than looking at a session.
#[derive(Drop)]
pub struct Rings {
    list: Vec<Ring>,
}

impl Rings {
    /// No rings yet, with room for one of each session if there is memory for it.
    pub fn new(alloc: Global) -> Rings {
        let list = match Vec::with_capacity(alloc, MOST) {
            Ok(list) => list,
            Err(_) => Vec::new(alloc),
        };
        Rings { list }
    }

    /// Keeps a ring for later, if there is room; otherwise makes it now.
    pub(crate) fn add(&mut self, bells: &Arc<SessionBells>, call: Call) {
        if !call.is_needed() {
            return;
        }
        if self.list.len() < self.list.capacity() {
            if let Ok(bells) = Arc::try_clone(bells) {
                self.list.push_reserved(Ring { bells, call });
                return;
            }
        }
        call.make(bells);
    }

    /// Makes the rings that were kept.
    pub(crate) fn make(&mut self) {
        for ring in self.list.as_slice() {
            ring.call.make(&ring.bells);
        }
        self.list.clear();
    }
}
