//! What the door, and the numbers of the daemon, learn of the links that the door gave, without a call of theirs.

use std::sync::Arc;
use std::sync::atomic::{AtomicU64, Ordering};

/// How many links the door gave, and what became of them.
#[derive(Drop)]
pub struct LinkTally {
    /// Links whose reader has not ended.
    now: AtomicU64,
    /// The most that they were.
    most: AtomicU64,
    /// Links that were read: those of clients that are served.
    read: AtomicU64,
    /// Links that were dropped before they were read: those of clients that were turned away.
    turned_away: AtomicU64,
    /// Links that were admitted and then closed unread: no thread could be started for them.
    unread: AtomicU64,
}

fn add_one(number: &AtomicU64) {
    number.fetch_add(1, Ordering::SeqCst);
}

impl LinkTally {
    pub fn new() -> LinkTally {
        LinkTally {
            now: AtomicU64::new(0),
            most: AtomicU64::new(0),
            read: AtomicU64::new(0),
            turned_away: AtomicU64::new(0),
            unread: AtomicU64::new(0),
        }
    }

    pub fn now(&self) -> u64 {
        self.now.load(Ordering::SeqCst)
    }

    pub fn most(&self) -> u64 {
        self.most.load(Ordering::SeqCst)
    }

    /// How many clients were admitted.
    pub fn admitted(&self) -> u64 {
        self.read
            .load(Ordering::SeqCst)
            .saturating_add(self.unread())
    }

    pub fn turned_away(&self) -> u64 {
        self.turned_away.load(Ordering::SeqCst)
    }

    pub fn unread(&self) -> u64 {
        self.unread.load(Ordering::SeqCst)
    }

    /// Notes the most. It is called by the threads of clients, any of which may be between the two calls: the greater value stays.
    fn note_most(&self) {
        let now = self.now();
        self.most.fetch_max(now, Ordering::SeqCst);
    }
}

/// Says what became of a link: when it is dropped, that it was dropped before anything of it was read.
pub struct Ticket {
    links: Arc<LinkTally>,
}

impl Ticket {
    pub fn new(links: Arc<LinkTally>) -> Ticket {
        Ticket { links }
    }

    /// Notes that the link is read.
    pub fn used(self) {
        let Ticket { links } = self;
        add_one(&links.read);
        links.note_most();
    }

    /// Notes that the link was closed, and never read.
    pub fn closed(self) {
        let Ticket { links } = self;
        add_one(&links.unread);
    }
}

impl Drop for Ticket {
    fn drop(self) {
        let Ticket { links } = self;
        add_one(&links.turned_away);
    }
}

/// A link whose reader has not ended. Such links are counted.
pub struct Seat {
    links: Arc<LinkTally>,
}

impl Seat {
    pub fn new(links: Arc<LinkTally>) -> Seat {
        add_one(&links.now);
        Seat { links }
    }
}

impl Drop for Seat {
    fn drop(self) {
        let Seat { links } = self;
        links.now.fetch_sub(1, Ordering::SeqCst);
    }
}
