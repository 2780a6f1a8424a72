use shm_segment::{KnownSamples, Numbered};
use std::collections::LinkedList;

/// What a seat is.
pub enum Role {
    /// The first seat. The giver's and the taker's are made of it.
    Opens,
    Gives,
    Takes,
    Notices,
    /// What a seat leaves that was joined to another.
    Spent,
}

/// A step of the taker on one word.
pub enum Access {
    Load { word: u64, value: u64 },
    Store { word: u64, value: u64 },
}

/// What a seat knows. It exists only in proofs: no value of it is made.
pub struct View {
    pub role: Role,
    /// The segment's first number.
    pub first: u32,
    /// The giver's list and number of stores; for another seat, what it knows of them.
    pub known: KnownSamples,
    /// The pairs that the taker consumed.
    pub consumed: LinkedList<Numbered>,
    /// The loads and stores that the taker made.
    pub made: LinkedList<Access>,
    /// The values that the running reading has loaded, before its second count.
    pub reading: LinkedList<u64>,
    /// The pair that was read between two equal counts, and is not yet cleared.
    pub read: Option<Numbered>,
}
