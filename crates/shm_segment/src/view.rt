use crate::sample::Sample;
use std::collections::LinkedList;

/// What a seat is.
pub enum Role {
    Publishes,
    Notices,
    Monitors,
    Accounts,
    /// What a seat leaves that was joined to another.
    Spent,
}

/// Published samples, in order, and a number of stores after which they were known.
pub struct KnownSamples {
    pub samples: LinkedList<Sample>,
    pub stores: u64,
}

/// A sample and its number.
#[derive(Clone, Copy, Debug, PartialEq, Eq)]
pub struct Numbered {
    pub number: u32,
    pub sample: Sample,
}

/// A load of a reading: the number of stores that the monitor knew of before it, the word, and its value.
pub struct Load {
    pub told: u64,
    pub word: u64,
    pub value: u64,
}

/// What a seat knows. It exists only in proofs: no value of it is made.
pub struct View {
    pub role: Role,
    /// The segment's first number.
    pub first: u32,
    /// The publisher's list and number of stores; for another seat, what it knows of them.
    pub known: KnownSamples,
    /// What a notice said that is being met.
    pub met: KnownSamples,
    /// The pairs that a monitor took.
    pub taken: LinkedList<Numbered>,
    /// The loads that a monitor made.
    pub kept: LinkedList<Load>,
    /// The values that the running reading has loaded.
    pub reading: LinkedList<u64>,
}
