use gps_fixed::Stamp;
use std::collections::LinkedList;

/// A stamp that was given, and to whose share. It exists in proofs alone.
pub struct Given {
    pub whose: u64,
    pub stamp: Stamp,
}

/// A share: whose it is, and the stamps that were given to it, in order. It exists in proofs alone.
pub struct ShareView {
    pub whose: u64,
    pub stamps: LinkedList<Stamp>,
}

/// What a seat of the table knows. It exists in proofs alone.
pub struct SeatView {
    /// Whether it is the seat that gives.
    pub gives: bool,
    /// All that was given, if it is that seat.
    pub given: LinkedList<Given>,
    /// Whether it is the seat that begins shares.
    pub counts: bool,
    /// How many shares were begun, if it is that seat.
    pub begun: u64,
    /// The shares that it holds.
    pub shares: LinkedList<ShareView>,
}
