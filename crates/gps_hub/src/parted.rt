use crate::inlets::Inlets;
use gps_lane::{Piece, Rx, Tx};
use hub_promise::DeviceEnd;
use report_book::Book;
use session_core::Item;
use std::sync::Wait;

/// What a hub held: its book, the lanes of each device and how the device ended, if it has stopped, and the input lane of each session.
#[derive(Drop)]
pub struct Parted<R: Wait + Copy> {
    pub book: Book<Tx<Item, R>>,
    pub inlets: Vec<Inlets<R>>,
    pub ends: Vec<Option<DeviceEnd>>,
    pub sessions: Vec<Rx<Piece, R>>,
}
