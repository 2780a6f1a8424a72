use crate::said::Said;

/// A point to which a running epoch can go back: what it had said, and how long its lists were.
#[derive(Clone, Copy, Debug)]
pub struct Point {
    pub said: Said,
    pub sats: usize,
    pub used_ids: usize,
}
