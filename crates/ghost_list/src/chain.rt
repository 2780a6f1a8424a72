use std::snapshot::Snapshot;

/// Items in order, as a [`GhostList`](crate::GhostList) has them.
#[derive(Drop)]
pub enum Chain<T> {
    Nothing,
    /// One item behind others.
    More(Snapshot<Chain<T>>, Snapshot<T>),
    /// The items of one behind those of the other.
    Both(Snapshot<Chain<T>>, Snapshot<Chain<T>>),
}
