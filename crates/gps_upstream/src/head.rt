/// How much of the head of what another daemon sends was read.
#[derive(Clone, Copy, Debug, PartialEq, Eq)]
pub enum Head {
    /// The daemon was not asked yet.
    Start,
    /// The daemon was asked, and its head has not ended.
    Reading,
    /// The head has ended: all that follows is handed on.
    Done,
    /// What the daemon sent has no head.
    Bad,
    /// The request could not be written.
    Unsent,
}
