/// How a place of the bytes relates to the head before them.
#[derive(Clone, Copy, Debug, PartialEq, Eq)]
pub enum Stage {
    /// The head has not ended.
    Inside,
    /// The head has ended: all further bytes are handed on.
    Behind,
    /// There is no head: no byte is handed on.
    Nowhere,
}
