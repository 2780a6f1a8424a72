/// How a device ended.
#[derive(Clone, Copy, Debug, PartialEq, Eq)]
pub enum DeviceEnd {
    /// Its sources ended, and it was given all of them.
    Ended,
    /// It was lost, because a source of it failed.
    ReadFault,
    /// It was lost, because the book or a reader of it was out of memory.
    NoMemory,
}
