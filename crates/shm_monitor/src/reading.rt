use shm_segment::Numbered;

/// How a reading ended.
#[derive(Clone, Copy, Debug, PartialEq, Eq)]
pub enum Reading {
    /// A sample that was published whole, and its number.
    Taken(Numbered),
    /// The load of valid gave 0, after this count.
    NotReady { count: u32, valid: u64 },
    /// The two loads of count gave these different numbers.
    Clash { before: u32, after: u32 },
}

/// What one load did.
#[derive(Clone, Copy, Debug, PartialEq, Eq)]
pub enum MonStep {
    /// It gave this value of this word, and the reading goes on.
    Loaded { word: u8, value: u64 },
    /// It ended the reading.
    Done(Reading),
}
