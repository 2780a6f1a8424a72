use shm_segment::Sample;

/// How a reading of the taker ended.
#[derive(Clone, Copy, Debug, PartialEq, Eq)]
pub enum Consumption {
    /// A sample that was published whole, and its number. It is used up: valid was cleared after it was read.
    Consumed { number: u32, sample: Sample },
    /// The load of valid gave 0, after this count.
    NotReady { count: u32, valid: u64 },
    /// The two loads of count gave these different numbers. valid was left alone.
    Clash { before: u32, after: u32 },
}

/// What one step of the taker did.
#[derive(Clone, Copy, Debug, PartialEq, Eq)]
pub enum TakeStep {
    /// It loaded this value of this word, and the reading goes on.
    Loaded { word: u8, value: u64 },
    /// It stored valid 0, and this sample is consumed.
    Cleared { number: u32, sample: Sample },
    /// It was a load that ended the reading by NotReady or Clash.
    Ended(Consumption),
}
