use book_batch::Batch;

/// What a call has added to a history.
#[derive(Drop)]
pub struct Addition {
    /// Whether a new generation began before it.
    pub turned: bool,
    /// The place of the first of its reports in the generation's history: that history's length before them.
    pub first: u64,
    /// Its reports, with a row of their lines for each share.
    pub batch: Batch,
}
