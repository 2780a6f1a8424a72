use gps_lane::TableName;
use std::collections::LinkedList;

/// What the hub noted of its door. It exists in proofs alone.
pub enum Entry {
    /// A session was admitted, with these two lanes and the number of items that may wait in the first.
    Link {
        outlet: TableName,
        cap: u32,
        input: TableName,
    },
    /// A link was dropped, when this many sessions were live, had been opened, and were not yet released.
    Dropped {
        live: u32,
        opened: u32,
        held: usize,
    },
    /// The door has closed or failed.
    Done,
}

/// What a seat of the table knows. It exists in proofs alone.
pub struct DoorView {
    /// Whether it is the hub's seat.
    pub keeps: bool,
    /// All entries if it is the hub's seat; the first of them if it is a note.
    pub list: LinkedList<Entry>,
    /// Those of a note that is being joined to it.
    pub told: LinkedList<Entry>,
}
