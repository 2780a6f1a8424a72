/// The id of a satellite that a GSA calls used, with the system of that GSA in `gnssId`'s counting.
#[derive(Clone, Copy, Debug, PartialEq, Eq)]
pub struct UsedId {
    pub id: u32,
    pub system: Option<u8>,
}
