/// A satellite in view, named by system, number and signal.
#[derive(Clone, Copy, Debug, PartialEq, Eq)]
pub struct Satellite {
    /// The number that is shown: the id of a GSV, or `svId + 100 * gnssId` of a u-blox frame.
    pub prn: u32,
    /// Elevation in degrees, -90..=90.
    pub el: Option<i32>,
    /// Azimuth in degrees, 0..=360.
    pub az: Option<u32>,
    /// Signal strength in dBHz.
    pub ss: Option<u32>,
    pub used: bool,
    /// The system by u-blox's `gnssId` (0 GPS, 2 Galileo, 3 BeiDou, 6 GLONASS, ..) and the id within it.
    pub gnss: Option<(u8, u16)>,
    /// The signal id of a GSV, 0..=15.
    pub signal: Option<u8>,
}
