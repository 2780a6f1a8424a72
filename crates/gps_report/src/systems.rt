/// The numbers of the satellite systems that sentences name, as u-blox counts them (gnssId).
pub const GPS: u8 = 0;

pub const GALILEO: u8 = 2;

pub const BEIDOU: u8 = 3;

pub const GLONASS: u8 = 6;
