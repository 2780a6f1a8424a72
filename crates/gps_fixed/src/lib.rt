//! Numbers, stamps and civil time: what every layer of gpsrelay uses.
//!
//! Quantities are whole numbers of a small unit (fixed point), so no rounding is hidden, and a
//! stamp is a second since 1970-01-01T00:00:00Z with its nanoseconds.
#![tactic(auto)]

mod bytes;
mod civil;
mod fields;
mod hexadecimal;
mod iso;
mod iso_reading;
mod no_memory;
mod numeral;
mod ratio;
mod scaled;
mod stamp;
mod text;
mod utc;

pub use bytes::Bytes;
pub use civil::day_of;
pub use fields::{le_i32, le_u16, le_u32};
pub use hexadecimal::{lower_hex_digit, upper_hex_digit};
pub use iso::{iso_text, push_iso};
pub use iso_reading::stamp_of_iso;
pub use no_memory::NoMemory;
pub use numeral::{Numeral, read_numeral};
pub use ratio::nearest_ratio;
pub use scaled::{read_digits, read_magnitude, read_scaled, read_whole};
pub use stamp::Stamp;
pub use text::{push_decimal, push_digits, push_scaled, write_scaled};
pub use utc::utc_of;
