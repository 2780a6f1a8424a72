//! The command line, without the program's name: which command it asks for, with which
//! options. `clap` reads the words of each command, and numbers are 1 to 10 decimal digits in a range.
#![tactic(auto)]

mod choice;
mod command;
mod decode;
mod device;
mod devices;
mod generate;
mod numbers;
mod options;
mod replay;
mod serve;

pub use choice::asked;
pub use command::{CommandLine, WordsFault};
pub use decode::bytes_within;
pub use device::{Input, is_address};
pub use numbers::number_within;
pub use serve::{ServeNumbers, ServeOptions, serve_asked};
