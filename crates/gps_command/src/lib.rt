//! The requests of a session: cut from its input as the pieces come, and read as commands. After
//! gpsd_json(5), whose requests begin with `?` and end with `;`; that a line feed outside a string ends a
//! request too, what is skipped between requests, and the limit of 1,024 bytes are this project's own.
#![tactic(auto)]

mod command;
mod cutter;
mod json_text;
mod laws;
mod request;
mod whole_input;

pub use command::{Command, ReadFault, command_of};
pub use cutter::{CommandCutter, RequestCut};
pub use laws::{policy_goes_on, requests_go_by_the_texts};
pub use request::RawCommand;
pub use whole_input::requests_of;
