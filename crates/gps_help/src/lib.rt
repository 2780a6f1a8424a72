//! Why a command line is refused, in words for a person, and the help. [`question_in`] reads words that ask for help or for the
//! version, and [`refused`] gives a reason exactly if no command and no daemon is asked for. The reason is true: the cause that it gives is one of
//! the word that it names. This project's own.
#![tactic(auto)]

mod cause;
mod command_name;
mod device;
mod gpsd_option;
mod help;
mod near;
mod option_name;
mod place;
mod question;
mod refusal;
mod table;
mod told;
mod word;

pub use cause::{Cause, DeviceCause};
pub use command_name::CommandName;
pub use help::{COMMANDS, EXAMPLES, OTHERS, RELEASE, SERVE, USAGE};
pub use option_name::OptionName;
pub use question::{Question, question_in};
pub use refusal::{Refusal, refused};
pub use table::table_is_what_is_read;
pub use told::Told;
