//! Bytes cut into lines, in whatever pieces they come. A line is ended by a line feed, as in POSIX; a CR before
//! it belongs to the line end. How long a line may be is its user's own choice.
#![tactic(auto)]

mod cutter;
mod laws;
mod limit;
mod next;

pub use cutter::LineCutter;
pub use laws::{lines_are_the_split, lines_go_on, too_long_stays};
pub use limit::{Limit, text_of};
pub use next::{Last, Next, WholeLine};
