//! What each request of a session is answered, at one moment of the devices, and the policy after it. After
//! gpsd_json(5); that a WATCH is answered by a DEVICES line and a WATCH line together is this project's own.
#![tactic(auto)]

mod answering;
mod laws;
mod polling;
mod reply_data;

pub use answering::{Answer, answers, opening_reply};
pub use laws::{answers_go_on, policies_are_those_after, polls_alone_show_reports};
pub use polling::may_poll;
pub use reply_data::ReplyData;
