//! One device: its reports from its bytes and its pulse edges, in one order.
#![tactic(auto)]

mod device;
mod draft;
mod laws;
mod packets;

pub use device::Device;
pub use laws::{later_reports_are_decided, reports_are_a_beginning, reports_go_on};
