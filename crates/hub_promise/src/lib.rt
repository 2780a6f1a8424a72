//! The daemon's promise, `DaemonHub`: what always holds of the running daemon's hub, of its book, of what was received from its
//! lanes, and of what each session was given; and the lemmas on it. `gps_hub` keeps it. This project's own.
#![tactic(auto)]

mod ends;

pub use ends::DeviceEnd;
