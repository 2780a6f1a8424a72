//! When a client that watches nothing is idle, from the bytes that were read from it and the times at which they came.
//! The limits, 60 s without a first request and 15 minutes without a further one, are this project's own.
//!
//! `IdleTimer::new` when its link came; after each read `take`, and then `is_over`. `wait` says how long the next read
//! may wait for bytes.
#![tactic(auto)]

mod idle_timer;

pub use idle_timer::IdleTimer;
