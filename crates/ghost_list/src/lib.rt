//! A list that exists in proofs alone: it has no bytes when the program runs.
//!
//! An object of the outside keeps one, and adds to it what each call of the system reported. Its contracts can then name that.
//!
//! ```text
//! let mut seen = GhostList::new();
//! seen.add_all(&buf[..n]);
//! ```
//!
//! A proof knows of it what its calls say, and nothing else: another crate can neither read nor make its items. Source: this project's own.
#![tactic(auto)]

mod chain;
mod ghost_list;

pub use chain::Chain;
pub use ghost_list::GhostList;
