//! Stamps that a clock gives one after another, each to one of several readers. The clock stands behind a lock, which forgets; the share
//! that a reader holds does not. At the end each share is shown to be what was given to it. This project's own.
//!
//! Nothing here has bytes but one word, which is only loaded: all else is for the proofs.
#![tactic(auto)]

mod giver;
mod naming;
mod plays;
mod roll;
mod rule;
mod share;
mod steps;
mod table;
mod view;

pub use giver::StampGiver;
pub use naming::ShareNaming;
pub use plays::Giving;
pub use roll::StampRoll;
pub use share::StampShare;
pub use table::StampTable;
pub use view::{Given, SeatView, ShareView};
