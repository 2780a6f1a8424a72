//! The program's descriptors: what proofs know of the bytes that the system gave and took.
//!
//! ```text
//! let mut wire = Inward::of_file(file);
//! let result = wire.read(&mut buf);       // one call of the system; wire.bytes grew by what it gave, by nothing else
//! ```
//!
//! Each object here keeps, in a list without bytes at run time, what each of its calls reported. Its descriptor is private, and no call gives it
//! out: nobody else can read or write it, or say something of its bytes. That the list is true of the system must be believed of five bodies:
//! `Inlet::read`, `Outlet::write`, `Outlet::skip`, `Listener::accept` and `Inward::reopen`. Sources: read(2), write(2), accept(2), tcp(7).
#![tactic(auto)]

mod acknowledged;
mod failure;
mod inward;
mod listener;
mod outward;
mod patience;

pub use inward::Inward;
pub use listener::Listener;
pub use outward::Outward;
