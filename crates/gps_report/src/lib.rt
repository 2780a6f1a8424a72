//! The plain data that the layers of gpsrelay hand to each other: edges, packets, notes, fixes, skies,
//! reports, names and policies. Nothing here decides anything.
//!
//! Units: positions in nanodegrees, heights in millimetres, tracks in 1e-4 degree, speeds in millimetres
//! a second, dilutions in hundredths, times of day in nanoseconds. An absent quantity is `None`.
#![tactic(auto)]

mod edge;
mod fitting;
mod fix;
mod ids;
mod name;
mod names;
mod note;
mod packet;
mod policy;
mod report;
mod satellite;
mod sats;
mod systems;

pub use edge::{Edge, EdgeKind, Symbol};
pub use fitting::fits;
pub use fix::{Fix, Pair, Sky};
pub use ids::Ids;
pub use name::{Name, NameFault};
pub use names::Names;
pub use note::{Note, NoteKind, Position, Tag};
pub use packet::{Packet, PacketKind};
pub use policy::{CommandFault, Form, Policy};
pub use report::{Body, Report};
pub use satellite::Satellite;
pub use sats::Sats;
pub use systems::{BEIDOU, GALILEO, GLONASS, GPS};
