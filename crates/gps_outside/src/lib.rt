//! The outside of gpsrelay: sources and sinks of bytes, the clock, and the door through which clients come.
//!
//! A source, a sink, a clock and a door each have a form in memory, which follows a plan and has modelled contents, and an
//! adapter over std, whose contents are not modelled. Faults and quiets are counted, so that an answer can show its cause.
//!
//! A command that reads a source and writes a sink ends by a [`CommandOutcome`]: its exit status, and what must have happened outside for it.
#![tactic(auto)]

mod client_sink;
mod clock;
mod closer;
mod connecting;
mod door;
mod inlet;
mod intake;
mod kept_pipe;
mod link_sink;
mod listening;
mod memory_clock;
mod memory_door;
mod memory_sink;
mod memory_source;
mod outbox;
mod outcome;
mod plan;
mod probes;
mod quiet;
mod readable;
mod real_clock;
mod real_door;
mod real_sink;
mod real_source;
mod sink;
mod source;
mod waits;
mod whole;

pub use client_sink::{ClientSink, send_all};
pub use clock::Clock;
pub use closer::Closer;
pub use connecting::{ConnectFault, connect};
pub use door::{Door, DoorStep};
pub use inlet::Awaited;
pub use intake::{Intake, IntakeStep};
pub use link_sink::LinkSink;
pub use listening::Listening;
pub use memory_clock::MemoryClock;
pub use memory_door::MemoryDoor;
pub use memory_sink::MemorySink;
pub use memory_source::MemorySource;
pub use outbox::Outbox;
pub use outcome::CommandOutcome;
pub use plan::{AtEnd, DoorPlan, ReadPlan, WritePlan};
pub use real_clock::RealClock;
pub use real_door::RealDoor;
pub use real_sink::RealSink;
pub use real_source::RealSource;
pub use sink::{Sink, WriteStep, write_all};
pub use source::{ReadStep, Source};
pub use waits::Waits;
pub use whole::{ReadEnd, read_all};
