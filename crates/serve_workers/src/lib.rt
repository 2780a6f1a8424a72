//! The workers of the running daemon. This project's own.
//!
//! First the loops that its threads run: readers that put pieces into lanes, a writer that takes a session's items, and a monitor. Each is
//! a plain function over one end of a lane, a bell and one object of the outside. With nothing to do, each waits in a read or sleeps on its bell.
//!
//! Then the threads, and what the result of each promises: the readers of devices and edges, the two threads of a session, and monitors.
#![tactic(auto)]

mod bells;
mod edges;
mod maker;
mod monitor;
mod monitors;
mod pauses;
mod puts;
mod readers;
mod reading;
mod session;
mod shared_clock;
mod spawner;
mod work;
mod writer;

pub use bells::{Alone, Bells, DeviceBells, ReaderBells, SessionBells};
pub use edges::read_edges;
pub use monitor::run_monitor;
pub use monitors::{MonitorPromise, MonitorStart, ReadingsDone, monitor_starts, start_monitor};
pub use readers::{ReaderEnd, Span, read_device, read_session};
pub use reading::{
    DeviceReaderDone, DeviceReading, EdgeReading, ReaderDone, start_device, start_edges,
};
pub use session::{Attending, LinkDone, SessionLink, WriterDone, start_session};
pub use shared_clock::{Dials, SharedClock};
pub use spawner::{Hands, Spawner};
pub use work::{Work, start};
pub use writer::{WriterEnd, write_items};
