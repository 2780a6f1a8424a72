use crate::DaemonFault;
use std::io;

/// Why a place gives nothing until it is opened again.
#[derive(Clone, Copy, Debug)]
pub enum Loss {
    /// What was there has ended.
    Ended,
    /// What was there failed, for this reason of the system if one is known.
    Failed(Option<io::Error>),
    /// It could not be opened, or no connection was made, for this reason.
    Unopened(Option<io::Error>),
    /// The daemon there failed.
    Daemon(DaemonFault),
}
