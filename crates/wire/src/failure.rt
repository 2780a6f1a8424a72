ghost use Rattle.std.specs.Prelude.{◌≡◌};
ghost use Rattle.std.specs.IoError.{error_kind};
ghost use Rattle.wire.specs.Calls.{passes};

use std::io::{self, ErrorKind};

/// Whether a call that failed so may succeed when it is made again: it would have to wait, also for longer than its time-out, or was
/// interrupted by a signal. What the system itself calls a time-out (ETIMEDOUT) is the end of a connection.
pub(crate) fn may_pass(error: &io::Error) -> bool
    ensures { result ≡ passes (error_kind error.now) }
{
    match error.kind() {
        ErrorKind::WouldBlock | ErrorKind::Interrupted => true,
        _ => false,
    }
}
