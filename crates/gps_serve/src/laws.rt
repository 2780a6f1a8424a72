//! The main sentence of [`serve`](crate::serve), as the contract of a function that does nothing.

ghost use Rattle.gps_serve.specs.Facts.{world_facts};
ghost use Rattle.gps_serve.specs.Logged.{EndedAreLogged};

use gps_outside::{ClientSink, Door, Source};

/// If a device has ended, its bytes in the log of the run are all bytes of its source, in order and each once.
///
/// The premises are the clauses `at_end` and `held` of [`serve`](crate::serve). So it holds of each device whose place is given once.
pub fn ended_devices_are_logged_whole<S: Source, K: ClientSink, G: Door<In = S, Out = K>, R>()
    ensures { EndedAreLogged R (world_facts S.Source K.ClientSink G.Door) }
{}
