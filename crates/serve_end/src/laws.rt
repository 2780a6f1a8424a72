//! The law of a reader's last piece, as the contract of a function that does nothing.

ghost use Rattle.serve_end.specs.Lanes.{DevicesTellLast, EdgesTellLast, SessionsTellLast};

/// A reader that began with an empty lane tells how its source ended, if at all, with its last piece.
pub fn readers_tell_last_how_their_sources_ended()
    ensures devices { DevicesTellLast }
    ensures sessions { SessionsTellLast }
    ensures edges { EdgesTellLast }
{}
