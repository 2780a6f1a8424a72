// What the readers of the devices begin with: a source, and a lane that takes what it gives.
ghost use Rattle.std.specs.Prelude.{◌≡◌, [], true};

use gps_lane::{Piece, Tx};

/// What the reader of a device's edges begins with. Nothing was put into its lane.
#[derive(Drop)]
pub(crate) struct EdgeStart<S, R> {
    pub(crate) source: S,
    pub(crate) lines: Tx<Piece, R>,
    pub(crate) ghost open: { lines.is_open ≡ true },
    pub(crate) ghost nothing: { lines.put ≡ [] },
}

/// What the readers of a device begin with. Nothing was put into its lane of bytes.
#[derive(Drop)]
pub(crate) struct DeviceStart<S, R> {
    pub(crate) source: S,
    pub(crate) bytes: Tx<Piece, R>,
    pub(crate) edges: Option<EdgeStart<S, R>>,
    pub(crate) ghost open: { bytes.is_open ≡ true },
    pub(crate) ghost nothing: { bytes.put ≡ [] },
}
