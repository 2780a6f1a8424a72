ghost use Rattle.std.specs.Prelude.{◌≡◌};
ghost use Rattle.line_cut.specs.Standing.{spelling};

use gps_fixed::Bytes;

/// A line with its LF.
#[derive(Drop)]
pub enum WholeLine<'p> {
    /// It is in the piece.
    InPiece(&'p [u8]),
    /// It began before the piece.
    Joined(Bytes),
}

impl<'p> WholeLine<'p> {
    pub fn as_slice(&self) -> &[u8]
        ensures { result.now ≡ spelling self.now }
    {
        match self {
            WholeLine::InPiece(bytes) => bytes,
            WholeLine::Joined(bytes) => bytes.as_slice(),
        }
    }
}

/// What a piece holds next.
#[derive(Drop)]
pub enum Next<'p> {
    /// A line, which ends with this number of bytes of the piece.
    Line(WholeLine<'p>, usize),
    /// This number of bytes of the piece belongs to a line that is too long. They end with its LF, or they are the whole
    /// piece and the line goes on. It is said for each piece that such a line goes through.
    TooLong(usize),
    /// The piece ends no line, and the open line is not too long.
    Used,
}

/// What the end of all bytes ends, if a last line may lack its end.
#[derive(Drop)]
pub enum Last<'k> {
    /// The bytes end with a line feed, or there are none.
    None,
    /// A line that lacks its end.
    Line(&'k [u8]),
    /// A line that lacks its end and is too long.
    TooLong,
}
