ghost use Rattle.std.specs.Prelude.{◌≡◌, ◌≤◌, ◌++◌, ◌==◌, List, ℕ, [], IfOk, Err, drop, length, not};
ghost use Rattle.gps_client.specs.declared.line.Line.{Line};
ghost use Rattle.gps_client.specs.Texts.{IsLineOf};
ghost use Rattle.line_cut.specs.Lines.{open_line};
ghost use Rattle.class_counts.specs.Standing.{CountsOrStops, CountStands, CountSteps, UsesSome};

use crate::tally::Tally;
use gps_client::{Line, LineFault, read_line};
use gps_fixed::NoMemory;
use line_cut::{Limit, LineCutter, Next};
use std::alloc::Global;

/// How many bytes a line has at most, its CR LF among them.
const LONGEST_LINE: usize = 1_048_576;

/// The lines of the bytes so far, all of them good.
#[derive(Drop)]
pub(crate) struct Count {
    cutter: LineCutter,
    pub(crate) tally: Tally,
    /// How many lines there are; it stays at its greatest value.
    pub(crate) good: u64,
}

/// Why no further line is counted.
#[derive(Clone, Copy)]
pub(crate) enum Stop {
    /// The line after the good ones is not valid, or is too long.
    Bad,
    NoMemory,
}

/// What a line says.
fn read(alloc: Global, line: &[u8]) -> Result<Line, Stop>
    ensures ok { IfOk result (λ v. IsLineOf v line.now) }
    ensures bad { result ≡ Err Stop.Bad → (v : Line) → IsLineOf v line.now → ⊥ }
{
    match read_line(alloc, line) {
        Ok(line) => Ok(line),
        Err(LineFault::NotALine) => Err(Stop::Bad),
        Err(LineFault::NoMemory) => Err(Stop::NoMemory),
    }
}

/// What follows the first `n` bytes of a piece.
fn behind(piece: &[u8], used: usize) -> &[u8]
    requires { used ≤ length piece.now }
    ensures { result.now ≡ drop used piece.entry.now }
{
    &piece[used..]
}

impl Count {
    #[tactic(auto, using(crate::proofs::Readings::nothing_yet))]
    pub(crate) fn new(alloc: Global) -> Count
        ensures { CountStands result [] }
    {
        Count {
            cutter: LineCutter::new(alloc, Limit::Whole(LONGEST_LINE)),
            tally: Tally::new(),
            good: 0,
        }
    }

    /// Goes on to the end of the next line of a piece, after the given number of its bytes; or to the end of the piece.
    fn step(&mut self, alloc: Global, piece: &[u8]) -> Result<Option<usize>, Stop>
        ensures round { (bytes : List ℕ) → CountStands self.old bytes → CountSteps result self.new bytes piece.now }
        ensures some { UsesSome result piece.now }
    {
        match self.cutter.next(piece) {
            Ok(Next::Line(line, used)) => match read(alloc, line.as_slice()) {
                Ok(read) => {
                    self.tally.add(&read);
                    self.good = self.good.saturating_add(1);
                    Ok(Some(used))
                }
                Err(stop) => Err(stop),
            },
            Ok(Next::TooLong(_)) => Err(Stop::Bad),
            Ok(Next::Used) => Ok(None),
            Err(NoMemory) => Err(Stop::NoMemory),
        }
    }

    /// Counts the lines of one more piece.
    #[tactic(auto, using(crate::proofs::Feeding::begun, crate::proofs::Feeding::goes_on, crate::proofs::Feeding::at_end, crate::proofs::Feeding::stopped))]
    pub(crate) fn feed(&mut self, alloc: Global, piece: &[u8]) -> Result<(), Stop>
        ensures { (bytes : List ℕ) → CountStands self.old bytes → CountsOrStops result self.new (bytes ++ piece.now) }
    {
        let mut rest = piece;
        'cuts: loop {
            match self.step(alloc, rest) {
                Ok(Some(used)) => rest = behind(rest, used),
                Ok(None) => return Ok(()),
                Err(stop) => return Err(stop),
            }
        }
    }

    /// Whether the last line lacks its end.
    pub(crate) fn is_open(&self) -> bool
        ensures { (bytes : List ℕ) → CountStands self.now bytes → result ≡ not (length (open_line bytes) == 0) }
    {
        self.cutter.is_open()
    }
}
