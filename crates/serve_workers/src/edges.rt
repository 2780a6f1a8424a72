ghost use Rattle.std.specs.Prelude.{◌≡◌, ◌≤◌, ℕ, List, [], ◌∷◌, ◌++◌, true};
ghost use Rattle.gps_lane.specs.Lane.{Begins};
ghost use Rattle.gps_lane.specs.declared.piece.Piece.TheVariants.{Line};
ghost use Rattle.gps_lane.specs.EdgeLines.{edge_limit};
ghost use Rattle.gps_lane.specs.Held.{AreDue};
ghost use Rattle.gps_lane.specs.Sizes.{IsShort};
ghost use Rattle.line_cut.specs.Standing.{StandsFor};
ghost use Rattle.serve_workers.specs.Readings.{Meets, StepHasCause, over};
ghost use Rattle.serve_workers.specs.Sourced.{CutterAtEnd, CutterBefore, CutterFrom, CutterFromOn, LinesFrom};
ghost use Rattle.serve_workers.specs.EdgeLines.{PutsLine, PutsLines, PutsLast, EdgeLineSteps, CutsLines, HandsLines};

use crate::bells::ReaderBells;
use crate::pauses::pause;
use crate::puts::put;
use crate::readers::{READ, ReaderEnd, ReaderStep, Span, tell};
use crate::spawner::Hands;
use gps_lane::{Ending, Piece, Tx};
use gps_outside::{ReadStep, Source};
use line_cut::{Last, Limit, LineCutter, Next, text_of};
use std::sync::Wait;

/// How many bytes a line may have without its line end.
const LONGEST: usize = 64;

/// What became of a line, or of lines.
enum Put {
    Done,
    NoMemory,
    /// The reader was told to end.
    Closed,
}

fn put_line<R: Wait + Copy>(
    hands: &Hands<R>,
    pieces: &mut Tx<Piece, R>,
    text: &[u8],
    bells: ReaderBells,
) -> Put
    requires open { pieces.old.is_open ≡ true }
    requires short { IsShort text.now }
    requires due { Begins AreDue pieces.old.about (pieces.old.put ++ Line text.now ∷ []) }
    ensures puts { PutsLine result text.now pieces.old.put pieces.new.put }
    ensures lane { pieces.new ≡ record pieces.old { put = pieces.new.put } }
{
    match Piece::line(hands.alloc, text) {
        Ok(piece) => {
            if put(&hands.rt, pieces, piece, bells.own) {
                bells.pump.ring();
                Put::Done
            } else {
                Put::Closed
            }
        }
        Err(_) => Put::NoMemory,
    }
}

/// Puts the lines that a piece of bytes completes. Those that are too long are skipped.
fn put_lines<R: Wait + Copy>(
    hands: &Hands<R>,
    pieces: &mut Tx<Piece, R>,
    cutter: &mut LineCutter,
    piece: &[u8],
    bells: ReaderBells,
) -> Put
    // The lane is open, and the cutter keeps what the bytes so far have left open.
    requires open { pieces.old.is_open ≡ true }
    requires limit { cutter.old.limit ≡ edge_limit }
    requires from { CutterBefore pieces.old.about.source pieces.old.put cutter.old piece.now }

    // The lines were put in order, and nothing else.
    ensures limit { cutter.new.limit ≡ cutter.old.limit }
    ensures puts { (bytes : List ℕ) → StandsFor cutter.old bytes → PutsLines result bytes piece.now cutter.new pieces.old.put pieces.new.put }
    ensures lane { pieces.new ≡ record pieces.old { put = pieces.new.put } }
{
    let mut rest = piece;
    'cuts: loop {
        match cutter.next(rest) {
            Ok(Next::Line(line, used)) => {
                match put_line(hands, pieces, text_of(line.as_slice()), bells) {
                    Put::Done => rest = &rest[used..],
                    Put::NoMemory => return Put::NoMemory,
                    Put::Closed => return Put::Closed,
                }
            }
            Ok(Next::TooLong(used)) => rest = &rest[used..],
            Ok(Next::Used) => return Put::Done,
            Err(_) => return Put::NoMemory,
        }
    }
}

/// Puts the last line, if it lacks its line end.
fn put_last<R: Wait + Copy>(
    hands: &Hands<R>,
    pieces: &mut Tx<Piece, R>,
    cutter: &LineCutter,
    bells: ReaderBells,
) -> Put
    requires open { pieces.old.is_open ≡ true }
    requires limit { cutter.now.limit ≡ edge_limit }
    requires from { CutterAtEnd pieces.old.about.source pieces.old.put cutter.now }
    ensures puts { (bytes : List ℕ) → StandsFor cutter.now bytes → PutsLast result bytes pieces.old.put pieces.new.put }
    ensures lane { pieces.new ≡ record pieces.old { put = pieces.new.put } }
{
    match cutter.last() {
        Last::Line(line) => put_line(hands, pieces, line, bells),
        Last::None => Put::Done,
        Last::TooLong => Put::Done,
    }
}

/// Reads once, and puts the lines that the bytes complete.
fn cut_once<S: Source, R: Wait + Copy>(
    hands: &Hands<R>,
    source: &mut S,
    pieces: &mut Tx<Piece, R>,
    cutter: &mut LineCutter,
    bells: ReaderBells,
) -> ReaderStep
    // The lane is open, and the cutter keeps what the bytes so far have left open.
    requires open { pieces.old.is_open ≡ true }
    requires limit { cutter.old.limit ≡ edge_limit }
    requires from { CutterFrom pieces.old.about.source pieces.old.put cutter.old (S.content source.old) }

    // The lines were put in order, and nothing else.
    ensures limit { cutter.new.limit ≡ cutter.old.limit }
    ensures rounds { (bytes : List ℕ) → StandsFor cutter.old bytes
        → EdgeLineSteps result bytes cutter.new pieces.old.put pieces.new.put (S.content source.old) (S.content source.new) }
    ensures lane { pieces.new ≡ record pieces.old { put = pieces.new.put } }
    ensures from { CutterFromOn result pieces.new.about.source pieces.new.put cutter.new (S.content source.new) }

    // The source's counts never fall. Its faults rise exactly if it failed.
    ensures faults_stay { S.faults source.old ≤ S.faults source.new }
    ensures quiets_stay { S.quiets source.old ≤ S.quiets source.new }
    ensures failed { StepHasCause result (S.faults source.old) (S.faults source.new) }
{
    let mut buf = [0u8; READ];
    match source.read(&mut buf) {
        ReadStep::Got(n) => match put_lines(hands, pieces, cutter, &buf[..n], bells) {
            Put::Done => ReaderStep::On,
            Put::NoMemory => ReaderStep::Over(Ending::NoMemory),
            Put::Closed => ReaderStep::Closed,
        },
        ReadStep::Quiet => {
            if pause(&hands.rt, bells.own) {
                ReaderStep::On
            } else {
                ReaderStep::Closed
            }
        }
        ReadStep::End => ReaderStep::Over(Ending::End),
        ReadStep::Failed => ReaderStep::Over(Ending::Failed),
    }
}

/// Reads a source to its end, and puts the lines that its bytes complete. None if it was told to end before that.
fn cut_on<S: Source, R: Wait + Copy>(
    hands: &Hands<R>,
    source: &mut S,
    pieces: &mut Tx<Piece, R>,
    cutter: &mut LineCutter,
    bells: ReaderBells,
) -> Option<Ending>
    // The lane is open, and the cutter keeps what the bytes so far have left open.
    requires open { pieces.old.is_open ≡ true }
    requires limit { cutter.old.limit ≡ edge_limit }
    requires stands { StandsFor cutter.old [] }
    requires from { LinesFrom pieces.old.about.source pieces.old.put [] (S.content source.old) }

    // The lines were put in order, and nothing else.
    ensures limit { cutter.new.limit ≡ edge_limit }
    ensures rounds { EdgeLineSteps (over result) [] cutter.new pieces.old.put pieces.new.put (S.content source.old) (S.content source.new) }
    ensures lane { pieces.new ≡ record pieces.old { put = pieces.new.put } }
    ensures from { CutterFromOn (over result) pieces.new.about.source pieces.new.put cutter.new (S.content source.new) }

    // The source's counts never fall. Its faults rise exactly if it failed.
    ensures faults_stay { S.faults source.old ≤ S.faults source.new }
    ensures quiets_stay { S.quiets source.old ≤ S.quiets source.new }
    ensures failed { StepHasCause (over result) (S.faults source.old) (S.faults source.new) }
{
    'reads: for _ in hands.rt.forever() {
        match cut_once(hands, source, pieces, cutter, bells) {
            ReaderStep::On => {}
            ReaderStep::Over(ending) => return Some(ending),
            ReaderStep::Closed => return None,
        }
    }
    unreachable!()
}

/// Reads a source to its end, and puts its lines, also a last one that lacks its line end.
fn cut_all<S: Source, R: Wait + Copy>(
    hands: &Hands<R>,
    source: &mut S,
    pieces: &mut Tx<Piece, R>,
    bells: ReaderBells,
) -> Option<Ending>
    requires open { pieces.old.is_open ≡ true }
    requires from { LinesFrom pieces.old.about.source pieces.old.put [] (S.content source.old) }

    // The lines were put, and nothing else.
    ensures cuts { CutsLines result pieces.old.put pieces.new.put (S.content source.old) (S.content source.new) }
    ensures lane { pieces.new ≡ record pieces.old { put = pieces.new.put } }

    // The source's counts never fall. Its faults rise exactly if it failed.
    ensures faults_stay { S.faults source.old ≤ S.faults source.new }
    ensures quiets_stay { S.quiets source.old ≤ S.quiets source.new }
    ensures failed { StepHasCause (over result) (S.faults source.old) (S.faults source.new) }
{
    let mut cutter = LineCutter::new(hands.alloc, Limit::Text(LONGEST));
    match cut_on(hands, source, pieces, &mut cutter, bells) {
        Some(Ending::End) => match put_last(hands, pieces, &cutter, bells) {
            Put::Done => Some(Ending::End),
            Put::NoMemory => Some(Ending::NoMemory),
            Put::Closed => None,
        },
        Some(Ending::Failed) => Some(Ending::Failed),
        Some(Ending::NoMemory) => Some(Ending::NoMemory),
        None => None,
    }
}

/// Reads a source to its end, unless it is to read nothing, puts its lines, and after them how the source ended.
fn put_edges<S: Source, R: Wait + Copy>(
    hands: &Hands<R>,
    source: &mut S,
    pieces: &mut Tx<Piece, R>,
    bells: ReaderBells,
) -> ReaderEnd
    requires open { pieces.old.is_open ≡ true }
    requires from { LinesFrom pieces.old.about.source pieces.old.put [] (S.content source.old) }

    // The lines were put, and after them how the source ended.
    ensures hands { HandsLines result.told pieces.old.put pieces.new.put (S.content source.old) (S.content source.new) }
    ensures lane { pieces.new ≡ record pieces.old { put = pieces.new.put } }

    // The source's counts never fall. It failed exactly if its faults rose.
    ensures faults_stay { S.faults source.old ≤ S.faults source.new }
    ensures quiets_stay { S.quiets source.old ≤ S.quiets source.new }
    ensures meets { Meets result.failed result.told (S.faults source.old) (S.faults source.new) }
{
    if bells.alone.span() == Span::Nothing {
        return tell(hands, pieces, Some(Ending::NoMemory), bells);
    }
    let met = cut_all(hands, source, pieces, bells);
    tell(hands, pieces, met, bells)
}

/// Reads the lines of an edges file to its end, and puts each that has at most 64 bytes without its line end, LF or CR
/// LF; the last may lack it. The last piece tells how the source ended, unless the reader was told to end before that was put, as
/// [`read_device`](crate::read_device). However it ends, the source is closed.
#[tactic(auto, using(crate::proofs::LineStepping::lines_closed))]
pub fn read_edges<S: Source, R: Wait + Copy>(
    hands: &Hands<R>,
    source: &mut S,
    pieces: &mut Tx<Piece, R>,
    bells: ReaderBells,
) -> ReaderEnd
    requires open { pieces.old.is_open ≡ true }
    requires from { LinesFrom pieces.old.about.source pieces.old.put [] (S.content source.old) }

    // The lines were put, and after them how the source ended.
    ensures hands { HandsLines result.told pieces.old.put pieces.new.put (S.content source.old) (S.content source.new) }
    ensures lane { pieces.new ≡ record pieces.old { put = pieces.new.put } }

    // The source's counts never fall. It failed exactly if its faults rose.
    ensures faults_stay { S.faults source.old ≤ S.faults source.new }
    ensures quiets_stay { S.quiets source.old ≤ S.quiets source.new }
    ensures meets { Meets result.failed result.told (S.faults source.old) (S.faults source.new) }
{
    let end = put_edges(hands, source, pieces, bells);
    source.finish();
    end
}
