ghost use Rattle.std.specs.Prelude.{◌≡◌, ◌≤◌, ◌++◌, [], IfSome, Some, true};
ghost use Rattle.gps_outside.specs.Counts.{Rose};
ghost use Rattle.gps_outside.specs.Told.{Goes};
ghost use Rattle.gps_lane.specs.declared.piece.Ending.{Ending};
ghost use Rattle.gps_lane.specs.Carried.{device_part, input_part, stamps_of};
ghost use Rattle.serve_workers.specs.declared.readers.ReaderStep.TheVariants.{Over};
ghost use Rattle.serve_workers.specs.Readings.{HandsOn, IsDevicePiece, IsInputPiece, Meets, ReaderSteps, StepHasCause, Took, WasRead, is_fault, last_piece, over};
ghost use Rattle.serve_workers.specs.Sourced.{FromSource, FromSourceOn};
ghost use Rattle.serve_workers.specs.Stamping.{StampsPieces, spare_in};

use crate::bells::ReaderBells;
use crate::maker::{Maker, Requests, Stamped};
use crate::pauses::pause;
use crate::puts::{put, put_ending};
use crate::spawner::Hands;
use crate::{Dials, SharedClock};
use gps_lane::{Ending, Piece, Tx};
use gps_outside::{Clock, ReadStep, Source};
use stamp_shares::StampShare;
use std::sync::{Mutex, Wait};

/// The bytes of one read.
pub(crate) const READ: usize = 512;

/// How much a reader reads.
#[derive(Clone, Copy, Debug, PartialEq, Eq)]
pub enum Span {
    /// All, to its source's end.
    Whole,
    /// Nothing: there is no thread for it, and no other thread may wait in a read. It tells that it was out of memory, unless its source fails.
    Nothing,
}

/// How a reader ended.
#[derive(Clone, Copy, Debug, PartialEq, Eq)]
pub struct ReaderEnd {
    /// How it told its lane that its source ended; none if it was told to end before that.
    pub told: Option<Ending>,
    /// Whether its source failed.
    pub failed: bool,
}

/// How one step of a reader went.
pub(crate) enum ReaderStep {
    On,
    /// The source ended, or the reader was out of memory.
    Over(Ending),
    /// It was told to end.
    Closed,
}

/// Reads once, and puts what came.
#[tactic(auto, using(crate::proofs::Stamping::one_stamped, crate::proofs::Stamping::late_stamped, crate::proofs::Stamping::dropped_stamp, crate::proofs::Stamping::none_stamped))]
fn read_once<M: Maker, S: Source, R: Wait + Copy>(
    hands: &Hands<R>,
    maker: &mut M,
    source: &mut S,
    pieces: &mut Tx<Piece, R>,
    bells: ReaderBells,
) -> ReaderStep
    // The lane is open, and has what its source gave so far.
    requires open { pieces.old.is_open ≡ true }
    requires from { FromSource M.part M.good pieces.old.about.source pieces.old.put (S.content source.old) }

    // What was put is what was read, with the stamps of the share.
    ensures rounds { ReaderSteps M.part M.good result pieces.old.put pieces.new.put (S.content source.old) (S.content source.new) }
    ensures stamps { StampsPieces (spare_in result) (M.share maker.old) (M.share maker.new) pieces.old.put pieces.new.put }
    ensures lane { pieces.new ≡ record pieces.old { put = pieces.new.put } }
    ensures from { FromSourceOn result M.part M.good pieces.new.about.source pieces.new.put (S.content source.new) }

    // The source was read, and its faults rose exactly if it failed.
    ensures read { Goes (WasRead (S.faults source.new) (S.quiets source.new)) (S.content source.old) (S.content source.new) }
    ensures faults_stay { S.faults source.old ≤ S.faults source.new }
    ensures quiets_stay { S.quiets source.old ≤ S.quiets source.new }
    ensures failed { StepHasCause result (S.faults source.old) (S.faults source.new) }
{
    let told = bells.own.is_closed();
    let mut buf = [0u8; READ];
    match source.read(&mut buf) {
        ReadStep::Got(n) => match maker.piece(&hands.rt, hands.alloc, &buf[..n]) {
            Ok(piece) => {
                if put(&hands.rt, pieces, piece, bells.own) {
                    bells.pump.ring();
                    ReaderStep::On
                } else {
                    ReaderStep::Closed
                }
            }
            Err(_) => ReaderStep::Over(Ending::NoMemory),
        },
        ReadStep::Quiet => {
            if told {
                ReaderStep::Closed
            } else {
                pause(&hands.rt, bells.own);
                ReaderStep::On
            }
        }
        ReadStep::End => ReaderStep::Over(Ending::End),
        ReadStep::Failed => ReaderStep::Over(Ending::Failed),
    }
}

/// Reads a source to its end, and puts what each read gave. None if it was told to end before that.
#[tactic(auto, using(crate::proofs::Stamping::none_stamped, crate::proofs::Stamping::stamped_on))]
fn read_on<M: Maker, S: Source, R: Wait + Copy>(
    hands: &Hands<R>,
    maker: &mut M,
    source: &mut S,
    pieces: &mut Tx<Piece, R>,
    bells: ReaderBells,
) -> Option<Ending>
    // The lane is open, and has what its source gave so far.
    requires open { pieces.old.is_open ≡ true }
    requires from { FromSource M.part M.good pieces.old.about.source pieces.old.put (S.content source.old) }

    // What was put is what was read, with the stamps of the share.
    ensures rounds { ReaderSteps M.part M.good (over result) pieces.old.put pieces.new.put (S.content source.old) (S.content source.new) }
    ensures stamps { StampsPieces 1 (M.share maker.old) (M.share maker.new) pieces.old.put pieces.new.put }
    ensures lane { pieces.new ≡ record pieces.old { put = pieces.new.put } }

    // The source was read, and its faults rose exactly if it failed.
    ensures read { Goes (WasRead (S.faults source.new) (S.quiets source.new)) (S.content source.old) (S.content source.new) }
    ensures faults_stay { S.faults source.old ≤ S.faults source.new }
    ensures quiets_stay { S.quiets source.old ≤ S.quiets source.new }
    ensures failed { StepHasCause (over result) (S.faults source.old) (S.faults source.new) }
{
    'reads: for _ in hands.rt.forever() {
        match read_once(hands, maker, source, pieces, bells) {
            ReaderStep::On => {}
            ReaderStep::Over(ending) => return Some(ending),
            ReaderStep::Closed => return None,
        }
    }
    unreachable!()
}

/// Reads a source to its end, puts what each read gave, and closes the source. None if it was told to end before that.
#[tactic(auto, using(crate::proofs::Stepping::steps_closed, crate::proofs::Stepping::was_read_closed))]
fn read_and_close<M: Maker, S: Source, R: Wait + Copy>(
    hands: &Hands<R>,
    maker: &mut M,
    source: &mut S,
    pieces: &mut Tx<Piece, R>,
    bells: ReaderBells,
) -> Option<Ending>
    // The lane is open, and has what its source gave so far.
    requires open { pieces.old.is_open ≡ true }
    requires from { FromSource M.part M.good pieces.old.about.source pieces.old.put (S.content source.old) }

    // What was put is what was read, with the stamps of the share.
    ensures rounds { ReaderSteps M.part M.good (over result) pieces.old.put pieces.new.put (S.content source.old) (S.content source.new) }
    ensures stamps { StampsPieces 1 (M.share maker.old) (M.share maker.new) pieces.old.put pieces.new.put }
    ensures lane { pieces.new ≡ record pieces.old { put = pieces.new.put } }

    // The source was read, and its faults rose exactly if it failed.
    ensures read { Goes (WasRead (S.faults source.new) (S.quiets source.new)) (S.content source.old) (S.content source.new) }
    ensures faults_stay { S.faults source.old ≤ S.faults source.new }
    ensures quiets_stay { S.quiets source.old ≤ S.quiets source.new }
    ensures failed { StepHasCause (over result) (S.faults source.old) (S.faults source.new) }
{
    let ending = read_on(hands, maker, source, pieces, bells);
    source.finish();
    ending
}

fn is_fault(met: Option<Ending>) -> bool
    ensures { result ≡ is_fault met }
{
    match met {
        Some(Ending::Failed) => true,
        Some(Ending::End | Ending::NoMemory) | None => false,
    }
}

/// Puts how a source ended, unless the reader was told to end before.
pub(crate) fn tell<R: Wait + Copy>(
    hands: &Hands<R>,
    pieces: &mut Tx<Piece, R>,
    met: Option<Ending>,
    bells: ReaderBells,
) -> ReaderEnd
    requires open { pieces.old.is_open ≡ true }
    ensures puts { pieces.new ≡ record pieces.old { put = pieces.old.put ++ last_piece result.told } }
    ensures told { IfSome result.told (λ last. met ≡ Some last) }
    ensures failed { result.failed ≡ is_fault met }
{
    let told = match met {
        Some(ending) => put_ending(&hands.rt, pieces, ending, bells.own, bells.pump),
        None => None,
    };
    ReaderEnd {
        told,
        failed: is_fault(met),
    }
}

/// Reads a source to its end, puts what each read gave, and after it how the source ended. However it ends, the source is closed.
fn read_all<M: Maker, S: Source, R: Wait + Copy>(
    hands: &Hands<R>,
    maker: &mut M,
    source: &mut S,
    pieces: &mut Tx<Piece, R>,
    bells: ReaderBells,
) -> ReaderEnd
    // The lane is open, and has what its source gave so far.
    requires open { pieces.old.is_open ≡ true }
    requires from { FromSource M.part M.good pieces.old.about.source pieces.old.put (S.content source.old) }

    // What was read was put, with the stamps of the share, and after it how the source ended.
    ensures hands { HandsOn M.part M.good result.told pieces.old.put pieces.new.put (S.content source.old) (S.content source.new) }
    ensures stamps { StampsPieces 1 (M.share maker.old) (M.share maker.new) pieces.old.put pieces.new.put }
    ensures lane { pieces.new ≡ record pieces.old { put = pieces.new.put } }

    // The source was read, and it failed exactly if its faults rose.
    ensures read { Goes (WasRead (S.faults source.new) (S.quiets source.new)) (S.content source.old) (S.content source.new) }
    ensures faults_stay { S.faults source.old ≤ S.faults source.new }
    ensures quiets_stay { S.quiets source.old ≤ S.quiets source.new }
    ensures meets { Meets result.failed result.told (S.faults source.old) (S.faults source.new) }
{
    let met = read_and_close(hands, maker, source, pieces, bells);
    tell(hands, pieces, met, bells)
}

/// Closes a source, and tells its lane that its reader was out of memory.
#[tactic(auto, using(crate::proofs::Stamping::same_stamps))]
fn refuse<M: Maker, S: Source, R: Wait + Copy>(
    hands: &Hands<R>,
    _maker: &M,
    source: &mut S,
    pieces: &mut Tx<Piece, R>,
    bells: ReaderBells,
) -> ReaderEnd
    requires open { pieces.old.is_open ≡ true }

    // Nothing was put but how the source ended.
    ensures hands { HandsOn M.part M.good result.told pieces.old.put pieces.new.put (S.content source.old) (S.content source.new) }
    ensures stamps { stamps_of pieces.new.put ≡ stamps_of pieces.old.put }
    ensures lane { pieces.new ≡ record pieces.old { put = pieces.new.put } }

    // The source was not read, and so did not fail.
    ensures faults { S.faults source.new ≡ S.faults source.old }
    ensures quiets { S.quiets source.new ≡ S.quiets source.old }
    ensures meets { Meets result.failed result.told (S.faults source.old) (S.faults source.new) }
{
    source.finish();
    tell(hands, pieces, Some(Ending::NoMemory), bells)
}

/// Closes a source, and then reads it once, so that the read does not wait. What it gives is dropped.
fn read_closed<S: Source>(source: &mut S) -> Ending
    ensures took { Took (Some result) [] (S.content source.old) (S.content source.new) }
    ensures read { Goes (WasRead (S.faults source.new) (S.quiets source.new)) (S.content source.old) (S.content source.new) }
    ensures faults_stay { S.faults source.old ≤ S.faults source.new }
    ensures quiets_stay { S.quiets source.old ≤ S.quiets source.new }
    ensures failed { StepHasCause (Over result) (S.faults source.old) (S.faults source.new) }
{
    source.finish();
    let mut buf = [0u8; READ];
    match source.read(&mut buf) {
        ReadStep::Failed => Ending::Failed,
        ReadStep::Got(_) => Ending::NoMemory,
        ReadStep::Quiet => Ending::NoMemory,
        ReadStep::End => Ending::NoMemory,
    }
}

/// Reads a device to its end. Each read that gives bytes makes a piece of them, with the stamp that the clock then gives for this reader's
/// share. The last piece tells how the source ended. There is none if the reader was told to end: its own bell was closed before a read that gave
/// nothing, or before a piece was put, which is then dropped.
///
/// A reader that reads nothing tells that it was out of memory, and does not wait.
///
/// It rings the pump after each piece, and sleeps on its own bell while its lane is full.
#[tactic(auto, using(crate::proofs::Stamping::unstamped))]
pub fn read_device<S: Source, C: Clock, D: Dials, R: Wait + Copy>(
    hands: &Hands<R>,
    source: &mut S,
    clock: &Mutex<SharedClock<C, D>>,
    share: StampShare<D>,
    pieces: &mut Tx<Piece, R>,
    bells: ReaderBells,
) -> (ReaderEnd, StampShare<D>)
    // The lane is open, and has what its source gave so far.
    requires open { pieces.old.is_open ≡ true }
    requires from { FromSource device_part (IsDevicePiece D.may) pieces.old.about.source pieces.old.put (S.content source.old) }

    // What was read was put, with the stamps of the share, and after it how the source ended.
    ensures hands { HandsOn device_part (IsDevicePiece D.may) result.0.told pieces.old.put pieces.new.put (S.content source.old) (S.content source.new) }
    ensures stamps { StampsPieces 1 share result.1 pieces.old.put pieces.new.put }
    ensures lane { pieces.new ≡ record pieces.old { put = pieces.new.put } }

    // The source's counts never fall. It failed exactly if its faults rose.
    ensures faults_stay { S.faults source.old ≤ S.faults source.new }
    ensures quiets_stay { S.quiets source.old ≤ S.quiets source.new }
    ensures meets { Meets result.0.failed result.0.told (S.faults source.old) (S.faults source.new) }
{
    let mut maker = Stamped { clock, share };
    if bells.alone.span() == Span::Nothing {
        let end = refuse(hands, &maker, source, pieces, bells);
        let Stamped { share, .. } = maker;
        return (end, share);
    }
    let end = read_all(hands, &mut maker, source, pieces, bells);
    let Stamped { share, .. } = maker;
    (end, share)
}

/// Reads the requests of a session to their end, as [`read_device`] reads a device. It makes at least one read; if it is to read nothing, it
/// closes the source before that.
pub fn read_session<S: Source, R: Wait + Copy>(
    hands: &Hands<R>,
    source: &mut S,
    pieces: &mut Tx<Piece, R>,
    bells: ReaderBells,
) -> ReaderEnd
    // The lane is open, and has what its source gave so far.
    requires open { pieces.old.is_open ≡ true }
    requires from { FromSource input_part IsInputPiece pieces.old.about.source pieces.old.put (S.content source.old) }

    // What was read was put, and after it how the source ended.
    ensures hands { HandsOn input_part IsInputPiece result.told pieces.old.put pieces.new.put (S.content source.old) (S.content source.new) }
    ensures lane { pieces.new ≡ record pieces.old { put = pieces.new.put } }

    // The source was read, and it failed exactly if its faults rose.
    ensures read { Goes (WasRead (S.faults source.new) (S.quiets source.new)) (S.content source.old) (S.content source.new) }
    ensures faults_stay { S.faults source.old ≤ S.faults source.new }
    ensures quiets_stay { S.quiets source.old ≤ S.quiets source.new }
    ensures meets { Meets result.failed result.told (S.faults source.old) (S.faults source.new) }
{
    if bells.alone.span() == Span::Nothing {
        let ending = read_closed(source);
        return tell(hands, pieces, Some(ending), bells);
    }
    read_all(hands, &mut Requests, source, pieces, bells)
}
