ghost use Rattle.std.specs.Prelude.{◌≡◌, [], true};
ghost use Rattle.gps_lane.specs.Carried.{device_part, input_part};
ghost use Rattle.gps_outside.specs.Told.{Goes};
ghost use Rattle.serve_workers.specs.Readings.{IsDevicePiece, IsInputPiece, WasRead};
ghost use Rattle.serve_workers.specs.Sourced.{FromSource, LinesFrom};
ghost use Rattle.serve_workers.specs.Stamping.{StampsPieces};
ghost use Rattle.serve_workers.specs.Reading.{Reads, ReadsLines, counts};

use crate::bells::ReaderBells;
use crate::edges::read_edges;
use crate::readers::{read_device, read_session};
use crate::shared_clock::{Dials, SharedClock};
use crate::spawner::{Hands, Spawner};
use crate::work::{Work, start};
use gps_lane::{Ending, Piece, Tx};
use gps_outside::{Clock, Source};
use stamp_shares::StampShare;
use std::snapshot::Snapshot;
use std::sync::{Mutex, Wait};
use std::thread::Promise;

/// What a reader hands back: its source, its end of the lane, how it told its lane that the source ended (none if it was told to end before
/// that), and whether the source failed.
#[derive(Drop)]
pub struct ReaderDone<S: Source, R> {
    pub source: S,
    pub pieces: Tx<Piece, R>,
    pub ending: Option<Ending>,
    /// Whether its source failed.
    pub failed: bool,
}

/// The same of a device's reader, and its share of the clock's stamps.
#[derive(Drop)]
pub struct DeviceReaderDone<S: Source, R, D: Dials> {
    pub reader: ReaderDone<S, R>,
    pub share: StampShare<D>,
}

/// A device reader promises that it put what it took from this source into this lane, with the stamps that were given to this share.
#[derive(Drop)]
pub struct DeviceReading<S: Source, R, D: Dials> {
    pub source: Snapshot<S>,
    pub pieces: Snapshot<Tx<Piece, R>>,
    pub share: Snapshot<StampShare<D>>,
}

impl<S: Source, R, D: Dials> Promise<DeviceReaderDone<S, R, D>> for DeviceReading<S, R, D> {
    ghost use Rattle.gps_lane.specs.Carried.{device_part};
    ghost use Rattle.serve_workers.specs.Readings.{IsDevicePiece};
    ghost use Rattle.serve_workers.specs.Stamping.{StampsPieces};
    ghost use Rattle.serve_workers.specs.Reading.{Reads, counts};

    ghost kept_by = { λ p r. Reads device_part (IsDevicePiece D.may) r.reader.failed r.reader.ending p.pieces.value r.reader.pieces
        (S.content p.source.value) (S.content r.reader.source)
        (counts (S.faults p.source.value) (S.quiets p.source.value)) (counts (S.faults r.reader.source) (S.quiets r.reader.source))
        × StampsPieces 1 p.share.value r.share p.pieces.value.put r.reader.pieces.put };
}

/// An edge reader promises that it put the lines that it took from this source into this lane.
#[derive(Drop)]
pub struct EdgeReading<S: Source, R> {
    pub source: Snapshot<S>,
    pub pieces: Snapshot<Tx<Piece, R>>,
}

impl<S: Source, R> Promise<ReaderDone<S, R>> for EdgeReading<S, R> {
    ghost use Rattle.serve_workers.specs.Reading.{ReadsLines, counts};

    ghost kept_by = { λ p r. ReadsLines r.failed r.ending p.pieces.value r.pieces
        (S.content p.source.value) (S.content r.source)
        (counts (S.faults p.source.value) (S.quiets p.source.value)) (counts (S.faults r.source) (S.quiets r.source)) };
}

/// Reads a device to its end, or not at all if it has no thread.
#[tactic(auto, using(gps_lane::proofs::Closing::more_put))]
pub fn device_reader<S: Source, C: Clock, D: Dials, R: Wait + Copy>(
    hands: &Hands<R>,
    source: S,
    clock: &Mutex<SharedClock<C, D>>,
    share: StampShare<D>,
    pieces: Tx<Piece, R>,
    bells: ReaderBells,
) -> DeviceReaderDone<S, R, D>
    requires open { pieces.is_open ≡ true }
    requires from { FromSource device_part (IsDevicePiece D.may) pieces.about.source pieces.put (S.content source) }
    ensures reads { Reads device_part (IsDevicePiece D.may) result.reader.failed result.reader.ending pieces result.reader.pieces
        (S.content source) (S.content result.reader.source)
        (counts (S.faults source) (S.quiets source)) (counts (S.faults result.reader.source) (S.quiets result.reader.source)) }
    ensures stamps { StampsPieces 1 share result.share pieces.put result.reader.pieces.put }
{
    let mut source = source;
    let mut pieces = pieces;
    let (end, share) = read_device(hands, &mut source, clock, share, &mut pieces, bells);
    let reader = ReaderDone {
        source,
        pieces,
        ending: end.told,
        failed: end.failed,
    };
    DeviceReaderDone { reader, share }
}

/// Reads a session's requests to their end. Its source is read at least once.
#[tactic(auto, using(gps_lane::proofs::Closing::more_put))]
pub fn session_reader<S: Source, R: Wait + Copy>(
    hands: &Hands<R>,
    source: S,
    pieces: Tx<Piece, R>,
    bells: ReaderBells,
) -> ReaderDone<S, R>
    requires open { pieces.is_open ≡ true }
    requires from { FromSource input_part IsInputPiece pieces.about.source pieces.put (S.content source) }
    ensures reads { Reads input_part IsInputPiece result.failed result.ending pieces result.pieces (S.content source) (S.content result.source)
        (counts (S.faults source) (S.quiets source)) (counts (S.faults result.source) (S.quiets result.source)) }
    ensures read { Goes (WasRead (S.faults result.source) (S.quiets result.source)) (S.content source) (S.content result.source) }
{
    let mut source = source;
    let mut pieces = pieces;
    let end = read_session(hands, &mut source, &mut pieces, bells);
    ReaderDone {
        source,
        pieces,
        ending: end.told,
        failed: end.failed,
    }
}

/// Starts the reader of a device.
pub fn start_device<
    's,
    E,
    S: Source + Send + 's,
    C: Clock + Send + 's,
    D: Dials + Send + Sync + 's,
    R: Wait + Copy + Send + Sync + 's,
>(
    spawner: &Spawner<'s, E, R>,
    source: S,
    clock: &'s Mutex<SharedClock<C, D>>,
    share: StampShare<D>,
    pieces: Tx<Piece, R>,
    bells: ReaderBells<'s>,
) -> Work<DeviceReaderDone<S, R, D>, DeviceReading<S, R, D>>
    requires open { pieces.is_open ≡ true }
    requires from { FromSource device_part (IsDevicePiece D.may) pieces.about.source pieces.put (S.content source) }
    ensures source { result.source.value ≡ source }
    ensures pieces { result.pieces.value ≡ pieces }
    ensures share { result.share.value ≡ share }
{
    let promise = DeviceReading {
        source: Snapshot::of(&source),
        pieces: Snapshot::of(&pieces),
        share: Snapshot::of(&share),
    };
    let hands = spawner.hands();
    start(
        spawner.scope,
        promise,
        move || device_reader(&hands, source, clock, share, pieces, bells),
        move || bells.alone.leave(),
    )
}

/// Reads the edges of a device to their end, or not at all if it has no thread.
#[tactic(auto, using(gps_lane::proofs::Closing::more_put))]
pub fn edge_reader<S: Source, R: Wait + Copy>(
    hands: &Hands<R>,
    source: S,
    pieces: Tx<Piece, R>,
    bells: ReaderBells,
) -> ReaderDone<S, R>
    requires open { pieces.is_open ≡ true }
    requires from { LinesFrom pieces.about.source pieces.put [] (S.content source) }
    ensures { ReadsLines result.failed result.ending pieces result.pieces (S.content source) (S.content result.source)
        (counts (S.faults source) (S.quiets source)) (counts (S.faults result.source) (S.quiets result.source)) }
{
    let mut source = source;
    let mut pieces = pieces;
    let end = read_edges(hands, &mut source, &mut pieces, bells);
    ReaderDone {
        source,
        pieces,
        ending: end.told,
        failed: end.failed,
    }
}

/// Starts the reader of a device's edges.
pub fn start_edges<'s, E, S: Source + Send + 's, R: Wait + Copy + Send + Sync + 's>(
    spawner: &Spawner<'s, E, R>,
    source: S,
    pieces: Tx<Piece, R>,
    bells: ReaderBells<'s>,
) -> Work<ReaderDone<S, R>, EdgeReading<S, R>>
    requires open { pieces.is_open ≡ true }
    requires from { LinesFrom pieces.about.source pieces.put [] (S.content source) }
    ensures source { result.source.value ≡ source }
    ensures pieces { result.pieces.value ≡ pieces }
{
    let promise = EdgeReading {
        source: Snapshot::of(&source),
        pieces: Snapshot::of(&pieces),
    };
    let hands = spawner.hands();
    start(
        spawner.scope,
        promise,
        move || edge_reader(&hands, source, pieces, bells),
        move || bells.alone.leave(),
    )
}
