ghost use Rattle.std.specs.Prelude.{◌≡◌, ◌↔◌, List, Option, Some, true};
ghost use Rattle.gps_fixed.specs.Moment.{Moment};
ghost use Rattle.serve_end.specs.Failing.{EdgeFailed, MetFault, RunFailed, SaysFailed, source_of};
ghost use Rattle.serve_end.specs.Lanes.{AreEnds, OneMoreOfEach, Settles, SettlesSome, lanes, tx_of};
ghost use Rattle.serve_end.specs.Runs.{Ran, ReaderStarts, RunCause, StartsEmpty, source_facts};

use crate::done::DeviceDone;
use crate::reader::{SettledReader, settle_reader};
use gps_lane::{Piece, Rx, Tx};
use gps_outside::Source;
use hub_promise::DeviceEnd;
use serve_workers::ReaderDone;
use std::sync::Wait;

/// What the readers of a device hand back.
#[derive(Drop)]
pub struct DeviceRun<S: Source, R: Wait + Copy> {
    pub bytes: ReaderDone<S, R>,
    pub edges: Option<ReaderDone<S, R>>,
}

fn edges_failed<S: Source, R>(edges: &Option<ReaderDone<S, R>>) -> bool
    ensures { (result ≡ true) ↔ EdgeFailed edges.now }
{
    match edges {
        Some(reader) => reader.failed,
        None => false,
    }
}

/// Whether a source of a device failed, as its readers saw it.
#[tactic(auto, using(crate::proofs::Causes::bytes_failed, crate::proofs::Causes::edges_failed, crate::proofs::Causes::said_met))]
pub fn device_failed<S: Source, R: Wait + Copy>(run: &DeviceRun<S, R>) -> bool
    requires { RunCause S.faults run.now }
    ensures met { (result ≡ true) ↔ MetFault run.now }
    ensures said { SaysFailed run.now → result ≡ true }
    ensures counted { result ≡ true → RunFailed S.faults run.now }
{
    if run.bytes.failed {
        true
    } else {
        edges_failed(&run.edges)
    }
}

/// What is left of a device's edges, if it has a source of them.
#[derive(Drop)]
struct EdgesDone<S: Source, R> {
    source: Option<S>,
    tx: Option<Tx<Piece, R>>,
    rx: Option<Rx<Piece, R>>,
}

fn edges_done<S: Source, R: Wait + Copy>(
    reader: Option<ReaderDone<S, R>>,
    rx: Option<Rx<Piece, R>>,
) -> EdgesDone<S, R>
    requires { AreEnds (tx_of reader) rx }
    ensures source { result.source ≡ source_of reader }
    ensures tx { result.tx ≡ tx_of reader }
    ensures rx { SettlesSome (tx_of reader) rx result.rx }
{
    match reader {
        Some(reader) => match rx {
            Some(rx) => {
                let SettledReader { source, tx, rx } = settle_reader(reader, rx);
                EdgesDone {
                    source: Some(source),
                    tx: Some(tx),
                    rx: Some(rx),
                }
            }
            None => unreachable!(),
        },
        None => EdgesDone {
            source: None,
            tx: None,
            rx,
        },
    }
}

/// Puts together what is left of a device, and settles its lanes: at most one more piece is received from each.
pub fn device_done<S: Source, R: Wait + Copy>(
    run: DeviceRun<S, R>,
    bytes: Rx<Piece, R>,
    edges: Option<Rx<Piece, R>>,
    end: Option<DeviceEnd>,
) -> DeviceDone<S, R>
    // Each receiving end is of the lane of its reader.
    requires bytes { bytes.lane ≡ run.bytes.pieces.lane }
    requires edges { AreEnds (tx_of run.edges) edges }

    // What the readers hand back is kept.
    ensures source { result.source ≡ Some run.bytes.source }
    ensures edges { result.edges ≡ source_of run.edges }
    ensures bytes_tx { result.bytes_tx ≡ run.bytes.pieces }
    ensures edges_tx { result.edges_tx ≡ tx_of run.edges }

    // Each lane is settled: at most one more piece is received, and none after the one that tells how its source ended.
    ensures bytes_rx { Settles run.bytes.pieces bytes result.bytes_rx }
    ensures edges_rx { SettlesSome (tx_of run.edges) edges result.edges_rx }
    ensures one_more { (may : Option (List Moment)) (start : ReaderStarts S) → Ran may (source_facts S.Source) start run → StartsEmpty start
        → OneMoreOfEach (lanes bytes edges) (lanes result.bytes_rx result.edges_rx) }

    // How the device ended is handed on.
    ensures end { result.end ≡ end }
{
    let DeviceRun {
        bytes: reader,
        edges: edge_reader,
    } = run;
    let SettledReader {
        source,
        tx: bytes_tx,
        rx: bytes_rx,
    } = settle_reader(reader, bytes);
    let EdgesDone {
        source: edges,
        tx: edges_tx,
        rx: edges_rx,
    } = edges_done(edge_reader, edges);
    DeviceDone {
        source: Some(source),
        edges,
        bytes_tx,
        bytes_rx,
        edges_tx,
        edges_rx,
        end,
    }
}
