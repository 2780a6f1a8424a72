ghost use Rattle.std.specs.Prelude.{◌≡◌, ◌≤◌, ◌<◌, ◌∷◌, [], length, IfOk, true};
ghost use Rattle.std.specs.List.{AllZip};
ghost use Rattle.std.specs.Option.{option_to_list};
ghost use Rattle.std.specs.Vec.Iter.{into_iter_items};
ghost use Rattle.gps_world.specs.OpenInOrder.{AreUnread, sources_in};
ghost use Rattle.gps_lane.specs.Ends.{IsFreshLane};
ghost use Rattle.gps_lane.specs.Held.{of_source};
ghost use Rattle.serve_workers.specs.Sourced.{held_in};
ghost use Rattle.serve_end.specs.Runs.{source_facts};
ghost use Rattle.gps_serve.specs.Starts.{IsFreshDevice, IsFreshEdge, IsUnreadBy, edge_source_of, edges_at, sources_at};

use crate::starts::{DeviceStart, EdgeStart};
use gps_fixed::NoMemory;
use gps_hub::Inlets;
use gps_lane::{About, Piece, Rx, Tx, lane_about};
use gps_outside::Source;
use serve_door::PIECES;
use std::alloc::Global;
use std::marker::Brand;
use std::sync::Wait;
use std::vec::IntoIter;

/// A device's lanes: the ends that put, with their sources, and the ends that get.
#[derive(Drop)]
struct Laid<S: Source, R> {
    start: DeviceStart<S, R>,
    inlets: Inlets<R>,
}

/// The same of its edges, if it has a source of them.
#[derive(Drop)]
struct LaidEdges<S: Source, R> {
    start: Option<EdgeStart<S, R>>,
    inlet: Option<Rx<Piece, R>>,
}

/// The lanes of all devices.
#[derive(Drop)]
pub(crate) struct DeviceLanes<S: Source, R> {
    pub(crate) starts: Vec<DeviceStart<S, R>>,
    pub(crate) inlets: Vec<Inlets<R>>,
}

/// A lane about what the call picks, by this source.
fn lane_of<S: Source, R: Wait + Copy, E: About>(
    rt: R,
    alloc: Global,
    _source: &S,
) -> Result<(Tx<Piece, R>, Rx<Piece, R>), NoMemory>
    ensures fresh { IfOk result (λ ends. IsFreshLane E.about ends.0 ends.1) }
    ensures open { IfOk result (λ ends. ends.0.is_open ≡ true) }
{
    lane_about::<Piece, R, E>(rt, alloc, PIECES)
}

/// A lane about what this source holds, if its contents are modelled.
fn lane_for<S: Source, R: Wait + Copy>(
    rt: R,
    alloc: Global,
    source: &S,
) -> Result<(Tx<Piece, R>, Rx<Piece, R>), NoMemory>
    ensures fresh { IfOk result (λ ends. IsFreshLane (of_source (held_in (S.content source.now))) ends.0 ends.1) }
    ensures open { IfOk result (λ ends. ends.0.is_open ≡ true) }
{
    lane_of::<S, R, Brand>(rt, alloc, source)
}

fn lay_edges<S: Source, R: Wait + Copy>(
    rt: R,
    alloc: Global,
    source: Option<S>,
) -> Result<LaidEdges<S, R>, NoMemory>
    requires { AreUnread S.content S.faults S.quiets (option_to_list source) }
    ensures fresh { IfOk result (λ laid. IsFreshEdge (source_facts S.Source) laid.start laid.inlet) }
    ensures source { IfOk result (λ laid. edge_source_of laid.start ≡ source) }
{
    match source {
        Some(source) => match lane_for(rt, alloc, &source) {
            Ok((lines, inlet)) => Ok(LaidEdges {
                start: Some(EdgeStart { source, lines }),
                inlet: Some(inlet),
            }),
            Err(_) => Err(NoMemory),
        },
        None => Ok(LaidEdges {
            start: None,
            inlet: None,
        }),
    }
}

fn lay_device<S: Source, R: Wait + Copy>(
    rt: R,
    alloc: Global,
    source: S,
    edges: Option<S>,
) -> Result<Laid<S, R>, NoMemory>
    requires source { IsUnreadBy (source_facts S.Source) source }
    requires edges { AreUnread S.content S.faults S.quiets (option_to_list edges) }
    ensures fresh { IfOk result (λ laid. IsFreshDevice (source_facts S.Source) laid.start laid.inlets) }
    ensures source { IfOk result (λ laid. laid.start.source ≡ source) }
    ensures edges { IfOk result (λ laid. edge_source_of laid.start.edges ≡ edges) }
{
    let (bytes, bytes_rx) = lane_for(rt, alloc, &source)?;
    let LaidEdges { start, inlet } = lay_edges(rt, alloc, edges)?;
    Ok(Laid {
        start: DeviceStart {
            source,
            bytes,
            edges: start,
        },
        inlets: Inlets {
            bytes: bytes_rx,
            edges: inlet,
        },
    })
}

/// The next device's source of edges, if the device has one.
#[tactic(auto, using(crate::proofs::Starting::next_unread, crate::proofs::Starting::rest_unread))]
fn next_edge<S: Source>(edges: &mut IntoIter<Option<S>>) -> Option<S>
    requires unread { AreUnread S.content S.faults S.quiets (sources_in (into_iter_items edges.old)) }
    requires some { 0 < length (into_iter_items edges.old) }
    ensures items { into_iter_items edges.old ≡ result ∷ into_iter_items edges.new }
    ensures next { AreUnread S.content S.faults S.quiets (option_to_list result) }
    ensures rest { AreUnread S.content S.faults S.quiets (sources_in (into_iter_items edges.new)) }
{
    match edges.next() {
        Some(edge) => edge,
        None => unreachable!(),
    }
}

/// A lane for each device, and one for its edges if it has a source of them.
#[tactic(auto, using(serve_workers::proofs::Zips::zip_more))]
pub(crate) fn lay<S: Source, R: Wait + Copy>(
    rt: R,
    alloc: Global,
    inputs: Vec<S>,
    edges: Vec<Option<S>>,
) -> Result<DeviceLanes<S, R>, NoMemory>
    // Nothing was read from the sources.
    requires inputs { AreUnread S.content S.faults S.quiets inputs.items }
    requires edges { AreUnread S.content S.faults S.quiets (sources_in edges.items) }
    requires each { length edges.items ≡ length inputs.items }

    // The readers of each device begin with its sources and new lanes.
    ensures sources { IfOk result (λ lanes. sources_at lanes.starts.items ≡ inputs.items) }
    ensures edge_sources { IfOk result (λ lanes. edges_at lanes.starts.items ≡ edges.items) }
    ensures fresh { IfOk result (λ lanes. AllZip (IsFreshDevice (source_facts S.Source)) lanes.starts.items lanes.inlets.items) }
    ensures count { IfOk result (λ lanes. length lanes.inlets.items ≡ length inputs.items) }
{
    let count = inputs.len();
    let mut starts = Vec::with_capacity(alloc, count)?;
    let mut inlets = Vec::with_capacity(alloc, count)?;
    let mut edges = edges.into_iter();
    'devices: for source in inputs {
        let edge = next_edge(&mut edges);
        let laid = lay_device(rt, alloc, source, edge)?;
        starts.push_reserved(laid.start);
        inlets.push_reserved(laid.inlets);
    }
    Ok(DeviceLanes { starts, inlets })
}
