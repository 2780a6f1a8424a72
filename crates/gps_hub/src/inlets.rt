ghost use Rattle.std.specs.Prelude.{◌≡◌, IfOk, map};
ghost use Rattle.hub_promise.specs.Keeping.{LaneIsRead, fresh_lasts, no_end};
ghost use Rattle.gps_hub.specs.Pumping.{MatchNext};

use gps_fixed::NoMemory;
use gps_lane::{Ending, Piece, Rx};
use hub_promise::DeviceEnd;
use std::alloc::Global;
use std::marker::Model;
use std::sync::Wait;

/// The receiving ends of a device's lane and of its edge lane, if it has one.
#[derive(Drop)]
pub struct Inlets<R> {
    pub bytes: Rx<Piece, R>,
    pub edges: Option<Rx<Piece, R>>,
}

impl<R> Model for Inlets<R> {
    ghost use Rattle.hub_promise.specs.Parts.{InletsView};

    ghost Value = { InletsView };

    ghost view = { λ x. record { bytes = x.bytes; edges = x.edges } };
}

/// How the sources of a device's lanes ended, if the lanes have told, and which lane is looked at first.
#[derive(Drop)]
pub(crate) struct Lasts {
    pub(crate) bytes: Option<Ending>,
    pub(crate) edges: Option<Ending>,
    edges_first: bool,
}

impl Model for Lasts {
    ghost use Rattle.hub_promise.specs.Keeping.{Lasts};

    ghost Value = { Lasts };

    ghost view = { λ l. record { bytes = l.bytes; edges = l.edges } };
}

/// A piece that was received from one of a device's lanes.
#[derive(Drop)]
pub(crate) enum Next {
    Nothing,
    Bytes(Piece),
    Edges(Piece),
}

impl Lasts {
    fn new<R>(inlets: &Inlets<R>) -> Lasts
        ensures { result ≡ fresh_lasts inlets.now }
    {
        let edges = match &inlets.edges {
            Some(_) => None,
            None => Some(Ending::End),
        };
        Lasts {
            bytes: None,
            edges,
            edges_first: false,
        }
    }
}

/// How the sources of these lanes ended, before anything is received from them.
pub(crate) fn lasts_of<R>(alloc: Global, inlets: &Vec<Inlets<R>>) -> Result<Vec<Lasts>, NoMemory>
    ensures { IfOk result (λ lasts. lasts.items ≡ map fresh_lasts inlets.now.items) }
{
    let mut lasts = Vec::with_capacity(alloc, inlets.len())?;
    'devices: for inlet in inlets.iter() {
        lasts.push(Lasts::new(inlet))?;
    }
    Ok(lasts)
}

/// None of these devices has stopped.
pub(crate) fn no_ends<R>(
    alloc: Global,
    inlets: &Vec<Inlets<R>>,
) -> Result<Vec<Option<DeviceEnd>>, NoMemory>
    ensures { IfOk result (λ ends. ends.items ≡ map no_end inlets.now.items) }
{
    let mut ends = Vec::with_capacity(alloc, inlets.len())?;
    'devices: for _inlet in inlets.iter() {
        ends.push(None)?;
    }
    Ok(ends)
}

impl<R: Wait + Copy> Inlets<R> {
    /// What was received from the lanes is a prefix of what their sources hold.
    #[tactic(auto, using(gps_lane::proofs::Held::begun_held))]
    pub(crate) fn show_read(&self)
        ensures { LaneIsRead self.now }
    {
        self.bytes.show_due();
        if let Some(edges) = &self.edges {
            edges.show_due();
        }
    }

    fn next_bytes(&mut self, lasts: &Lasts) -> Next
        ensures { MatchNext result self.old self.new }
    {
        if lasts.bytes.is_some() {
            return Next::Nothing;
        }
        match self.bytes.pop() {
            Some(piece) => Next::Bytes(piece),
            None => Next::Nothing,
        }
    }

    fn next_edge(&mut self, lasts: &Lasts) -> Next
        ensures { MatchNext result self.old self.new }
    {
        if lasts.edges.is_some() {
            return Next::Nothing;
        }
        match &mut self.edges {
            Some(edges) => match edges.pop() {
                Some(piece) => Next::Edges(piece),
                None => Next::Nothing,
            },
            None => Next::Nothing,
        }
    }

    /// The next piece of a lane that has not told how its source ended; none, if each of these holds none. The lanes take turns at
    /// being looked at first.
    pub(crate) fn next(&mut self, lasts: &mut Lasts) -> Next
        ensures next { MatchNext result self.old self.new }
        ensures lasts { lasts.new ≡ lasts.old }
    {
        lasts.edges_first = !lasts.edges_first;
        if lasts.edges_first {
            match self.next_edge(lasts) {
                Next::Nothing => self.next_bytes(lasts),
                next => next,
            }
        } else {
            match self.next_bytes(lasts) {
                Next::Nothing => self.next_edge(lasts),
                next => next,
            }
        }
    }
}
