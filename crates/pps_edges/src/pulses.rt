ghost use Rattle.std.specs.Prelude.{◌≡◌, ◌∷◌, ◌++◌, [], ◌≤ℤ◌, ◌<◌, ◌^◌, pos, List, IfSome};
ghost use Rattle.pps_edges.specs.Pulse.{StandsFor, is_assert, is_fresh, is_next, is_second_after, nanoseconds, paired, pps_of, pulse};
ghost use Rattle.gps_report.specs.declared.edge.Edge.{Edge as EdgeValue};

use gps_fixed::Stamp;
use gps_report::{Edge, EdgeKind, Pair};
use std::marker::Model;

/// What is kept of a device's pulse edges: the last assert edge.
#[derive(Clone, Copy, Debug, PartialEq, Eq)]
pub struct Pulses {
    last: Option<Edge>,
}

impl Model for Pulses {
    ghost use Rattle.std.specs.Prelude.{Option};
    ghost use Rattle.gps_report.specs.declared.edge.Edge.{Edge};

    ghost Value = { Option Edge };

    ghost view = { λ pulses. pulses.last };

    ghost inverse = { λ last. record { last = last } };
}

fn is_assert_edge(kind: EdgeKind) -> bool
    ensures { result ≡ is_assert kind }
{
    match kind {
        EdgeKind::Assert => true,
        EdgeKind::Clear => false,
    }
}

fn since_epoch(at: Stamp) -> u64
    ensures is { result ≡ nanoseconds at }
    ensures small { result < 10 ^ 19 }
{
    1_000_000_000 * at.sec.unsigned_abs() + u64::from(at.nsec)
}

fn comes_next(last: &Edge, edge: &Edge) -> bool
    ensures { result ≡ is_next last.now edge.now }
{
    last.seq.wrapping_add(1) == edge.seq
}

fn comes_a_second_after(last: &Edge, edge: &Edge) -> bool
    ensures { result ≡ is_second_after last.now edge.now }
{
    let before = since_epoch(last.at);
    let now = since_epoch(edge.at);
    before + 990_000_000 <= now && now <= before + 1_010_000_000
}

fn comes_freshly(toff: &Pair, edge: &Edge) -> bool
    ensures { result ≡ is_fresh toff.now edge.now }
{
    let host = since_epoch(toff.host);
    let now = since_epoch(edge.at);
    host < now && now < host + 1_000_000_000
}

fn pulse_of(toff: &Pair, edge: &Edge) -> Pair
    requires { toff.now.reference.sec ≤ℤ pos 9_999_999_998 }
    ensures { result ≡ pulse toff.now edge.now }
{
    Pair {
        reference: Stamp {
            sec: toff.reference.sec + 1,
            nsec: 0,
        },
        host: edge.at,
    }
}

#[tactic(auto, unfolding(crate::specs::Pulse::paired))]
fn pair_of(edge: &Edge, last: &Option<Edge>, toff: &Option<Pair>) -> Option<Pair>
    requires { IfSome toff.now (λ pair. pair.reference.sec ≤ℤ pos 9_999_999_998) }
    ensures { result ≡ paired edge.now last.now toff.now }
{
    match (last, toff) {
        (Some(last), Some(toff)) => {
            if comes_next(last, edge)
                && comes_a_second_after(last, edge)
                && comes_freshly(toff, edge)
            {
                Some(pulse_of(toff, edge))
            } else {
                None
            }
        }
        _ => None,
    }
}

impl Pulses {
    /// No edges yet.
    #[tactic(auto, unfolding(crate::specs::Pulse::last_assert))]
    pub fn new() -> Pulses
        ensures { StandsFor result [] }
    {
        Pulses { last: None }
    }

    /// Takes the next edge of a device, with the device's last serial time before it, and returns the pulse: the whole second that
    /// the edge marks, beside the host's stamp of the edge.
    ///
    /// There is a pulse exactly if the edge is an assert edge, the last assert edge before it has the sequence number before its
    /// own (modulo 2^32) and came 990,000,000 to 1,010,000,000 ns earlier, and the serial time came less than 1,000,000,000 ns and
    /// not 0 ns before it. The second is that of the serial time, plus one.
    #[tactic(auto, using(crate::proofs::Pasts::takes_assert, crate::proofs::Pasts::passes_clear), unfolding(crate::specs::Pulse::pps_of))]
    pub fn take(&mut self, edge: Edge, toff: Option<Pair>) -> Option<Pair>
        requires { IfSome toff (λ pair. pair.reference.sec ≤ℤ pos 9_999_999_998) }
        ensures gains { (past : List EdgeValue) → StandsFor self.old past → result ≡ pps_of past toff edge }
        ensures stands { (past : List EdgeValue) → StandsFor self.old past → StandsFor self.new (past ++ edge ∷ []) }
    {
        if is_assert_edge(edge.kind) {
            let pps = pair_of(&edge, &self.last, &toff);
            self.last = Some(edge);
            pps
        } else {
            None
        }
    }
}
