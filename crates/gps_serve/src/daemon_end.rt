ghost use Rattle.std.specs.Prelude.{◌≡◌, ◌⊎◌, IfErr, IfOk, IfSome};
ghost use Rattle.gps_serve.specs.AtEnd.{handed_back};
ghost use Rattle.gps_serve.specs.HandingBack.{EndHasCause, StoppedFor, back_by, book_by, out_of_memory_by, status_by};
ghost use Rattle.gps_serve.specs.Outcome.{OutcomeHasCause, status_of};

use crate::status::DaemonOutcome;
use gps_lane::Tx;
use gps_outside::{ClientSink, Source};
use gps_world::{Stop, World};
use report_book::Book;
use serve_end::{DeviceDone, MonitorDone, Served, SessionDone};
use session_core::Item;
use std::alloc::Global;
use std::sync::Wait;

/// What is left of a daemon that served, and how its work ended.
#[derive(Drop)]
pub(crate) struct DaemonEnd<S: Source, K: ClientSink, G, R: Wait + Copy> {
    pub(crate) outcome: DaemonOutcome,
    pub(crate) book: Book<Tx<Item, R>>,
    pub(crate) gate: G,
    pub(crate) devices: Vec<DeviceDone<S, R>>,
    pub(crate) sessions: Vec<SessionDone<S, K, R>>,
    pub(crate) monitors: Vec<MonitorDone>,
    /// How many links were dropped because too many sessions were there.
    pub(crate) full: u64,
}

/// Why a daemon served nothing, and its door if that was opened.
#[derive(Drop)]
pub(crate) struct Unserved<G> {
    pub(crate) stop: Stop,
    pub(crate) gate: Option<G>,
}

/// The status of a daemon that served nothing.
fn stopped_status(stop: Stop) -> u8
    ensures { result ≡ status_of stop }
{
    match stop {
        Stop::Input => 3,
        Stop::Listen => 8,
        Stop::NoMemory => 7,
    }
}

/// Whether it served nothing because it was out of memory.
fn stopped_out_of_memory(stop: Stop) -> bool
    ensures { result ≡ out_of_memory_by stop }
{
    match stop {
        Stop::Input | Stop::Listen => false,
        Stop::NoMemory => true,
    }
}

/// What is handed back: what is left of a daemon that served, or nothing but the world and the door.
pub(crate) fn hand_back<W: World, R: Wait + Copy>(
    alloc: Global,
    world: W,
    ended: Result<DaemonEnd<W::In, W::Out, W::Gate, R>, Unserved<W::Gate>>,
) -> Served<W, R>
    requires cause { IfOk ended (EndHasCause W.In.faults W.Gate.faults) }
    requires sound { IfErr ended (λ unserved. IfSome unserved.gate (λ gate. W.Gate.faults gate ≡ 0)) }

    // All that is left is handed back, and the world.
    ensures world { result.world ≡ world }
    ensures book { result.book ≡ book_by ended }
    ensures back { handed_back result ≡ back_by ended }

    // The status is that of the outcome, or of the stop, and has its cause.
    ensures status { result.status ≡ status_by ended }
    ensures range { (result.status ≡ 0) ⊎ (result.status ≡ 3) ⊎ (result.status ≡ 7) ⊎ (result.status ≡ 8) }
    ensures cause { OutcomeHasCause W.In.faults W.Gate.faults (StoppedFor Stop.Input ended) (StoppedFor Stop.Listen ended) result }
{
    match ended {
        Ok(end) => {
            let DaemonEnd {
                outcome,
                book,
                gate,
                devices,
                sessions,
                monitors,
                full,
            } = end;
            Served {
                status: outcome.status(),
                book: Some(book),
                devices,
                sessions,
                monitors,
                gate: Some(gate),
                world,
                full,
                no_memory: outcome.is_out_of_memory(),
            }
        }
        Err(unserved) => {
            let Unserved { stop, gate } = unserved;
            Served {
                status: stopped_status(stop),
                book: None,
                devices: Vec::new(alloc),
                sessions: Vec::new(alloc),
                monitors: Vec::new(alloc),
                gate,
                world,
                full: 0,
                no_memory: stopped_out_of_memory(stop),
            }
        }
    }
}
