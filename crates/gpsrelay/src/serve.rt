ghost use Rattle.std.specs.Prelude.{◌≡◌, ◌≢◌, ◌⊎◌, ◌++◌, [], None, IfOk, IfSome, IsSome, length, map, string_bytes, true, false};
ghost use Rattle.std.specs.List.{All};
ghost use Rattle.gps_outside.specs.Counts.{Rose};
ghost use Rattle.gps_words.specs.Serve.{serve_asked_of, shown};
ghost use Rattle.gps_words.specs.Within.{IsWithin};
ghost use Rattle.gps_world.specs.Asking.{asked_nothing};
ghost use Rattle.gps_world.specs.OpenInOrder.{dial_of, places_in};
ghost use Rattle.serve_end.specs.Plans.{IsPlan};
ghost use Rattle.serve_workers.specs.Writing.{AllowsClients};
ghost use Rattle.serve_end.specs.Runs.{source_facts};
ghost use Rattle.gps_serve.specs.AtEnd.{AtEnd, handed_back, settings_in, start_in};
ghost use Rattle.gps_serve.specs.Facts.{gate_facts, world_facts};
ghost use Rattle.gps_serve.specs.Outcome.{OutcomeHasCause};
ghost use Rattle.gps_serve.specs.Served.{IsUnasked};
ghost use Rattle.gps_serve.specs.Whole.{IsWhole};
ghost use Rattle.gpsrelay.specs.Served.{AsksFor, AsksWhole, HaveEdges, HeldBehind, devices_asked, edge_place_of, fault_status, place_of, places_of, told_by};

use command_run::REFUSED;
use gps_fixed::{Bytes, NoMemory};
use gps_outside::CommandOutcome;
use gps_serve::{Plan, Served, serve};
use gps_words::{Input, ServeNumbers, ServeOptions, WordsFault, serve_asked};
use gps_world::{Place, World};
use std::alloc::Global;
use std::sync::Wait;
use std::thread::Threads;

fn place_of(input: Input) -> Place
    ensures { result ≡ place_of input }
{
    match input {
        Input::File(path) => Place::File(path),
        Input::Tcp(address) => Place::Tcp(address),
        Input::Gpsd(address) => Place::Gpsd(address),
    }
}

fn places_of(alloc: Global, inputs: Vec<Input>) -> Result<Vec<Place>, NoMemory>
    ensures { IfOk result (λ places. places.items ≡ map place_of inputs.items) }
{
    let mut places = Vec::with_capacity(alloc, inputs.len())?;
    'inputs: for input in inputs {
        places.push(place_of(input))?;
    }
    Ok(places)
}

fn edge_place_of(path: Option<Bytes>) -> Option<Place>
    ensures { result ≡ edge_place_of path }
{
    match path {
        Some(path) => Some(Place::File(path)),
        None => None,
    }
}

fn edge_places_of(alloc: Global, paths: Vec<Option<Bytes>>) -> Result<Vec<Option<Place>>, NoMemory>
    ensures { IfOk result (λ places. places.items ≡ map edge_place_of paths.items) }
{
    let mut places = Vec::with_capacity(alloc, paths.len())?;
    'paths: for path in paths {
        places.push(edge_place_of(path))?;
    }
    Ok(places)
}

/// The plan that the options ask for.
fn plan_of(alloc: Global, options: ServeOptions) -> Result<Plan, NoMemory>
    requires { IsWithin (shown options) }

    // The plan can be served, and says what the options say.
    ensures plan { IfOk result IsPlan }
    ensures told { IfOk result (λ plan. settings_in plan ≡ told_by (shown options)) }

    // Its places and its address, as the world is asked for them.
    ensures places { IfOk result (λ plan. plan.inputs.items ++ places_in plan.edges.items ≡ places_of (shown options)) }
    ensures inputs { IfOk result (λ plan. plan.inputs.items ≡ map place_of options.inputs.items) }
    ensures edges { IfOk result (λ plan. plan.edges.items ≡ map edge_place_of options.edges.items) }
    ensures listen { IfOk result (λ plan. plan.listen ≡ options.listen) }
{
    let ServeOptions {
        names,
        inputs,
        edges,
        listen,
        numbers,
        stop: _,
    } = options;
    let ServeNumbers {
        queue,
        requests,
        history,
        wait,
        monitor,
        reopen: _,
        cycle_gap: _,
        report: _,
    } = numbers;
    let inputs = places_of(alloc, inputs)?;
    let edges = edge_places_of(alloc, edges)?;
    Ok(Plan {
        names,
        inputs,
        edges,
        listen,
        queue,
        requests,
        limit: history,
        wait,
        tries: monitor,
    })
}

/// What is handed back if nothing was served.
fn nothing<W: World, R: Wait + Copy>(alloc: Global, world: W, fault: WordsFault) -> Served<W, R>
    ensures status { result.status ≡ fault_status fault }
    ensures book { result.book ≡ None }
    ensures gate { result.gate ≡ None }
    ensures world { result.world ≡ world }
    ensures cause { OutcomeHasCause W.In.faults W.Gate.faults ⊥ ⊥ result }
{
    let (status, no_memory) = match fault {
        WordsFault::Refused => (REFUSED, false),
        WordsFault::NoMemory => (CommandOutcome::NoMemory.status(), true),
    };
    Served {
        status,
        book: None,
        devices: Vec::new(alloc),
        sessions: Vec::new(alloc),
        monitors: Vec::new(alloc),
        gate: None,
        world,
        full: 0,
        no_memory,
    }
}

/// Serves what the words ask for, until all devices have ended. The words come without the program's name.
///
/// The status is
/// - 0: every device has ended;
/// - 2: the command line is invalid; the world was not asked;
/// - 3: a source failed or could not be opened;
/// - 8: the door failed or could not be opened;
/// - 7: out of memory.
///
/// If several hold, the first of 3, 8 and 7 is given.
#[tactic(auto, using(crate::proofs::Serving::asks_nothing, gps_serve::proofs::Outcome::unasked))]
pub fn serve_main<W: World, R: Threads + Wait + Copy + Send + Sync>(
    rt: R,
    alloc: Global,
    words: &[String],
    world: W,
) -> Served<W, R>
    requires asked { W.asked world ≡ asked_nothing }

    // A sink of a client allows each write that `MayWrite` admits: one that, with what was written before, begins what the client is due. It need not
    // allow any other. So each write that ever happens is such a write, also if this never returns.
    requires writes { IfSome (serve_asked_of (map string_bytes words.now))
        (λ s. AllowsClients W.Out.asks W.Out.written W.Out.allows (devices_asked (W.behind world) s)) }

    // The status, and what it is if the words are invalid: then nothing is asked of the world.
    ensures range { (result.status ≡ 0) ⊎ (result.status ≡ 2) ⊎ (result.status ≡ 3) ⊎ (result.status ≡ 7) ⊎ (result.status ≡ 8) }
    ensures refused { serve_asked_of (map string_bytes words.now) ≡ None → (result.status ≡ 2) ⊎ (result.status ≡ 7) }
    ensures only { result.status ≡ 2 → serve_asked_of (map string_bytes words.now) ≡ None }
    ensures untouched { serve_asked_of (map string_bytes words.now) ≡ None → (result.book ≡ None) × (result.world ≡ world) }

    // Why the status is so.
    ensures cause { OutcomeHasCause W.In.faults W.Gate.faults (Rose (W.input_faults world) (W.input_faults result.world))
        (Rose (W.listen_faults world) (W.listen_faults result.world)) result }
    ensures none { result.book ≡ None → (result.status ≡ 2) ⊎ ((result.status ≡ 3) × Rose (W.input_faults world) (W.input_faults result.world))
        ⊎ ((result.status ≡ 8) × Rose (W.listen_faults world) (W.listen_faults result.world)) ⊎ (result.status ≡ 7) }
    ensures listened { result.book ≡ None → (W.asked result.world).address ≢ None → (result.status ≡ 8) ⊎ IsSome result.gate }
    ensures unasked { result.book ≡ None → IfSome result.gate (IsUnasked (gate_facts W.Gate.Door) (W.links world)) }

    // What the world was asked for.
    ensures asked { AsksFor (serve_asked_of (map string_bytes words.now)) (W.asked result.world) }
    ensures all_asked { IsSome result.book → IfSome (serve_asked_of (map string_bytes words.now)) (AsksWhole (W.asked result.world)) }

    // What was taken from the sources of the devices.
    ensures edges { IsSome result.book → IfSome (serve_asked_of (map string_bytes words.now)) (HaveEdges result.devices.items) }
    ensures whole { IsSome result.book → All (IsWhole (dial_of (W.stamps world)) (source_facts W.In.Source)) result.devices.items }
    ensures held { IsSome result.book
        → IfSome (serve_asked_of (map string_bytes words.now)) (HeldBehind (W.behind world) (source_facts W.In.Source)
        result.devices.items) }

    // What is handed back fits together.
    ensures at_end { IfSome result.book (λ book. IfSome (serve_asked_of (map string_bytes words.now))
        (λ s. AtEnd (start_in W.World (told_by s) world) (world_facts W.In.Source W.Out.ClientSink W.Gate.Door) (handed_back result) book)) }
{
    match serve_asked(alloc, words) {
        Ok(options) => match plan_of(alloc, options) {
            Ok(plan) => serve(rt, alloc, plan, world),
            Err(NoMemory) => nothing(alloc, world, WordsFault::NoMemory),
        },
        Err(fault) => nothing(alloc, world, fault),
    }
}
