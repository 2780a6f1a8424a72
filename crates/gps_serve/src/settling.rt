ghost use Rattle.std.specs.Prelude.{◌≡◌, ◌≤◌, ◌<◌, ◌||◌, [], ◌∷◌, length, map, Some, true, false, get_or};
ghost use Rattle.std.specs.List.{AllZip, range_with_len};
ghost use Rattle.std.specs.Vec.{vec_len, vec_capacity};
ghost use Rattle.std.specs.Vec.Iter.{into_iter_items};
ghost use Rattle.book_sessions.specs.MemberView.{MemberView};
ghost use Rattle.book_units.specs.Units.{UnitView};
ghost use Rattle.serve_end.specs.Failing.{DeviceFailed, AnyOf, source_of};
ghost use Rattle.serve_end.specs.Lanes.{tx_of};
ghost use Rattle.serve_end.specs.Runs.{RunCause, EachRun, source_facts};
ghost use Rattle.gps_serve.specs.Facts.{sink_facts};
ghost use Rattle.gps_serve.specs.Served.{DeviceServed, MonitorServed, OutletServed, monitored};
ghost use Rattle.gps_serve.specs.Readies.{AllServed, AreReady, InputLeft, IsLeftOfLink, IsLeftOfWatch, MonitorReady, SessionReady};
ghost use Rattle.gps_serve.specs.Runs.{DeviceReady, IsLeftOf};
ghost use Rattle.gps_serve.specs.Statuses.{TellsNoFault};

use crate::status::either;
use gps_hub::{DeviceEnd, Inlets};
use gps_lane::{Piece, Rx, Tx};
use gps_outside::{ClientSink, Source};
use report_book::Book;
use serve_end::{
    DeviceDone, DeviceRun, MonitorDone, SessionDone, device_done, device_failed, monitor_done,
    session_done,
};
use serve_workers::{Dials, LinkDone, ReadingsDone};
use session_core::Item;
use std::sync::Wait;
use std::vec::IntoIter;

/// The next of those that are left.
fn next_of<T>(rest: &mut IntoIter<T>) -> T
    requires { 0 < length (into_iter_items rest.old) }
    ensures { into_iter_items rest.old ≡ result ∷ into_iter_items rest.new }
{
    match rest.next() {
        Some(next) => next,
        None => unreachable!(),
    }
}

/// What is left of a device, and whether a source of it failed.
#[derive(Drop)]
struct Left<S: Source, R> {
    device: DeviceDone<S, R>,
    failed: bool,
}

#[tactic(auto, using(crate::proofs::Devices::bytes_lane, crate::proofs::Devices::edges_lane, serve_end::proofs::Causes::failed_done))]
fn left_of<S: Source, D: Dials, R: Wait + Copy>(
    run: DeviceRun<S, R>,
    inlets: Inlets<R>,
    end: Option<DeviceEnd>,
) -> Left<S, R>
    // The readers worked on these lanes, and met only faults of the device's sources.
    requires ready { DeviceReady D.may (source_facts S.Source) inlets run }
    requires cause { RunCause S.faults run }

    // What is left of the device.
    ensures served { DeviceServed D.may (source_facts S.Source) inlets result.device }
    ensures end { result.device.end ≡ end }

    // It failed exactly if one of its sources did. If not, its lanes tell of no failure.
    ensures failed { result.failed ≡ true → DeviceFailed S.faults result.device }
    ensures missed { result.failed ≡ false → DeviceFailed S.faults result.device → ⊥ }
    ensures untold { result.failed ≡ false → TellsNoFault result.device }

    // Its sources and the sending ends of its lanes are those of its readers.
    ensures source { result.device.source ≡ Some run.bytes.source }
    ensures edges { result.device.edges ≡ source_of run.edges }
    ensures bytes_tx { result.device.bytes_tx ≡ run.bytes.pieces }
    ensures edges_tx { result.device.edges_tx ≡ tx_of run.edges }
{
    let failed = device_failed(&run);
    let Inlets { bytes, edges } = inlets;
    let device = device_done(run, bytes, edges, end);
    Left { device, failed }
}

/// What is left of the devices, in order, and whether a source of one of them failed.
#[derive(Drop)]
pub(crate) struct DevicesDone<S: Source, R> {
    pub(crate) devices: Vec<DeviceDone<S, R>>,
    pub(crate) failed: bool,
}

/// Puts together what is left of the devices.
pub(crate) fn devices_done<S: Source, D: Dials, R: Wait + Copy>(
    runs: Vec<DeviceRun<S, R>>,
    inlets: Vec<Inlets<R>>,
    ends: Vec<Option<DeviceEnd>>,
    room: Vec<DeviceDone<S, R>>,
) -> DevicesDone<S, R>
    // There is a run and an end for each device.
    requires ready { AllZip (DeviceReady D.may (source_facts S.Source)) inlets.items runs.items }
    requires causes { EachRun (RunCause S.faults) runs.items }
    requires ends { length ends.items ≡ length inlets.items }

    // The room is empty, and large enough.
    requires none { room.items ≡ [] }
    requires empty { vec_len room ≡ 0 }
    requires enough { vec_len runs ≤ vec_capacity room }

    // What is left of each device, in order.
    ensures served { AllZip (DeviceServed D.may (source_facts S.Source)) inlets.items result.devices.items }
    ensures ends { map (λ device. device.end) result.devices.items ≡ ends.items }

    // It failed exactly if a source of a device did. If not, no lane tells of a failure.
    ensures failed { result.failed ≡ true → AnyOf (DeviceFailed S.faults) result.devices.items }
    ensures missed { result.failed ≡ false → AnyOf (DeviceFailed S.faults) result.devices.items → ⊥ }
    ensures untold { result.failed ≡ false → EachRun TellsNoFault result.devices.items }

    // Each device has what its readers handed back.
    ensures left { AllZip IsLeftOf runs.items result.devices.items }
{
    let mut devices = room;
    let mut failed = false;
    let mut inlets = inlets.into_iter();
    let mut ends = ends.into_iter();
    'devices: for run in runs {
        let lanes = next_of(&mut inlets);
        let end = next_of(&mut ends);
        let left = left_of::<S, D, R>(run, lanes, end);
        failed = either(failed, left.failed);
        devices.push_reserved(left.device);
    }
    DevicesDone { devices, failed }
}

/// What is left of a session.
#[tactic(auto, using(crate::proofs::Sessions::outlet_name, crate::proofs::Sessions::outlet_served))]
fn settled<S: Source, K: ClientSink, R: Wait + Copy>(
    rt: &R,
    book: &mut Book<Tx<Item, R>>,
    number: u32,
    run: LinkDone<S, K, R>,
    input: Rx<Piece, R>,
) -> SessionDone<S, K, R>
    // The book has the session, whose threads did their work.
    requires there { number < length book.old.sessions }
    requires ready { (free : MemberView)
        → SessionReady (source_facts S.Source) (sink_facts K.ClientSink) (get_or book.old.sessions number free) input run }

    // The book stays as it is.
    ensures book { book.new ≡ book.old }
    ensures number { result.number ≡ number }

    // What is left of its link and its lanes.
    ensures link { IsLeftOfLink (source_facts S.Source) (sink_facts K.ClientSink) run result }
    ensures input { InputLeft (source_facts S.Source) input result }
    ensures outlet { (free : MemberView) → OutletServed (sink_facts K.ClientSink) (get_or book.old.sessions number free) result }
{
    session_done(rt, book, number, run, input)
}

/// Puts together what is left of the sessions, in order.
#[tactic(auto, using(crate::proofs::Sessions::sessions_begin, serve_workers::proofs::Zips::ran_begin))]
pub(crate) fn sessions_done<S: Source, K: ClientSink, R: Wait + Copy>(
    rt: &R,
    book: &mut Book<Tx<Item, R>>,
    runs: Vec<LinkDone<S, K, R>>,
    inputs: Vec<Rx<Piece, R>>,
    room: Vec<SessionDone<S, K, R>>,
) -> Vec<SessionDone<S, K, R>>
    requires ready { AreReady (source_facts S.Source) (sink_facts K.ClientSink) book.old.sessions inputs.items runs.items }

    // The room is empty, and large enough.
    requires none { room.items ≡ [] }
    requires empty { vec_len room ≡ 0 }
    requires enough { vec_len runs ≤ vec_capacity room }

    // The book stays, and each session has what its threads handed back.
    ensures book { book.new ≡ book.old }
    ensures served { AllServed (source_facts S.Source) (sink_facts K.ClientSink) book.old.sessions inputs.items result.items }
    ensures links { AllZip (IsLeftOfLink (source_facts S.Source) (sink_facts K.ClientSink)) runs.items result.items }
{
    let mut done = room;
    let mut runs = runs.into_iter();
    let mut inputs = inputs.into_iter();
    'sessions: for number in 0..book.opened() {
        let run = next_of(&mut runs);
        let input = next_of(&mut inputs);
        done.push_reserved(settled(rt, book, number, run, input));
    }
    done
}

/// What is left of a unit's monitor.
#[tactic(auto, using(crate::proofs::Monitors::segment_there))]
fn compared<R: Wait + Copy>(
    book: &mut Book<Tx<Item, R>>,
    unit: u8,
    watch: ReadingsDone,
    tries: u32,
    no_memory: bool,
) -> MonitorDone
    requires there { unit < length book.old.units }
    requires ready { (free : UnitView) → MonitorReady tries no_memory (get_or book.old.units unit free) watch }
    ensures book { book.new ≡ book.old }
    ensures unit { result.unit ≡ unit }
    ensures left { IsLeftOfWatch watch result }
    ensures served { (free : UnitView) → MonitorServed tries no_memory (get_or book.old.units unit free) result }
{
    monitor_done(book, unit, watch)
}

/// Puts together what is left of the monitors, in the order of their units.
pub(crate) fn monitors_done<R: Wait + Copy>(
    book: &mut Book<Tx<Item, R>>,
    watched: Vec<ReadingsDone>,
    tries: u32,
    no_memory: bool,
    room: Vec<MonitorDone>,
) -> Vec<MonitorDone>
    // Each monitor did its work.
    requires ready { AllZip (MonitorReady tries no_memory) (monitored tries book.old.units) watched.items }

    // The room is empty, and large enough. There are at most 16 units.
    requires none { room.items ≡ [] }
    requires empty { vec_len room ≡ 0 }
    requires enough { vec_len watched ≤ vec_capacity room }
    requires few { length book.old.units ≤ 16 }

    // The book stays, and there is one result for each unit that has a monitor.
    ensures book { book.new ≡ book.old }
    ensures numbers { map (λ monitor. monitor.unit) result.items ≡ range_with_len 0 (length result.items) }
    ensures served { AllZip (MonitorServed tries no_memory) (monitored tries book.old.units) result.items }
    ensures left { AllZip IsLeftOfWatch watched.items result.items }
{
    let mut done = room;
    let count = watched.len() as u8;
    let mut watched = watched.into_iter();
    'units: for unit in 0..count {
        let watch = next_of(&mut watched);
        done.push_reserved(compared(book, unit, watch, tries, no_memory));
    }
    done
}
