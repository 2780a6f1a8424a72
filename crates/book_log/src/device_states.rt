ghost use Rattle.std.specs.Prelude.{◌≡◌, ◌∷◌, ◌<◌, [], None, Some, IfOk, OnErr, false, true, get_or, length, replicate, ◌≤◌};
ghost use Rattle.std.specs.List.{list_all};
ghost use Rattle.gps_report.specs.declared.edge.Symbol.{Symbol as SymbolValue};
ghost use Rattle.device_core.specs.Stream.{piece};
ghost use Rattle.book_batch.specs.Sharing.{SharesLines, shares_of};
ghost use Rattle.book_log.specs.Standing.{DeviceStateView, StandsFor, has_stopped};
ghost use Rattle.book_log.specs.DeviceLogView.{running, stopped_of};
ghost use Rattle.book_log.specs.Steps.{ChangesAt, Ends, EndsAt, Loses, LosesAt, TakesSymbols, TakesAt};

use crate::device_stage::DeviceStage;
use crate::device_state::DeviceState;
use book_batch::Batch;
use gps_fixed::{NoMemory, Stamp};
use gps_report::{Edge, Names};
use std::alloc::Global;
use std::marker::Model;

/// What is kept of a log: a line for each device, and the stamp of the last byte of any.
#[derive(Drop)]
pub struct DeviceStates {
    list: Vec<DeviceState>,
    stamp: Option<Stamp>,
}

impl Model for DeviceStates {
    ghost use Rattle.book_log.specs.Standing.{DeviceStatesView};

    ghost Value = { DeviceStatesView };

    ghost view = { λ l. record { lines = l.list.items; stamp = l.stamp } };
}

impl DeviceStates {
    /// The given number of devices that were given nothing yet.
    #[tactic(auto, using(crate::proofs::NewLines::new_run, crate::proofs::NewLines::all_more))]
    pub fn new(alloc: Global, count: u8) -> Result<DeviceStates, NoMemory>
        ensures count { IfOk result (λ lines. length lines.lines ≡ count) }
        ensures stands { IfOk result (λ lines. StandsFor lines []) }
        ensures stopped { IfOk result (λ lines. stopped_of lines ≡ replicate count false) }
        ensures run { IfOk result (λ lines. running lines ≡ count) }
    {
        let mut list = Vec::with_capacity(alloc, usize::from(count))?;
        for _d in 0..count {
            list.push(DeviceState::new(alloc))?;
        }
        Ok(DeviceStates { list, stamp: None })
    }

    pub fn copy(&self, alloc: Global) -> Result<DeviceStates, NoMemory>
        ensures { IfOk result (λ lines. lines ≡ self.now) }
    {
        let list = copy_all(alloc, &self.list)?;
        Ok(DeviceStates {
            list,
            stamp: self.stamp,
        })
    }

    pub fn len(&self) -> usize
        ensures { result ≡ length self.now.lines }
    {
        self.list.len()
    }

    pub fn stamp(&self) -> Option<Stamp>
        ensures { result ≡ self.now.stamp }
    {
        self.stamp
    }

    /// The line of a device.
    pub fn line(&self, device: u8) -> &DeviceState
        requires { device < length self.now.lines }
        ensures { (free : DeviceStateView) → result.now ≡ get_or self.now.lines device free }
    {
        &self.list[device as usize]
    }

    /// Whether a device has ended or was lost, or does not exist.
    #[tactic(auto, using(crate::proofs::ReadLaws::stopped_in, crate::proofs::ReadLaws::stopped_past))]
    pub fn has_stopped(&self, device: u8) -> bool
        ensures { result ≡ get_or (stopped_of self.now) device true }
    {
        if (device as usize) < self.list.len() {
            has_stopped_line(&self.list[device as usize])
        } else {
            true
        }
    }

    pub fn all_stopped(&self) -> bool
        ensures { result ≡ list_all (λ line. has_stopped line.stage) self.now.lines }
    {
        self.list.iter().all(has_stopped_line)
    }

    /// Gives a device its next piece of bytes, which came at this stamp. A refusal changes nothing.
    pub fn feed(
        &mut self,
        alloc: Global,
        device: u8,
        at: Stamp,
        bytes: &[u8],
        names: &Names,
        shares: u32,
    ) -> Result<Batch, NoMemory>
        // The device is there, and has a name.
        requires device { device < length self.old.lines }
        requires named { device < length names.now }
        requires few { shares ≤ 64 }

        // What the device gains, and the lines of its reports.
        ensures takes { IfOk result (λ batch. TakesAt self.old self.new device (piece at bytes.now) (Some at) batch.reports) }
        ensures shares { IfOk result (λ batch. shares_of batch ≡ shares) }
        ensures lines { IfOk result (λ batch. SharesLines names.now batch) }

        // What a refusal leaves.
        ensures err { OnErr result (self.new ≡ self.old) }
    {
        let batch = feed_at(&mut self.list, alloc, device, at, bytes, names, shares)?;
        self.stamp = Some(at);
        Ok(batch)
    }

    /// Gives a device its next pulse edge. A refusal changes nothing.
    pub fn edge(
        &mut self,
        alloc: Global,
        device: u8,
        edge: &Edge,
        names: &Names,
        shares: u32,
    ) -> Result<Batch, NoMemory>
        // The device is there, and has a name.
        requires device { device < length self.old.lines }
        requires named { device < length names.now }
        requires few { shares ≤ 64 }

        // What the device gains, and the lines of its reports.
        ensures takes { IfOk result (λ batch. TakesAt self.old self.new device (SymbolValue.Edge edge.now ∷ []) None batch.reports) }
        ensures shares { IfOk result (λ batch. shares_of batch ≡ shares) }
        ensures lines { IfOk result (λ batch. SharesLines names.now batch) }

        // What a refusal leaves.
        ensures err { OnErr result (self.new ≡ self.old) }
    {
        edge_at(&mut self.list, alloc, device, edge, names, shares)
    }

    /// Ends a device. A refusal changes nothing.
    pub fn finish(
        &mut self,
        alloc: Global,
        device: u8,
        names: &Names,
        shares: u32,
    ) -> Result<Batch, NoMemory>
        // The device is there, and has a name.
        requires device { device < length self.old.lines }
        requires named { device < length names.now }
        requires few { shares ≤ 64 }

        // What the device gains, and the lines of its reports.
        ensures ends { IfOk result (λ batch. EndsAt self.old self.new device batch.reports) }
        ensures shares { IfOk result (λ batch. shares_of batch ≡ shares) }
        ensures lines { IfOk result (λ batch. SharesLines names.now batch) }

        // What a refusal leaves.
        ensures err { OnErr result (self.new ≡ self.old) }
    {
        finish_at(&mut self.list, alloc, device, names, shares)
    }

    /// A device is lost. Takes no memory.
    pub fn lose(&mut self, device: u8)
        requires { device < length self.old.lines }
        ensures { LosesAt self.old self.new device }
    {
        lose_at(&mut self.list, device);
    }
}

fn has_stopped_line(line: &DeviceState) -> bool
    ensures { result ≡ has_stopped line.now.stage }
{
    line.stage() != DeviceStage::Running
}

fn copy_all(alloc: Global, lines: &Vec<DeviceState>) -> Result<Vec<DeviceState>, NoMemory>
    ensures { IfOk result (λ copies. copies.items ≡ lines.now.items) }
{
    let mut copies = Vec::with_capacity(alloc, lines.len())?;
    for line in lines {
        copies.push(line.copy()?)?;
    }
    Ok(copies)
}

/// Feeds one device of the list. Like the three functions after it, it only forwards, for the prover: its contract says what changes at
/// one place of the list.
fn feed_at(
    lines: &mut Vec<DeviceState>,
    alloc: Global,
    device: u8,
    at: Stamp,
    bytes: &[u8],
    names: &Names,
    shares: u32,
) -> Result<Batch, NoMemory>
    // The device is there, and has a name.
    requires device { device < length lines.old.items }
    requires named { device < length names.now }
    requires few { shares ≤ 64 }

    // What the device gains, and the lines of its reports.
    ensures takes { IfOk result (λ batch. ChangesAt lines.old.items lines.new.items device
        (λ before after. TakesSymbols before after device (piece at bytes.now) (Some at) batch.reports)) }
    ensures shares { IfOk result (λ batch. shares_of batch ≡ shares) }
    ensures lines { IfOk result (λ batch. SharesLines names.now batch) }

    // What a refusal leaves.
    ensures err { OnErr result (lines.new.items ≡ lines.old.items) }
{
    lines[device as usize].feed(alloc, device, at, bytes, names, shares)
}

/// The same for an edge.
fn edge_at(
    lines: &mut Vec<DeviceState>,
    alloc: Global,
    device: u8,
    edge: &Edge,
    names: &Names,
    shares: u32,
) -> Result<Batch, NoMemory>
    // The device is there, and has a name.
    requires device { device < length lines.old.items }
    requires named { device < length names.now }
    requires few { shares ≤ 64 }

    // What the device gains, and the lines of its reports.
    ensures takes { IfOk result (λ batch. ChangesAt lines.old.items lines.new.items device
        (λ before after. TakesSymbols before after device (SymbolValue.Edge edge.now ∷ []) None batch.reports)) }
    ensures shares { IfOk result (λ batch. shares_of batch ≡ shares) }
    ensures lines { IfOk result (λ batch. SharesLines names.now batch) }

    // What a refusal leaves.
    ensures err { OnErr result (lines.new.items ≡ lines.old.items) }
{
    lines[device as usize].edge(alloc, device, edge, names, shares)
}

/// The same for a device's end.
fn finish_at(
    lines: &mut Vec<DeviceState>,
    alloc: Global,
    device: u8,
    names: &Names,
    shares: u32,
) -> Result<Batch, NoMemory>
    // The device is there, and has a name.
    requires device { device < length lines.old.items }
    requires named { device < length names.now }
    requires few { shares ≤ 64 }

    // What the device gains, and the lines of its reports.
    ensures ends { IfOk result (λ batch. ChangesAt lines.old.items lines.new.items device (λ before after. Ends before after device batch.reports)) }
    ensures shares { IfOk result (λ batch. shares_of batch ≡ shares) }
    ensures lines { IfOk result (λ batch. SharesLines names.now batch) }

    // What a refusal leaves.
    ensures err { OnErr result (lines.new.items ≡ lines.old.items) }
{
    lines[device as usize].finish(alloc, device, names, shares)
}

/// The same for its loss.
fn lose_at(lines: &mut Vec<DeviceState>, device: u8)
    requires { device < length lines.old.items }
    ensures { ChangesAt lines.old.items lines.new.items device Loses }
{
    lines[device as usize].lose();
}
