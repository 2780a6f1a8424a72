ghost use Rattle.std.specs.Prelude.{◌≡◌, ◌∷◌, [], None, Some, IfOk, OnErr, cond, ◌≤◌, ◌<◌, length};
ghost use Rattle.std.specs.Option.{option_copied, option_or};
ghost use Rattle.gps_report.specs.declared.edge.Symbol.{Symbol as SymbolValue};
ghost use Rattle.device_core.specs.Stream.{piece};
ghost use Rattle.book_batch.specs.Sharing.{SharesLines, shares_of};
ghost use Rattle.book_log.specs.Standing.{has_stopped};
ghost use Rattle.book_log.specs.Steps.{Ends, IsNew, TakesSymbols, unless_known};

use crate::device_stage::DeviceStage;
use crate::gather::{Gathered, gather, gather_end};
use book_batch::Batch;
use device_core::Device;
use gps_fixed::{NoMemory, Stamp};
use gps_report::{Edge, Fix, Names, Sky};
use std::alloc::Global;
use std::marker::Model;

/// One device of a book, and what replies read of it. No draft of its device is open.
#[derive(Drop)]
pub struct DeviceState {
    device: Device,
    first: Option<Stamp>,
    stage: DeviceStage,
    fix: Option<Fix>,
    sky: Option<Sky>,
}

impl Model for DeviceState {
    ghost use Rattle.std.specs.Prelude.{◌≡◌, None};
    ghost use Rattle.book_log.specs.Standing.{DeviceStateView};

    ghost Value = { DeviceStateView };

    ghost view = { λ l. record { kept = l.device.now; first = l.first; stage = l.stage; fix = l.fix; sky = l.sky } };

    ghost invariant = { λ l. l.device.back ≡ None };
}

/// Replaces a fix and a sky by newer ones, if there are.
fn renew(
    fix: &mut Option<Fix>,
    sky: &mut Option<Sky>,
    newer_fix: Option<Fix>,
    newer_sky: Option<Sky>,
)
    ensures fix { fix.new ≡ option_or newer_fix fix.old }
    ensures sky { sky.new ≡ option_or newer_sky sky.old }
{
    renew_one(fix, newer_fix);
    renew_one(sky, newer_sky);
}

fn renew_one<T: Drop>(value: &mut Option<T>, newer: Option<T>)
    ensures { value.new ≡ option_or newer value.old }
{
    if let Some(newer) = newer {
        *value = Some(newer);
    }
}

/// The stamp of a device's first byte, if none was known.
fn first_if_none(first: Option<Stamp>, at: Stamp) -> Option<Stamp>
    ensures { result ≡ unless_known first (Some at) }
{
    match first {
        Some(_) => None,
        None => Some(at),
    }
}

fn first_or(first: Option<Stamp>, at: Stamp) -> Option<Stamp>
    ensures { result ≡ option_or first (Some at) }
{
    match first {
        Some(first) => Some(first),
        None => Some(at),
    }
}

fn copy_sky(sky: &Option<Sky>) -> Result<Option<Sky>, NoMemory>
    ensures { IfOk result (λ copy. copy ≡ sky.now) }
{
    match sky {
        Some(sky) => Ok(Some(sky.copy()?)),
        None => Ok(None),
    }
}

impl DeviceState {
    /// A device that was given nothing yet. Takes no memory.
    pub fn new(alloc: Global) -> DeviceState
        ensures { IsNew result }
    {
        DeviceState {
            device: Device::new(alloc),
            first: None,
            stage: DeviceStage::Running,
            fix: None,
            sky: None,
        }
    }

    pub fn copy(&self) -> Result<DeviceState, NoMemory>
        ensures { IfOk result (λ line. line ≡ self.now) }
    {
        let device = self.device.copy()?;
        let sky = copy_sky(&self.sky)?;
        Ok(DeviceState {
            device,
            first: self.first,
            stage: self.stage,
            fix: self.fix,
            sky,
        })
    }

    pub fn stage(&self) -> DeviceStage
        ensures { result ≡ self.now.stage }
    {
        self.stage
    }

    /// The stamp of the first byte, if the device has not stopped.
    pub fn active(&self) -> Option<Stamp>
        ensures { result ≡ cond (has_stopped self.now.stage) None self.now.first }
    {
        if self.stage == DeviceStage::Running {
            self.first
        } else {
            None
        }
    }

    pub fn fix(&self) -> Option<Fix>
        ensures { result ≡ self.now.fix }
    {
        self.fix
    }

    pub fn sky(&self) -> Option<&Sky>
        ensures { option_copied result ≡ self.now.sky }
    {
        self.sky.as_ref()
    }

    /// Gives the next piece of bytes, which came at this stamp: the reports that it adds. A refusal changes nothing.
    pub fn feed(
        &mut self,
        alloc: Global,
        device: u8,
        at: Stamp,
        bytes: &[u8],
        names: &Names,
        shares: u32,
    ) -> Result<Batch, NoMemory>
        requires named { device < length names.now }
        requires few { shares ≤ 64 }
        ensures takes { IfOk result (λ batch. TakesSymbols self.old self.new device (piece at bytes.now) (Some at) batch.reports) }
        ensures shares { IfOk result (λ batch. shares_of batch ≡ shares) }
        ensures lines { IfOk result (λ batch. SharesLines names.now batch) }
        ensures err { OnErr result (self.new ≡ self.old) }
    {
        let out = self.device.draft_feed(at, bytes)?;
        match gather(
            alloc,
            device,
            first_if_none(self.first, at),
            out,
            names,
            shares,
        ) {
            Ok(Gathered { batch, fix, sky }) => {
                self.device.commit();
                self.first = first_or(self.first, at);
                renew(&mut self.fix, &mut self.sky, fix, sky);
                Ok(batch)
            }
            Err(refused) => {
                self.device.undo();
                Err(refused)
            }
        }
    }

    /// Gives the next pulse edge: the reports that it adds. A refusal changes nothing.
    pub fn edge(
        &mut self,
        alloc: Global,
        device: u8,
        edge: &Edge,
        names: &Names,
        shares: u32,
    ) -> Result<Batch, NoMemory>
        requires named { device < length names.now }
        requires few { shares ≤ 64 }
        ensures takes { IfOk result (λ batch. TakesSymbols self.old self.new device (SymbolValue.Edge edge.now ∷ []) None batch.reports) }
        ensures shares { IfOk result (λ batch. shares_of batch ≡ shares) }
        ensures lines { IfOk result (λ batch. SharesLines names.now batch) }
        ensures err { OnErr result (self.new ≡ self.old) }
    {
        let out = self.device.draft_edge(*edge)?;
        match gather(alloc, device, None, out, names, shares) {
            Ok(Gathered { batch, fix, sky }) => {
                self.device.commit();
                renew(&mut self.fix, &mut self.sky, fix, sky);
                Ok(batch)
            }
            Err(refused) => {
                self.device.undo();
                Err(refused)
            }
        }
    }

    /// Ends the device: the fix and the sky of the epoch that is not closed, and that it has ended. A refusal changes nothing.
    pub fn finish(
        &mut self,
        alloc: Global,
        device: u8,
        names: &Names,
        shares: u32,
    ) -> Result<Batch, NoMemory>
        requires named { device < length names.now }
        requires few { shares ≤ 64 }
        ensures ends { IfOk result (λ batch. Ends self.old self.new device batch.reports) }
        ensures shares { IfOk result (λ batch. shares_of batch ≡ shares) }
        ensures lines { IfOk result (λ batch. SharesLines names.now batch) }
        ensures err { OnErr result (self.new ≡ self.old) }
    {
        let out = self.device.draft_finish()?;
        match gather_end(alloc, device, out, names, shares) {
            Ok(Gathered { batch, fix, sky }) => {
                self.device.commit();
                self.stage = DeviceStage::Ended;
                renew(&mut self.fix, &mut self.sky, fix, sky);
                Ok(batch)
            }
            Err(refused) => {
                self.device.undo();
                Err(refused)
            }
        }
    }

    /// The device is lost. Takes no memory.
    pub fn lose(&mut self)
        ensures { self.new ≡ record self.old { stage = DeviceStage.Lost } }
    {
        self.stage = DeviceStage::Lost;
    }
}
