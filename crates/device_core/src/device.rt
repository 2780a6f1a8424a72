ghost use Rattle.std.specs.Prelude.{◌≡◌, ◌∷◌, ◌++◌, [], Some, None, true, List, IfOk, OnOk, OnErr, option_map, option_to_list, length, ◌+◌, ◌≤◌};
ghost use Rattle.gps_report.specs.declared.edge.Symbol.{Symbol as SymbolValue};
ghost use Rattle.packet_cut.specs.Packets.{most_pending};
ghost use Rattle.device_core.specs.Stream.{piece};
ghost use Rattle.device_core.specs.Reports.{Gains, GainsWithoutPackets, device_close};
ghost use Rattle.device_core.specs.Standing.{StandsFor, with_nothing_running};
ghost use Rattle.device_core.specs.Drafts.{FitsBytes, FitsDraft, back_or, bytes_now, changed, edge_now, toff_now};

use crate::draft::Draft;
use crate::packets::{take_all_placed, take_packets};
use epoch_core::Epochs;
use gps_fixed::{NoMemory, Stamp};
use gps_report::{Body, Edge, Pair, Symbol};
use packet_cut::{Cutter, CutterChange, PacketCut, PlacedCut};
use pps_edges::Pulses;
use std::alloc::Global;
use std::marker::Model;
use std::mem;

/// One device: what is kept of its bytes and edges.
///
/// It keeps the bytes that are pending, the running epoch, the last assert edge and the last serial time. A call may be made as a draft,
/// which changes the device and can be undone without memory until it is committed; each further call commits an open draft first.
#[derive(Drop)]
pub struct Device {
    alloc: Global,
    cutter: Cutter,
    epochs: Epochs,
    pulses: Pulses,
    toff: Option<Pair>,
    draft: Option<Draft>,
}

impl Model for Device {
    ghost use Rattle.device_core.specs.Standing.{DeviceView};
    ghost use Rattle.device_core.specs.Drafts.{IsSound, back_of, now_of};

    ghost Value = { DeviceView };

    ghost view = { λ d. record { now = now_of d.draft d.cutter d.epochs.now d.pulses d.toff; back = back_of d.draft d.cutter d.epochs.back d.pulses d.toff } };

    ghost invariant = { λ d. IsSound d.draft d.cutter d.epochs.back d.toff };
}

impl Device {
    /// A device that was given nothing yet. Takes no memory.
    #[tactic(auto, using(crate::proofs::Devices::stands_new))]
    pub fn new(alloc: Global) -> Device
        ensures stands { StandsFor result.now [] }
        ensures committed { result.back ≡ None }
    {
        Device {
            alloc,
            cutter: Cutter::new(alloc),
            epochs: Epochs::new(alloc),
            pulses: Pulses::new(),
            toff: None,
            draft: None,
        }
    }

    /// Makes an open draft final. Takes no memory.
    pub fn commit(&mut self)
        ensures { self.new ≡ record { now = self.old.now; back = None } }
    {
        let draft = mem::replace(&mut self.draft, None);
        if let Some(draft) = draft {
            let Draft {
                change,
                pulses,
                toff,
            } = draft;
            if let Some(change) = change {
                self.cutter.put(change);
            }
            self.epochs.commit();
            self.pulses = pulses;
            self.toff = toff;
        }
    }

    /// Gives the next piece of bytes, which came at this stamp, as a draft: the reports that the device's reports gain, each packet
    /// before what it causes. They are at most 2,055 more than the bytes: each packet has at least 6 of the pending bytes, which are
    /// at most 2,055, and of the piece, and causes at most five.
    #[tactic(auto, using(crate::proofs::Devices::gains_fed, crate::proofs::Devices::stands_fed))]
    pub fn draft_feed(&mut self, at: Stamp, bytes: &[u8]) -> Result<Vec<Body>, NoMemory>
        ensures gains { IfOk result (λ out. (stream : List SymbolValue) → StandsFor self.old.now stream → Gains stream (piece at bytes.now) out.items) }
        ensures few { IfOk result (λ out. length out.items ≤ most_pending + length bytes.now) }
        ensures stands { OnOk result ((stream : List SymbolValue) → StandsFor self.old.now stream → StandsFor self.new.now (stream ++ piece at bytes.now)) }
        ensures back { OnOk result (self.new.back ≡ Some self.old.now) }
        ensures err { OnErr result (self.new ≡ record { now = self.old.now; back = None }) }
    {
        self.commit();
        let PacketCut { packets, change } = self.cutter.cut(at, bytes)?;
        self.epochs.checkpoint();
        match take_packets(self.alloc, &mut self.epochs, packets, self.toff) {
            Ok((out, toff)) => {
                self.draft = Some(Draft {
                    change: Some(change),
                    pulses: self.pulses,
                    toff,
                });
                Ok(out)
            }
            Err(refused) => {
                self.epochs.undo();
                Err(refused)
            }
        }
    }

    /// As [`Device::draft_feed`], without the packets.
    fn draft_feed_without_packets(&mut self, at: Stamp, bytes: &[u8]) -> Result<Vec<Body>, NoMemory>
        ensures gains { IfOk result (λ out. (stream : List SymbolValue) → StandsFor self.old.now stream
            → GainsWithoutPackets stream (piece at bytes.now) out.items) }
        ensures stands { OnOk result ((stream : List SymbolValue) → StandsFor self.old.now stream → StandsFor self.new.now (stream ++ piece at bytes.now)) }
        ensures err { OnErr result (self.new ≡ record { now = self.old.now; back = None }) }
    {
        self.commit();
        let PlacedCut {
            bytes,
            placed,
            change,
        } = self.cutter.place(at, bytes)?;
        self.epochs.checkpoint();
        match take_all_placed(
            self.alloc,
            &mut self.epochs,
            bytes.as_slice(),
            placed,
            self.toff,
        ) {
            Ok((out, toff)) => {
                self.draft = Some(Draft {
                    change: Some(change),
                    pulses: self.pulses,
                    toff,
                });
                Ok(out)
            }
            Err(refused) => {
                self.epochs.undo();
                Err(refused)
            }
        }
    }

    /// Undoes an open draft: the device is as it was before it. Takes no memory.
    pub fn undo(&mut self)
        ensures { self.new ≡ record { now = back_or self.old; back = None } }
    {
        let draft = mem::replace(&mut self.draft, None);
        if let Some(_draft) = draft {
            self.epochs.undo();
        }
    }

    /// Gives the next pulse edge, as a draft: its pulse, if it has one, so at most one report.
    #[tactic(auto, using(crate::proofs::Devices::gains_edge, crate::proofs::Devices::stands_edge))]
    pub fn draft_edge(&mut self, edge: Edge) -> Result<Vec<Body>, NoMemory>
        ensures gains { IfOk result (λ out. (stream : List SymbolValue) → StandsFor self.old.now stream → Gains stream (Symbol.Edge edge ∷ []) out.items) }
        ensures few { IfOk result (λ out. length out.items ≤ 1) }
        ensures stands { OnOk result ((stream : List SymbolValue) → StandsFor self.old.now stream → StandsFor self.new.now (stream ++ Symbol.Edge edge ∷ [])) }
        ensures back { OnOk result (self.new.back ≡ Some self.old.now) }
        ensures err { OnErr result (self.new ≡ record { now = self.old.now; back = None }) }
    {
        self.commit();
        let mut pulses = self.pulses;
        let out = pulse_reported(self.alloc, pulses.take(edge, self.toff))?;
        self.epochs.checkpoint();
        self.draft = Some(Draft {
            change: None,
            pulses,
            toff: self.toff,
        });
        Ok(out)
    }

    /// Ends the device, as a draft: the fix and the sky of the epoch that is not closed, so at most two reports. What the device stands
    /// for after it is left open.
    pub fn draft_finish(&mut self) -> Result<Vec<Body>, NoMemory>
        ensures closed { OnOk result (self.new.now ≡ with_nothing_running self.old.now) }
        ensures gains { IfOk result (λ out. (stream : List SymbolValue) → StandsFor self.old.now stream → out.items ≡ device_close stream) }
        ensures few { IfOk result (λ out. length out.items ≤ 2) }
        ensures back { OnOk result (self.new.back ≡ Some self.old.now) }
        ensures err { OnErr result (self.new ≡ record { now = self.old.now; back = None }) }
    {
        self.commit();
        self.epochs.checkpoint();
        match self.epochs.finish() {
            Ok(out) => {
                self.draft = Some(Draft {
                    change: None,
                    pulses: self.pulses,
                    toff: self.toff,
                });
                Ok(out)
            }
            Err(refused) => {
                self.epochs.undo();
                Err(refused)
            }
        }
    }

    /// Gives the next piece of bytes, which came at this stamp: the reports that the device's reports gain, each packet before what it
    /// causes, and at most 2,055 more than the bytes. A refusal leaves what the device keeps as it was.
    pub fn feed(&mut self, at: Stamp, bytes: &[u8]) -> Result<Vec<Body>, NoMemory>
        ensures gains { IfOk result (λ out. (stream : List SymbolValue) → StandsFor self.old.now stream → Gains stream (piece at bytes.now) out.items) }
        ensures few { IfOk result (λ out. length out.items ≤ most_pending + length bytes.now) }
        ensures stands { OnOk result ((stream : List SymbolValue) → StandsFor self.old.now stream → StandsFor self.new.now (stream ++ piece at bytes.now)) }
        ensures committed { self.new.back ≡ None }
        ensures err { OnErr result (self.new.now ≡ self.old.now) }
    {
        let out = self.draft_feed(at, bytes)?;
        self.commit();
        Ok(out)
    }

    /// As [`Device::feed`], without the packets: for callers that need only what packets cause. No packet is copied.
    pub fn feed_without_packets(&mut self, at: Stamp, bytes: &[u8]) -> Result<Vec<Body>, NoMemory>
        ensures gains { IfOk result (λ out. (stream : List SymbolValue) → StandsFor self.old.now stream
            → GainsWithoutPackets stream (piece at bytes.now) out.items) }
        ensures stands { OnOk result ((stream : List SymbolValue) → StandsFor self.old.now stream → StandsFor self.new.now (stream ++ piece at bytes.now)) }
        ensures committed { self.new.back ≡ None }
        ensures err { OnErr result (self.new.now ≡ self.old.now) }
    {
        let out = self.draft_feed_without_packets(at, bytes)?;
        self.commit();
        Ok(out)
    }

    /// Gives the next pulse edge: its pulse, if it has one, so at most one report. A refusal leaves what the device keeps as it was.
    pub fn edge(&mut self, edge: Edge) -> Result<Vec<Body>, NoMemory>
        ensures gains { IfOk result (λ out. (stream : List SymbolValue) → StandsFor self.old.now stream → Gains stream (Symbol.Edge edge ∷ []) out.items) }
        ensures few { IfOk result (λ out. length out.items ≤ 1) }
        ensures stands { OnOk result ((stream : List SymbolValue) → StandsFor self.old.now stream → StandsFor self.new.now (stream ++ Symbol.Edge edge ∷ [])) }
        ensures committed { self.new.back ≡ None }
        ensures err { OnErr result (self.new.now ≡ self.old.now) }
    {
        let out = self.draft_edge(edge)?;
        self.commit();
        Ok(out)
    }

    /// Ends the device: the fix and the sky of the epoch that is not closed, so at most two reports. After it no epoch is running; what
    /// the device stands for then is left open. A refusal leaves what the device keeps as it was.
    pub fn finish(&mut self) -> Result<Vec<Body>, NoMemory>
        ensures closed { OnOk result (self.new.now ≡ with_nothing_running self.old.now) }
        ensures gains { IfOk result (λ out. (stream : List SymbolValue) → StandsFor self.old.now stream → out.items ≡ device_close stream) }
        ensures few { IfOk result (λ out. length out.items ≤ 2) }
        ensures committed { self.new.back ≡ None }
        ensures err { OnErr result (self.new.now ≡ self.old.now) }
    {
        let out = self.draft_finish()?;
        self.commit();
        Ok(out)
    }

    /// Another device that keeps what this one keeps now, and so stands for the same streams. It has no draft.
    #[tactic(auto, using(crate::proofs::Devices::copied, crate::proofs::Devices::fits))]
    pub fn copy(&self) -> Result<Device, NoMemory>
        ensures { IfOk result (λ device. device ≡ record { now = self.now.now; back = None }) }
    {
        let cutter = cutter_now(self.alloc, &self.cutter, &self.draft)?;
        let epochs = self.epochs.copy()?;
        Ok(Device {
            alloc: self.alloc,
            cutter,
            epochs,
            pulses: pulses_now(self.pulses, &self.draft),
            toff: toff_now(self.toff, &self.draft),
            draft: None,
        })
    }
}

/// A copy of a cutter, with the change of an open draft made.
fn cutter_now(alloc: Global, cutter: &Cutter, draft: &Option<Draft>) -> Result<Cutter, NoMemory>
    requires { FitsDraft draft.now cutter.now }
    ensures { IfOk result (λ copy. copy ≡ bytes_now draft.now cutter.now) }
{
    match draft {
        None => cutter.copy(),
        Some(draft) => changed(alloc, cutter, &draft.change),
    }
}

fn changed(
    alloc: Global,
    cutter: &Cutter,
    change: &Option<CutterChange>,
) -> Result<Cutter, NoMemory>
    requires { FitsBytes change.now cutter.now }
    ensures { IfOk result (λ copy. copy ≡ changed change.now cutter.now) }
{
    match change {
        None => cutter.copy(),
        Some(change) => {
            let change = change.copy(alloc)?;
            let mut copy = cutter.copy()?;
            copy.put(change);
            Ok(copy)
        }
    }
}

fn pulses_now(pulses: Pulses, draft: &Option<Draft>) -> Pulses
    ensures { result ≡ edge_now draft.now pulses }
{
    match draft {
        None => pulses,
        Some(draft) => draft.pulses,
    }
}

fn toff_now(toff: Option<Pair>, draft: &Option<Draft>) -> Option<Pair>
    ensures { result ≡ toff_now draft.now toff }
{
    match draft {
        None => toff,
        Some(draft) => draft.toff,
    }
}

/// The report of a pulse, if there is one.
fn pulse_reported(alloc: Global, pulse: Option<Pair>) -> Result<Vec<Body>, NoMemory>
    ensures { IfOk result (λ out. out.items ≡ option_to_list (option_map (λ pair. Body.Pps pair) pulse)) }
{
    let mut out = Vec::new(alloc);
    if let Some(pair) = pulse {
        out.push(Body::Pps(pair))?;
    }
    Ok(out)
}
