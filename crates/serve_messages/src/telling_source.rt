ghost use Rattle.std.specs.Prelude.{◌≡◌, ◌<◌, ◌≤◌, length};
ghost use Rattle.gps_outside.specs.Counts.{Rose};
ghost use Rattle.gps_outside.specs.Reads.{FailsOnly, FitsBuffer};
ghost use Rattle.gps_outside.specs.declared.source.ReadStep.{ReadStep};

use crate::link_count::{Seat, Ticket};
use crate::messages::Tell;
use crate::stopping::StopRequest;
use crate::told_device::ToldDevice;
use cycle_gap::CycleSource;
use gps_outside::{Awaited, ReadStep, Source};
use gps_world::RealInput;
use std::fs::File;
use std::net::{Net, TcpStream};
use std::rt::Files;
use std::time;

/// The source of a device, which says once when it ends, fails or is lost, and each time that it is silent for a minute or speaks again. The source
/// of a link says nothing. It reports the faults of the source within and hands on its answers. Once the daemon was told to stop, the next read of a
/// device is its end. Up to four reads of a device that give nothing count as one. It has no modelled contents.
#[derive(Drop)]
pub struct TellingSource<N: Files<File = File> + Net<Stream = TcpStream> + time::Clock + Copy, R> {
    rt: R,
    source: CycleSource<RealInput<N>>,
    quiets: u64,
    device: Option<ToldDevice>,
    ticket: Option<Ticket>,
    /// Given back by a link whose reader has ended.
    seat: Option<Seat>,
    /// Ends a device that has neither ended nor failed, once the daemon is told to stop.
    stop: Option<StopRequest>,
}

impl<N: Files<File = File> + Net<Stream = TcpStream> + time::Clock + Copy, R> TellingSource<N, R> {
    /// The source of a device. Without one to tell of, nothing is said of it.
    pub fn of_device(
        rt: R,
        source: CycleSource<RealInput<N>>,
        device: Option<ToldDevice>,
        stop: Option<StopRequest>,
    ) -> TellingSource<N, R>
        ensures source { result.source ≡ source }
        ensures quiets { result.quiets ≡ 0 }
    {
        TellingSource {
            rt,
            source,
            quiets: 0,
            device,
            ticket: None,
            seat: None,
            stop,
        }
    }

    /// The source of a link.
    pub fn of_link(
        rt: R,
        source: CycleSource<RealInput<N>>,
        ticket: Option<Ticket>,
        seat: Option<Seat>,
    ) -> TellingSource<N, R>
        ensures source { result.source ≡ source }
        ensures quiets { result.quiets ≡ 0 }
    {
        TellingSource {
            rt,
            source,
            quiets: 0,
            device: None,
            ticket,
            seat,
            stop: None,
        }
    }
}

impl<N: Files<File = File> + Net<Stream = TcpStream> + time::Clock + Copy, R> TellingSource<N, R> {
    /// Whether the daemon was told to stop.
    fn is_stopped(&self) -> bool {
        match &self.stop {
            Some(stop) => stop.is_told(),
            None => false,
        }
    }

    /// The device has ended, and nothing is said of it.
    fn stopped(&mut self) -> ReadStep
        ensures step { result ≡ ReadStep.End }
        ensures source { self.new.source ≡ self.old.source }
        ensures quiets { self.new.quiets ≡ self.old.quiets }
    {
        if let Some(device) = &mut self.device {
            device.begun();
        }
        self.device = None;
        ReadStep::End
    }
}

impl<N: Files<File = File> + Net<Stream = TcpStream> + time::Clock + Copy, R> TellingSource<N, R> {
    /// Whether a read that gave nothing is made again: it is if a device is there, and was not told to stop.
    fn is_waiting(&self) -> bool {
        self.device.is_some()
            && !self.is_stopped()
            && !self.source.source().is_away()
            && self.source.source().loss().is_none()
            && self.source.source().awaited().is_none()
    }

    /// Reads at most twice.
    fn read_twice(&mut self, buf: &mut [u8]) -> ReadStep
        requires { 0 < length buf.old }
        ensures fits { FitsBuffer result (length buf.old) }
        ensures faults_stay { self.old.source.faults ≤ self.new.source.faults }
        ensures failed { result ≡ ReadStep.Failed → Rose (self.old.source.faults) (self.new.source.faults) }
        ensures fails_only { FailsOnly result (self.old.source.faults) (self.new.source.faults) }
        ensures quiets { self.new.quiets ≡ self.old.quiets }
    {
        match self.source.read(buf) {
            ReadStep::Quiet if self.is_waiting() => self.source.read(buf),
            step => step,
        }
    }

    /// Reads at most four times, so that a few silent seconds of a device are one quiet read, for which its reader need not be woken each time.
    fn read_on(&mut self, buf: &mut [u8]) -> ReadStep
        requires { 0 < length buf.old }
        ensures fits { FitsBuffer result (length buf.old) }
        ensures faults_stay { self.old.source.faults ≤ self.new.source.faults }
        ensures failed { result ≡ ReadStep.Failed → Rose (self.old.source.faults) (self.new.source.faults) }
        ensures fails_only { FailsOnly result (self.old.source.faults) (self.new.source.faults) }
        ensures quiets { self.new.quiets ≡ self.old.quiets }
    {
        match self.read_twice(buf) {
            ReadStep::Quiet if self.is_waiting() => self.read_twice(buf),
            step => step,
        }
    }
}

impl<N, R> TellingSource<N, R>
where
    N: Files<File = File> + Net<Stream = TcpStream> + time::Clock + Copy,
    R: Tell + time::Clock,
{
    /// A read begins. Says, once, what it waits for before it can give bytes; that is no silence.
    fn begin(&mut self)
        ensures source { self.new.source ≡ self.old.source }
        ensures quiets { self.new.quiets ≡ self.old.quiets }
    {
        let awaited = self.source.source().awaited();
        let Some(device) = &mut self.device else {
            return;
        };
        match awaited {
            Some(Awaited::Writer) => device.tell_waiting(&self.rt),
            Some(Awaited::Host) => device.tell_connecting(&self.rt),
            None => {
                if let Ok(now) = self.rt.monotonic() {
                    device.begin(now);
                }
            }
        }
    }

    /// Opens what the next read would open. A stop that comes meanwhile ends the device before that read, whatever the opening gave.
    fn open(&mut self)
        ensures faults { self.new.source.faults ≡ self.old.source.faults }
        ensures quiets { self.new.quiets ≡ self.old.quiets }
    {
        self.source.open();
        if self.source.source().awaited().is_none() {
            if let Some(device) = &mut self.device {
                device.begun();
            }
        }
    }

    /// Bytes came.
    fn heard(&mut self, piece: &[u8])
        ensures source { self.new.source ≡ self.old.source }
        ensures quiets { self.new.quiets ≡ self.old.quiets }
    {
        let split = self.source.split();
        let now = self.rt.monotonic();
        if let (Some(device), Ok(now)) = (&mut self.device, now) {
            device.heard(&self.rt, piece, now);
            if let Some(split) = split {
                device.tell_split(&self.rt, split);
            }
        }
    }

    /// Nothing came this time.
    fn quiet(&mut self)
        ensures source { self.new.source ≡ self.old.source }
        ensures quiets { self.new.quiets ≡ self.old.quiets }
    {
        if self.is_stopped() {
            return;
        }
        let Ok(now) = self.rt.monotonic() else {
            return;
        };
        let loss = self.source.source().loss();
        let is_there = !self.source.source().is_away() && self.source.source().awaited().is_none();
        let Some(device) = &mut self.device else {
            return;
        };
        if let Some(loss) = loss {
            device.lost_place(&self.rt, loss, now);
        }
        if is_there {
            device.quiet(&self.rt, now);
        } else {
            device.not_there();
        }
    }

    fn ended(&mut self)
        ensures source { self.new.source ≡ self.old.source }
        ensures quiets { self.new.quiets ≡ self.old.quiets }
    {
        if let Some(device) = self.device.take() {
            device.tell_ended(&self.rt);
        }
    }

    fn failed(&mut self)
        ensures source { self.new.source ≡ self.old.source }
        ensures quiets { self.new.quiets ≡ self.old.quiets }
    {
        if let Some(device) = self.device.take() {
            match self.source.source().daemon_fault() {
                Some(fault) => device.tell_daemon_failed(&self.rt, fault),
                None => device.tell_failed(&self.rt, self.source.source().fault()),
            }
        }
    }

    /// Its reader ends, though the device has neither ended nor failed: there was no memory for it, or no thread.
    fn lost(&mut self)
        ensures source { self.new.source ≡ self.old.source }
        ensures quiets { self.new.quiets ≡ self.old.quiets }
    {
        if let Some(device) = self.device.take() {
            device.tell_lost(&self.rt);
        }
    }
}

impl<N, R> Source for TellingSource<N, R>
where
    N: Files<File = File> + Net<Stream = TcpStream> + time::Clock + Copy,
    R: Tell + time::Clock + Drop,
{
    ghost use Rattle.std.specs.Prelude.{None};

    ghost faults = { λ s. s.source.faults };

    ghost quiets = { λ s. s.quiets };

    ghost content = { λ _. None };

    fn read(&mut self, buf: &mut [u8]) -> ReadStep {
        if let Some(ticket) = self.ticket.take() {
            ticket.used();
        }
        if self.is_stopped() {
            return self.stopped();
        }
        self.begin();
        self.open();
        if self.is_stopped() {
            return self.stopped();
        }
        let step = self.read_on(buf);
        match step {
            ReadStep::Got(n) => self.heard(&buf[..n]),
            ReadStep::Quiet => {
                self.quiet();
                self.quiets = self.quiets.saturating_add(1);
            }
            ReadStep::End => self.ended(),
            ReadStep::Failed => self.failed(),
        }
        step
    }

    fn is_ready(&self) -> bool {
        self.source.is_ready()
    }

    fn finish(&mut self) {
        if let Some(ticket) = self.ticket.take() {
            ticket.closed();
        }
        self.lost();
        self.seat = None;
        self.source.finish();
    }
}
