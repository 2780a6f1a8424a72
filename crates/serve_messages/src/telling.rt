//! The real world, which says on standard error where it listens, what it waits for, what could not be opened and why, and what becomes of
//! its devices and its door. What is said there changes nothing else: a standard error that is closed or full is ignored.

ghost use Rattle.std.specs.Prelude.{◌≡◌};
ghost use Rattle.gps_world.specs.Asking.{asked_nothing};

use crate::messages::Tell;
use crate::place_text::{PlaceText, copy_of, text_of};
use crate::start_notice::tell_ready;
use crate::stopping::{StopRequest, share};
use crate::system::{Reason, is_regular, is_terminal, speed_in, who_may_read};
use crate::tally::{Meter, Tally};
use crate::telling_door::TellingDoor;
use crate::telling_source::TellingSource;
use crate::told_device::ToldDevice;
use cycle_gap::CycleSource;
use gps_fixed::Bytes;
use gps_outside::{Door, LinkSink, RealClock};
use gps_world::{HeldPipes, Opened, Place, RealWorld, World};
use std::alloc::Global;
use std::fs::File;
use std::io::{self, ErrorKind};
use std::net::{Net, TcpListener, TcpStream};
use std::rt::Files;
use std::sync::{Arc, Wait};
use std::time;

/// What a telling world is begun with.
#[derive(Drop)]
pub struct Setup {
    /// After how many seconds a place is opened again.
    pub reopen: Option<u32>,
    /// After how many milliseconds of silence the sentences of one moment are complete.
    pub gap: Option<u32>,
    /// What may tell the daemon to stop.
    pub stop: Option<StopRequest>,
    /// The numbers of the daemon.
    pub tally: Arc<Tally>,
    /// Whether they are reported, so that packets are counted.
    pub is_reported: bool,
    /// The socket of a service manager that waits until the daemon listens.
    pub notice: Option<String>,
}

/// The real world over a machine, with a voice that tells of it.
#[derive(Drop)]
pub struct TellingWorld<R, N, V> {
    rt: R,
    voice: V,
    alloc: Global,
    world: RealWorld<N>,
    setup: Setup,
    /// How many places it was asked for: those of the devices come first.
    asked: usize,
}

impl<R, N: Copy, V> TellingWorld<R, N, V> {
    /// What the machine itself is asked goes to `rt`.
    pub fn new(alloc: Global, rt: R, machine: N, voice: V, setup: Setup) -> TellingWorld<R, N, V>
        ensures { result.world ≡ record { asked = asked_nothing; input_faults = 0; listen_faults = 0 } }
    {
        TellingWorld {
            rt,
            voice,
            alloc,
            world: RealWorld::new(alloc, machine, setup.reopen),
            setup,
            asked: 0,
        }
    }
}

/// Whether a place is a terminal.
fn is_at_terminal<R: Files<File = File>>(rt: &R, place: &Place) -> bool {
    match place {
        Place::File(path) => is_terminal(rt, path),
        Place::Tcp(_) | Place::Gpsd(_) => false,
    }
}

fn is_denied(fault: Option<io::Error>) -> bool {
    match fault {
        Some(error) => error.kind() == ErrorKind::PermissionDenied,
        None => false,
    }
}

/// Whether the port of an address may be taken by root alone.
fn has_low_port(address: &str) -> bool {
    match address.rsplit_once(':') {
        Some((_, port)) => match port.parse::<u16>() {
            Ok(port) => port > 0 && port < 1_024,
            Err(_) => false,
        },
        None => false,
    }
}

impl<R: Files<File = File>, N, V: Tell> TellingWorld<R, N, V> {
    /// A device that was opened, so that what becomes of it is said. The places behind those of the devices have their pulse edges, which are no
    /// packets.
    fn told_device(&self, place: Option<Place>) -> Option<ToldDevice> {
        let place = place?;
        let is_terminal = is_at_terminal(&self.rt, &place);
        let mut device = ToldDevice::new(place, is_terminal, self.setup.reopen);
        if self.asked < self.setup.tally.devices() {
            device.look_at(self.alloc, self.meter());
        }
        Some(device)
    }

    /// The gap of the next place: none of edges, and of a regular file, which is never silent.
    fn gap_of(&self, place: &Place) -> Option<u32> {
        if self.asked >= self.setup.tally.devices() {
            return None;
        }
        match place {
            Place::File(path) if is_regular(&self.rt, path) => None,
            _ => self.setup.gap,
        }
    }

    /// What counts the bytes of the next device, if the numbers of the daemon are reported.
    fn meter(&self) -> Option<Meter> {
        if !self.setup.is_reported {
            return None;
        }
        match Arc::try_clone(&self.setup.tally) {
            Ok(tally) => Some(Meter::new(self.alloc, tally, self.asked)),
            Err(_) => None,
        }
    }

    /// Says why a place could not be opened, if there was memory for a copy of it.
    fn tell_closed(&self, place: Option<Place>) {
        let Some(place) = &place else {
            return;
        };
        let fault = self.world.fault();
        let hint = match place {
            Place::File(path) if is_denied(fault) => who_may_read(&self.rt, self.alloc, path),
            Place::File(path) => speed_in(&self.rt, self.alloc, path),
            _ => None,
        };
        let text = PlaceText(place);
        let reason = Reason(fault);
        match hint {
            Some(hint) => self
                .voice
                .tell_fault(format_args!("{text} cannot be opened{reason}; {hint}")),
            None => self
                .voice
                .tell_fault(format_args!("{text} cannot be opened{reason}")),
        }
    }

    /// Says why the daemon cannot listen.
    fn tell_deaf(&self, address: &str) {
        let fault = self.world.fault();
        let reason = Reason(fault);
        if is_denied(fault) && has_low_port(address) {
            self.voice.tell_fault(format_args!(
                "cannot listen at {address}{reason}; a port below 1024 needs root or CAP_NET_BIND_SERVICE: say --listen HOST:PORT"
            ));
        } else if let Some(port) = address.strip_prefix("*:") {
            self.voice.tell_fault(format_args!(
                "cannot listen at {address}{reason}; for all addresses say --listen 0.0.0.0:{port}, or --listen [::]:{port}"
            ));
        } else {
            self.voice
                .tell_fault(format_args!("cannot listen at {address}{reason}"));
        }
    }
}

impl<R, N, V> World for TellingWorld<R, N, V>
where
    R: Files<File = File> + Wait + Copy + Send,
    N: Files<File = File>
        + Net<Listener = TcpListener, Stream = TcpStream>
        + time::Clock
        + Copy
        + Send,
    V: Tell + time::Clock + Copy + Send + Drop,
{
    ghost use Rattle.std.specs.Prelude.{None};

    type In = TellingSource<N, V>;

    type Out = LinkSink<N>;

    type Now = RealClock<N>;

    type Gate = TellingDoor<R, N, V>;

    ghost input_faults = { λ s. s.world.input_faults };

    ghost listen_faults = { λ s. s.world.listen_faults };

    ghost asked = { λ s. s.world.asked };

    ghost behind = { λ _ _. None };

    ghost links = { λ _. None };

    ghost stamps = { λ _. None };

    fn input(&mut self, place: Place) -> Opened<TellingSource<N, V>> {
        let told = copy_of(&place);
        let gap = self.gap_of(&place);
        let opened = self.world.input(place);
        let opened = match opened {
            Opened::Ready(source) => {
                let device = self.told_device(told);
                let stop = share(&self.setup.stop);
                let source = CycleSource::new(self.alloc, source, gap);
                Opened::Ready(TellingSource::of_device(self.voice, source, device, stop))
            }
            Opened::Failed => {
                self.tell_closed(told);
                Opened::Failed
            }
        };
        self.asked = self.asked.saturating_add(1);
        opened
    }

    fn listen(&mut self, address: Bytes) -> Opened<TellingDoor<R, N, V>> {
        let rt = self.rt;
        let told = address.copy();
        match self.world.listen(address) {
            Opened::Ready(door) => {
                if let Ok(place) = door.address() {
                    self.voice.tell(format_args!("listening at {place}"));
                }
                if let Some(socket) = &self.setup.notice {
                    let _ = tell_ready(socket);
                }
                if let Some(stop) = &self.setup.stop {
                    stop.set_waiters(&rt, door.closer(), self.world.waiting_pipes());
                }
                let stop = share(&self.setup.stop);
                let links = self.setup.tally.links();
                Opened::Ready(TellingDoor::new(self.alloc, rt, self.voice, door, links, stop))
            }
            Opened::Failed => {
                if let Ok(address) = told {
                    self.tell_deaf(text_of(&address));
                }
                Opened::Failed
            }
        }
    }

    fn clock(&mut self) -> RealClock<N> {
        self.world.clock()
    }

    fn wake_readers(&self) -> Option<HeldPipes> {
        self.world.wake_readers()
    }
}
