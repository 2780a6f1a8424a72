ghost use Rattle.std.specs.Prelude.{◌≡◌};

use crate::door_counts::{Pace, ToldCount, is_due};
use crate::link_count::{LinkTally, Seat, Ticket};
use crate::messages::Tell;
use crate::stopping::{Machine, StopRequest};
use crate::telling_source::TellingSource;
use cycle_gap::CycleSource;
use gps_outside::{Closer, Door, DoorStep, LinkSink};
use gps_world::{RealGate, RealInput};
use std::alloc::Global;
use std::fs::File;
use std::net::{Net, TcpStream};
use std::rt::Files;
use std::sync::{Arc, Wait};
use std::time::{self, Duration};

/// How many sessions a run has at most.
const SESSIONS: u64 = 100_000;

/// How many clients are served at a time at most. With fewer sessions than that in the whole run, a client is turned away only if there is no memory
/// or no thread for it.
const MOST: u64 = 64;

/// After how many sessions it is said that few are left.
const MANY: u64 = 90_000;

/// What accept(2) of Linux answers if the system has no file left (ENFILE), and if this process has none (EMFILE).
const SYSTEM_FULL: i32 = 23;

const PROCESS_FULL: i32 = 24;

/// Why a client was turned away.
#[derive(Clone, Copy)]
enum TurnedAway {
    /// All sessions of the run are used.
    Sessions,
    /// As many clients are served as can be.
    Full,
    /// There was no memory or no thread for it.
    Lack,
    /// All places were held, also by clients that have gone, or there was no memory or no thread for it.
    HeldOrLack,
}

/// The door of a telling world: it says when it fails, when a client is turned away, and when the sessions of a run are nearly used up. What
/// its links do is not said.
///
/// A link that the daemon does not admit is dropped before anything of it is read: so it is known at the next call.
#[derive(Drop)]
pub struct TellingDoor<R, N, V> {
    alloc: Global,
    machine: R,
    rt: V,
    door: RealGate<N>,
    /// What became of its links; missing if there was no memory for it.
    links: Option<Arc<LinkTally>>,
    /// How many links had a reader when the last link came.
    others: u64,
    /// Whether a link was given since the last call.
    gave: bool,
    sessions: u64,
    /// Clients that were turned away.
    turned_away: ToldCount,
    /// Why the last of them was.
    why: TurnedAway,
    /// Clients that were admitted, and closed for want of a thread.
    unread: ToldCount,
    /// When it was last said that there was no file descriptor or memory for a client.
    said_lack: Option<Duration>,
    pace: Pace,
    /// What the last session of a run tells to stop the daemon, and what closes the door.
    stop: Option<StopRequest>,
}

impl<R, N, V> TellingDoor<R, N, V> {
    pub fn new(
        alloc: Global,
        machine: R,
        rt: V,
        door: RealGate<N>,
        links: Option<Arc<LinkTally>>,
        stop: Option<StopRequest>,
    ) -> TellingDoor<R, N, V>
        ensures { result.door ≡ door }
    {
        TellingDoor {
            alloc,
            machine,
            rt,
            door,
            links,
            others: 0,
            gave: false,
            sessions: 0,
            turned_away: ToldCount::nothing(),
            why: TurnedAway::Full,
            unread: ToldCount::nothing(),
            said_lack: None,
            pace: Pace::new(),
            stop,
        }
    }

    fn ticket(&self) -> Option<Ticket> {
        match &self.links {
            Some(links) => match Arc::try_clone(links) {
                Ok(links) => Some(Ticket::new(links)),
                Err(_) => None,
            },
            None => None,
        }
    }

    /// The seat of the next link.
    fn seat(&mut self) -> Option<Seat>
        ensures { self.new.door ≡ self.old.door }
    {
        let links = self.links.as_ref()?;
        self.others = links.now();
        match Arc::try_clone(links) {
            Ok(links) => Some(Seat::new(links)),
            Err(_) => None,
        }
    }

    /// Whether the last link was dropped.
    fn was_dropped(&mut self) -> bool
        ensures { self.new.door ≡ self.old.door }
    {
        match &self.links {
            Some(links) => self.turned_away.sees(links.turned_away()),
            None => false,
        }
    }
}

impl<R, N, V: Tell + time::Clock + Copy> TellingDoor<R, N, V> {
    /// Why the last client was turned away.
    fn why_now(&self) -> TurnedAway {
        if self.sessions >= SESSIONS {
            TurnedAway::Sessions
        } else if self.others >= MOST {
            TurnedAway::Full
        } else if self.sessions < MOST {
            TurnedAway::Lack
        } else {
            TurnedAway::HeldOrLack
        }
    }

    /// Says, at most once a minute, how many clients were turned away, and why the last was.
    fn tell_turned_away(&mut self, now: Duration)
        ensures { self.new.door ≡ self.old.door }
    {
        let rt = self.rt;
        let Some(clients) = self.turned_away.due(now) else {
            return;
        };
        match self.why {
            TurnedAway::Sessions => rt.tell_fault(format_args!(
                "{clients} turned away: all {SESSIONS} sessions of this run are used: start the daemon anew"
            )),
            TurnedAway::Full => rt.tell_fault(format_args!(
                "{clients} turned away: at most 64 clients are served at a time, and 80 with those that have still to take what is left"
            )),
            TurnedAway::Lack => rt.tell_fault(format_args!(
                "{clients} turned away: no memory or no thread: raise MemoryMax or TasksMax, or give a smaller --queue"
            )),
            TurnedAway::HeldOrLack => rt.tell_fault(format_args!(
                "{clients} turned away: all 80 places were held, also by clients that have gone or have still to take what is left, or there was no memory or no thread"
            )),
        }
    }

    /// Says, at most once a minute, how many clients were greeted and closed because no thread could be started for them.
    fn tell_unread(&mut self, now: Duration)
        ensures { self.new.door ≡ self.old.door }
    {
        let rt = self.rt;
        let Some(links) = &self.links else {
            return;
        };
        let times = links.unread();
        self.unread.sees(times);
        if let Some(clients) = self.unread.due(now) {
            rt.tell_fault(format_args!(
                "{clients} closed: the system started no thread: raise TasksMax, or ulimit -u"
            ));
        }
    }

    /// Says what is due of clients that were not served.
    fn tell_unserved(&mut self)
        ensures { self.new.door ≡ self.old.door }
    {
        if let Ok(now) = self.rt.monotonic() {
            self.tell_turned_away(now);
            self.tell_unread(now);
        }
    }

    /// Says, at the end of the door, what was not said yet of clients that were not served.
    fn tell_rest(&mut self)
        ensures { self.new.door ≡ self.old.door }
    {
        self.tell_turned_away(Duration::MAX);
        self.tell_unread(Duration::MAX);
    }

    /// Says that the sessions of this run are nearly used up, or all used.
    fn tell_used(&self) {
        let rt = self.rt;
        match self.sessions {
            MANY if self.stop.is_some() => rt.tell(format_args!(
                "{MANY} of the {SESSIONS} sessions of a run are used: the daemon stops at the last"
            )),
            MANY => rt.tell_fault(format_args!(
                "{MANY} of the {SESSIONS} sessions of a run are used: start the daemon anew before the last"
            )),
            SESSIONS if self.stop.is_some() => rt.tell(format_args!(
                "the last of the {SESSIONS} sessions of a run is used: the daemon stops, to be started anew"
            )),
            SESSIONS => rt.tell_fault(format_args!(
                "the last of the {SESSIONS} sessions of a run is used: start the daemon anew"
            )),
            _ => {}
        }
    }

    /// Waits for the time of the next link, if more came than fit into a burst.
    fn keep_pace(&self) {
        let rt = self.rt;
        if let Ok(now) = rt.monotonic() {
            if self.pace.is_used_up(now) {
                self.pace.rest(&rt);
            }
        }
    }

    /// Counts a link that came.
    fn count_link(&mut self)
        ensures { self.new.door ≡ self.old.door }
    {
        if let Ok(now) = self.rt.monotonic() {
            self.pace.take(now);
        }
    }

    /// Whether the daemon was told to stop.
    fn is_stopped(&self) -> bool {
        match &self.stop {
            Some(stop) => stop.is_told(),
            None => false,
        }
    }

    /// Says that the door has failed.
    fn tell_failed(&self) {
        let rt = self.rt;
        rt.tell_fault(
            "no more clients can be accepted; those that are connected are served; restart the daemon",
        );
    }
}

impl<R, N: time::Clock + Copy, V: Tell + time::Clock + Copy> TellingDoor<R, N, V> {
    /// Says, at most once a minute, why a client that waits could not be taken.
    fn tell_lack(&mut self)
        ensures { self.new.door ≡ self.old.door }
    {
        let rt = self.rt;
        let Some(error) = self.door.lack() else {
            return;
        };
        let Ok(now) = rt.monotonic() else {
            return;
        };
        if !is_due(self.said_lack, now) {
            return;
        }
        self.said_lack = Some(now);
        match error.raw_os_error() {
            Some(PROCESS_FULL) => rt.tell_fault(
                "a client has to wait: this process has no file descriptor left: raise LimitNOFILE, or ulimit -n",
            ),
            Some(SYSTEM_FULL) => rt.tell_fault(
                "a client has to wait: the system has no file left: raise fs.file-max",
            ),
            _ => rt.tell_fault("a client has to wait: the system has no memory for its connection"),
        }
    }
}

impl<R, N, V> TellingDoor<R, N, V>
where
    R: Files<File = File> + Wait + Copy,
    V: Tell + time::Clock + Copy,
{
    /// The last session of a run stops the daemon, if it can be told to stop.
    fn stop_at_last(&self) {
        if let Some(stop) = &self.stop {
            if self.sessions == SESSIONS {
                stop.tell(&self.machine, &Machine(self.machine));
            }
        }
    }

    /// Finds out what became of the last link.
    fn look_back(&mut self)
        ensures { self.new.door ≡ self.old.door }
    {
        if !self.gave {
            return;
        }
        self.gave = false;
        if self.was_dropped() {
            self.why = self.why_now();
        } else {
            self.sessions = self.sessions.saturating_add(1);
            self.tell_used();
            self.stop_at_last();
        }
    }
}

impl<R, N, V> TellingDoor<R, N, V>
where
    R: Files<File = File> + Wait + Copy,
    N: Files<File = File> + Net<Stream = TcpStream> + time::Clock + Copy,
    V: Tell + time::Clock + Copy,
{
    fn link(&mut self, source: RealInput<N>) -> TellingSource<N, V>
        ensures door { self.new.door ≡ self.old.door }
        ensures faults { result.source.faults ≡ source.faults }
        ensures quiets { result.quiets ≡ 0 }
    {
        self.gave = true;
        self.count_link();
        let seat = self.seat();
        let source = CycleSource::new(self.alloc, source, None);
        TellingSource::of_link(self.rt, source, self.ticket(), seat)
    }
}

impl<R, N, V> Door for TellingDoor<R, N, V>
where
    R: Files<File = File> + Wait + Copy,
    N: Files<File = File> + Net<Stream = TcpStream> + time::Clock + Copy,
    V: Tell + time::Clock + Copy + Drop,
{
    ghost use Rattle.std.specs.Prelude.{None};

    type In = TellingSource<N, V>;

    type Out = LinkSink<N>;

    ghost faults = { λ s. s.door.faults };

    ghost quiets = { λ s. s.door.quiets };

    ghost links = { λ _. None };

    fn accept(&mut self) -> DoorStep<TellingSource<N, V>, LinkSink<N>> {
        self.look_back();
        self.tell_unserved();
        if self.is_stopped() {
            self.tell_rest();
            return DoorStep::Closed;
        }
        self.keep_pace();
        match self.door.accept() {
            DoorStep::Link(source, sink) => DoorStep::Link(self.link(source), sink),
            DoorStep::Quiet => {
                self.tell_lack();
                DoorStep::Quiet
            }
            DoorStep::Closed => {
                self.tell_rest();
                DoorStep::Closed
            }
            DoorStep::Failed => {
                self.tell_failed();
                DoorStep::Failed
            }
        }
    }

    fn closer(&self) -> Option<Closer> {
        self.door.closer()
    }
}
