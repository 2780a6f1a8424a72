ghost use Rattle.std.specs.Prelude.{◌≡◌, ◌≤◌, ◌*◌, ◌||◌, [], ◌∷◌, true, false, IfOk, OnOk, OnErr, if◌then◌else◌};
ghost use Rattle.std.specs.Duration.{as_nanos};
ghost use Rattle.idle_client.specs.Idle.{Client, after_read, has_whole, is_idle, is_whole, limit, seconds_between, wait_by, wait_of};
ghost use Rattle.idle_client.specs.Timing.{Leaves, StandsFor};

use gps_command::{Command, CommandCutter, RawCommand, ReadFault, command_of};
use gps_fixed::NoMemory;
use std::alloc::Global;
use std::marker::Model;
use std::mem;
use std::time::Duration;

/// After how many seconds a client that has sent no whole request since its link came is idle.
const FIRST: u64 = 60;

/// After how many seconds without a request a client that has asked before is idle.
const LATER: u64 = 900;

/// No read waits longer for bytes, in seconds. The system may add an eighth.
const LONGEST: u64 = 120;

/// Nor does one wait for less.
const SHORTEST: u64 = 1;

/// Whether a client is idle, by the bytes that were read from it and when they came: whether it watches
/// nothing, and asked nothing for too long. Once memory ran out, it says that the client is not idle.
#[derive(Drop)]
pub struct IdleTimer {
    alloc: Global,
    cutter: CommandCutter,
    /// Whether the policy is enabled.
    watches: bool,
    /// Whether a request has ended.
    asked: bool,
    /// When the link came, or its last request ended.
    since: Duration,
    /// Whether memory ran out when bytes were read.
    missed: bool,
}

impl Model for IdleTimer {
    ghost use Rattle.std.specs.Duration.{as_nanos};
    ghost use Rattle.idle_client.specs.Timing.{IdleTimerView};

    ghost Value = { IdleTimerView };

    ghost view = { λ t. record { cutter = t.cutter; watches = t.watches; asked = t.asked; since = as_nanos t.since; missed = t.missed } };
}

fn seconds_between(since: Duration, now: Duration) -> u64
    ensures { result ≡ seconds_between (as_nanos since) (as_nanos now) }
{
    now.saturating_sub(since).as_secs()
}

fn limit(asked: bool) -> u64
    ensures { result ≡ limit asked }
{
    if asked { LATER } else { FIRST }
}

fn is_whole(request: &RawCommand) -> bool
    ensures { result ≡ is_whole request.now }
{
    match request {
        RawCommand::Words(_) => true,
        RawCommand::Long => false,
    }
}

fn has_whole(requests: &[RawCommand]) -> bool
    ensures { result ≡ has_whole requests.now }
{
    requests.iter().any(|request| is_whole(request))
}

fn either(first: bool, second: bool) -> bool
    ensures { result ≡ (first || second) }
{
    first || second
}

fn later(ended: bool, since: Duration, now: Duration) -> Duration
    ensures { as_nanos result ≡ (if ended then as_nanos now else as_nanos since) }
{
    if ended { now } else { since }
}

/// Whether a client watches after a request, if it watched before or not.
fn watches_with(alloc: Global, watches: bool, request: &RawCommand) -> Result<bool, NoMemory>
    ensures { IfOk result (λ after. Leaves watches (request.now ∷ []) after) }
{
    match command_of(alloc, request) {
        Ok(Command::Watch(Some(change))) => Ok(change.enable),
        Ok(_) => Ok(watches),
        Err(ReadFault::Fault(_)) => Ok(watches),
        Err(ReadFault::NoMemory) => Err(NoMemory),
    }
}

/// The same after several.
fn watches_after(alloc: Global, watches: bool, requests: &[RawCommand]) -> Result<bool, NoMemory>
    ensures { IfOk result (λ after. Leaves watches requests.now after) }
{
    let mut after = watches;
    'requests: for request in requests {
        after = watches_with(alloc, after, request)?;
    }
    Ok(after)
}

impl IdleTimer {
    /// The timer of a client whose link came now. Takes no memory.
    pub fn new(alloc: Global, now: Duration) -> IdleTimer
        ensures { StandsFor result (record { came = as_nanos now; reads = [] }) }
    {
        IdleTimer {
            alloc,
            cutter: CommandCutter::new(alloc),
            watches: false,
            asked: false,
            since: now,
            missed: false,
        }
    }

    /// Takes the bytes of one read, which came now. Once this is refused, the client is not idle any more, whatever it does.
    pub fn take(&mut self, bytes: &[u8], now: Duration) -> Result<(), NoMemory>
        ensures taken { OnOk result ((client : Client) → StandsFor self.old client
            → StandsFor self.new (after_read client bytes.now (as_nanos now))) }
        ensures missed { OnErr result (self.new.missed ≡ true) }
        ensures for_ever { self.old.missed ≡ true → self.new.missed ≡ true }
    {
        // So each `?` leaves it.
        if mem::replace(&mut self.missed, true) {
            return Err(NoMemory);
        }
        let requests = self.cutter.push(bytes)?;
        self.watches = watches_after(self.alloc, self.watches, requests.as_slice())?;
        let ended = has_whole(requests.as_slice());
        self.asked = either(self.asked, ended);
        self.since = later(ended, self.since, now);
        self.missed = false;
        Ok(())
    }

    /// Whether the client is idle now.
    pub fn is_over(&self, now: Duration) -> bool
        ensures idle { (client : Client) → StandsFor self.now client → result ≡ is_idle client (as_nanos now) }
        ensures missed { self.now.missed ≡ true → result ≡ false }
    {
        !self.missed && !self.watches && seconds_between(self.since, now) >= limit(self.asked)
    }

    /// How long the next read may wait for bytes, until the client may be idle.
    pub fn wait(&self, now: Duration) -> Duration
        ensures wait { (client : Client) → StandsFor self.now client → as_nanos result ≡ wait_of client (as_nanos now) * 1_000_000_000 }
        ensures least { SHORTEST * 1_000_000_000 ≤ as_nanos result }
        ensures most { as_nanos result ≤ LONGEST * 1_000_000_000 }
    {
        let left = limit(self.asked).saturating_sub(seconds_between(self.since, now));
        Duration::from_secs(if self.missed || self.watches {
            LONGEST
        } else {
            left.max(SHORTEST).min(LONGEST)
        })
    }
}
