ghost use Rattle.std.specs.Prelude.{◌≡◌, ◌≤◌, ◌<◌, ◌+◌, ◌*◌, ◌⊎◌};

use crate::floor::{Burst, Floor};
use crate::rings::Rings;
use gps_hub::HubNaming;
use gps_lane::Bell;
use gps_outside::Closer;
use serve_workers::{Bells, Spawner, Work, start};
use std::alloc::Global;
use std::sync::{Mutex, Wait};
use std::thread::Promise;

/// At most this many bursts in a row leave the writers and the publisher asleep while more pieces of devices wait. Waking a writer and sending
/// cost more than putting a burst's lines into its lane.
const MOST_HELD: u32 = 63;

/// More items than a burst usually gives a session.
const PLACES_A_BURST: u32 = 512;

/// How many bursts may be held back, so that their items find room in queues of this length.
fn most_held(queue: u32) -> u32
    ensures most { result ≤ 63 }
    ensures room { 512 * result ≤ queue }
    ensures longest { (result ≡ 63) ⊎ (queue < 512 * (result + 1)) }
{
    let held = queue / PLACES_A_BURST;
    if held < MOST_HELD { held } else { MOST_HELD }
}

/// Rings the publisher and the devices' readers: there may be new samples, and room in the readers' lanes.
fn ring_fed(bells: &Bells) {
    bells.publisher.ring();
    bells.ring_devices();
}

/// Pumps the lanes into the hub until all devices have stopped, and then closes all bells. The sessions have queues of this length.
pub fn pump<J: HubNaming, R: Wait + Copy>(
    rt: &R,
    alloc: Global,
    floor: &Mutex<Floor<J, R>>,
    bells: &Bells,
    queue: u32,
) {
    let most = most_held(queue);
    let mut rings = Rings::new(alloc);
    let mut held = 0u32;
    for _ in rt.forever() {
        let burst = floor.lock(rt).burst(held < most, &mut rings);
        rings.make();
        match burst {
            Burst::Over => break,
            Burst::Held => {
                held = held.saturating_add(1);
                bells.ring_devices();
            }
            Burst::Fed => {
                held = 0;
                ring_fed(bells);
            }
            Burst::Idle => {
                if held == 0 {
                    bells.pump.wait(rt);
                } else {
                    held = 0;
                    ring_fed(bells);
                }
            }
        }
    }
    bells.close();
}

/// Publishes the samples that wait, until its bell is closed.
fn publish<J: HubNaming, R: Wait + Copy>(rt: &R, floor: &Mutex<Floor<J, R>>, own: &Bell) {
    for _ in rt.forever() {
        let last = own.is_closed();
        let stored = floor.lock(rt).publish();
        if !stored {
            if last {
                break;
            }
            own.wait(rt);
        }
    }
}

/// The promise of the publisher's thread. Nothing is said of it: what it publishes is in the hub.
#[derive(Drop)]
pub struct Publishing {}

impl Promise<()> for Publishing {
    ghost kept_by = { λ p r. Unit {0} };
}

/// Starts the publisher. If there is no thread for it, no device is read, and the door is closed.
pub fn start_publisher<'s, E, J: HubNaming + Send + Sync + 's, R: Wait + Copy + Send + Sync + 's>(
    spawner: &Spawner<'s, E, R>,
    floor: &'s Mutex<Floor<J, R>>,
    bells: &'s Bells,
    closer: &Option<Closer>,
) -> Work<(), Publishing> {
    let (rt, scope) = (spawner.rt, spawner.scope);
    start(
        scope,
        Publishing {},
        move || publish(&rt, floor, &bells.publisher),
        move || bells.give_up(closer),
    )
}
