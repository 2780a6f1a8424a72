//! A segment between three threads.

ghost use Rattle.std.specs.Prelude.{◌≡◌};

use crate::numbered::numbered;
use crate::segments::{stores, taken};
use shm_monitor::{Monitor, Reading};
use shm_segment::{Publisher, Segment};
use std::sync::atomic::{AtomicBool, Ordering};
use std::test::Fail;
use std::thread;
use std::thread::Threads;

const SAMPLES: u32 = 10_000;

/// Publishes the samples 1 to SAMPLES, and says so at the end.
fn publish_all(segment: &Segment, mut publisher: Publisher, done: &AtomicBool) -> Publisher
    requires { publisher.segment ≡ segment.now }
    ensures { result.segment ≡ segment.now }
{
    for number in 1..=SAMPLES {
        publisher.begin(numbered(number));
        stores(segment, &mut publisher, 13);
    }
    done.store(true, Ordering::SeqCst);
    publisher
}

/// Reads until the publisher is done, and says whether each taken pair was the sample of its number.
fn watch(segment: &Segment, mut monitor: Monitor, done: &AtomicBool) -> (Monitor, bool)
    requires { monitor.segment ≡ segment.now }
    ensures { result.0.segment ≡ segment.now }
{
    let mut good = true;
    for _ in 0..10_000_000u32 {
        let last = done.load(Ordering::SeqCst);
        if let Reading::Taken(pair) = monitor.try_read(segment) {
            good &= pair.sample == numbered(pair.number);
        }
        if last {
            break;
        }
    }
    (monitor, good)
}

/// One publisher and two monitors in threads of their own, and then what they know is compared.
fn in_threads<R: Threads + Sync>(
    rt: &R,
    segment: &Segment,
    publisher: Publisher,
    one: Monitor,
    two: Monitor,
) -> bool
    requires publisher { publisher.segment ≡ segment.now }
    requires one { one.segment ≡ segment.now }
    requires two { two.segment ≡ segment.now }
{
    let done = AtomicBool::new(false);
    let done = &done;
    let (mut publisher, ((mut one, good), (mut two, fine))) = thread::join(
        rt,
        move || -> Publisher
            requires { publisher.segment ≡ segment.now }
            ensures { result.segment ≡ segment.entry.now }
        { publish_all(segment, publisher, done) },
        move || -> ((Monitor, bool), (Monitor, bool))
            requires { (one.segment ≡ segment.now) × (two.segment ≡ segment.now) }
            ensures { (result.0.0.segment ≡ segment.entry.now) × (result.1.0.segment ≡ segment.entry.now) }
        { watch_both(rt, segment, one, two, done) },
    );
    one.meet(segment, publisher.notice(segment));
    two.meet(segment, publisher.notice(segment));
    publisher.hear(segment, one.account(segment));
    publisher.hear(segment, two.account(segment));
    let last = taken(SAMPLES, numbered(SAMPLES));
    good && fine && Some(one.try_read(segment)) == last && Some(two.try_read(segment)) == last
}

fn watch_both<R: Threads + Sync>(
    rt: &R,
    segment: &Segment,
    one: Monitor,
    two: Monitor,
    done: &AtomicBool,
) -> ((Monitor, bool), (Monitor, bool))
    requires one { one.segment ≡ segment.now }
    requires two { two.segment ≡ segment.now }
    ensures { (result.0.0.segment ≡ segment.now) × (result.1.0.segment ≡ segment.now) }
{
    thread::join(
        rt,
        move || -> (Monitor, bool)
            requires { one.segment ≡ segment.now }
            ensures { result.0.segment ≡ segment.entry.now }
        { watch(segment, one, done) },
        move || -> (Monitor, bool)
            requires { two.segment ≡ segment.now }
            ensures { result.0.segment ≡ segment.entry.now }
        { watch(segment, two, done) },
    )
}

#[test]
fn each_pair_taken_in_threads_is_the_sample_of_its_number(rt: HostRuntime) -> Result<(), Fail> {
    let (segment, mut publisher) = Segment::new(rt.alloc(), 0)?;
    let one = Monitor::of(publisher.monitor_seat(&segment));
    let two = Monitor::of(publisher.monitor_seat(&segment));
    assert!(rt; in_threads(&rt, &segment, publisher, one, two));
    Ok(())
}
