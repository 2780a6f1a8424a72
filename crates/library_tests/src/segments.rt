//! What a publisher stores into a segment, and what a monitor loads from it.

ghost use Rattle.std.specs.Prelude.{◌≡◌, ◌≤◌};

use gps_fixed::{NoMemory, Stamp};
use shm_monitor::{MonStep, Monitor, Numbered, Reading};
use shm_segment::{PubStep, Publisher, Sample, Segment};
use std::alloc::Global;
use std::test::Fail;

fn at(reference: u32, host: u32) -> Sample {
    Sample {
        reference: Stamp {
            sec: i64::from(reference),
            nsec: 0,
        },
        host: Stamp {
            sec: i64::from(host),
            nsec: 0,
        },
        precision: -1,
    }
}

/// Makes this many stores, and says how many there were to make.
pub(crate) fn stores(segment: &Segment, publisher: &mut Publisher, most: u32) -> u32
    requires { publisher.old.segment ≡ segment.now }
    ensures { publisher.new.segment ≡ publisher.old.segment }
{
    let mut made = 0u32;
    for _ in 0..most {
        if publisher.step(segment) != PubStep::Idle {
            made = made.saturating_add(1);
        }
    }
    made
}

/// Makes this many loads, and gives what the last one ended.
fn loads(segment: &Segment, monitor: &mut Monitor, most: u32) -> Option<Reading>
    requires { monitor.old.segment ≡ segment.now }
    ensures { monitor.new.segment ≡ monitor.old.segment }
{
    let mut ended = None;
    for _ in 0..most {
        ended = match monitor.step(segment) {
            MonStep::Done(reading) => Some(reading),
            MonStep::Loaded { word: _, value: _ } => None,
        };
    }
    ended
}

/// A sample to begin, stores, and loads, the last of which ended a reading so.
#[derive(Clone, Copy)]
struct Round {
    begins: Option<(u32, u32)>,
    stores: u32,
    loads: u32,
    ended: Option<Reading>,
}

impl Round {
    fn of(begins: Option<(u32, u32)>, stores: u32, loads: u32, ended: Option<Reading>) -> Round {
        Round {
            begins,
            stores,
            loads,
            ended,
        }
    }
}

/// Whether the stores and loads in this order end so: a sample that is begun is stored as far as the round says.
fn in_order(
    segment: &Segment,
    publisher: &mut Publisher,
    monitor: &mut Monitor,
    rounds: &[Round],
) -> bool
    requires publisher { publisher.old.segment ≡ segment.now }
    requires monitor { monitor.old.segment ≡ segment.now }
    ensures publisher { publisher.new.segment ≡ publisher.old.segment }
    ensures monitor { monitor.new.segment ≡ monitor.old.segment }
{
    let mut good = true;
    for round in rounds {
        if let Some((reference, host)) = round.begins {
            publisher.begin(at(reference, host));
        }
        good &= stores(segment, publisher, round.stores) == round.stores;
        good &= loads(segment, monitor, round.loads) == round.ended;
    }
    good
}

pub(crate) fn taken(number: u32, sample: Sample) -> Option<Reading> {
    Some(Reading::Taken(Numbered { number, sample }))
}

/// The count of the publisher, if it comes so at a segment whose first number is this.
fn count_after(alloc: Global, first: u32, rounds: &[Round]) -> Result<Option<u32>, NoMemory>
    requires { first ≤ 1073741823 }
{
    let (segment, mut publisher) = Segment::new(alloc, first)?;
    let mut monitor = Monitor::of(publisher.monitor_seat(&segment));
    let good = in_order(&segment, &mut publisher, &mut monitor, rounds);
    Ok(good.then_some(publisher.count()))
}

#[test]
fn what_is_read_between_the_stores(rt: HostRuntime) -> Result<(), Fail> {
    let clash = Reading::Clash {
        before: 2,
        after: 3,
    };
    let not_ready = Reading::NotReady { count: 3, valid: 0 };
    let (first, second) = ((764_426_119, 1), (1_735_689_599, 2));
    // A store between the loads is a clash.
    let rounds = [
        Round::of(Some(first), 13, 6, None),
        Round::of(Some(second), 2, 6, Some(clash)),
        Round::of(None, 0, 2, Some(not_ready)),
        Round::of(None, 11, 12, taken(2, at(1_735_689_599, 2))),
    ];
    assert_eq!(rt; count_after(rt.alloc(), 0, &rounds)?, Some(4));
    // After the greatest number no sample begins.
    let greatest = taken(1_073_741_823, at(764_426_119, 1));
    let rounds = [
        Round::of(Some(first), 13, 0, None),
        Round::of(Some(second), 0, 12, greatest),
    ];
    let count = count_after(rt.alloc(), 1_073_741_822, &rounds)?;
    assert_eq!(rt; count, Some(2_147_483_646));
    Ok(())
}

/// Whether the next stores are these.
fn makes(segment: &Segment, publisher: &mut Publisher, expected: &[(u8, u64)]) -> bool
    requires { publisher.old.segment ≡ segment.now }
    ensures { publisher.new.segment ≡ publisher.old.segment }
{
    let mut as_expected = true;
    for &(word, value) in expected {
        as_expected &= publisher.step(segment) == PubStep::Stored { word, value };
    }
    as_expected
}

#[test]
fn a_sample_takes_thirteen_stores(rt: HostRuntime) -> Result<(), Fail> {
    let (segment, mut publisher) = Segment::new(rt.alloc(), 0)?;
    publisher.begin(Sample {
        reference: Stamp {
            sec: 764_426_119,
            nsec: 250_000_999,
        },
        host: Stamp {
            sec: 1,
            nsec: 2_000,
        },
        precision: -1,
    });
    let expected = [
        (9, 0),
        (1, 1),
        (2, 764_426_119),
        (3, 250_000),
        (4, 1),
        (5, 2),
        (6, 0),
        (7, 18_446_744_073_709_551_615),
        (8, 3),
        (10, 250_000_999),
        (11, 2_000),
        (1, 2),
        (9, 1),
    ];
    assert!(rt; makes(&segment, &mut publisher, &expected));
    assert_eq!(rt; publisher.step(&segment), PubStep::Idle);
    Ok(())
}
