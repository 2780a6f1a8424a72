//! What a giver stores into a hand-off, and what a taker consumes.

ghost use Rattle.std.specs.Prelude.{◌≡◌};

use crate::numbered::numbered;
use gps_fixed::NoMemory;
use shm_consumer::{Consumption, Giver, HandOff, PubStep, TakeStep, Taker};
use std::alloc::Global;
use std::test::Fail;

/// Makes this many stores, and says how many there were to make.
fn stores(hand: &HandOff, giver: &mut Giver, most: u32) -> u32
    requires { giver.old.segment ≡ hand.now }
    ensures { giver.new.segment ≡ giver.old.segment }
{
    let mut made = 0u32;
    for _ in 0..most {
        if giver.step(hand) != PubStep::Idle {
            made = made.saturating_add(1);
        }
    }
    made
}

/// Makes this many steps, and gives the last one if it ended a reading.
fn steps(hand: &HandOff, taker: &mut Taker, most: u32) -> Option<TakeStep>
    requires { taker.old.segment ≡ hand.now }
    ensures { taker.new.segment ≡ taker.old.segment }
{
    let mut ended = None;
    for _ in 0..most {
        ended = match taker.step(hand) {
            TakeStep::Loaded { word: _, value: _ } => None,
            step => Some(step),
        };
    }
    ended
}

/// A sample to begin, stores, and steps of the taker, the last of which ended a reading so.
#[derive(Clone, Copy)]
struct Round {
    begins: Option<u32>,
    stores: u32,
    steps: u32,
    ended: Option<TakeStep>,
}

impl Round {
    fn of(begins: Option<u32>, stores: u32, steps: u32, ended: Option<TakeStep>) -> Round {
        Round {
            begins,
            stores,
            steps,
            ended,
        }
    }
}

fn consumed(number: u32) -> Consumption {
    Consumption::Consumed {
        number,
        sample: numbered(number),
    }
}

/// Whether the stores and steps in this order end so, and the calls of consume after them.
fn in_order(
    hand: &HandOff,
    giver: &mut Giver,
    taker: &mut Taker,
    rounds: &[Round],
    consumptions: &[Consumption],
) -> bool
    requires giver { giver.old.segment ≡ hand.now }
    requires taker { taker.old.segment ≡ hand.now }
{
    let mut good = true;
    for round in rounds {
        if let Some(number) = round.begins {
            giver.begin(numbered(number));
        }
        good &= stores(hand, giver, round.stores) == round.stores;
        good &= steps(hand, taker, round.steps) == round.ended;
    }
    for consumption in consumptions {
        good &= taker.consume(hand) == *consumption;
    }
    good
}

/// Whether it comes so at a new hand-off.
fn comes_so(
    alloc: Global,
    rounds: &[Round],
    consumptions: &[Consumption],
) -> Result<bool, NoMemory> {
    let (hand, mut giver, mut taker) = HandOff::new(alloc, 0)?;
    Ok(in_order(&hand, &mut giver, &mut taker, rounds, consumptions))
}

#[test]
fn a_sample_is_consumed_once(rt: HostRuntime) -> Result<(), Fail> {
    let clash = TakeStep::Ended(Consumption::Clash {
        before: 2,
        after: 3,
    });
    let cleared = TakeStep::Cleared {
        number: 1,
        sample: numbered(1),
    };
    let rows: &[(&[Round], &[Consumption])] = &[
        (
            &[Round::of(Some(1), 13, 0, None)],
            &[consumed(1), Consumption::NotReady { count: 2, valid: 0 }],
        ),
        // A clash leaves valid alone.
        (
            &[
                Round::of(Some(1), 13, 6, None),
                Round::of(Some(2), 2, 6, Some(clash)),
                Round::of(None, 11, 0, None),
            ],
            &[consumed(2)],
        ),
        // A clear may wipe a newer sample.
        (
            &[
                Round::of(Some(1), 13, 12, None),
                Round::of(Some(2), 13, 1, Some(cleared)),
            ],
            &[Consumption::NotReady { count: 4, valid: 0 }],
        ),
    ];
    for (rounds, consumptions) in rows {
        assert!(rt; comes_so(rt.alloc(), *rounds, *consumptions)?);
    }
    Ok(())
}
