//! What is put into a lane and what is received from it, in one thread and in two.

ghost use Rattle.std.specs.Prelude.{◌≡◌, true};

use gps_lane::{Bell, Pushed, Rx, Tx, lane, settle, settle_or_close};
use std::sync::Wait;
use std::test::Fail;
use std::thread;

/// The item that a push gave back.
fn back_of(pushed: Pushed<u32>) -> Option<u32> {
    match pushed {
        Pushed::Done => None,
        Pushed::Full(back) => Some(back),
    }
}

/// A call of an end of a lane, and what it gives.
#[derive(Clone, Copy)]
enum Step {
    Push(u32, Option<u32>),
    Pop(Option<u32>),
    Settle(Option<u32>),
}

/// Whether a call gives what it should.
fn gives<R: Wait + Copy>(tx: &mut Tx<u32, R>, rx: &mut Rx<u32, R>, step: Step) -> bool
    requires open { tx.old.is_open ≡ true }
    requires one_lane { rx.old.lane ≡ tx.old.lane }
    ensures open { tx.new.is_open ≡ true }
    ensures one_lane { rx.new.lane ≡ tx.new.lane }
{
    match step {
        Step::Push(number, back) => back_of(tx.push(number)) == back,
        Step::Pop(number) => rx.pop() == number,
        Step::Settle(number) => settle(tx, rx) == number,
    }
}

/// Whether these calls, one after another, give what they should.
fn all_give<R: Wait + Copy>(tx: &mut Tx<u32, R>, rx: &mut Rx<u32, R>, steps: &[Step]) -> bool
    requires open { tx.old.is_open ≡ true }
    requires one_lane { rx.old.lane ≡ tx.old.lane }
    ensures open { tx.new.is_open ≡ true }
    ensures one_lane { rx.new.lane ≡ tx.new.lane }
{
    let mut good = true;
    for step in steps {
        good &= gives(tx, rx, *step);
    }
    good
}

#[test]
fn a_lane_of_two_has_room_again_once_two_were_received(rt: HostRuntime) -> Result<(), Fail> {
    let (mut tx, mut rx) = lane(rt, rt.alloc(), 2)?;
    let steps = [
        Step::Settle(None),
        Step::Push(1, None),
        Step::Push(2, None),
        Step::Push(3, Some(3)),
        Step::Pop(Some(1)),
        Step::Pop(Some(2)),
        Step::Pop(None),
        Step::Push(4, None),
        Step::Push(5, None),
        Step::Push(6, Some(6)),
        Step::Settle(Some(4)),
    ];
    assert!(rt; all_give(&mut tx, &mut rx, &steps));
    Ok(())
}

#[test]
fn the_ends_of_a_closed_lane_can_still_be_settled(rt: HostRuntime) -> Result<(), Fail> {
    let (mut tx, mut rx) = lane(rt, rt.alloc(), 2)?;
    assert!(rt; all_give(&mut tx, &mut rx, &[Step::Push(1, None)]));
    let settled = (
        settle_or_close(&mut tx, &mut rx),
        settle_or_close(&mut tx, &mut rx),
    );
    assert_eq!(rt; settled, (Some(1), None));
    assert_eq!(rt; (rx.pop(), settle(&mut tx, &mut rx)), (None, None));
    Ok(())
}

/// One thread rings `items` when an item came, and the other rings `room` when the lane has room.
#[derive(Drop)]
struct Bells {
    items: Bell,
    room: Bell,
}

const NUMBERS: u32 = 1_000_000;

fn put_numbers<R: Wait + Copy>(rt: &R, tx: &mut Tx<u32, R>, bells: &Bells)
    requires { tx.old.is_open ≡ true }
{
    for number in 0..NUMBERS {
        let mut next = number;
        for _ in rt.forever() {
            match tx.push(next) {
                Pushed::Done => break,
                Pushed::Full(back) => next = back,
            }
            bells.room.wait(rt);
        }
        bells.items.ring();
    }
}

/// Whether the numbers came in order.
fn get_numbers<R: Wait + Copy>(rt: &R, rx: &mut Rx<u32, R>, bells: &Bells) -> bool {
    for wanted in 0..NUMBERS {
        for _ in rt.forever() {
            match rx.pop() {
                Some(number) => {
                    if number != wanted {
                        return false;
                    }
                    break;
                }
                None => bells.items.wait(rt),
            }
        }
        bells.room.ring();
    }
    true
}

#[test]
fn items_come_in_order_between_threads(rt: HostRuntime) -> Result<(), Fail> {
    let (mut tx, mut rx) = lane(rt, rt.alloc(), 16)?;
    let bells = Bells {
        items: Bell::new(),
        room: Bell::new(),
    };
    let shared = &bells;
    let (_, in_order) = thread::join(
        &rt,
        move || put_numbers(&rt, &mut tx, shared),
        move || get_numbers(&rt, &mut rx, shared),
    );
    assert!(rt; in_order);
    bells.items.close();
    assert_eq!(rt;
        (bells.items.is_closed(), bells.room.is_closed()),
        (true, false)
    );
    Ok(())
}
