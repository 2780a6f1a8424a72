ghost use Rattle.std.specs.Prelude.{◌≡◌, ◌≤◌, List, [], ◌∷◌, ◌++◌, IfOk, IfNone, IfSome, is_some, true, false};
ghost use Rattle.std.specs.Option.{option_to_list};
ghost use Rattle.gps_fixed.specs.Limits.{most_queue};
ghost use Rattle.crossbeam_queue.specs.Passes.{IsPassOf};
ghost use Rattle.session_core.specs.Naming.{untold};
ghost use Rattle.gps_lane.specs.Lane.{Begins, FlowBegins, PutAtLeast, flow, log, nothing, with_items};
ghost use Rattle.gps_fixed.specs.Lists.{IsPrefix};
ghost use Rattle.gps_lane.specs.Ends.{MatchPushed};

use crate::Due;
use crate::bond::{BondSeat, BondTable, meet, new_bond, part, untie};
use crate::order::{About, Ends, Gets, Getting, LanePass, Puts, Queue, Untold};
use gps_fixed::NoMemory;
use std::alloc::Global;
use std::marker::Model;
use std::sync::{Arc, Wait};

/// What a push into a lane answers.
#[derive(Drop)]
pub enum Pushed<T> {
    Done,
    /// The lane was full. The item comes back.
    Full(T),
}

/// The end of a lane that puts.
#[derive(Drop)]
pub struct Tx<T: Due, R> {
    rt: R,
    // None once the lane is closed.
    queue: Option<Arc<Queue<T>>>,
    pass: LanePass<T>,
    cap: u32,
    table: BondTable<T>,
    seat: BondSeat<T>,
}

impl<T: Due, R> Model for Tx<T, R> {
    ghost use Rattle.std.specs.Prelude.{◌≡◌, ◌≤◌, true, false, IfSome, is_some};
    ghost use Rattle.std.specs.Arc.{arc_value};
    ghost use Rattle.crossbeam_queue.specs.Passes.{IsPassOf, ruled_capacity};
    ghost use Rattle.gps_lane.specs.Bonds.{IsSeat, bond_by, putting};
    ghost use Rattle.gps_lane.specs.Lane.{FlowBegins, log, nothing};
    ghost use Rattle.gps_lane.specs.Ends.{Putting};

    ghost Value = { Putting T };

    ghost view = { λ s. record {
      lane = s.table.shared.table_id;
      about = s.pass.me.0.client.put.about;
      cap = s.cap;
      put = s.pass.me.0.client.put.items;
      is_open = is_some s.queue;
    } };

    ghost invariant = { λ s. (s.pass.me.0.client ≡ log true false s.pass.me.0.client.put nothing)
        × (1 ≤ s.cap)
        × (s.table.shared.table_id.words ≡ 1)
        × IfSome s.queue (λ q. IsPassOf (arc_value q) s.pass × (ruled_capacity (arc_value q) ≡ s.cap))
        × IsSeat s.table.shared.table_id s.seat.table_id s.seat.me (putting (bond_by s.queue s.pass.table_id s.pass.me.0.client.put.items))
        × FlowBegins T.due s.pass.me.0.client.put };
}

/// The end of a lane that gets.
#[derive(Drop)]
pub struct Rx<T: Due, R> {
    rt: R,
    // None once the lane is closed.
    queue: Option<Arc<Queue<T>>>,
    pass: LanePass<T>,
    seat: BondSeat<T>,
}

impl<T: Due, R> Model for Rx<T, R> {
    ghost use Rattle.std.specs.Prelude.{◌≡◌, true, false, IfSome};
    ghost use Rattle.std.specs.Arc.{arc_value};
    ghost use Rattle.crossbeam_queue.specs.Passes.{IsPassOf};
    ghost use Rattle.gps_lane.specs.Bonds.{IsSeat, bond_by, getting};
    ghost use Rattle.gps_lane.specs.Lane.{FlowBegins, log, nothing};
    ghost use Rattle.gps_lane.specs.Lane.{log};
    ghost use Rattle.gps_lane.specs.Ends.{Taking};

    ghost Value = { Taking T };

    ghost view = { λ s. record { lane = s.seat.table_id; about = s.pass.me.0.client.got.about; got = s.pass.me.0.client.got.items } };

    ghost invariant = { λ s. (s.pass.me.0.client ≡ log false true nothing s.pass.me.0.client.got)
        × IfSome s.queue (λ q. IsPassOf (arc_value q) s.pass)
        × IsSeat s.seat.table_id s.seat.table_id s.seat.me (getting (bond_by s.queue s.pass.table_id s.pass.me.0.client.got.items))
        × FlowBegins T.due s.pass.me.0.client.got };
}

/// A new lane that may hold `cap` items, and its two ends. What it is about is not told.
pub fn lane<T: Due + Drop, R: Wait + Copy>(
    rt: R,
    alloc: Global,
    cap: u32,
) -> Result<(Tx<T, R>, Rx<T, R>), NoMemory>
    // The lane may hold 1 to `most_queue` items.
    requires low { 1 ≤ cap }
    requires high { cap ≤ most_queue }

    // The lane is open, and nothing went through it yet.
    ensures cap { IfOk result (λ ends. ends.0.cap ≡ cap) }
    ensures put { IfOk result (λ ends. ends.0.put ≡ []) }
    ensures got { IfOk result (λ ends. ends.1.got ≡ []) }
    ensures open { IfOk result (λ ends. ends.0.is_open ≡ true) }

    // Both ends are of one lane.
    ensures one_lane { IfOk result (λ ends. ends.1.lane ≡ ends.0.lane) }
    ensures about { IfOk result (λ ends. (ends.0.about ≡ untold) × (ends.1.about ≡ untold)) }
{
    lane_about::<T, R, Untold>(rt, alloc, cap)
}

/// As [`lane`], about what the call picks.
pub fn lane_about<T: Due + Drop, R: Wait + Copy, E: About>(
    rt: R,
    alloc: Global,
    cap: u32,
) -> Result<(Tx<T, R>, Rx<T, R>), NoMemory>
    // The lane may hold 1 to `most_queue` items.
    requires low { 1 ≤ cap }
    requires high { cap ≤ most_queue }

    // The lane is open, and nothing went through it yet.
    ensures cap { IfOk result (λ ends. ends.0.cap ≡ cap) }
    ensures put { IfOk result (λ ends. ends.0.put ≡ []) }
    ensures got { IfOk result (λ ends. ends.1.got ≡ []) }
    ensures open { IfOk result (λ ends. ends.0.is_open ≡ true) }

    // Both ends are of one lane.
    ensures one_lane { IfOk result (λ ends. ends.1.lane ≡ ends.0.lane) }
    ensures about { IfOk result (λ ends. (ends.0.about ≡ E.about) × (ends.1.about ≡ E.about)) }
{
    let (queue, mut pass) = Queue::<T>::ruled(alloc, cap as usize)?;
    let theirs = queue.another::<Ends<E>>(&mut pass);
    let (table, seat, their_seat) = new_bond(alloc, &pass)?;
    let queue = Arc::new(alloc, queue)?;
    let other = Arc::try_clone(&queue)?;
    let tx = Tx {
        rt,
        queue: Some(queue),
        pass,
        cap,
        table,
        seat,
    };
    let rx = Rx {
        rt,
        queue: Some(other),
        pass: theirs,
        seat: their_seat,
    };
    Ok((tx, rx))
}

impl<T: Due + Drop, R: Wait + Copy> Tx<T, R> {
    /// Puts an item. With it, what was put must be a prefix of something that is due. The answer is [`Pushed::Full`] if the lane was full at one
    /// moment of the call; the clause says only that at least as many items were put before as the lane may hold.
    ///
    /// Takes no memory. It may wait for a step of the other end inside the queue. A lane that is closed ([`settle_or_close`]) takes no item:
    /// neither answer would be true of it.
    pub fn push(&mut self, item: T) -> Pushed<T>
        requires open { self.old.is_open ≡ true }
        requires due { Begins T.due self.old.about (self.old.put ++ item ∷ []) }
        ensures done { MatchPushed result (self.new ≡ record self.old { put = self.old.put ++ item ∷ [] }) (λ back. (back ≡ item) × (self.new ≡ self.old)) }
        ensures full { MatchPushed result (Unit {0}) (λ _. PutAtLeast self.old.cap self.old.put) }
    {
        let Some(queue) = &self.queue else {
            unreachable!()
        };
        match queue.push_as::<Puts, R>(&self.rt, &mut self.pass, item) {
            Ok(()) => Pushed::Done,
            Err(back) => Pushed::Full(back),
        }
    }

    /// A lane has room for one item at least.
    pub fn show(&self)
        ensures { 1 ≤ self.now.cap }
    {
        let _cap = &self.cap;
    }

    /// What was put is a prefix of something that is due.
    pub fn show_due(&self)
        ensures { Begins T.due self.now.about self.now.put }
    {
        let _pass = &self.pass;
    }
}

impl<T: Due + Drop, R: Wait + Copy> Rx<T, R> {
    /// Gets the next item, or None if the lane holds none. No clause says that None comes only then; [`settle`] says it, if both ends
    /// are at hand.
    ///
    /// Takes no memory. It may wait for a step of the other end inside the queue.
    pub fn pop(&mut self) -> Option<T>
        ensures { self.new ≡ record self.old { got = self.old.got ++ option_to_list result } }
    {
        match &self.queue {
            Some(queue) => queue.pop_as::<Gets, R>(&self.rt, &mut self.pass),
            None => None,
        }
    }

    /// What was received is a prefix of something that is due.
    pub fn show_due(&self)
        ensures { Begins T.due self.now.about self.now.got }
    {
        let _pass = &self.pass;
    }
}

/// Gets the next item by the passes of both ends of a queue.
fn next<T: Due + Drop, R: Wait + Copy>(
    rt: &R,
    queue: &Queue<T>,
    tx: &mut LanePass<T>,
    rx: &mut LanePass<T>,
) -> Option<T>
    // Both passes are of this queue. One end puts, the other gets.
    requires tx { IsPassOf queue.now tx.old }
    requires rx { IsPassOf queue.now rx.old }
    requires puts { tx.old.me.0.client ≡ log true false tx.old.me.0.client.put nothing }
    requires gets { rx.old.me.0.client ≡ log false true nothing rx.old.me.0.client.got }
    requires due { FlowBegins T.due rx.old.me.0.client.got }

    // The next item is received, if there is one.
    ensures tx { IsPassOf queue.now tx.new × (tx.new.me.0.client ≡ tx.old.me.0.client) }
    ensures rx { IsPassOf queue.now rx.new × (rx.new.me.0.client ≡ log false true nothing (with_items (option_to_list result) rx.old.me.0.client.got)) }
    ensures ids { (tx.new.table_id ≡ tx.old.table_id) × (rx.new.table_id ≡ rx.old.table_id) }

    // What was received is a prefix of what was put, and all of it if there was no item left.
    ensures prefix { IsPrefix rx.new.me.0.client.got.items tx.new.me.0.client.put.items }
    ensures all { IfNone result (rx.new.me.0.client.got.items ≡ tx.new.me.0.client.put.items) }
    ensures due { FlowBegins T.due rx.new.me.0.client.got }
{
    let lent = queue.another::<Getting>(rx);
    queue.absorb::<Getting>(tx, lent);
    let item = queue.pop_as::<Gets, R>(rt, tx);
    let back = queue.another::<Getting>(tx);
    queue.absorb::<Getting>(rx, back);
    item
}

/// Gets the next item, with both ends of the lane at hand. What was received is then a prefix of what was put, and all of
/// it if there was no item left. Takes no memory.
pub fn settle<T: Due + Drop, R: Wait + Copy>(tx: &mut Tx<T, R>, rx: &mut Rx<T, R>) -> Option<T>
    requires { rx.old.lane ≡ tx.old.lane }
    ensures tx { tx.new ≡ tx.old }
    ensures open { IfSome result (λ _. tx.old.is_open ≡ true) }
    ensures rx { rx.new ≡ record rx.old { got = rx.old.got ++ option_to_list result } }
    ensures prefix { (rest : List T) × (tx.new.put ≡ rx.new.got ++ rest) }
    ensures all { IfNone result (rx.new.got ≡ tx.new.put) }
{
    meet(&tx.table, &mut tx.seat, &mut rx.seat);
    let item = match &tx.queue {
        Some(queue) => next(&tx.rt, queue, &mut tx.pass, &mut rx.pass),
        None => None,
    };
    rx.seat = part(&tx.table, &mut tx.seat);
    item
}

/// Closes a lane that holds nothing: its two ends drop the queue. Each keeps the one word of the lane's table, so that they can still be settled.
fn close<T: Due + Drop, R: Wait + Copy>(tx: &mut Tx<T, R>, rx: &mut Rx<T, R>)
    requires one_lane { rx.old.lane ≡ tx.old.lane }
    requires all { rx.old.got ≡ tx.old.put }
    ensures tx { tx.new ≡ record tx.old { is_open = false } }
    ensures rx { rx.new ≡ rx.old }
{
    meet(&tx.table, &mut tx.seat, &mut rx.seat);
    untie(&tx.table, &mut tx.seat, &tx.pass);
    tx.queue = None;
    rx.queue = None;
    rx.seat = part(&tx.table, &mut tx.seat);
}

/// As [`settle`], and closes the lane if there was no item left: nothing more can be put, and its queue needs no memory from then on.
pub fn settle_or_close<T: Due + Drop, R: Wait + Copy>(
    tx: &mut Tx<T, R>,
    rx: &mut Rx<T, R>,
) -> Option<T>
    requires { rx.old.lane ≡ tx.old.lane }
    ensures tx { tx.new ≡ record tx.old { is_open = is_some result } }
    ensures rx { rx.new ≡ record rx.old { got = rx.old.got ++ option_to_list result } }
    ensures prefix { (rest : List T) × (tx.new.put ≡ rx.new.got ++ rest) }
    ensures all { IfNone result (rx.new.got ≡ tx.new.put) }
{
    let item = settle(tx, rx);
    if item.is_none() {
        close(tx, rx);
    }
    item
}
