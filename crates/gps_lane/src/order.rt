use crate::Due;
use crossbeam_queue::protocol::{Join, Lesson, Outcome, Protocol, Split};
use crossbeam_queue::{Pass, RuledArrayQueue};
use session_core::Subject;
use std::collections::LinkedList;
use std::marker::{Brand, PhantomData};

/// What an end of a lane may do, and what it knows of what was put and what was received. No value of it is made.
pub struct LaneLog<X> {
    pub puts: bool,
    pub gets: bool,
    pub put: X,
    pub got: X,
}

/// Items that went through a lane, and what the lane is about. No value of it is made.
pub struct Flow<T> {
    pub about: Subject,
    pub items: LinkedList<T>,
}

/// What was put into the queue, and what was received from it.
pub(crate) type Items<T> = LaneLog<Flow<T>>;

/// The rule of a lane: what was put is what was received, and then what the lane holds; and it is a prefix of something that is due.
pub struct InOrder;

impl<T: Due> Protocol<T, Items<T>> for InOrder {
    ghost use Rattle.std.specs.Prelude.{true};
    ghost use Rattle.gps_lane.specs.Lane.{log, nothing, IsInOrder};

    ghost holds = { IsInOrder T.due };

    ghost first = { log true true nothing nothing };
}

/// One more item is put; the lane is full only if it holds as many of the last items as it has room for.
pub struct Puts;

impl<T> Outcome<T, Items<T>> for Puts {
    ghost use Rattle.std.specs.Prelude.{◌≡◌, [], ◌∷◌};
    ghost use Rattle.gps_lane.specs.Lane.{log, with_items};

    ghost then = { λ v x w. w ≡ log v.puts v.gets (with_items (x ∷ []) v.put) v.got };
}

impl<T> Lesson<T, Items<T>> for Puts {
    ghost use Rattle.gps_lane.specs.Lane.{EndsWith};

    ghost fact = { λ v items. EndsWith items v.put.items };
}

/// One more item is received, and what was received is a prefix of something that is due. An end that knows both lists knows that what was
/// received is a prefix of what was put, and all of it if there was no item left.
pub struct Gets;

impl<T: Due> Outcome<T, Items<T>> for Gets {
    ghost use Rattle.std.specs.Prelude.{◌≡◌, [], ◌∷◌, true};
    ghost use Rattle.gps_lane.specs.Lane.{log, with_items, FlowBegins};
    ghost use Rattle.gps_fixed.specs.Lists.{IsPrefix};

    ghost then = { λ v x w. (w ≡ log v.puts v.gets v.put (with_items (x ∷ []) v.got)) × (v.puts ≡ true → IsPrefix w.got.items w.put.items)
        × FlowBegins T.due (with_items (x ∷ []) v.got) };
}

impl<T> Lesson<T, Items<T>> for Gets {
    ghost use Rattle.std.specs.Prelude.{◌≡◌, ◌++◌, true};

    ghost fact = { λ v items. v.puts ≡ true → v.put.items ≡ v.got.items ++ items };
}

/// The role of getting passes from one end to another.
pub struct Getting;

impl<T> Split<Items<T>> for Getting {
    ghost use Rattle.std.specs.Prelude.{true, false};
    ghost use Rattle.gps_lane.specs.Lane.{log, nothing};

    ghost left = { λ v. log v.puts false v.put nothing };

    ghost right = { λ v. log false true nothing v.got };
}

impl<T> Join<Items<T>> for Getting {
    ghost use Rattle.std.specs.Prelude.{true, false};
    ghost use Rattle.gps_lane.specs.Lane.{log, nothing};

    ghost both = { λ v w. log v.puts true v.put w.got };

    ghost spent = { log false false nothing nothing };
}

/// What a new lane is about. Each call picks it.
pub trait About {
    ghost use Rattle.session_core.specs.declared.subject.Subject.{Subject};

    ghost about: { Subject };
}

impl About for Brand {
    ghost use Rattle.session_core.specs.Naming.{untold};

    ghost about = { untold };
}

/// Nothing is told of what a lane is about.
pub struct Untold;

impl About for Untold {
    ghost use Rattle.session_core.specs.Naming.{untold};

    ghost about = { untold };
}

/// The two ends of a new lane, which is about this.
pub struct Ends<E> {
    of: PhantomData<E>,
}

impl<T, E: About> Split<Items<T>> for Ends<E> {
    ghost use Rattle.std.specs.Prelude.{true, false, []};
    ghost use Rattle.gps_lane.specs.Lane.{flow, log, nothing};

    ghost left = { λ v. log true false (flow E.about []) nothing };

    ghost right = { λ v. log false true nothing (flow E.about []) };
}

/// The queue of a lane.
pub(crate) type Queue<T> = RuledArrayQueue<T, Items<T>, InOrder>;

/// A pass of the queue of a lane.
pub(crate) type LanePass<T> = Pass<T, Items<T>>;
