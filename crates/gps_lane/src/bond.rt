// The table by which the two ends of a lane agree on what they both know of it.
ghost use Rattle.std.specs.Prelude.{◌≡◌, IfOk};
ghost use Rattle.gps_lane.specs.Bonds.{IsSeat, both_ends, getting, let_go, open_over, putting};

use crate::order::{LaneLog, LanePass};
use crate::table_name::TableName;
use atomic_table::{Join, Play, Seat, Split, Table, TableRule};
use gps_fixed::NoMemory;
use std::alloc::Global;
use std::collections::LinkedList;
use std::marker::{Brand, PhantomData};

/// What both ends of a lane know of it. No value of it is made.
pub struct Bond<T> {
    /// The queue through which it goes, or went.
    pub queue: TableName,
    /// All that went through it, once they have dropped the queue.
    pub all: Option<LinkedList<T>>,
}

/// The rule of the table: each end knows the same.
pub struct Agreed;

impl<T> TableRule<(), LaneLog<Bond<T>>, ()> for Agreed {
    ghost use Rattle.gps_lane.specs.Bonds.{AgreesOf, both_ends, no_bond};

    ghost holds = { λ _ state. AgreesOf state };

    ghost first = { λ _. both_ends no_bond no_bond };
}

/// The table of a lane: one word, under its rule.
pub(crate) type BondTable<T> = Table<(), LaneLog<Bond<T>>, (), Agreed, Global>;

/// A seat of the table.
pub(crate) type BondSeat<T> = Seat<(), LaneLog<Bond<T>>>;

/// What a store lets both ends know. Each call picks it.
pub trait Bonding<T> {
    ghost use Rattle.gps_lane.specs.declared.bond.Bond.{Bond};

    ghost bond: { Bond T };
}

impl<T> Bonding<T> for Brand {
    ghost use Rattle.gps_lane.specs.Bonds.{no_bond};

    ghost bond = { no_bond };
}

/// A store by a seat that has both roles, by which both ends know something else.
pub struct Ties<E> {
    marker: PhantomData<E>,
}

impl<T, E: Bonding<T>> Play<(), LaneLog<Bond<T>>> for Ties<E> {
    ghost use Rattle.std.specs.Prelude.{◌≡◌, []};
    ghost use Rattle.gps_lane.specs.Bonds.{both_ends};

    ghost then = { λ step before word after. after ≡ (both_ends E.bond E.bond, []) };
}

/// A load by a seat that has both roles: they know the same.
pub struct Checks;

impl<T> Play<(), LaneLog<Bond<T>>> for Checks {
    ghost use Rattle.std.specs.Prelude.{◌≡◌};

    ghost then = { λ step before word after. (after ≡ before) × (before.0.put ≡ before.0.got) };
}

/// The role of getting passes from one seat to another.
pub struct GettingSeat;

impl<T> Split<LaneLog<Bond<T>>> for GettingSeat {
    ghost use Rattle.std.specs.Prelude.{true, false};
    ghost use Rattle.gps_lane.specs.Lane.{log};

    ghost left = { λ v. log v.puts false v.put v.put };

    ghost right = { λ v. log false true v.got v.got };
}

impl<T> Join<LaneLog<Bond<T>>> for GettingSeat {
    ghost use Rattle.std.specs.Prelude.{true, false};
    ghost use Rattle.gps_lane.specs.Bonds.{no_bond};
    ghost use Rattle.gps_lane.specs.Lane.{log};

    ghost both = { λ v w. log v.puts true v.put w.got };

    ghost spent = { log false false no_bond no_bond };
}

/// Both ends know from now on what the call picks, by the pass that it is given.
fn store<T, E: Bonding<T>>(table: &BondTable<T>, seat: &mut BondSeat<T>, _of: &LanePass<T>)
    requires one { table.now.shared.table_id.words ≡ 1 }
    requires seat { IsSeat table.now.shared.table_id seat.old.table_id seat.old.me (both_ends seat.old.me.0.put seat.old.me.0.got) }
    ensures { IsSeat table.now.shared.table_id seat.new.table_id seat.new.me (both_ends E.bond E.bond) }
{
    table.shared.store::<Ties<E>>(seat, 0, 0);
}

/// The lane goes through the queue of this pass.
fn tie<T>(table: &BondTable<T>, seat: &mut BondSeat<T>, pass: &LanePass<T>)
    requires one { table.now.shared.table_id.words ≡ 1 }
    requires seat { IsSeat table.now.shared.table_id seat.old.table_id seat.old.me (both_ends seat.old.me.0.put seat.old.me.0.got) }
    ensures { IsSeat table.now.shared.table_id seat.new.table_id seat.new.me (both_ends (open_over pass.now.table_id) (open_over pass.now.table_id)) }
{
    store::<T, Brand>(table, seat, pass);
}

/// The ends drop the queue of this pass. What the pass knows to be put is then all that went through it.
pub(crate) fn untie<T>(table: &BondTable<T>, seat: &mut BondSeat<T>, pass: &LanePass<T>)
    requires one { table.now.shared.table_id.words ≡ 1 }
    requires seat { IsSeat table.now.shared.table_id seat.old.table_id seat.old.me (both_ends seat.old.me.0.put seat.old.me.0.got) }
    ensures { IsSeat table.now.shared.table_id seat.new.table_id seat.new.me (both_ends (let_go pass.now.table_id pass.now.me.0.client.put.items)
        (let_go pass.now.table_id pass.now.me.0.client.put.items)) }
{
    store::<T, Brand>(table, seat, pass);
}

/// The seat of the end that gets, cut off one that has both roles.
pub(crate) fn part<T>(table: &BondTable<T>, seat: &mut BondSeat<T>) -> BondSeat<T>
    requires one { table.now.shared.table_id.words ≡ 1 }
    requires seat { IsSeat table.now.shared.table_id seat.old.table_id seat.old.me (both_ends seat.old.me.0.put seat.old.me.0.got) }
    ensures putting { IsSeat table.now.shared.table_id seat.new.table_id seat.new.me (putting seat.old.me.0.put) }
    ensures getting { IsSeat table.now.shared.table_id result.table_id result.me (getting seat.old.me.0.got) }
{
    table.shared.split_seat::<GettingSeat>(seat)
}

/// The seat of the end that puts gets both roles, and both ends are found to know the same.
pub(crate) fn meet<T>(table: &BondTable<T>, put: &mut BondSeat<T>, got: &mut BondSeat<T>)
    requires one { table.now.shared.table_id.words ≡ 1 }
    requires put { IsSeat table.now.shared.table_id put.old.table_id put.old.me (putting put.old.me.0.put) }
    requires got { IsSeat table.now.shared.table_id got.old.table_id got.old.me (getting got.old.me.0.got) }
    ensures same { put.old.me.0.put ≡ got.old.me.0.got }
    ensures seat { IsSeat table.now.shared.table_id put.new.table_id put.new.me (both_ends put.old.me.0.put put.old.me.0.put) }
{
    let lent = table.shared.split_seat::<GettingSeat>(got);
    table.shared.join_seat::<GettingSeat>(put, lent);
    table.shared.load::<Checks>(put, 0);
}

/// The table of a lane that goes through the queue of this pass, and the seats of its two ends.
pub(crate) fn new_bond<T>(
    alloc: Global,
    pass: &LanePass<T>,
) -> Result<(BondTable<T>, BondSeat<T>, BondSeat<T>), NoMemory>
    ensures one { IfOk result (λ r. r.0.shared.table_id.words ≡ 1) }
    ensures putting { IfOk result (λ r. IsSeat r.0.shared.table_id r.1.table_id r.1.me (putting (open_over pass.now.table_id))) }
    ensures getting { IfOk result (λ r. IsSeat r.0.shared.table_id r.2.table_id r.2.me (getting (open_over pass.now.table_id))) }
{
    let (table, mut seat) = BondTable::<T>::of_words(alloc, &[0], &())?;
    tie(&table, &mut seat, pass);
    let theirs = part(&table, &mut seat);
    Ok((table, seat, theirs))
}
