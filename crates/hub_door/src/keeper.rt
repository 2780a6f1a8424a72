ghost use Rattle.std.specs.Prelude.{◌≡◌};
ghost use Rattle.hub_door.specs.Admissions.{admitting, drop_entry, dropping, entered, entry_of, finished, link_of};

use crate::naming::{Cut, DoorNaming};
use crate::plays::{Entering, Finishes};
use crate::seat::DoorSeat;
use crate::steps::{add, compare, renew};
use crate::table::{DoorWord, TableSeat};
use gps_lane::{Due, Rx, Tx};
use std::marker::{Brand, Model};
use std::snapshot::Snapshot;
use std::sync::ledger::Book;

/// The hub's side of its door.
#[derive(Drop)]
pub struct Keeper<J: DoorNaming> {
    pub(crate) word: DoorWord,
    pub(crate) seat: TableSeat,
    pub(crate) ledger: Book<J>,
    pub(crate) cut: Cut<J>,
}

impl<J: DoorNaming> Model for Keeper<J> {
    ghost use Rattle.std.specs.Prelude.{◌≡◌, [], length};
    ghost use Rattle.hub_door.specs.Admissions.{Admissions, admissions};
    ghost use Rattle.hub_door.specs.Views.{keeper};

    ghost Value = { Admissions };

    ghost view = { λ k. admissions k.seat.me.0.list };

    ghost invariant = { λ k. (k.word.shared.table_id ≡ J.table) × (k.word.shared.table_id.words ≡ 1) × (k.seat.table_id ≡ J.table)
        × (k.seat.me ≡ (keeper k.seat.me.0.list, [])) × (k.ledger.total ≡ length k.seat.me.0.list) };
}

impl<J: DoorNaming> Keeper<J> {
    /// The hub and the door worker know the same.
    pub fn agree(&mut self, door: &mut DoorSeat<J>)
        ensures same { self.old ≡ door.old }
        ensures keeper { self.new ≡ self.old }
        ensures door { door.new ≡ door.old }
    {
        let Keeper {
            word,
            seat,
            ledger,
            cut,
        } = self;
        cut.show();
        ledger.audit(&mut door.share);
        compare(word, seat, &mut door.note);
    }

    fn enter<E: Entering>(&mut self, door: &mut DoorSeat<J>)
        ensures same { self.old ≡ door.old }
        ensures keeper { self.new ≡ entered E.entry self.old }
        ensures door { door.new ≡ entered E.entry door.old }
    {
        let Keeper {
            word,
            seat,
            ledger,
            cut,
        } = self;
        cut.show();
        ledger.audit(&mut door.share);
        compare(word, seat, &mut door.note);
        add::<E>(word, seat);
        renew(word, seat, &mut door.note);
        ledger.add(&mut door.share, 1);
    }

    fn enter_link<E: Entering, A: Due, B: Due, R>(
        &mut self,
        door: &mut DoorSeat<J>,
        outlet: Snapshot<Tx<A, R>>,
        input: Snapshot<Rx<B, R>>,
    )
        requires picked { E.entry ≡ entry_of (link_of outlet.value.lane outlet.value.cap input.value.lane) }
        ensures same { self.old ≡ door.old }
        ensures keeper { self.new ≡ admitting (link_of outlet.value.lane outlet.value.cap input.value.lane) self.old }
        ensures door { door.new ≡ admitting (link_of outlet.value.lane outlet.value.cap input.value.lane) door.old }
    {
        self.enter::<E>(door);
        let _lanes = (outlet, input);
    }

    /// Notes that a session was admitted with these lanes.
    pub fn admit<A: Due, B: Due, R>(
        &mut self,
        door: &mut DoorSeat<J>,
        outlet: Snapshot<Tx<A, R>>,
        input: Snapshot<Rx<B, R>>,
    )
        ensures same { self.old ≡ door.old }
        ensures keeper { self.new ≡ admitting (link_of outlet.value.lane outlet.value.cap input.value.lane) self.old }
        ensures door { door.new ≡ admitting (link_of outlet.value.lane outlet.value.cap input.value.lane) door.old }
    {
        self.enter_link::<Brand, A, B, R>(door, outlet, input);
    }

    fn enter_drop<N: Entering>(
        &mut self,
        door: &mut DoorSeat<J>,
        live: u32,
        opened: u32,
        held: usize,
    )
        requires picked { N.entry ≡ drop_entry (record { live = live; opened = opened; held = held }) }
        ensures same { self.old ≡ door.old }
        ensures keeper { self.new ≡ dropping (record { live = live; opened = opened; held = held }) self.old }
        ensures door { door.new ≡ dropping (record { live = live; opened = opened; held = held }) door.old }
    {
        self.enter::<N>(door);
        let _numbers = (live, opened, held);
    }

    /// Notes that a link was dropped, when this many sessions were live, had been opened, and were not yet released.
    pub fn drop_link(&mut self, door: &mut DoorSeat<J>, live: u32, opened: u32, held: usize)
        ensures same { self.old ≡ door.old }
        ensures keeper { self.new ≡ dropping (record { live = live; opened = opened; held = held }) self.old }
        ensures door { door.new ≡ dropping (record { live = live; opened = opened; held = held }) door.old }
    {
        self.enter_drop::<Brand>(door, live, opened, held);
    }

    /// Notes that the door has closed or failed.
    pub fn finish(&mut self, door: &mut DoorSeat<J>)
        ensures same { self.old ≡ door.old }
        ensures keeper { self.new ≡ finished self.old }
        ensures door { door.new ≡ finished door.old }
    {
        self.enter::<Finishes>(door);
    }
}
