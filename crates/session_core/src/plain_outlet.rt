ghost use Rattle.std.specs.Prelude.{◌≡◌, ◌≤◌, [], length, drop, slice_get, IfOk};

use crate::{Item, Outlet, Push};
use gps_fixed::NoMemory;
use std::alloc::Global;
use std::collections::VecDeque;
use std::marker::Model;

/// An outlet that holds its items itself: first in, first out.
#[derive(Drop)]
pub struct PlainOutlet {
    items: VecDeque<Item>,
    cap: usize,
}

impl Model for PlainOutlet {
    ghost use Rattle.std.specs.Prelude.{◌≤◌, length};
    ghost use Rattle.std.specs.VecDeque.{deque_capacity};
    ghost use Rattle.session_core.specs.Queue.{Queue};

    ghost Value = { Queue };

    ghost view = { λ s. record { cap = s.cap; held = s.items.items } };

    ghost invariant = { λ s. (length s.items.items ≤ s.cap) × (s.cap ≤ 65536) × (s.cap ≤ deque_capacity s.items) };
}

impl PlainOutlet {
    /// Room for `cap` items is allocated at once.
    pub fn new(alloc: Global, cap: u32) -> Result<PlainOutlet, NoMemory>
        requires low { 1 ≤ cap }
        requires high { cap ≤ 65536 }
        ensures { IfOk result (λ s. s ≡ record { cap = cap; held = [] }) }
    {
        let cap = cap as usize;
        let items = VecDeque::with_capacity(alloc, cap)?;
        Ok(PlainOutlet { items, cap })
    }

    /// The item that was pushed first; none exactly if nothing is held.
    pub fn take(&mut self) -> Option<Item>
        ensures item { result ≡ slice_get self.old.held 0 }
        ensures rest { self.new ≡ record self.old { held = drop 1 self.old.held } }
    {
        self.items.pop_front()
    }

    /// How many items are held.
    pub fn held(&self) -> u32
        ensures { result ≡ length self.now.held }
    {
        self.items.len() as u32
    }
}

impl Outlet for PlainOutlet {
    ghost use Rattle.std.specs.Prelude.{true};
    ghost use Rattle.session_core.specs.Naming.{OutletName, alone};

    ghost kept = { λ s. s.held };

    ghost cap = { λ s. s.cap };

    ghost name = { λ _. OutletName.alone };

    ghost exact = { true };

    fn push(&mut self, item: Item) -> Push {
        if self.items.len() == self.cap {
            return Push::Full;
        }
        self.items.push_back_reserved(item);
        Push::Done
    }
}
