ghost use Rattle.std.specs.Prelude.{◌≡◌, ◌∷◌, ◌++◌, [], IfOk, OnOk, OnErr, nat_eq};
ghost use Rattle.std.specs.Cmp.{partial_equiv_from_equiv};
ghost use Rattle.std.specs.Cmp.Lexicographic.{nat_list_eq_equiv, pointwise};

use gps_fixed::NoMemory;
use std::alloc::Global;
use std::marker::Model;

/// The ids of the satellites that a GSA says are used, in order.
#[derive(Debug, Drop)]
pub struct Ids {
    items: Vec<u32>,
}

impl Model for Ids {
    ghost use Rattle.std.specs.Prelude.{List, ℕ};

    ghost Value = { List ℕ };

    ghost view = { λ ids. ids.items.items };
}

impl Ids {
    /// No ids. Takes no memory.
    pub fn new(alloc: Global) -> Ids
        ensures { result ≡ [] }
    {
        Ids {
            items: Vec::new(alloc),
        }
    }

    pub fn from_vec(items: Vec<u32>) -> Ids
        ensures { result ≡ items.items }
    {
        Ids { items }
    }

    /// Adds an id at the end; a refusal changes nothing.
    pub fn push(&mut self, id: u32) -> Result<(), NoMemory>
        ensures ok { OnOk result (self.new ≡ self.old ++ id ∷ []) }
        ensures err { OnErr result (self.new ≡ self.old) }
    {
        self.items.push(id)?;
        Ok(())
    }

    pub fn as_slice(&self) -> &[u32]
        ensures { result.now ≡ self.now }
    {
        self.items.as_slice()
    }

    pub fn copy(&self) -> Result<Ids, NoMemory>
        ensures { IfOk result (λ ids. ids ≡ self.now) }
    {
        let items = self.items.clone()?;
        Ok(Ids { items })
    }
}

impl PartialEq for Ids {
    ghost eq = { pointwise nat_eq };

    ghost laws = { partial_equiv_from_equiv nat_list_eq_equiv };

    fn eq(&self, other: &Ids) -> bool {
        self.items.as_slice() == other.items.as_slice()
    }
}

impl Eq for Ids {
    ghost laws = { nat_list_eq_equiv };
}
