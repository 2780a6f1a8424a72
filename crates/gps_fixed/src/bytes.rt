ghost use Rattle.std.specs.Prelude.{◌≡◌, ◌∷◌, ◌++◌, [], IfOk, OnOk, OnErr, length, nat_eq};
ghost use Rattle.std.specs.Cmp.{partial_equiv_from_equiv};
ghost use Rattle.std.specs.Cmp.Lexicographic.{nat_list_eq_equiv, pointwise};

use crate::NoMemory;
use std::alloc::Global;
use std::marker::Model;

/// A list of bytes that owns its memory.
#[derive(Debug, Drop)]
pub struct Bytes {
    items: Vec<u8>,
}

impl Model for Bytes {
    ghost use Rattle.std.specs.Prelude.{List, ℕ};

    ghost Value = { List ℕ };

    ghost view = { λ b. b.items.items };
}

impl Bytes {
    /// No bytes. Takes no memory.
    pub fn new(alloc: Global) -> Bytes
        ensures { result ≡ [] }
    {
        Bytes {
            items: Vec::new(alloc),
        }
    }

    /// A copy of a text.
    pub fn from_slice(alloc: Global, text: &[u8]) -> Result<Bytes, NoMemory>
        ensures { IfOk result (λ b. b ≡ text.now) }
    {
        let items = text.to_vec(alloc)?;
        Ok(Bytes { items })
    }

    /// The bytes of a vector, without a copy.
    pub fn from_vec(items: Vec<u8>) -> Bytes
        ensures { result ≡ items.items }
    {
        Bytes { items }
    }

    /// The vector that held the bytes, without a copy.
    pub fn into_vec(self) -> Vec<u8>
        ensures { result.items ≡ self }
    {
        let Bytes { items } = self;
        items
    }

    pub fn as_slice(&self) -> &[u8]
        ensures { result.now ≡ self.now }
    {
        self.items.as_slice()
    }

    pub fn len(&self) -> usize
        ensures { result ≡ length self.now }
    {
        self.items.len()
    }

    /// Makes room for `more` further bytes, so that pushing as many does not allocate.
    pub fn reserve(&mut self, more: usize) -> Result<(), NoMemory>
        ensures same { self.new ≡ self.old }
    {
        self.items.reserve(more)?;
        Ok(())
    }

    /// Adds one byte at the end; a refusal changes nothing.
    pub fn push(&mut self, byte: u8) -> Result<(), NoMemory>
        ensures ok { OnOk result (self.new ≡ self.old ++ byte ∷ []) }
        ensures err { OnErr result (self.new ≡ self.old) }
    {
        self.items.push(byte)?;
        Ok(())
    }

    /// Adds a text at the end; a refusal changes nothing.
    pub fn extend_from_slice(&mut self, text: &[u8]) -> Result<(), NoMemory>
        ensures ok { OnOk result (self.new ≡ self.old ++ text.now) }
        ensures err { OnErr result (self.new ≡ self.old) }
    {
        self.items.extend_from_slice(text)?;
        Ok(())
    }

    /// Drops all bytes; the room for them stays.
    pub fn clear(&mut self)
        ensures { self.new ≡ [] }
    {
        self.items.clear();
    }

    pub fn copy(&self) -> Result<Bytes, NoMemory>
        ensures { IfOk result (λ b. b ≡ self.now) }
    {
        let items = self.items.clone()?;
        Ok(Bytes { items })
    }
}

impl PartialEq for Bytes {
    ghost eq = { pointwise nat_eq };

    ghost laws = { partial_equiv_from_equiv nat_list_eq_equiv };

    fn eq(&self, other: &Bytes) -> bool {
        self.items.as_slice() == other.items.as_slice()
    }
}

impl Eq for Bytes {
    ghost laws = { nat_list_eq_equiv };
}
