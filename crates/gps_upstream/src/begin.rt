ghost use Rattle.std.specs.Prelude.{◌≡◌, []};
ghost use Rattle.upstream_laws.specs.Head.{longer};

use std::marker::Model;

/// How many bytes of a line show its class.
const ENOUGH: usize = 18;

/// How an open line begins: at most as many bytes as show its class.
#[derive(Drop)]
pub(crate) struct Begin {
    bytes: [u8; 18],
    len: usize,
}

impl Model for Begin {
    ghost use Rattle.std.specs.Prelude.{List, ℕ, ◌≤◌, take};

    ghost Value = { List ℕ };

    ghost view = { λ b. take b.len b.bytes };

    ghost invariant = { λ b. b.len ≤ 18 };
}

impl Begin {
    /// A line without bytes.
    pub(crate) fn new() -> Begin
        ensures { result ≡ [] }
    {
        Begin {
            bytes: [0; 18],
            len: 0,
        }
    }

    pub(crate) fn as_slice(&self) -> &[u8]
        ensures { result.now ≡ self.now }
    {
        &self.bytes[..self.len]
    }

    /// One more byte of the line.
    pub(crate) fn push(&mut self, byte: u8)
        ensures { self.new ≡ longer self.old byte }
    {
        if self.len < ENOUGH {
            self.bytes[self.len] = byte;
            self.len += 1;
        }
    }

    /// Another line begins.
    pub(crate) fn clear(&mut self)
        ensures { self.new ≡ [] }
    {
        self.len = 0;
    }
}
