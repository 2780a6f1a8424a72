ghost use Rattle.std.specs.Prelude.{◌≡◌, ◌≤◌, ◌++◌, List, [], ℕ, IfOk, OnErr, OnOk, length};
ghost use Rattle.gps_command.specs.Kept.{Gains, StandsFor, kept_from};
ghost use Rattle.gps_command.specs.Steps.{after_long, ended_by, ends_at, kept_after, next_at};

use crate::RawCommand;
use crate::request::{Quote, is_gap};
use gps_fixed::{Bytes, NoMemory};
use std::alloc::Global;
use std::marker::Model;

/// Where the next byte of the input is.
#[derive(Clone, Copy, Debug, PartialEq, Eq)]
pub enum Stand {
    /// In a request whose bytes are held, or before one if none are.
    Open(Quote),
    /// In the line of a request that was too long.
    Skipping,
}

const MOST: usize = 1024;

/// Cuts the input of a session into requests, as its pieces come. It keeps only the request that is open,
/// which is at most 1,024 bytes.
#[derive(Drop)]
pub struct CommandCutter {
    alloc: Global,
    stand: Stand,
    held: Vec<u8>,
}

impl Model for CommandCutter {
    ghost use Rattle.gps_command.specs.Kept.{CommandCutterView};

    ghost Value = { CommandCutterView };

    ghost view = { λ cutter. record { stand = cutter.stand; held = cutter.held.items } };
}

/// What a piece would do: the requests that it ends, and the cutter after it.
#[derive(Drop)]
pub struct RequestCut {
    pub requests: Vec<RawCommand>,
    pub cutter: CommandCutter,
}

fn after_long(byte: u8) -> Stand
    ensures { result ≡ after_long byte }
{
    if byte == b'\n' {
        Stand::Open(Quote::Outside)
    } else {
        Stand::Skipping
    }
}

fn copy_of(alloc: Global, held: &[u8]) -> Result<Vec<u8>, NoMemory>
    ensures { IfOk result (λ copy. copy.items ≡ held.now) }
{
    let copy = Bytes::from_slice(alloc, held)?;
    Ok(copy.into_vec())
}

fn take_byte(
    alloc: Global,
    stand: Stand,
    held: &mut Vec<u8>,
    requests: &mut Vec<RawCommand>,
    byte: u8,
) -> Result<Stand, NoMemory>
    ensures stand { IfOk result (λ s. s ≡ (next_at stand held.old.items byte).stand) }
    ensures held { OnOk result (held.new.items ≡ (next_at stand held.old.items byte).held) }
    ensures ended { OnOk result (requests.new.items ≡ requests.old.items ++ ends_at stand held.old.items byte) }
{
    let Stand::Open(quote) = stand else {
        return Ok(after_long(byte));
    };
    if held.is_empty() && is_gap(byte) {
        Ok(stand)
    } else if quote.ends(byte) {
        let words = Bytes::from_slice(alloc, held.as_slice())?;
        requests.push(RawCommand::Words(words))?;
        held.clear();
        Ok(Stand::Open(Quote::Outside))
    } else if held.len() < MOST {
        held.push(byte)?;
        Ok(Stand::Open(quote.after(byte)))
    } else {
        requests.push(RawCommand::Long)?;
        held.clear();
        Ok(after_long(byte))
    }
}

impl CommandCutter {
    /// A cutter that has seen no input. Takes no memory.
    #[tactic(auto, using(crate::proofs::Pieces::stands_for_none))]
    pub fn new(alloc: Global) -> CommandCutter
        ensures { StandsFor result [] }
    {
        CommandCutter {
            alloc,
            stand: Stand::Open(Quote::Outside),
            held: Vec::new(alloc),
        }
    }

    /// What [`push`](CommandCutter::push) would return for a piece, and the cutter after it; this one stays.
    #[tactic(auto, using(crate::proofs::Pieces::begins))]
    pub fn cut(&self, piece: &[u8]) -> Result<RequestCut, NoMemory>
        ensures gains { IfOk result (λ cut. (bytes : List ℕ) → StandsFor self.now bytes
            → Gains bytes piece.now cut.requests.items × StandsFor cut.cutter (bytes ++ piece.now)) }
    {
        let mut requests = Vec::new(self.alloc);
        let mut stand = self.stand;
        let mut held = copy_of(self.alloc, self.held.as_slice())?;
        'bytes: for byte in piece {
            stand = take_byte(self.alloc, stand, &mut held, &mut requests, *byte)?;
        }
        let cutter = CommandCutter {
            alloc: self.alloc,
            stand,
            held,
        };
        Ok(RequestCut { requests, cutter })
    }

    /// Puts in place what [`cut`](CommandCutter::cut) returned. Takes no memory.
    pub fn put(&mut self, cut: RequestCut) -> Vec<RawCommand>
        ensures requests { result.items ≡ cut.requests.items }
        ensures cutter { self.new ≡ cut.cutter }
    {
        let RequestCut { requests, cutter } = cut;
        *self = cutter;
        requests
    }

    /// The requests that a piece of the input ends, in order. A refusal leaves the cutter as it was.
    pub fn push(&mut self, piece: &[u8]) -> Result<Vec<RawCommand>, NoMemory>
        ensures gains { IfOk result (λ out. (bytes : List ℕ) → StandsFor self.old bytes
            → Gains bytes piece.now out.items × StandsFor self.new (bytes ++ piece.now)) }
        ensures err { OnErr result (self.new ≡ self.old) }
    {
        let cut = self.cut(piece)?;
        Ok(self.put(cut))
    }

    /// How many bytes of an open request are kept.
    pub fn kept(&self) -> usize
        ensures count { result ≡ length self.now.held }
        ensures most { (bytes : List ℕ) → StandsFor self.now bytes → result ≤ 1024 }
    {
        self.held.len()
    }

    pub fn copy(&self) -> Result<CommandCutter, NoMemory>
        ensures { IfOk result (λ copy. copy ≡ self.now) }
    {
        let held = copy_of(self.alloc, self.held.as_slice())?;
        Ok(CommandCutter {
            alloc: self.alloc,
            stand: self.stand,
            held,
        })
    }
}
