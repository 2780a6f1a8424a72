ghost use Rattle.std.specs.Prelude.{◌≡◌, ◌≤◌, ◌<◌, ◌+◌, ◌++◌, ◌⊎◌, ◌||◌, ◌==◌, List, [], ℕ, false, not, IfOk, IfSome, IfNone, OnErr, length};
ghost use Rattle.line_cut.specs.Lines.{EndsAt, has_feed, open_line};
ghost use Rattle.line_cut.specs.Limits.{is_too_long, most};
ghost use Rattle.line_cut.specs.Standing.{IsLast, IsWithin, StandsFor, Steps};

use crate::{Last, Limit, Next, WholeLine};
use gps_fixed::{Bytes, NoMemory};
use memchr::memchr;
use std::alloc::Global;
use std::marker::Model;
use std::mem;

/// Cuts bytes into lines, as their pieces come. It keeps only the open line, and of one that is too long only
/// that it is.
#[derive(Drop)]
pub struct LineCutter {
    alloc: Global,
    limit: Limit,
    skipping: bool,
    held: Vec<u8>,
}

impl Model for LineCutter {
    ghost use Rattle.std.specs.Prelude.{◌≡◌, false};
    ghost use Rattle.line_cut.specs.Limits.{is_too_long};
    ghost use Rattle.line_cut.specs.Standing.{LineCutterView};

    ghost Value = { LineCutterView };

    ghost view = { λ c. record { limit = c.limit; skipping = c.skipping; held = c.held.items } };

    ghost invariant = { λ c. is_too_long c.limit c.held.items ≡ false };
}

impl LineCutter {
    /// A cutter that was given no bytes. Takes no memory.
    pub fn new(alloc: Global, limit: Limit) -> LineCutter
        ensures stands { StandsFor result [] }
        ensures limit { result.limit ≡ limit }
    {
        LineCutter {
            alloc,
            limit,
            skipping: false,
            held: Vec::new(alloc),
        }
    }

    /// What a piece holds next. The caller calls again with what is left of the piece, until it is used. Takes memory
    /// only for a line that the piece does not hold whole. A refusal leaves the cutter as it was.
    pub fn next<'p>(&mut self, piece: &'p [u8]) -> Result<Next<'p>, NoMemory>
        ensures steps { IfOk result (λ next. Steps self.old self.new piece.now next) }
        ensures within { IfOk result (λ next. IsWithin piece.now next) }
        ensures limit { self.new.limit ≡ self.old.limit }
        ensures memory { OnErr result ((0 < length self.old.held) ⊎ (has_feed piece.now ≡ false)) }
        ensures err { OnErr result (self.new ≡ self.old) }
    {
        match line_len(piece) {
            Some(len) => self.end(piece, len),
            None => self.go_on(piece),
        }
    }

    /// The first bytes of the piece end the open line.
    fn end<'p>(&mut self, piece: &'p [u8], len: usize) -> Result<Next<'p>, NoMemory>
        requires { EndsAt piece.now len }
        ensures steps { IfOk result (λ next. Steps self.old self.new piece.now next) }
        ensures within { IfOk result (λ next. IsWithin piece.now next) }
        ensures limit { self.new.limit ≡ self.old.limit }
        ensures memory { OnErr result (0 < length self.old.held) }
        ensures err { OnErr result (self.new ≡ self.old) }
    {
        let (part, _) = piece.split_at(len);
        if self.is_passed_with(part) {
            self.skipping = false;
            self.held.clear();
            return Ok(Next::TooLong(len));
        }
        if self.held.is_empty() {
            return Ok(Next::Line(WholeLine::InPiece(part), len));
        }
        self.held.extend_from_slice(part)?;
        let line = Bytes::from_vec(mem::replace(&mut self.held, Vec::new(self.alloc)));
        Ok(Next::Line(WholeLine::Joined(line), len))
    }

    /// The whole piece goes on with the open line.
    fn go_on<'p>(&mut self, piece: &'p [u8]) -> Result<Next<'p>, NoMemory>
        requires { has_feed piece.now ≡ false }
        ensures steps { IfOk result (λ next. Steps self.old self.new piece.now next) }
        ensures within { IfOk result (λ next. IsWithin piece.now next) }
        ensures limit { self.new.limit ≡ self.old.limit }
        ensures err { OnErr result (self.new ≡ self.old) }
    {
        if piece.is_empty() {
            return Ok(Next::Used);
        }
        if self.is_passed_with(piece) {
            self.skipping = true;
            self.held.clear();
            return Ok(Next::TooLong(piece.len()));
        }
        self.held.extend_from_slice(piece)?;
        Ok(Next::Used)
    }

    /// Whether the open line is too long with these bytes.
    fn is_passed_with(&self, part: &[u8]) -> bool
        requires { 0 < length part.now }
        ensures { result ≡ (self.now.skipping || is_too_long self.now.limit (self.now.held ++ part.now)) }
    {
        self.skipping || self.limit.is_passed(self.held.as_slice(), part)
    }

    /// What the end of the bytes ends, if a last line may lack its end.
    pub fn last(&self) -> Last<'_>
        ensures { (bytes : List ℕ) → StandsFor self.now bytes → IsLast self.now.limit bytes result }
    {
        if self.skipping || self.held.len() > self.limit.most() {
            Last::TooLong
        } else if self.held.is_empty() {
            Last::None
        } else {
            Last::Line(self.held.as_slice())
        }
    }

    /// Whether the bytes end with an open line, as lines that lack their end do.
    pub fn is_open(&self) -> bool
        ensures { (bytes : List ℕ) → StandsFor self.now bytes → result ≡ not (length (open_line bytes) == 0) }
    {
        self.skipping || !self.held.is_empty()
    }

    /// How many bytes are kept.
    pub fn kept(&self) -> usize
        ensures count { result ≡ length self.now.held }
        ensures most { result ≤ most self.now.limit + 2 }
    {
        self.held.len()
    }
}

/// How many bytes the first line of a piece has, with its line feed.
#[tactic(auto, using(crate::proofs::Places::ends_at, crate::proofs::Places::nowhere))]
fn line_len(piece: &[u8]) -> Option<usize>
    ensures some { IfSome result (λ len. EndsAt piece.now len) }
    ensures none { IfNone result (has_feed piece.now ≡ false) }
{
    match memchr(b'\n', piece) {
        Some(place) => Some(place + 1),
        None => None,
    }
}
