ghost use Rattle.std.specs.Prelude.{◌≡◌, ◌≤◌, option_map, length, take, drop};
ghost use Rattle.std.specs.List.{prefix_len};
ghost use Rattle.gps_client.specs.Answers.{Gives};
ghost use Rattle.gps_client.specs.Reading.{is_no_quote, name_at, stamp_at, stamp_in, time_at, truth_at};

use crate::LineFault;
use crate::cursor::Cursor;
use gps_fixed::{Stamp, stamp_of_iso};
use gps_report::{Name, NameFault};
use std::alloc::Global;

/// The first bytes of a text, and the rest of it.
#[tactic(auto, using(crate::proofs::Pieces::all_taken, crate::proofs::Pieces::all_dropped))]
fn split(text: &[u8], len: usize) -> (&[u8], &[u8])
    ensures front { result.0.now ≡ take len text.now }
    ensures rest { result.1.now ≡ drop len text.now }
{
    if len <= text.len() {
        text.split_at(len)
    } else {
        (text, &[])
    }
}

/// The stamp that an ISO text says.
fn stamp_in(text: &[u8]) -> Option<Stamp>
    ensures { result ≡ stamp_in text.now }
{
    let stamp = stamp_of_iso(text);
    stamp
}

fn unquoted_len(text: &[u8]) -> usize
    ensures is { result ≡ prefix_len is_no_quote text.now }
    ensures within { result ≤ length text.now }
{
    text.iter().take_while(|c| **c != b'"').count()
}

impl<'a> Cursor<'a> {
    fn stamp(&mut self) -> Option<Stamp>
        ensures { option_map (λ x. (x, self.new)) result ≡ stamp_at self.old }
    {
        let (text, rest) = split(self.rest, 24);
        let at = stamp_in(text)?;
        self.rest = rest;
        Some(at)
    }

    /// A time in quotes.
    #[tactic(auto, unfolding(crate::specs::Reading::time_at))]
    pub fn time(&mut self) -> Option<Stamp>
        ensures { option_map (λ x. (x, self.new)) result ≡ time_at self.old }
    {
        self.need(b"\"")?;
        let at = self.stamp()?;
        self.need(b"\"")?;
        Some(at)
    }

    fn unquoted(&mut self) -> &'a [u8]
        ensures text { result.now ≡ take (prefix_len is_no_quote self.old) self.old }
        ensures rest { self.new ≡ drop (prefix_len is_no_quote self.old) self.old }
    {
        let (text, rest) = self.rest.split_at(unquoted_len(self.rest));
        self.rest = rest;
        text
    }

    /// A name in quotes.
    #[tactic(auto, unfolding(crate::specs::Reading::name_at))]
    pub fn name(&mut self, alloc: Global) -> Result<Name, LineFault>
        ensures { Gives (λ x. x) self.new result (name_at self.old) }
    {
        if !self.pass(b"\"") {
            return Err(LineFault::NotALine);
        }
        let text = self.unquoted();
        match Name::of(alloc, text) {
            Ok(name) if self.pass(b"\"") => Ok(name),
            Ok(_) => Err(LineFault::NotALine),
            Err(NameFault::BadName) => Err(LineFault::NotALine),
            Err(NameFault::NoMemory) => Err(LineFault::NoMemory),
        }
    }

    #[tactic(auto, unfolding(crate::specs::Reading::truth_at))]
    pub fn truth(&mut self) -> Option<bool>
        ensures { option_map (λ x. (x, self.new)) result ≡ truth_at self.old }
    {
        if self.pass(b"true") {
            Some(true)
        } else if self.pass(b"false") {
            Some(false)
        } else {
            None
        }
    }
}
