ghost use Rattle.std.specs.Prelude.{◌≡◌, option_map, Some, None, true, false, if◌then◌else◌, length};
ghost use Rattle.std.specs.Str.{bytes_eq};
ghost use Rattle.gps_client.specs.Reading.{behind};

use std::marker::Model;

/// A text that is read from its start.
#[derive(Drop)]
pub struct Cursor<'a> {
    pub(crate) rest: &'a [u8],
}

impl<'a> Model for Cursor<'a> {
    ghost use Rattle.std.specs.Prelude.{List, ℕ};

    ghost Value = { List ℕ };

    ghost view = { λ c. c.rest.now };
}

/// What follows these bytes, if the text begins with them.
#[tactic(auto, unfolding(crate::specs::Reading::behind))]
fn behind<'a>(head: &[u8], text: &'a [u8]) -> Option<&'a [u8]>
    ensures { option_map (λ r. r.now) result ≡ behind head.now text.now }
{
    text.strip_prefix(head)
}

impl<'a> Cursor<'a> {
    pub fn new(text: &'a [u8]) -> Cursor<'a>
        ensures { result ≡ text.now }
    {
        Cursor { rest: text }
    }

    /// How many bytes are here.
    pub fn len(&self) -> usize
        ensures { result ≡ length self.now }
    {
        self.rest.len()
    }

    /// Passes these bytes, if they are here.
    pub fn pass(&mut self, head: &[u8]) -> bool
        ensures passed { behind head.now self.old ≡ if result then Some self.new else None }
        ensures stays { result ≡ false → self.new ≡ self.old }
    {
        match behind(head, self.rest) {
            Some(rest) => {
                self.rest = rest;
                true
            }
            None => false,
        }
    }

    /// Passes these bytes, which must be here.
    pub fn need(&mut self, head: &[u8]) -> Option<()>
        ensures { option_map (λ _. self.new) result ≡ behind head.now self.old }
    {
        if self.pass(head) { Some(()) } else { None }
    }

    /// Whether these bytes and no others are here.
    pub fn stands_at(&self, text: &[u8]) -> bool
        ensures { result ≡ bytes_eq self.now text.now }
    {
        self.rest == text
    }
}
