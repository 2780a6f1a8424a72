ghost use Rattle.std.specs.Prelude.{◌≡◌, ◌≤◌, option_map, IfSome};
ghost use Rattle.gps_client.specs.Answers.{Gives};
ghost use Rattle.gps_client.specs.Reading.{fixed_at, hundredths_at, member_at, member_if_at, name_at, signed_at, time_at, truth_at, up_to, whole_at};

use crate::LineFault;
use crate::cursor::Cursor;
use gps_fixed::Stamp;
use gps_report::Name;
use json_line::{Key, label};
use std::alloc::Global;

impl<'a> Cursor<'a> {
    /// A whole number, which must be there.
    pub fn whole_member(&mut self, key: Key) -> Option<u64>
        ensures { option_map (λ x. (x, self.new)) result ≡ member_at key whole_at self.old }
    {
        self.need(label(key))?;
        self.whole()
    }

    /// A whole number up to a given one, which must be there.
    pub fn up_to_member(&mut self, key: Key, most: u64) -> Option<u64>
        ensures is { option_map (λ x. (x, self.new)) result ≡ member_at key (up_to most) self.old }
        ensures small { IfSome result (λ n. n ≤ most) }
    {
        self.need(label(key))?;
        self.up_to(most)
    }

    /// A whole number of 32 bits, if there is one.
    pub fn up_to_member_if(&mut self, key: Key, most: u32) -> Option<Option<u32>>
        ensures is { option_map (λ x. (x, self.new)) result ≡ member_if_at key (up_to most) self.old }
        ensures small { IfSome result (λ o. IfSome o (λ n. n ≤ most)) }
    {
        if !self.pass(label(key)) {
            return Some(None);
        }
        let value = self.up_to(u64::from(most))?;
        Some(Some(value as u32))
    }

    pub fn signed_member_if(&mut self, key: Key) -> Option<Option<i32>>
        ensures { option_map (λ x. (x, self.new)) result ≡ member_if_at key signed_at self.old }
    {
        if !self.pass(label(key)) {
            return Some(None);
        }
        let value = self.signed()?;
        Some(Some(value))
    }

    pub fn fixed_member(&mut self, key: Key, decimals: u8) -> Option<i64>
        requires { decimals ≤ 9 }
        ensures { option_map (λ x. (x, self.new)) result ≡ member_at key (fixed_at decimals) self.old }
    {
        self.need(label(key))?;
        self.fixed(decimals)
    }

    pub fn fixed_member_if(&mut self, key: Key, decimals: u8) -> Option<Option<i64>>
        requires { decimals ≤ 9 }
        ensures { option_map (λ x. (x, self.new)) result ≡ member_if_at key (fixed_at decimals) self.old }
    {
        if !self.pass(label(key)) {
            return Some(None);
        }
        let value = self.fixed(decimals)?;
        Some(Some(value))
    }

    pub fn hundredths_member_if(&mut self, key: Key) -> Option<Option<u32>>
        ensures { option_map (λ x. (x, self.new)) result ≡ member_if_at key hundredths_at self.old }
    {
        if !self.pass(label(key)) {
            return Some(None);
        }
        let value = self.hundredths()?;
        Some(Some(value))
    }

    pub fn time_member_if(&mut self, key: Key) -> Option<Option<Stamp>>
        ensures { option_map (λ x. (x, self.new)) result ≡ member_if_at key time_at self.old }
    {
        if !self.pass(label(key)) {
            return Some(None);
        }
        let value = self.time()?;
        Some(Some(value))
    }

    pub fn truth_member(&mut self, key: Key) -> Option<bool>
        ensures { option_map (λ x. (x, self.new)) result ≡ member_at key truth_at self.old }
    {
        self.need(label(key))?;
        self.truth()
    }

    pub fn name_member(&mut self, alloc: Global, key: Key) -> Result<Name, LineFault>
        ensures { Gives (λ x. x) self.new result (member_at key name_at self.old) }
    {
        if !self.pass(label(key)) {
            return Err(LineFault::NotALine);
        }
        self.name(alloc)
    }

    pub fn name_member_if(&mut self, alloc: Global, key: Key) -> Result<Option<Name>, LineFault>
        ensures { Gives (λ x. x) self.new result (member_if_at key name_at self.old) }
    {
        if !self.pass(label(key)) {
            return Ok(None);
        }
        let name = self.name(alloc)?;
        Ok(Some(name))
    }
}
