ghost use Rattle.std.specs.Prelude.{◌≡◌, ◌↔◌, ◌≤◌, IsTrue, IsSome, IfSome, length, nat_eq, slice_get, option_map};
ghost use Rattle.std.specs.List.{list_any};
ghost use Rattle.std.specs.Cmp.Lexicographic.{pointwise};
ghost use Rattle.gps_report.specs.Name.{are_distinct, are_names};

use crate::Name;
use std::marker::Model;

/// The names of the devices, in the order of their numbers: at most eight, no two of them equal.
#[derive(Debug, Drop)]
pub struct Names {
    list: Vec<Name>,
}

impl Model for Names {
    ghost use Rattle.std.specs.Prelude.{List, ℕ, ◌≡◌, true};
    ghost use Rattle.gps_report.specs.Name.{are_names};

    ghost Value = { List (List ℕ) };

    ghost view = { λ names. names.list.items };

    ghost invariant = { λ names. are_names names.list.items ≡ true };
}

fn contains(names: &[Name], name: &Name) -> bool
    ensures { result ≡ list_any (pointwise nat_eq name.now) names.now }
{
    names.iter().any(|other| *name == *other)
}

fn differ(names: &[Name]) -> bool
    ensures { result ≡ are_distinct names.now }
{
    match names {
        [] => true,
        [first, rest @ ..] => !contains(rest, first) && differ(rest),
    }
}

impl Names {
    /// The names of this list, or `None` exactly if there are more than eight or two are equal.
    pub fn of(list: Vec<Name>) -> Option<Names>
        ensures some { IfSome result (λ names. names ≡ list.items) }
        ensures exact { IsTrue (are_names list.items) ↔ IsSome result }
    {
        if list.len() <= 8 && differ(list.as_slice()) {
            Some(Names { list })
        } else {
            None
        }
    }

    /// How many devices there are.
    pub fn len(&self) -> usize
        ensures count { result ≡ length self.now }
        ensures few { result ≤ 8 }
    {
        self.list.len()
    }

    pub fn as_slice(&self) -> &[Name]
        ensures { result.now ≡ self.now }
    {
        self.list.as_slice()
    }

    /// The name of a device.
    pub fn get(&self, device: u8) -> Option<&Name>
        ensures { option_map (λ name. name.now) result ≡ slice_get self.now device }
    {
        self.list.get(usize::from(device))
    }
}
