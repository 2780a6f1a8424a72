ghost use Rattle.std.specs.Prelude.{◌≡◌, IfOk, nat_eq, true, false};
ghost use Rattle.std.specs.Cmp.{partial_equiv_from_equiv};
ghost use Rattle.std.specs.Cmp.Lexicographic.{nat_list_eq_equiv, pointwise};
ghost use Rattle.std.specs.List.{list_all};
ghost use Rattle.gps_report.specs.Name.{is_name_byte, is_name};

use gps_fixed::{Bytes, NoMemory};
use std::alloc::Global;
use std::marker::Model;

/// The name of a device: 1 to 64 printable ASCII bytes without space, `"`, `\` and `=`, so that it needs
/// no escape in JSON and comes before the `=` of a device word.
#[derive(Debug, Drop)]
pub struct Name {
    text: Bytes,
}

impl Model for Name {
    ghost use Rattle.std.specs.Prelude.{List, ℕ, ◌≡◌, true};
    ghost use Rattle.gps_report.specs.Name.{is_name};

    ghost Value = { List ℕ };

    ghost view = { λ name. name.text };

    ghost invariant = { λ name. is_name name.text ≡ true };
}

/// Why a text is no [`Name`].
#[derive(Clone, Copy, Debug, PartialEq, Eq)]
pub enum NameFault {
    /// The text is empty, is longer than 64 bytes, or has a byte that names do not have.
    BadName,
    NoMemory,
}

impl From<NoMemory> for NameFault {
    fn from(_refused: NoMemory) -> NameFault {
        NameFault::NoMemory
    }
}

fn is_byte_of_name(byte: u8) -> bool
    ensures { result ≡ is_name_byte byte }
{
    matches!(byte, 0x21..=0x7E) && byte != b'"' && byte != b'\\' && byte != b'='
}

fn has_name_bytes(text: &[u8]) -> bool
    ensures { result ≡ list_all is_name_byte text.now }
{
    text.iter().all(|byte| is_byte_of_name(*byte))
}

/// Whether a text can be a name.
pub fn can_be_name(text: &[u8]) -> bool
    ensures { result ≡ is_name text.now }
{
    !text.is_empty() && text.len() <= 64 && has_name_bytes(text)
}

impl Name {
    /// The name of this text.
    pub fn of(alloc: Global, text: &[u8]) -> Result<Name, NameFault>
        ensures ok { IfOk result (λ name. name ≡ text.now) }
        ensures good { IfOk result (λ _. is_name text.now ≡ true) }
        ensures bad { result ≡ Err NameFault.BadName → is_name text.now ≡ false }
    {
        if !can_be_name(text) {
            return Err(NameFault::BadName);
        }
        match Bytes::from_slice(alloc, text) {
            Ok(text) => Ok(Name { text }),
            Err(_) => Err(NameFault::NoMemory),
        }
    }

    pub fn as_slice(&self) -> &[u8]
        ensures text { result.now ≡ self.now }
        ensures name { is_name self.now ≡ true }
    {
        self.text.as_slice()
    }

    pub fn copy(&self) -> Result<Name, NoMemory>
        ensures { IfOk result (λ name. name ≡ self.now) }
    {
        let text = self.text.copy()?;
        Ok(Name { text })
    }
}

impl PartialEq for Name {
    ghost eq = { pointwise nat_eq };

    ghost laws = { partial_equiv_from_equiv nat_list_eq_equiv };

    fn eq(&self, other: &Name) -> bool {
        self.text.as_slice() == other.text.as_slice()
    }
}

impl Eq for Name {
    ghost laws = { nat_list_eq_equiv };
}
