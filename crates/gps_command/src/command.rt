ghost use Rattle.std.specs.Prelude.{◌≡◌, ◌<◌, ℕ, List, IfOk, Ok, Err, Some, codes, length, option_map};
ghost use Rattle.gps_report.specs.declared.policy.CommandFault.{CommandFault};
ghost use Rattle.gps_command.specs.Commands.{HasObject, command_in, is_trailing, json_of, object_text, trimmed, watch_in, words_command};

use crate::RawCommand;
use crate::json_text::value_of;
use gps_report::CommandFault;
use std::alloc::Global;
use watch_policy::{Change, ChangeFault, change_of};

/// What a request asks for.
#[derive(Debug, Drop, PartialEq, Eq)]
pub enum Command {
    Version,
    Devices,
    Poll,
    /// `?WATCH` alone changes nothing; with an object it changes the policy.
    Watch(Option<Change>),
}

/// Why a request is no [`Command`].
#[derive(Clone, Copy, Debug, PartialEq, Eq)]
pub enum ReadFault {
    Fault(CommandFault),
    NoMemory,
}

impl From<ChangeFault> for ReadFault {
    ghost use Rattle.std.specs.Prelude.{◌≡◌};
    ghost use Rattle.gps_command.specs.Faults.{fault_of_change};

    ghost from_gives = { λ fault result. result ≡ fault_of_change fault };

    fn from(fault: ChangeFault) -> ReadFault {
        match fault {
            ChangeFault::BadWatch => ReadFault::Fault(CommandFault::BadWatch),
            ChangeFault::NoMemory => ReadFault::NoMemory,
        }
    }
}

fn is_trailing(byte: u8) -> bool
    ensures { result ≡ is_trailing byte }
{
    matches!(byte, b' ' | b'\t' | b'\r')
}

/// The text without trailing spaces, tabs and CR.
#[tactic(auto, using(crate::proofs::Trims::last_kept, crate::proofs::Trims::last_dropped, crate::proofs::Trims::none_left))]
fn trimmed(text: &[u8]) -> &[u8]
    ensures { result.now ≡ trimmed text.entry.now }
{
    let mut rest = text;
    'trims: while let [front @ .., last] = rest {
        if !is_trailing(*last) {
            break;
        }
        rest = front;
    }
    rest
}

fn object_text(text: &[u8]) -> Option<&[u8]>
    ensures { option_map (λ rest. rest.now) result ≡ object_text text.entry.now }
{
    text.strip_prefix(b"?WATCH=".as_slice())
}

fn watch(alloc: Global, object: &[u8]) -> Result<Command, ReadFault>
    ensures ok { IfOk result (λ command. watch_in (json_of object.now) ≡ Ok command) }
    ensures fault { (f : CommandFault) → result ≡ Err (ReadFault.Fault f) → watch_in (json_of object.now) ≡ Err f }
    ensures memory { result ≡ Err ReadFault.NoMemory → 0 < length object.now }
{
    let value = value_of(alloc, object)?;
    let change = change_of(alloc, &value)?;
    Ok(Command::Watch(Some(change)))
}

fn command_of_words(alloc: Global, text: &[u8]) -> Result<Command, ReadFault>
    ensures ok { IfOk result (λ command. words_command text.now ≡ Ok command) }
    ensures fault { (f : CommandFault) → result ≡ Err (ReadFault.Fault f) → words_command text.now ≡ Err f }
    ensures memory { result ≡ Err ReadFault.NoMemory
        → (object : List ℕ) × (object_text text.now ≡ Some object) × (0 < length object) }
{
    if text == b"?VERSION".as_slice() {
        Ok(Command::Version)
    } else if text == b"?DEVICES".as_slice() {
        Ok(Command::Devices)
    } else if text == b"?POLL".as_slice() {
        Ok(Command::Poll)
    } else if text == b"?WATCH".as_slice() {
        Ok(Command::Watch(None))
    } else {
        match object_text(text) {
            Some(object) => watch(alloc, object),
            None => Err(ReadFault::Fault(CommandFault::Unknown)),
        }
    }
}

/// What a request asks for. Each fault comes exactly by the bytes, and if several hold the first of these:
/// `TooLong` for a request of more than 1,024 bytes; `Unknown` if it is none of `?VERSION`, `?DEVICES`,
/// `?POLL` and `?WATCH` and does not begin with `?WATCH=`; `BadJson` if the rest is not one JSON text,
/// nested at most 127 deep; `BadWatch` if its value is refused by [`change_of`]. It allocates only if
/// something follows `?WATCH=`.
pub fn command_of(alloc: Global, request: &RawCommand) -> Result<Command, ReadFault>
    ensures ok { IfOk result (λ command. command_in request.now ≡ Ok command) }
    ensures fault { (f : CommandFault) → result ≡ Err (ReadFault.Fault f) → command_in request.now ≡ Err f }
    ensures memory { result ≡ Err ReadFault.NoMemory → HasObject request.now }
{
    match request {
        RawCommand::Long => Err(ReadFault::Fault(CommandFault::TooLong)),
        RawCommand::Words(words) => command_of_words(alloc, trimmed(words.as_slice())),
    }
}
