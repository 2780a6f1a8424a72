// The bytes of a line: as text, or as hexadecimal digits.
ghost use Rattle.std.specs.Prelude.{◌≡◌, ◌≤◌, ◌+◌, ◌++◌, IfOk, IfSome, length};
ghost use Rattle.gps_fixed.specs.Limits.{longest_piece};
ghost use Rattle.replay_script.specs.Events.{IsPiece};
ghost use Rattle.replay_script.specs.Words.{bytes_in, hex_in, is_sized, text_in};

use gps_fixed::{Bytes, NoMemory};
use hex::FromHexError;
use std::alloc::Global;

/// How a line writes bytes.
#[derive(Clone, Copy)]
pub(crate) enum Payload {
    /// 1 to 512 bytes, each as two hexadecimal digits of either case.
    Hex,
    /// A text of 1 to 510 bytes, which CR LF ends.
    Sentence,
    /// A text of 1 to 511 bytes.
    Part,
    /// A text of 1 to 511 bytes, which LF ends.
    Request,
}

fn is_sized(text: &[u8], most: usize) -> bool
    ensures { result ≡ is_sized most text.now }
{
    !text.is_empty() && text.len() <= most
}

#[tactic(auto, unfolding(crate::specs::Words::hex_in))]
fn hex_bytes(alloc: Global, text: &[u8]) -> Result<Option<Bytes>, NoMemory>
    ensures is { IfOk result (λ bytes. bytes ≡ hex_in text.now) }
    ensures piece { IfOk result (λ bytes. IfSome bytes (λ b. IsPiece b)) }
{
    match hex::decode(alloc, text) {
        Ok(bytes) if is_sized(bytes.as_slice(), 512) => Ok(Some(Bytes::from_vec(bytes))),
        Ok(_) => Ok(None),
        Err(FromHexError::OutOfMemory) => Err(NoMemory),
        Err(FromHexError::InvalidHexCharacter { c: _, index: _ })
        | Err(FromHexError::OddLength)
        | Err(FromHexError::InvalidStringLength) => Ok(None),
    }
}

#[tactic(auto, unfolding(crate::specs::Words::text_in))]
fn text_bytes(
    alloc: Global,
    text: &[u8],
    most: usize,
    ending: &[u8],
) -> Result<Option<Bytes>, NoMemory>
    requires { most + length ending.now ≤ longest_piece }
    ensures is { IfOk result (λ bytes. bytes ≡ text_in most ending.now text.now) }
    ensures piece { IfOk result (λ bytes. IfSome bytes (λ b. IsPiece b)) }
{
    if !is_sized(text, most) {
        return Ok(None);
    }
    let mut bytes = Bytes::new(alloc);
    bytes.reserve(text.len() + ending.len())?;
    bytes.extend_from_slice(text)?;
    bytes.extend_from_slice(ending)?;
    Ok(Some(bytes))
}

/// The bytes that are meant, if they have the given length.
pub(crate) fn payload_bytes(
    alloc: Global,
    payload: Payload,
    text: &[u8],
) -> Result<Option<Bytes>, NoMemory>
    ensures is { IfOk result (λ bytes. bytes ≡ bytes_in payload text.now) }
    ensures piece { IfOk result (λ bytes. IfSome bytes (λ b. IsPiece b)) }
{
    match payload {
        Payload::Hex => hex_bytes(alloc, text),
        Payload::Sentence => text_bytes(alloc, text, 510, b"\r\n"),
        Payload::Part => text_bytes(alloc, text, 511, b""),
        Payload::Request => text_bytes(alloc, text, 511, b"\n"),
    }
}
