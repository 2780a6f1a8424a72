ghost use Rattle.std.specs.Prelude.{◌≡◌, ◌≤◌, ◌++◌, true, OnOk, length};
ghost use Rattle.std.specs.List.{prefix_len};
ghost use Rattle.output_lines.specs.Items.{escaped, escaped_text, is_plain, item_line};

use crate::word::push_numbered;
use gps_fixed::{Bytes, NoMemory, lower_hex_digit};
use std::simd::prelude::*;

/// The number of bytes that are tested together.
const ROW: usize = 16;

/// Whether a byte is printable ASCII and no backslash.
fn is_plain(byte: u8) -> bool
    ensures { result ≡ is_plain byte }
{
    32 <= byte && byte <= 126 && byte != b'\\'
}

/// Whether all bytes of a row are plain. Only a true answer is relied on.
fn is_plain_row(row: u8x16) -> bool
    ensures { result ≡ true → prefix_len is_plain row ≡ 16 }
{
    let unprintable = row.simd_lt(u8x16::splat(b' ')) | row.simd_gt(u8x16::splat(b'~'));
    let backslash = row.simd_eq(u8x16::splat(b'\\'));
    (unprintable | backslash).to_bitmask() == 0
}

/// How many plain bytes a text begins with, byte by byte.
fn plain_bytes(text: &[u8]) -> usize
    ensures len { result ≡ prefix_len is_plain text.now }
    ensures within { result ≤ length text.now }
{
    text.iter().take_while(|byte| is_plain(**byte)).count()
}

/// How many plain bytes a text begins with.
#[tactic(auto, using(crate::proofs::Rows::row_passed))]
fn plain_len(text: &[u8]) -> usize
    ensures len { result ≡ prefix_len is_plain text.now }
    ensures within { result ≤ length text.now }
{
    let mut at = 0;
    'rows: while text.len() - at >= ROW && is_plain_row(u8x16::from_slice(&text[at..])) {
        at += ROW;
    }
    at + plain_bytes(&text[at..])
}

fn push_escaped(out: &mut Bytes, byte: u8) -> Result<(), NoMemory>
    ensures { OnOk result (out.new ≡ out.old ++ escaped byte) }
{
    if is_plain(byte) {
        out.push(byte)
    } else {
        out.extend_from_slice(&[
            b'\\',
            b'x',
            lower_hex_digit(byte / 16),
            lower_hex_digit(byte % 16),
        ])
    }
}

/// Plain bytes are added run by run, and the others one by one.
fn push_escaped_text(out: &mut Bytes, bytes: &[u8]) -> Result<(), NoMemory>
    ensures { OnOk result (out.new ≡ out.old ++ escaped_text bytes.now) }
{
    let mut rest = bytes;
    'runs: loop {
        let (plain, others) = rest.split_at(plain_len(rest));
        out.extend_from_slice(plain)?;
        match others {
            [] => return Ok(()),
            [byte, others @ ..] => {
                push_escaped(out, *byte)?;
                rest = others;
            }
        }
    }
}

/// Adds the line of an item that was sent to this session: each byte outside printable ASCII, and the backslash, is written as
/// `\x` and two hexadecimal digits.
#[tactic(auto, unfolding(crate::specs::Items::item_line))]
pub fn push_item_line(out: &mut Bytes, session: u32, item: &[u8]) -> Result<(), NoMemory>
    ensures line { OnOk result (out.new ≡ out.old ++ item_line session item.now) }
{
    push_numbered(out, b"s", u64::from(session))?;
    out.push(b' ')?;
    push_escaped_text(out, item)?;
    out.push(b'\n')
}
