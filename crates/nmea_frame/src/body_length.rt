//! How many bytes of a body a text begins with. A text may begin like a sentence at each of its bytes, so sixteen bytes are looked at
//! together.

ghost use Rattle.std.specs.Prelude.{◌≡◌, ◌+◌, ◌≤◌, length, take, drop};
ghost use Rattle.std.specs.List.{prefix_len};
ghost use Rattle.nmea_frame.specs.Sentence.{is_body_byte as body_byte};
ghost use Rattle.nmea_frame.specs.Blocks.{first_set as lowest_set};

use std::simd::prelude::*;

const BLOCK: usize = 16;

/// The place of the lowest bit that is set in the mask of a block, or the length of a block.
fn first_set(mask: u64) -> usize
    ensures { result ≡ lowest_set mask }
{
    if mask == 0 {
        BLOCK
    } else {
        mask.trailing_zeros() as usize
    }
}

/// How many bytes of a body a block of the text begins with.
#[inline(always)]
fn run_in_block(text: &[u8], at: usize) -> usize
    requires { at + BLOCK ≤ length text.now }
    ensures { result ≡ prefix_len body_byte (take BLOCK (drop at text.now)) }
{
    let block = u8x16::from_slice(&text[at..]);
    let unprintable = block.simd_lt(u8x16::splat(b' ')) | block.simd_gt(u8x16::splat(b'~'));
    let reserved = block.simd_eq(u8x16::splat(b'$')) | block.simd_eq(u8x16::splat(b'*'));
    first_set((unprintable | reserved).to_bitmask())
}

fn is_body_byte(byte: u8) -> bool
    ensures { result ≡ body_byte byte }
{
    matches!(byte, b' '..=b'~') && byte != b'$' && byte != b'*'
}

/// The same, byte by byte.
fn run_of_bytes(text: &[u8]) -> usize
    ensures len { result ≡ prefix_len body_byte text.now }
    ensures within { result ≤ length text.now }
{
    text.iter().take_while(|byte| is_body_byte(**byte)).count()
}

/// How many bytes of a body a text begins with.
#[tactic(auto, using(crate::proofs::Runs::block_passed, crate::proofs::Runs::block_ended, crate::proofs::Runs::bytes_left))]
pub(crate) fn body_len(text: &[u8]) -> usize
    ensures len { result ≡ prefix_len body_byte text.now }
    ensures within { result ≤ length text.now }
{
    let mut at = 0;
    while text.len() - at >= BLOCK {
        let run = run_in_block(text, at);
        if run < BLOCK {
            return at + run;
        }
        at += BLOCK;
    }
    at + run_of_bytes(&text[at..])
}
