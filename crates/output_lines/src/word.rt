ghost use Rattle.std.specs.Prelude.{◌≡◌, ◌++◌, OnOk};
ghost use Rattle.output_lines.specs.Words.{numbered};

use gps_fixed::{Bytes, NoMemory, push_decimal};

/// A word, directly followed by a number.
#[tactic(auto, unfolding(crate::specs::Words::numbered))]
pub(crate) fn push_numbered(out: &mut Bytes, word: &[u8], n: u64) -> Result<(), NoMemory>
    ensures { OnOk result (out.new ≡ out.old ++ numbered word.now n) }
{
    out.extend_from_slice(word)?;
    push_decimal(out, n)
}
