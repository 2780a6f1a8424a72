ghost use Rattle.std.specs.Prelude.{◌≡◌, ◌++◌, OnOk};
ghost use Rattle.json_line.specs.Json.{array, behind_commas, member, separated};

use crate::names::{Key, push_label};
use gps_fixed::{Bytes, NoMemory};

/// What writes the items of an array.
pub trait Writes<T> {
    ghost use Rattle.std.specs.Prelude.{◌≡◌, ◌++◌, OnOk, ℕ, List};

    /// The text of an item.
    ghost text: { Self → T → List ℕ };

    fn push(&self, out: &mut Bytes, item: &T) -> Result<(), NoMemory>
        ensures { OnOk result (out.new ≡ out.old ++ Self.text self.now item.now) };
}

#[tactic(auto, unfolding(crate::specs::Json::behind_commas))]
fn push_behind_commas<T, W: Writes<T>>(
    out: &mut Bytes,
    writer: &W,
    items: &[T],
) -> Result<(), NoMemory>
    ensures { OnOk result (out.new ≡ out.old ++ behind_commas (W.text writer.now) items.now) }
{
    for item in items {
        out.push(b',')?;
        writer.push(out, item)?;
    }
    Ok(())
}

#[tactic(auto, unfolding(crate::specs::Json::separated))]
fn push_separated<T, W: Writes<T>>(out: &mut Bytes, writer: &W, items: &[T]) -> Result<(), NoMemory>
    ensures { OnOk result (out.new ≡ out.old ++ separated (W.text writer.now) items.now) }
{
    match items {
        [] => Ok(()),
        [first, more @ ..] => {
            writer.push(out, first)?;
            push_behind_commas(out, writer, more)
        }
    }
}

/// A list of objects, each by its writer.
#[tactic(auto, unfolding(crate::specs::Json::member, crate::specs::Json::array))]
pub fn push_array<T, W: Writes<T>>(
    out: &mut Bytes,
    key: Key,
    writer: &W,
    items: &[T],
) -> Result<(), NoMemory>
    ensures { OnOk result (out.new ≡ out.old ++ member key (array (W.text writer.now) items.now)) }
{
    push_label(out, key)?;
    out.push(b'[')?;
    push_separated(out, writer, items)?;
    out.push(b']')
}
