ghost use Rattle.std.specs.Prelude.{◌≡◌, length};
ghost use Rattle.gps_client.specs.Answers.{Gives};
ghost use Rattle.gps_client.specs.Reading.{items_at, list_at, more_at};

use crate::LineFault;
use crate::cursor::Cursor;
use std::alloc::Global;

/// What reads the items of a list.
pub trait Reads<T> {
    ghost use Rattle.std.specs.Prelude.{◌≡◌};
    ghost use Rattle.gps_client.specs.Answers.{Gives};
    ghost use Rattle.gps_client.specs.Reading.{Reading};

    /// How an item is read.
    ghost reading: { Self → Reading T };

    fn read(&self, cursor: &mut Cursor<'_>) -> Result<T, LineFault>
        ensures { Gives (λ x. x) cursor.new result (Self.reading self.now cursor.old) };
}

/// The items after the first, each after a comma, up to the bracket that ends the list. Each of them has at least one byte.
fn more_items<T: Drop, R: Reads<T>>(
    alloc: Global,
    cursor: &mut Cursor<'_>,
    reader: &R,
    first: T,
) -> Result<Vec<T>, LineFault>
    ensures { Gives (λ v. v.items) cursor.new result (more_at first (items_at (length cursor.old) (R.reading reader.now) cursor.old)) }
{
    let mut items = Vec::new(alloc);
    items.push(first)?;
    for _ in 0..cursor.len() {
        if cursor.pass(b",") {
            items.push(reader.read(cursor)?)?;
        } else if cursor.pass(b"]") {
            return Ok(items);
        } else {
            return Err(LineFault::NotALine);
        }
    }
    Err(LineFault::NotALine)
}

/// A list in brackets.
#[tactic(auto, unfolding(crate::specs::Reading::list_at))]
pub fn list<T: Drop, R: Reads<T>>(
    alloc: Global,
    cursor: &mut Cursor<'_>,
    reader: &R,
) -> Result<Vec<T>, LineFault>
    ensures { Gives (λ v. v.items) cursor.new result (list_at (R.reading reader.now) cursor.old) }
{
    if !cursor.pass(b"[") {
        return Err(LineFault::NotALine);
    }
    if cursor.pass(b"]") {
        return Ok(Vec::new(alloc));
    }
    let first = reader.read(cursor)?;
    more_items(alloc, cursor, reader, first)
}
