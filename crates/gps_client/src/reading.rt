ghost use Rattle.std.specs.Prelude.{◌≡◌, Ok, Err, ◌⊎◌};
ghost use Rattle.gps_client.specs.declared.line.Line.{Line as Value};
ghost use Rattle.gps_client.specs.Answers.{Reads};
ghost use Rattle.gps_client.specs.Objects.{line_in};
ghost use Rattle.gps_client.specs.Texts.{IsLineOf};

use crate::class::class_of;
use crate::cursor::Cursor;
use crate::{Line, LineFault};
use std::alloc::Global;

#[tactic(auto, unfolding(crate::specs::Objects::line_in))]
fn line_in(alloc: Global, text: &[u8]) -> Result<Line, LineFault>
    ensures { Reads result (line_in text.now) }
{
    let Some(class) = class_of(text) else {
        return Err(LineFault::NotALine);
    };
    let mut cursor = Cursor::new(text);
    let line = cursor.object(alloc, class)?;
    if cursor.stands_at(b"\r\n") {
        Ok(line)
    } else {
        Err(LineFault::NotALine)
    }
}

/// The value whose line this is, the CR LF at its end included.
///
/// `NotALine` comes only if the line is that of no value in range; the only other answer to such a line is `NoMemory`.
#[tactic(auto, using(crate::proofs::Theorem::refuses))]
pub fn read_line(alloc: Global, line: &[u8]) -> Result<Line, LineFault>
    ensures ok { (v : Value) → result ≡ Ok v → IsLineOf v line.now }
    ensures found { (v : Value) → IsLineOf v line.now → (result ≡ Ok v) ⊎ (result ≡ Err LineFault.NoMemory) }
    ensures not_a_line { result ≡ Err LineFault.NotALine → (v : Value) → ¬ IsLineOf v line.now }
    ensures refused { ((v : Value) → ¬ IsLineOf v line.now) → (result ≡ Err LineFault.NotALine) ⊎ (result ≡ Err LineFault.NoMemory) }
{
    let read = line_in(alloc, line);
    read
}
