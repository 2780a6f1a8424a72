ghost use Rattle.std.specs.Prelude.{◌≡◌, ◌<◌, ◌++◌, length};
ghost use Rattle.std.specs.Io.BufRead.{ends_with_byte, strip_last};
ghost use Rattle.line_cut.specs.Lines.{text_of};
ghost use Rattle.line_cut.specs.Limits.{is_too_long, most};

/// How many bytes a line may have.
#[derive(Clone, Copy, Debug, PartialEq, Eq)]
pub enum Limit {
    /// At most this number without its line end, LF or CR LF.
    Text(usize),
    /// At most this number with its line end.
    Whole(usize),
}

impl Limit {
    pub fn most(self) -> usize
        ensures { result ≡ most self }
    {
        match self {
            Limit::Text(most) | Limit::Whole(most) => most,
        }
    }

    /// Whether a line, or the beginning of one, has too many bytes. It is in two parts.
    pub(crate) fn is_passed(self, held: &[u8], part: &[u8]) -> bool
        requires { 0 < length part.now }
        ensures { result ≡ is_too_long self (held.now ++ part.now) }
    {
        match self {
            Limit::Text(most) => most < text_len(held, part),
            Limit::Whole(most) => most < held.len() + part.len(),
        }
    }
}

/// How many bytes a line in two parts has without its line end.
#[tactic(auto, using(crate::proofs::Texts::text_len))]
fn text_len(held: &[u8], part: &[u8]) -> usize
    requires { 0 < length part.now }
    ensures { result ≡ length (text_of (held.now ++ part.now)) }
{
    let body = strip_last(part, b'\n');
    let len = held.len() + body.len();
    if joined_ends_with(held, body, b'\r') {
        len.saturating_sub(1)
    } else {
        len
    }
}

/// A line without its line end, LF or CR LF. A CR at the end of a line that has no LF yet is left out too.
pub fn text_of(line: &[u8]) -> &[u8]
    ensures { result.now ≡ text_of line.now }
{
    strip_last(strip_last(line, b'\n'), b'\r')
}

fn strip_last(line: &[u8], byte: u8) -> &[u8]
    ensures { result.now ≡ strip_last byte line.now }
{
    if ends_with(line, byte) {
        &line[..line.len().saturating_sub(1)]
    } else {
        line
    }
}

#[tactic(auto, using(crate::proofs::Texts::ends_append, crate::proofs::Texts::ends_first))]
fn joined_ends_with(held: &[u8], part: &[u8], byte: u8) -> bool
    ensures { result ≡ ends_with_byte byte (held.now ++ part.now) }
{
    if part.is_empty() {
        ends_with(held, byte)
    } else {
        ends_with(part, byte)
    }
}

fn ends_with(line: &[u8], byte: u8) -> bool
    ensures { result ≡ ends_with_byte byte line.now }
{
    match line {
        [] => false,
        [.., last] => *last == byte,
    }
}
