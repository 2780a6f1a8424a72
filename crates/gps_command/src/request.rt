ghost use Rattle.std.specs.Prelude.{◌≡◌};
ghost use Rattle.gps_command.specs.Requests.{ends, is_end, is_gap, quote_after};

use gps_fixed::Bytes;

/// What was cut as one request.
#[derive(Debug, Drop, PartialEq, Eq)]
pub enum RawCommand {
    /// The bytes of a request, without the byte that ended it: 1 to 1,024.
    Words(Bytes),
    /// A request of more than 1,024 bytes, which were skipped through the line feed after them.
    Long,
}

/// Where the next byte of a request is.
#[derive(Clone, Copy, Debug, PartialEq, Eq)]
pub enum Quote {
    Outside,
    /// In a string.
    Inside,
    /// In a string, after a backslash.
    Escaped,
}

/// Whether a byte between requests is skipped.
pub(crate) fn is_gap(byte: u8) -> bool
    ensures { result ≡ is_gap byte }
{
    matches!(byte, b' ' | b'\t' | b'\r' | b'\n' | b';')
}

impl Quote {
    /// Whether the byte ends the request.
    pub(crate) fn ends(self, byte: u8) -> bool
        ensures { result ≡ ends self byte }
    {
        match self {
            Quote::Outside => byte == b';' || byte == b'\n',
            Quote::Inside | Quote::Escaped => false,
        }
    }

    /// Where the byte after this one is.
    pub(crate) fn after(self, byte: u8) -> Quote
        ensures { result ≡ quote_after self byte }
    {
        match (self, byte) {
            (Quote::Outside, b'"') => Quote::Inside,
            (Quote::Outside, _) => Quote::Outside,
            (Quote::Inside, b'"') => Quote::Outside,
            (Quote::Inside, b'\\') => Quote::Escaped,
            (Quote::Inside | Quote::Escaped, _) => Quote::Inside,
        }
    }
}
