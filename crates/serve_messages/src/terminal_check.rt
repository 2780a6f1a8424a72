//! What the first bytes of a terminal tell of how it is set. A terminal that is not raw makes each CR a LF, so that the end of a sentence comes
//! as two LF.

/// How many bytes are looked at. A receiver sends a line end within them, if it sends lines.
const MOST: usize = 4_096;

/// What the bytes so far tell of a terminal.
#[derive(Clone, Copy)]
pub struct TerminalCheck {
    /// How many bytes were looked at.
    seen: usize,
    /// Whether the last byte was a LF.
    after_line_feed: bool,
    is_over: bool,
}

impl TerminalCheck {
    pub fn new() -> TerminalCheck {
        TerminalCheck {
            seen: 0,
            after_line_feed: false,
            is_over: false,
        }
    }

    /// Looks at a piece that came: true, once, if the terminal is not raw. A CR shows that it is.
    pub fn finds_cooked(&mut self, piece: &[u8]) -> bool {
        if self.is_over {
            return false;
        }
        for byte in piece {
            if *byte == b'\r' {
                self.is_over = true;
                return false;
            }
            if *byte == b'\n' && self.after_line_feed {
                self.is_over = true;
                return true;
            }
            self.after_line_feed = *byte == b'\n';
        }
        self.seen = self.seen.saturating_add(piece.len());
        self.is_over = self.seen >= MOST;
        false
    }
}
