//! How far a command has come, on standard error while it runs.

use std::io::Eprint;
use std::time::{self, Duration};

/// For how many seconds nothing is shown.
const FIRST: u64 = 2;

/// What came from standard input, and since when. From the third second on it is shown once a second, in one line that is overwritten.
#[derive(Drop)]
pub struct Progress<R> {
    rt: R,
    begun: Option<Duration>,
    /// The second of the run in which it is shown next.
    due: u64,
    bytes: u64,
    lines: u64,
}

fn lines_in(piece: &[u8]) -> u64 {
    piece.iter().filter(|byte| **byte == b'\n').count() as u64
}

impl<R> Progress<R> {
    pub fn new(rt: R) -> Progress<R> {
        Progress {
            rt,
            begun: None,
            due: FIRST,
            bytes: 0,
            lines: 0,
        }
    }
}

impl<R: Eprint + time::Clock + Copy> Progress<R> {
    /// Counts a piece that came, and shows the progress if that is due.
    pub fn add(&mut self, piece: &[u8]) {
        self.bytes = self.bytes.saturating_add(piece.len() as u64);
        self.lines = self.lines.saturating_add(lines_in(piece));
        let rt = self.rt;
        let Ok(now) = rt.monotonic() else {
            return;
        };
        let Some(begun) = self.begun else {
            self.begun = Some(now);
            return;
        };
        let second = now.saturating_sub(begun).as_secs();
        if second >= self.due {
            self.due = second.saturating_add(1);
            self.show(second);
        }
    }

    fn show(&self, second: u64) {
        let rt = self.rt;
        let kilobytes = self.bytes / 1_000;
        let (whole, tenth) = (kilobytes / 1_000, kilobytes % 1_000 / 100);
        let rate = kilobytes.checked_div(second).unwrap_or(0);
        let _ = eprint!(rt;
            "\r\x1b[Kgpsrelay: {whole}.{tenth} MB, {} lines, {rate} kB/s",
            self.lines
        );
    }

    /// Nothing more comes: clears what was shown.
    pub fn end(&self) {
        if self.due > FIRST {
            let rt = self.rt;
            let _ = eprint!(rt; "\r\x1b[K");
        }
    }
}
