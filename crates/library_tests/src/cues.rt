//! A sink that counts its lines, and a source that waits for such a count.

ghost use Rattle.std.specs.Prelude.{◌≡◌, ◌≤◌, IfOk, length};

use gps_fixed::NoMemory;
use gps_outside::{ClientSink, MemorySink, ReadStep, Source, WritePlan, WriteStep};
use std::alloc::Global;
use std::sync::Arc;
use std::sync::atomic::{AtomicU64, Ordering};
use std::thread::yield_now;

/// How often is waited, at most, for what another thread does.
const TURNS: u64 = 1_000_000;

/// A sink in memory, which counts the lines that it was given. If there is another sink to wait for, its first write waits until that one
/// was given a line, and fails if none comes.
#[derive(Drop)]
pub(crate) struct CountingSink {
    pub(crate) sink: MemorySink,
    lines: Arc<AtomicU64>,
    other: Option<Arc<AtomicU64>>,
    pub(crate) faults: u64,
}

impl CountingSink {
    pub(crate) fn of(
        alloc: Global,
        writes: &[WritePlan],
        lines: &Arc<AtomicU64>,
        other: Option<Arc<AtomicU64>>,
    ) -> Result<CountingSink, NoMemory>
        ensures { IfOk result (λ sink. sink.faults ≡ 0) }
    {
        Ok(CountingSink {
            sink: MemorySink::new(alloc, writes.to_vec(alloc)?, 4_096)?,
            lines: Arc::try_clone(lines)?,
            other,
            faults: 0,
        })
    }

    /// Whether there is no other sink to wait for, or one that was given a line.
    fn may_write(&mut self) -> bool
        ensures { self.new.faults ≡ self.old.faults }
    {
        let Some(other) = self.other.take() else {
            return true;
        };
        for _ in 0..TURNS {
            if other.load(Ordering::SeqCst) > 0 {
                return true;
            }
            yield_now();
        }
        false
    }
}

fn lines_in(bytes: &[u8]) -> u64 {
    bytes.iter().filter(|byte| **byte == b'\n').count() as u64
}

impl ClientSink for CountingSink {
    ghost use Rattle.std.specs.Prelude.{None};

    ghost faults = { λ s. s.faults };

    ghost written = { λ _. None };

    fn write(&mut self, piece: &[u8]) -> WriteStep {
        let step = if self.may_write() {
            ClientSink::write(&mut self.sink, piece)
        } else {
            WriteStep::Failed
        };
        match step {
            WriteStep::Wrote(n) => {
                self.lines
                    .fetch_add(lines_in(&piece[..n]), Ordering::SeqCst);
            }
            WriteStep::Failed => self.faults = self.faults.saturating_add(1),
        }
        step
    }
}

/// What a source does once a sink was given this many lines.
#[derive(Clone, Copy)]
pub(crate) enum Cue {
    Give(u64, &'static [u8]),
    End(u64),
}

/// A source that does one thing after another, each at its cue, and is quiet if there is none. It ends if it was quiet too often.
#[derive(Drop)]
pub(crate) struct CuedSource {
    cues: &'static [Cue],
    at: usize,
    lines: Arc<AtomicU64>,
    pub(crate) quiets: u64,
}

impl CuedSource {
    pub(crate) fn of(cues: &'static [Cue], lines: &Arc<AtomicU64>) -> Result<CuedSource, NoMemory>
        ensures { IfOk result (λ source. source.quiets ≡ 0) }
    {
        Ok(CuedSource {
            cues,
            at: 0,
            lines: Arc::try_clone(lines)?,
            quiets: 0,
        })
    }

    /// What is to be done now.
    fn cue(&self) -> Option<Cue> {
        let lines = self.lines.load(Ordering::SeqCst);
        match self.cues.get(self.at) {
            Some(Cue::Give(after, bytes)) if *after <= lines => Some(Cue::Give(*after, *bytes)),
            Some(Cue::End(after)) if *after <= lines => Some(Cue::End(*after)),
            _ => None,
        }
    }
}

/// Copies as much of the bytes as the buffer has room for; how much that is.
fn copy(bytes: &[u8], buf: &mut [u8]) -> usize
    ensures { result ≤ length buf.old }
{
    let n = bytes.len().min(buf.len());
    buf[..n].copy_from_slice(&bytes[..n]);
    n
}

impl Source for CuedSource {
    ghost use Rattle.std.specs.Prelude.{None};

    ghost faults = { λ _. 0 };

    ghost quiets = { λ s. s.quiets };

    ghost content = { λ _. None };

    fn read(&mut self, buf: &mut [u8]) -> ReadStep {
        match self.cue() {
            Some(Cue::Give(_, bytes)) => {
                self.at = self.at.saturating_add(1);
                match copy(bytes, buf) {
                    0 => ReadStep::End,
                    n => ReadStep::Got(n),
                }
            }
            Some(Cue::End(_)) => ReadStep::End,
            None => {
                if self.quiets >= TURNS {
                    return ReadStep::End;
                }
                yield_now();
                self.quiets = self.quiets.saturating_add(1);
                ReadStep::Quiet
            }
        }
    }
}
