//! Standard input and output as the commands use them. They wrap a source or a sink, report its contents and counts, and hand on its answers. They
//! count, so that it can be said on standard error why a command ended.

ghost use Rattle.std.specs.Prelude.{◌≡◌, ◌≤◌, length};

use crate::progress::Progress;
use class_counts::FirstBytes;
use gps_outside::{ReadStep, Sink, Source, WriteStep};
use std::alloc::Global;
use std::io::Eprint;
use std::time;

/// Standard input, which counts its bytes, keeps the first of them, and may show how far it has come.
#[derive(Drop)]
pub struct CountedInput<S: Source, R> {
    source: S,
    bytes: u64,
    first: FirstBytes,
    progress: Option<Progress<R>>,
}

impl<S: Source, R: Copy> CountedInput<S, R> {
    pub fn new(alloc: Global, machine: R, source: S, is_shown: bool) -> CountedInput<S, R>
        ensures { result.source ≡ source }
    {
        let progress = if is_shown {
            Some(Progress::new(machine))
        } else {
            None
        };
        CountedInput {
            source,
            bytes: 0,
            first: FirstBytes::new(alloc),
            progress,
        }
    }
}

impl<S: Source, R: Eprint + time::Clock + Copy> CountedInput<S, R> {
    /// Clears the progress that is shown: nothing more is read.
    pub fn end_progress(&self) {
        if let Some(progress) = &self.progress {
            progress.end();
        }
    }
}

impl<S: Source, R> CountedInput<S, R> {
    /// How many bytes came.
    pub fn bytes(&self) -> u64 {
        self.bytes
    }

    /// The first bytes that came.
    pub fn first(&self) -> &FirstBytes {
        &self.first
    }
}

impl<S: Source, R: Eprint + time::Clock + Copy + Drop> Source for CountedInput<S, R> {
    ghost faults = { λ s. S.faults s.source };

    ghost quiets = { λ s. S.quiets s.source };

    ghost content = { λ s. S.content s.source };

    ghost keeps_at_fault = { λ s. S.keeps_at_fault s.source };

    fn read(&mut self, buf: &mut [u8]) -> ReadStep {
        let step = self.source.read(buf);
        if let ReadStep::Got(n) = step {
            self.bytes = self.bytes.saturating_add(n as u64);
            self.first.add(&buf[..n]);
            if let Some(progress) = &mut self.progress {
                progress.add(&buf[..n]);
            }
        }
        step
    }

    fn is_ready(&self) -> bool {
        self.source.is_ready()
    }

    fn finish(&mut self) {
        self.source.finish();
    }
}

/// Standard output, which counts its bytes.
#[derive(Drop)]
pub struct CountedOutput<K: Sink> {
    sink: K,
    bytes: u64,
}

impl<K: Sink> CountedOutput<K> {
    pub fn new(sink: K) -> CountedOutput<K>
        ensures { result.sink ≡ sink }
    {
        CountedOutput { sink, bytes: 0 }
    }

    /// How many bytes were written.
    pub fn bytes(&self) -> u64 {
        self.bytes
    }
}

impl<K: Sink> Sink for CountedOutput<K> {
    ghost faults = { λ s. K.faults s.sink };

    ghost written = { λ s. K.written s.sink };

    ghost takes = { λ s. K.takes s.sink };

    fn write(&mut self, piece: &[u8]) -> WriteStep {
        let step = self.sink.write(piece);
        if let WriteStep::Wrote(n) = step {
            self.bytes = self.bytes.saturating_add(n as u64);
        }
        step
    }

    fn finish(&mut self) {
        self.sink.finish();
    }
}
