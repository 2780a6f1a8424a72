ghost use Rattle.std.specs.Prelude.{◌≡◌, ◌≤◌, ◌⊎◌, ◌++◌, [], false, true};
ghost use Rattle.gps_outside.specs.Counts.{Rose};
ghost use Rattle.gps_outside.specs.Waiting.{Sends};
ghost use Rattle.gps_outside.specs.Writes.{WritesAll};

use crate::{Sink, Source, write_all};
use std::alloc::Global;
use std::marker::Model;

/// At most this many bytes wait. The lines of 32,768 bytes of sentences, which are read ahead, make two writes.
const ROOM: usize = 40_960;

/// Bytes on their way to a sink. They wait for further ones, so that many pieces make one write.
///
/// Its memory is allocated at once. If there is none, nothing waits.
#[derive(Drop)]
pub struct Outbox {
    waiting: Vec<u8>,
}

impl Model for Outbox {
    ghost use Rattle.std.specs.Prelude.{List, ℕ};

    ghost Value = { List ℕ };

    ghost view = { λ s. s.waiting.items };
}

impl Outbox {
    pub fn new(alloc: Global) -> Outbox
        ensures { result ≡ [] }
    {
        let waiting = match Vec::with_capacity(alloc, ROOM) {
            Ok(waiting) => waiting,
            Err(_) => Vec::new(alloc),
        };
        Outbox { waiting }
    }

    /// Keeps a piece if there is room for it.
    fn keep(&mut self, piece: &[u8]) -> bool
        ensures kept { result ≡ true → self.new ≡ self.old ++ piece.now }
        ensures refused { result ≡ false → self.new ≡ self.old }
    {
        self.waiting.len() + piece.len() <= self.waiting.capacity()
            && self.waiting.extend_from_slice(piece).is_ok()
    }

    /// Adds a piece, which waits if it can. If there is no room for it, what waits is written first.
    ///
    /// False: the sink failed.
    pub fn add<K: Sink>(&mut self, piece: &[u8], sink: &mut K) -> bool
        requires takes { K.takes sink.old }
        ensures takes { K.takes sink.new }
        ensures bytes { Sends result (self.old ++ piece.now) self.new (K.written sink.old) (K.written sink.new) }
        ensures faults_stay { K.faults sink.old ≤ K.faults sink.new }
        ensures failed { result ≡ false → Rose (K.faults sink.old) (K.faults sink.new) }
        ensures fails_only { result ≡ true → K.faults sink.new ≡ K.faults sink.old }
    {
        if self.keep(piece) {
            return true;
        }
        if !self.flush(sink) {
            return false;
        }
        self.keep(piece) || write_all(sink, piece)
    }

    /// Writes what waits.
    ///
    /// False: the sink failed.
    pub fn flush<K: Sink>(&mut self, sink: &mut K) -> bool
        // The sink is open, and stays open.
        requires takes { K.takes sink.old }
        ensures takes { K.takes sink.new }

        // What is written, and that nothing waits any more.
        ensures bytes { WritesAll result self.old (K.written sink.old) (K.written sink.new) }
        ensures empty { self.new ≡ [] }
        ensures none { self.old ≡ [] → result ≡ true }

        // A fault is counted exactly if the sink failed.
        ensures faults_stay { K.faults sink.old ≤ K.faults sink.new }
        ensures failed { result ≡ false → Rose (K.faults sink.old) (K.faults sink.new) }
        ensures fails_only { result ≡ true → K.faults sink.new ≡ K.faults sink.old }
    {
        let wrote = write_all(sink, self.waiting.as_slice());
        self.waiting.clear();
        wrote
    }

    /// Writes what waits, unless more bytes are ready in the source.
    ///
    /// False: the sink failed.
    pub fn flush_unless_ready<S: Source, K: Sink>(&mut self, source: &S, sink: &mut K) -> bool
        // The sink is open, and stays open.
        requires takes { K.takes sink.old }
        ensures takes { K.takes sink.new }

        // What is written, and what may still wait.
        ensures bytes { Sends result self.old self.new (K.written sink.old) (K.written sink.new) }
        ensures kept { result ≡ true → (self.new ≡ []) ⊎ S.keeps_at_fault source.now }

        // A fault is counted exactly if the sink failed.
        ensures faults_stay { K.faults sink.old ≤ K.faults sink.new }
        ensures failed { result ≡ false → Rose (K.faults sink.old) (K.faults sink.new) }
        ensures fails_only { result ≡ true → K.faults sink.new ≡ K.faults sink.old }
    {
        source.is_ready() || self.flush(sink)
    }
}
