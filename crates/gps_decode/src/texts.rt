ghost use Rattle.std.specs.Prelude.{◌≡◌, ◌≤◌, ◌⊎◌, ◌++◌, [], OnOk, false, true};
ghost use Rattle.gps_outside.specs.Counts.{Rose};
ghost use Rattle.gps_outside.specs.Waiting.{Sends};
ghost use Rattle.gps_outside.specs.Writes.{WritesAll};
ghost use Rattle.gps_decode.specs.Texts.{line_of, sentences_of, texts_by, texts_of};
ghost use Rattle.gps_decode.specs.Decode.{FaultCause, GaveUp, Written, WriteCause};

use crate::fault::Fault;
use gps_fixed::{Bytes, NoMemory};
use gps_outside::{Outbox, Sink, Source};
use gps_report::{Body, Form};
use json_line::push_text;
use pseudo_nmea::push_sentences;
use std::alloc::Global;
use std::marker::Model;

/// What is written of a device's reports.
#[derive(Clone, Copy, Debug, PartialEq, Eq)]
pub(crate) enum Output {
    /// The JSON lines of its fixes and skies, for the one device, named `stdin`.
    Lines,
    /// The two sentences of each fix, for programs that read only sentences.
    Sentences,
}

/// Adds the line of a report, if it has one.
fn push_report(out: &mut Bytes, body: &Body) -> Result<(), NoMemory>
    ensures { OnOk result (out.new ≡ out.old ++ line_of body.now) }
{
    match body {
        Body::Tpv(_) | Body::Sky(_) => push_text(out, Form::Json, b"stdin", body),
        _ => Ok(()),
    }
}

/// Adds the sentences of a report, if it is a fix.
fn push_fix(out: &mut Bytes, body: &Body) -> Result<(), NoMemory>
    ensures { OnOk result (out.new ≡ out.old ++ sentences_of body.now) }
{
    match body {
        Body::Tpv(fix) => push_sentences(out, fix),
        _ => Ok(()),
    }
}

impl Output {
    /// Adds what is written of a report.
    fn push(&self, out: &mut Bytes, body: &Body) -> Result<(), NoMemory>
        ensures { OnOk result (out.new ≡ out.old ++ texts_by self.now body.now) }
    {
        match self {
            Output::Lines => push_report(out, body),
            Output::Sentences => push_fix(out, body),
        }
    }

    /// Adds what is written of reports, in order.
    fn push_all(&self, out: &mut Bytes, bodies: &[Body]) -> Result<(), NoMemory>
        ensures { OnOk result (out.new ≡ out.old ++ texts_of (texts_by self.now) bodies.now) }
    {
        'bodies: for body in bodies {
            self.push(out, body)?;
        }
        Ok(())
    }
}

/// Lines on their way to the sink: room to make those of one read, and those that wait for further ones.
#[derive(Drop)]
pub(crate) struct Draft {
    text: Bytes,
    outbox: Outbox,
}

impl Model for Draft {
    ghost use Rattle.std.specs.Prelude.{List, ℕ};

    ghost Value = { List ℕ };

    ghost view = { λ s. s.outbox };
}

impl Draft {
    pub(crate) fn new(alloc: Global) -> Draft
        ensures { result ≡ [] }
    {
        Draft {
            text: Bytes::new(alloc),
            outbox: Outbox::new(alloc),
        }
    }

    /// Adds what is written of reports, once all of it is made.
    pub(crate) fn write<K: Sink>(
        &mut self,
        output: &Output,
        bodies: &[Body],
        sink: &mut K,
    ) -> Result<(), Fault>
        requires takes { K.takes sink.old }
        ensures takes { K.takes sink.new }
        ensures wrote { Written result (texts_of (texts_by output.now) bodies.now) self.old self.new (K.written sink.old) (K.written sink.new) }
        ensures cause { WriteCause result (K.faults sink.old) (K.faults sink.new) }
        ensures faults_stay { K.faults sink.old ≤ K.faults sink.new }
    {
        self.text.clear();
        match output.push_all(&mut self.text, bodies) {
            Ok(()) => {
                if self.outbox.add(self.text.as_slice(), sink) {
                    Ok(())
                } else {
                    Err(Fault::Sink)
                }
            }
            Err(NoMemory) => Err(self.give_up(sink)),
        }
    }

    /// Writes what waits when there is no memory for more.
    pub(crate) fn give_up<K: Sink>(&mut self, sink: &mut K) -> Fault
        requires takes { K.takes sink.old }
        ensures takes { K.takes sink.new }
        ensures wrote { GaveUp result self.old (K.written sink.old) (K.written sink.new) }
        ensures cause { FaultCause result (K.faults sink.old) (K.faults sink.new) }
        ensures faults_stay { K.faults sink.old ≤ K.faults sink.new }
    {
        if self.outbox.flush(sink) {
            Fault::NoMemory
        } else {
            Fault::Sink
        }
    }

    /// Writes what waits.
    ///
    /// False: the sink failed.
    pub(crate) fn flush<K: Sink>(&mut self, sink: &mut K) -> bool
        // The sink is open, and stays open.
        requires takes { K.takes sink.old }
        ensures takes { K.takes sink.new }

        // What is written, and that nothing waits any more.
        ensures bytes { WritesAll result self.old (K.written sink.old) (K.written sink.new) }
        ensures empty { self.new ≡ [] }
        ensures none { self.old ≡ [] → result ≡ true }

        // A fault is counted exactly if the sink failed.
        ensures faults_stay { K.faults sink.old ≤ K.faults sink.new }
        ensures failed { result ≡ false → Rose (K.faults sink.old) (K.faults sink.new) }
        ensures fails_only { result ≡ true → K.faults sink.new ≡ K.faults sink.old }
    {
        self.outbox.flush(sink)
    }

    /// Writes what waits, unless more bytes are ready in the source.
    ///
    /// False: the sink failed.
    pub(crate) fn flush_unless_ready<S: Source, K: Sink>(
        &mut self,
        source: &S,
        sink: &mut K,
    ) -> bool
        // The sink is open, and stays open.
        requires takes { K.takes sink.old }
        ensures takes { K.takes sink.new }

        // What is written, and what may still wait.
        ensures bytes { Sends result self.old self.new (K.written sink.old) (K.written sink.new) }
        ensures kept { result ≡ true → (self.new ≡ []) ⊎ S.keeps_at_fault source.now }

        // A fault is counted exactly if the sink failed.
        ensures faults_stay { K.faults sink.old ≤ K.faults sink.new }
        ensures failed { result ≡ false → Rose (K.faults sink.old) (K.faults sink.new) }
        ensures fails_only { result ≡ true → K.faults sink.new ≡ K.faults sink.old }
    {
        self.outbox.flush_unless_ready(source, sink)
    }
}
