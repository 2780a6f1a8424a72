ghost use Rattle.std.specs.Prelude.{◌≡◌, ◌<◌, ℕ, List, [], length, Some};
ghost use Rattle.gps_outside.specs.Links.{IsUnread};
ghost use Rattle.upstream_laws.specs.declared.stage.Stage.{Stage};
ghost use Rattle.upstream_laws.specs.Head.{behind, fresh};
ghost use Rattle.gps_upstream.specs.declared.head.Head.{Head};
ghost use Rattle.gps_upstream.specs.Calls.{DoesRead};
ghost use Rattle.gps_upstream.specs.Upward.{IsOpen, StandsBy, content_of, faults_of, head_at, opened};

use crate::Head;
use crate::asking::ask;
use crate::cutter::HeadCutter;
use crate::reading::read_on;
use gps_outside::{ReadStep, Sink, Source, Waits};
use gps_report::Name;
use std::marker::Model;
use upstream_laws::Stage;

/// Whether the request was written.
#[derive(Clone, Copy, Debug, PartialEq, Eq)]
pub(crate) enum Asked {
    NotYet,
    Whole,
    /// The sink failed.
    Unsent,
}

/// The packets of another daemon, over a connection to it.
///
/// Its first read asks the daemon for the packets of a device, or of all its devices. The head of lines before them is taken off.
#[derive(Drop)]
pub struct Upstream<S: Source, K: Sink> {
    source: S,
    pub(crate) sink: K,
    device: Option<Name>,
    asked: Asked,
    cutter: HeadCutter,
}

impl<S: Source, K: Sink> Model for Upstream<S, K> {
    ghost use Rattle.std.specs.Prelude.{◌≡◌};
    ghost use Rattle.upstream_laws.specs.Head.{fresh};
    ghost use Rattle.gps_upstream.specs.declared.upstream.Asked.{Asked};
    ghost use Rattle.gps_upstream.specs.Upward.{Upward, seen};

    ghost Value = { Upward };

    ghost view = { λ u. seen u.device u.asked u.cutter (S.content u.source) (S.faults u.source) (S.quiets u.source) (K.written u.sink) (K.faults u.sink) };

    ghost invariant = { λ u. (u.asked ≡ Asked.NotYet → u.cutter ≡ fresh) × K.takes u.sink };
}

/// The head of a daemon that was asked.
fn head_at(stage: Stage) -> Head
    ensures { result ≡ head_at stage }
{
    match stage {
        Stage::Inside => Head::Reading,
        Stage::Behind => Head::Done,
        Stage::Nowhere => Head::Bad,
    }
}

impl<S: Source, K: Sink> Upstream<S, K> {
    /// Over a new connection, from which nothing was read. Takes no memory and writes nothing.
    pub fn new(source: S, sink: K, device: Option<Name>) -> Upstream<S, K>
        requires open { K.takes sink }
        ensures opened { result ≡ opened device (S.content source) (S.faults source) (S.quiets source) (K.written sink) (K.faults sink) }
        ensures told { (left : List ℕ) → S.content source ≡ Some (record { taken = []; left = left })
            → content_of result ≡ Some (record { taken = []; left = behind fresh left }) }
        ensures unread { IsUnread (S.content source) (S.faults source) (S.quiets source) → K.faults sink ≡ 0
            → IsUnread (content_of result) (faults_of result) result.quiets }
    {
        Upstream {
            source,
            sink,
            device,
            asked: Asked::NotYet,
            cutter: HeadCutter::new(),
        }
    }

    /// How much of the head was read.
    pub fn head(&self) -> Head
        ensures head { result ≡ self.now.head }
        ensures stand { StandsBy result self.now.stand }
    {
        match self.asked {
            Asked::NotYet => Head::Start,
            Asked::Whole => head_at(self.cutter.stage()),
            Asked::Unsent => Head::Unsent,
        }
    }

    /// Reads after the request was written. It only forwards, for the prover: its contract is of the upstream as a whole.
    fn read_on(&mut self, buf: &mut [u8]) -> ReadStep
        requires room { 0 < length buf.old }
        requires head { IsOpen self.old.head }
        ensures { DoesRead result (length buf.old) buf.new self.old self.new }
    {
        read_on(&mut self.source, &mut self.cutter, buf).answer()
    }

    /// Asks, and then reads.
    fn ask_and_read(&mut self, buf: &mut [u8]) -> ReadStep
        requires room { 0 < length buf.old }
        requires head { self.old.head ≡ Head.Start }
        ensures { DoesRead result (length buf.old) buf.new self.old self.new }
    {
        if !ask(&mut self.sink, &self.device) {
            self.asked = Asked::Unsent;
            return ReadStep::Failed;
        }
        self.asked = Asked::Whole;
        self.read_on(buf)
    }
}

impl<S: Source, K: Sink> Source for Upstream<S, K> {
    ghost use Rattle.std.specs.Prelude.{◌≤◌};
    ghost use Rattle.gps_outside.specs.declared.source.ReadStep.{ReadStep};
    ghost use Rattle.gps_outside.specs.Counts.{Rose};
    ghost use Rattle.gps_outside.specs.Reads.{CountsQuiet, FailsOnly, FitsBuffer, Reads};
    ghost use Rattle.gps_upstream.specs.Calls.{Asks, IsGiven, IfGot, HasFault, HasEnded, HandsOn};

    ghost faults = { λ u. faults_of u };

    ghost quiets = { λ u. u.quiets };

    ghost content = { λ u. content_of u };

    /// The first read writes the request, and no other writes. Then the head is taken off; what follows it is handed on.
    ///
    /// Failed: the sink failed (the head is Unsent), the source failed, or the head was found bad. After a bad head, and if
    /// the request could not be written, nothing is left.
    fn read(&mut self, buf: &mut [u8]) -> ReadStep
        // What each source promises.
        requires { 0 < length buf.old }
        ensures fits { FitsBuffer result (length buf.old) }
        ensures bytes { Reads result buf.new (content_of self.old) (content_of self.new) }
        ensures faults_stay { faults_of self.old ≤ faults_of self.new }
        ensures quiets_stay { self.old.quiets ≤ self.new.quiets }
        ensures failed { result ≡ ReadStep.Failed → Rose (faults_of self.old) (faults_of self.new) }
        ensures quiet { result ≡ ReadStep.Quiet → Rose self.old.quiets self.new.quiets }
        ensures fails_only { FailsOnly result (faults_of self.old) (faults_of self.new) }
        ensures counts_quiet { CountsQuiet result self.old.quiets self.new.quiets }

        // What is asked of the other daemon, and how the head is taken off.
        ensures device { self.new.device ≡ self.old.device }
        ensures asked { Asks self.old self.new }
        ensures given { (first : List ℕ) → IsGiven first self.old → IsGiven first self.new }
        ensures got { IfGot result (self.new.head ≡ Head.Done) }

        // Why it failed or ended, and what is handed on.
        ensures cause { result ≡ ReadStep.Failed → HasFault self.old self.new }
        ensures ended { result ≡ ReadStep.End → HasEnded self.old self.new }
        ensures handed { HandsOn result buf.new self.old self.new }
    {
        match self.head() {
            Head::Start => self.ask_and_read(buf),
            Head::Reading | Head::Done => self.read_on(buf),
            Head::Bad | Head::Unsent => ReadStep::End,
        }
    }
}

impl<S: Waits, K: Sink> Waits for Upstream<S, K> {
    fn set_wait(&mut self, wait: Option<u32>) {
        self.source.set_wait(wait);
    }

    fn is_there(&self) -> bool {
        self.source.is_there()
    }
}
