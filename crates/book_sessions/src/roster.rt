ghost use Rattle.std.specs.Prelude.{◌≡◌, ◌≢◌, ◌≤◌, ◌<◌, ◌+◌, ◌^◌, ℕ, true, false, List, [], ◌∷◌, ◌++◌, length, map, count_by, drop, slice_get, slice_index_or, slice_set, nat_lt, option_map, option_and_then, IfOk, IfErr, IfNone, OnOk, OnErr};
ghost use Rattle.std.specs.List.{AllZip};
ghost use Rattle.std.specs.Option.{option_to_list};
ghost use Rattle.gps_report.specs.declared.report.Report.{Report};
ghost use Rattle.session_core.specs.Holding.{Holding, Selection};
ghost use Rattle.session_core.specs.SessionView.{opening_policy};
ghost use Rattle.session_core.specs.Stretches.{answer_stretch};
ghost use Rattle.book_replies.specs.Replies.{opening_reply};
ghost use Rattle.book_batch.specs.Lines.{line_for};
ghost use Rattle.book_batch.specs.Sharing.{AreNamed, SharesLines, shares_of};
ghost use Rattle.book_sessions.specs.MemberView.{MemberView, is_open, opened, renewed, with_cutter, with_kept};
ghost use Rattle.book_sessions.specs.Allowing.{MayReply, MayReportEach};
ghost use Rattle.book_sessions.specs.Answering.{AnswersCut, IsCut};
ghost use Rattle.book_sessions.specs.Roster.{Changes, Closes, IsAfter, IsAfterAll, IsOpenAt, Refuses, Shuts, MemberTurns, listening_in, live_in, was_watched};
ghost use Rattle.book_sessions.specs.Spreading.{Spreads};

use crate::member::Member;
use crate::texts::ReplyTexts;
use crate::walk::{
    close_at, close_each, copy_of, go_on_at, input_at, keep_listening, keep_open, make_room,
    receive_each, turn_each,
};
use book_batch::Batch;
use book_replies::ReplyData;
use gps_command::RequestCut;
use gps_fixed::NoMemory;
use gps_report::Names;
use session_core::{Close, Item, Outlet, PlainOutlet, TwoEnded};
use std::alloc::Global;
use std::marker::Model;

/// How many sessions may be open at once.
const MOST_LIVE: u32 = 64;

/// How many sessions may be opened in one run.
const MOST_OPENED: u32 = 100_000;

/// Why a roster does not admit a session.
#[derive(Clone, Copy, Debug, PartialEq, Eq)]
pub enum AdmitFault {
    /// 64 are live, or 100,000 were opened.
    TooManySessions { live: u32, opened: u32 },
    NoMemory,
}

/// The sessions of a run, by number. Contracts see the plain list of them.
#[derive(Drop)]
pub struct Roster<O: Outlet> {
    alloc: Global,
    members: Vec<Member<O>>,
    /// The numbers of the open ones, in order.
    live: Vec<u32>,
    /// The numbers of those that are open and have an enabled policy, in order.
    listening: Vec<u32>,
    /// The numbers of those that were open in this generation.
    recent: Vec<u32>,
    watched: u32,
    texts: ReplyTexts,
}

impl<O: Outlet> Model for Roster<O> {
    ghost use Rattle.std.specs.Prelude.{List};
    ghost use Rattle.book_sessions.specs.MemberView.{MemberView};
    ghost use Rattle.book_sessions.specs.Roster.{AreListening, IsRoster};

    ghost Value = { List MemberView };

    ghost view = { λ r. r.members.items };

    ghost invariant = { λ r. IsRoster r.live.items r.recent.items r.watched r.members.items × AreListening r.listening.items r.members.items };
}

impl<O: Outlet> Roster<O> {
    /// No session yet. Takes no memory.
    pub fn new(alloc: Global) -> Roster<O>
        ensures { result ≡ [] }
    {
        Roster {
            alloc,
            members: Vec::new(alloc),
            live: Vec::new(alloc),
            listening: Vec::new(alloc),
            recent: Vec::new(alloc),
            watched: 0,
            texts: ReplyTexts::new(alloc),
        }
    }

    /// How many sessions are open.
    #[tactic(auto, using(crate::proofs::Walking::numbers_count))]
    pub fn live(&self) -> u32
        ensures live { result ≡ live_in self.now }
        ensures few { result ≤ 64 }
    {
        self.live.len() as u32
    }

    /// How many sessions are open and have an enabled policy. No other session is given a report.
    #[tactic(auto, using(crate::proofs::Walking::numbers_count))]
    pub fn listening(&self) -> u32
        ensures listening { result ≡ listening_in self.now }
        ensures few { result ≤ 64 }
    {
        self.listening.len() as u32
    }

    /// How many sessions were opened.
    pub fn opened(&self) -> u32
        ensures opened { result ≡ length self.now }
        ensures few { result ≤ 100000 }
    {
        self.members.len() as u32
    }

    /// How many sessions, open or closed, have had a mark with an enabled policy.
    pub fn watched(&self) -> u32
        ensures { result ≡ count_by was_watched self.now }
    {
        self.watched
    }

    /// Whether there is a session of this number.
    pub fn exists(&self, s: u32) -> bool
        ensures { result ≡ nat_lt s (length self.now) }
    {
        (s as usize) < self.members.len()
    }

    pub fn is_open(&self, s: u32) -> bool
        requires { s < length self.now }
        ensures open { result ≡ true → IsOpenAt s self.now }
        ensures closed { result ≡ false → (free : MemberView) → (slice_index_or self.now s free).session.closing ≢ None }
    {
        self.members[s as usize].is_open()
    }

    /// The number of items pushed to a session, or `None` if there is no such session.
    pub fn items(&self, s: u32) -> Option<u64>
        ensures { result ≡ option_map (λ a. a.session.items) (slice_get self.now s) }
    {
        match self.members.get(s as usize) {
            Some(member) => Some(member.items()),
            None => None,
        }
    }

    /// Where and why a session was closed, or `None` if there is no such session or it is open.
    pub fn closing(&self, s: u32) -> Option<(u64, Close)>
        ensures { result ≡ option_and_then (λ a. a.session.closing) (slice_get self.now s) }
    {
        match self.members.get(s as usize) {
            Some(member) => member.closing(),
            None => None,
        }
    }

    /// Opens the next session, numbered from 0; its first item is the opening reply, and the given number of its requests is answered. Refused if 64
    /// are live or 100,000 were opened, and then if memory runs out. A refusal changes nothing, and the outlet comes back.
    #[tactic(auto, using(crate::proofs::Places::opening_holds))]
    pub fn admit(
        &mut self,
        outlet: O,
        most_requests: u32,
        place: u64,
    ) -> Result<u32, (O, AdmitFault)>
        // The outlet is empty, has room, and is open.
        requires empty { O.kept outlet ≡ [] }
        requires cap { 1 ≤ O.cap outlet }
        requires takes { O.takes outlet }
        requires may { O.may (O.name outlet) (opening_reply ∷ []) }

        // What an opening does.
        ensures number { IfOk result (λ s. s ≡ length self.old) }
        ensures admitted { OnOk result (self.new ≡ self.old ++ opened (O.name outlet) (O.cap outlet) most_requests place ∷ []) }
        ensures few { OnOk result ((live_in self.old < 64) × (length self.old < 100000)) }
        ensures opens { (lines : Selection) (history : List Report) → length history ≡ place
            → Holding lines history (opened (O.name outlet) (O.cap outlet) most_requests place).session
            (answer_stretch place opening_policy opening_reply ∷ []) }
        ensures after { (later : ℕ) → place ≤ later → IsAfterAll later self.old → IsAfterAll later self.new }

        // When it is refused, and what a refusal leaves.
        ensures refuses { IfErr result (λ refusal. Refuses self.old refusal.1) }
        ensures outlet { IfErr result (λ refusal. refusal.0 ≡ outlet) }
        ensures err { OnErr result (self.new ≡ self.old) }
    {
        let live = self.live();
        let opened = self.opened();
        if live >= MOST_LIVE || opened >= MOST_OPENED {
            return Err((outlet, AdmitFault::TooManySessions { live, opened }));
        }
        if make_room(&mut self.members, &mut self.live, &mut self.recent).is_err() {
            return Err((outlet, AdmitFault::NoMemory));
        }
        match Member::new(self.alloc, outlet, most_requests, place) {
            Ok(member) => {
                self.members.push_reserved(member);
                self.live.push_reserved(opened);
                self.recent.push_reserved(opened);
                Ok(opened)
            }
            Err(outlet) => Err((outlet, AdmitFault::NoMemory)),
        }
    }

    /// The requests that a piece of a session's input ends, and its cutter after the piece. Nothing changes.
    pub fn cut(&self, s: u32, piece: &[u8]) -> Result<RequestCut, NoMemory>
        requires { s < length self.now }
        ensures { IfOk result (λ cut. (free : MemberView) → IsCut piece.now (slice_index_or self.now s free) cut.requests.items cut.cutter) }
    {
        self.members[s as usize].cut(piece)
    }

    /// Puts a session's cutter in place after a piece that ended no request. Takes no memory.
    pub fn go_on(&mut self, s: u32, cut: RequestCut)
        requires exists { s < length self.old }
        ensures goes_on { Changes s (λ a b. b ≡ with_cutter cut.cutter a) self.old self.new }
        ensures after { (later : ℕ) → IsAfterAll later self.old → IsAfterAll later self.new }
    {
        go_on_at(&mut self.members, s as usize, cut);
    }

    /// Answers, at one place, each request that was cut of a session's input, in order, until the session is closed: by the first
    /// request beyond the number that is answered, or if its outlet is full. A refusal changes nothing.
    pub fn input(
        &mut self,
        s: u32,
        place: u64,
        known: &ReplyData,
        names: &Names,
        cut: RequestCut,
    ) -> Result<(), NoMemory>
        // The session is open, and the place is not before its last mark.
        requires exists { s < length self.old }
        requires open { IsOpenAt s self.old }
        requires after { IsAfter place s self.old }
        requires named { length names.now ≡ length known.now.firsts }
        requires may { (free : MemberView) → MayReply O.may known.now names.now cut.requests.items (slice_index_or self.old s free).session }

        // What is answered.
        ensures answers { OnOk result (Changes s (AnswersCut O.exact known.now names.now place cut.requests.items cut.cutter) self.old self.new) }
        ensures after { (later : ℕ) → place ≤ later → IsAfterAll later self.old → IsAfterAll later self.new }

        // What a refusal leaves.
        ensures err { OnErr result (self.new ≡ self.old) }
    {
        let alloc = self.alloc;
        let mut listening = copy_of(alloc, &self.live)?;
        let watched = input_at(
            &mut self.members,
            s as usize,
            alloc,
            &mut self.texts,
            place,
            known,
            names,
            cut,
        )?;
        keep_open(&self.members, &mut self.live);
        keep_listening(&self.members, &mut listening);
        self.listening = listening;
        self.watched += u32::from(watched);
        Ok(())
    }

    /// Closes a session. Takes no memory.
    pub fn hang_up(&mut self, s: u32, place: u64, why: Close)
        requires exists { s < length self.old }
        requires open { IsOpenAt s self.old }
        requires after { IsAfter place s self.old }
        ensures closes { Changes s (Closes place why) self.old self.new }
        ensures after { (later : ℕ) → IsAfterAll later self.old → IsAfterAll later self.new }
    {
        let alloc = self.alloc;
        close_at(&mut self.members, s as usize, alloc, place, why);
        keep_open(&self.members, &mut self.live);
        keep_listening(&self.members, &mut self.listening);
    }

    /// Reports to each session that listens, in order, each line of the batch that its policy selects, at the place `first` plus
    /// the report's index, until a full outlet closes that session. Takes no memory.
    #[tactic(auto, using(crate::proofs::Walking::numbers_within, crate::proofs::Walking::numbers_count))]
    pub fn spread(&mut self, first: u64, batch: Batch, names: &Names)
        // The batch has a share for each session that listens, and its reports come after all marks.
        requires shares { listening_in self.old ≤ shares_of batch }
        requires after { IsAfterAll first self.old }
        requires few { first + length batch.reports < 2 ^ 63 }
        requires named { AreNamed names.now batch.reports }
        requires lines { SharesLines names.now batch }
        requires may { MayReportEach O.may (line_for names.now) batch.reports self.old }

        // What each session is sent.
        ensures spreads { AllZip (Spreads O.exact (line_for names.now) first batch.reports) self.old self.new }
        ensures after { (later : ℕ) → IsAfterAll later self.old → IsAfterAll later self.new }
    {
        if self.listening.is_empty() {
            return;
        }
        let alloc = self.alloc;
        receive_each(
            &mut self.members,
            &self.listening,
            alloc,
            first,
            batch,
            names,
        );
        keep_open(&self.members, &mut self.live);
        keep_listening(&self.members, &mut self.listening);
    }

    /// A new generation begins: an open session keeps only its policy, from place 0 on, and a closed one ends there. Takes no
    /// memory.
    #[tactic(auto, using(crate::proofs::Rosters::turned_map, crate::proofs::Rosters::turned_zip))]
    pub fn turn(&mut self)
        ensures turned { self.new ≡ map renewed self.old }
        ensures each { AllZip MemberTurns self.old self.new }
        ensures after { IsAfterAll 0 self.new }
    {
        turn_each(&mut self.members, &self.recent);
        keep_open(&self.members, &mut self.recent);
    }

    /// Closes each open session, as the daemon has ended. Takes no memory.
    #[tactic(auto, using(crate::proofs::Walking::numbers_within))]
    pub fn shut(&mut self, place: u64)
        requires { IsAfterAll place self.old }
        ensures shuts { AllZip (Shuts place Close.DaemonEnd) self.old self.new }
        ensures after { (later : ℕ) → IsAfterAll later self.old → IsAfterAll later self.new }
    {
        let alloc = self.alloc;
        close_each(
            &mut self.members,
            &self.live,
            alloc,
            place,
            Close::DaemonEnd,
        );
        keep_open(&self.members, &mut self.live);
        keep_listening(&self.members, &mut self.listening);
    }
}

impl Roster<PlainOutlet> {
    /// Takes the first item that the session's outlet holds, or `None` exactly if it holds nothing. Takes no memory.
    pub fn take(&mut self, s: u32) -> Option<Item>
        requires { s < length self.old }
        ensures item { (free : MemberView) → result ≡ slice_get (slice_index_or self.old s free).session.kept 0 }
        ensures now { Changes s (λ a b. b ≡ with_kept (drop 1 a.session.kept) a) self.old self.new }
    {
        let member = &mut self.members[s as usize];
        member.take()
    }
}

impl<O: TwoEnded> Roster<O> {
    /// Takes one item at the far end of the session's outlet and returns it. Takes no memory.
    pub fn settle(&mut self, s: u32, far: &mut O::Far) -> Option<Item>
        // The far end belongs to the outlet of the session.
        requires exists { s < length self.old }
        requires belongs { (free : MemberView) → O.belongs (O.far_name far.old) (slice_index_or self.old s free).session.name }

        // What stays.
        ensures same { self.new ≡ self.old }

        // What the far end gets: a prefix of what was kept, and all of it once there is no item.
        ensures item { O.got far.new ≡ O.got far.old ++ option_to_list result }
        ensures prefix { (free : MemberView) → (rest : List (List ℕ)) × ((slice_index_or self.new s free).session.kept ≡ O.got far.new ++ rest) }
        ensures all { IfNone result ((free : MemberView) → O.got far.new ≡ (slice_index_or self.new s free).session.kept) }
        ensures far_name { O.far_name far.new ≡ O.far_name far.old }
    {
        let member = &mut self.members[s as usize];
        member.settle(far)
    }
}
