ghost use Rattle.std.specs.Prelude.{◌≡◌, ◌≤◌, ◌<◌, ◌+◌, ◌^◌, ◌||◌, ◌&&◌, not, ℕ, true, false, List, [], ◌∷◌, length, map, Option, Some, None, slice_get, drop, IfOk, IfErr, IfNone, OnOk, OnErr, is_some, ◌++◌};
ghost use Rattle.std.specs.Option.{option_to_list};
ghost use Rattle.gps_command.specs.Kept.{kept_open};
ghost use Rattle.book_replies.specs.Replies.{answered, opening_reply};
ghost use Rattle.session_core.specs.declared.mark.Close.{Close};
ghost use Rattle.session_core.specs.declared.outlet.Push.{Push};
ghost use Rattle.session_core.specs.Pushing.{MatchPush};
ghost use Rattle.session_core.specs.SessionView.{last_place};
ghost use Rattle.session_core.specs.Allowing.{AllowsAll, MayReport};
ghost use Rattle.book_sessions.specs.MemberView.{MemberView, closed, is_open, listens, opened, renewed, rested, with_cutter, with_kept};
ghost use Rattle.book_sessions.specs.Allowing.{MayReply, replies_left};
ghost use Rattle.book_sessions.specs.Answering.{AnswersCut, IsCut, MayAnswer, PutsAnswers, ended, put};
ghost use Rattle.book_sessions.specs.Roster.{shut_at};
ghost use Rattle.book_sessions.specs.Spreading.{Spreads};
ghost use Rattle.book_batch.specs.Lines.{line_for};
ghost use Rattle.book_batch.specs.Sharing.{AreNamed, row_of};

use crate::spreading::report_all;
use crate::texts::ReplyTexts;
use book_batch::Row;
use book_replies::{ReplyData, answers, opening_reply};
use gps_command::{CommandCutter, RawCommand, RequestCut};
use gps_fixed::NoMemory;
use gps_report::{Names, Policy, Report};
use session_core::{Close, Item, Outlet, PlainOutlet, Push, Session, TwoEnded};
use std::alloc::Global;
use std::marker::Model;
use watch_policy::opening;

/// A session of a roster, with the cutter of its input.
#[derive(Drop)]
pub(crate) struct Member<O: Outlet> {
    session: Session<O>,
    cutter: CommandCutter,
    watched: bool,
}

impl<O: Outlet> Model for Member<O> {
    ghost use Rattle.std.specs.Prelude.{◌≡◌, ◌<◌, None, length};
    ghost use Rattle.book_sessions.specs.MemberView.{MemberView};

    ghost Value = { MemberView };

    ghost view = { λ m. record { session = m.session; cutter = m.cutter; watched = m.watched } };

    ghost invariant = { λ m. m.session.closing ≡ None → 0 < length m.session.marks };
}

/// An answer whose reply can be pushed.
#[derive(Drop)]
struct Reply {
    policy: Policy,
    item: Item,
}

impl Model for Reply {
    ghost use Rattle.book_replies.specs.declared.answering.Answer.{Answer};

    ghost Value = { Answer };

    ghost view = { λ r. record { policy = r.policy; reply = r.item } };
}

fn opening_item(alloc: Global) -> Result<Item, NoMemory>
    ensures { IfOk result (λ item. item ≡ opening_reply) }
{
    let reply = opening_reply(alloc)?;
    Item::of(alloc, reply)
}

/// A cutter that keeps nothing. Takes no memory. It only forwards, for the prover: its contract names what the cutter keeps.
#[tactic(auto, unfolding(gps_command::specs::Kept::kept_from))]
fn new_cutter(alloc: Global) -> CommandCutter
    ensures { result ≡ kept_open [] }
{
    CommandCutter::new(alloc)
}

fn replies_to(
    alloc: Global,
    texts: &mut ReplyTexts,
    known: &ReplyData,
    names: &Names,
    policy: &Policy,
    requests: &[RawCommand],
) -> Result<Vec<Reply>, NoMemory>
    requires { length names.now ≡ length known.now.firsts }
    ensures { IfOk result (λ out. out.items ≡ answered known.now names.now policy.now requests.now) }
{
    let answers = answers(alloc, known, names, policy, requests)?;
    let mut out = Vec::new(alloc);
    'answers: for answer in answers {
        let item = texts.item_of(alloc, answer.reply.as_slice())?;
        let policy = answer.policy;
        out.push(Reply { policy, item })?;
    }
    Ok(out)
}

fn is_new(before: bool, now: bool) -> bool
    ensures { result ≡ (not before && now) }
{
    !before && now
}

fn count_of(replies: &Vec<Reply>) -> Result<u32, NoMemory>
    ensures { IfOk result (λ count. count ≡ length replies.now.items) }
{
    match u32::try_from(replies.len()) {
        Ok(count) => Ok(count),
        Err(_) => Err(NoMemory),
    }
}

impl<O: Outlet> Member<O> {
    /// A new session, of whose requests the given number is answered. Its first item is the opening reply. Out of memory, the outlet comes back.
    pub(crate) fn new(
        alloc: Global,
        outlet: O,
        most_requests: u32,
        place: u64,
    ) -> Result<Member<O>, O>
        requires empty { O.kept outlet ≡ [] }
        requires cap { 1 ≤ O.cap outlet }
        requires takes { O.takes outlet }
        requires may { O.may (O.name outlet) (opening_reply ∷ []) }
        ensures opened { IfOk result (λ m. m ≡ opened (O.name outlet) (O.cap outlet) most_requests place) }
        ensures outlet { IfErr result (λ back. back ≡ outlet) }
    {
        let item = match opening_item(alloc) {
            Ok(item) => item,
            Err(_) => return Err(outlet),
        };
        let mut session = Session::new(alloc, outlet)?;
        session.allow_requests(most_requests);
        match session.reply(place, opening(), item) {
            Push::Done => Ok(Member {
                session,
                cutter: new_cutter(alloc),
                watched: false,
            }),
            Push::Full => unreachable!(),
        }
    }

    pub(crate) fn is_open(&self) -> bool
        ensures { result ≡ is_open self.now }
    {
        self.session.closing().is_none()
    }

    /// Whether it is open and its policy is enabled.
    pub(crate) fn listens(&self) -> bool
        ensures { result ≡ listens self.now }
    {
        self.is_open() && self.session.policy().enable
    }

    pub(crate) fn closing(&self) -> Option<(u64, Close)>
        ensures { result ≡ self.now.session.closing }
    {
        self.session.closing()
    }

    pub(crate) fn items(&self) -> u64
        ensures { result ≡ self.now.session.items }
    {
        self.session.items()
    }

    pub(crate) fn watched(&self) -> bool
        ensures { result ≡ self.now.watched }
    {
        self.watched
    }

    fn reply(&mut self, place: u64, reply: Reply) -> Push
        requires open { self.old.session.closing ≡ None }
        requires room { 1 ≤ self.old.session.spare }
        requires after { last_place 0 self.old.session.marks ≤ place }
        requires may { O.may self.old.session.name (self.old.session.kept ++ reply.reply ∷ []) }
        ensures now { MatchPush result (self.new ≡ put place reply self.old) (self.new ≡ ended place Close.Overrun self.old) }
        ensures may { MayAnswer O.exact self.old.session result }
    {
        let enables = reply.policy.enable;
        let push = self.session.reply(place, reply.policy, reply.item);
        if push == Push::Done {
            self.watched = self.watched || enables;
        }
        push
    }

    fn end(&mut self, place: u64, why: Close)
        requires open { self.old.session.closing ≡ None }
        requires after { last_place 0 self.old.session.marks ≤ place }
        ensures { self.new ≡ ended place why self.old }
    {
        self.session.close(place, why);
    }

    /// Drops the bytes of an open request if the session is closed.
    fn rest(&mut self, alloc: Global)
        ensures { self.new ≡ rested self.old }
    {
        if self.session.closing().is_some() {
            self.cutter = new_cutter(alloc);
        }
    }

    pub(crate) fn close(&mut self, alloc: Global, place: u64, why: Close)
        requires open { self.old.session.closing ≡ None }
        requires after { last_place 0 self.old.session.marks ≤ place }
        ensures { self.new ≡ closed place why self.old }
    {
        self.session.close(place, why);
        self.cutter = new_cutter(alloc);
    }

    #[tactic(auto, using(crate::proofs::Answered::put_too_many, crate::proofs::Answered::put_full))]
    fn put_all(&mut self, place: u64, replies: Vec<Reply>)
        requires open { self.old.session.closing ≡ None }
        requires room { length replies.items ≤ self.old.session.spare }
        requires after { last_place 0 self.old.session.marks ≤ place }
        requires may { AllowsAll O.may self.old.session (replies_left self.old.session replies.items) }
        ensures puts { PutsAnswers O.exact place self.old replies.items self.new }
        ensures few { self.old.session.most_requests < 2 ^ 32 }
    {
        let most_requests = self.session.most_requests();
        'replies: for reply in replies {
            if self.session.requests() >= most_requests {
                self.end(place, Close::TooManyRequests);
                return;
            }
            if self.reply(place, reply) == Push::Full {
                return;
            }
        }
    }

    /// Closes an open session, and leaves a closed one.
    pub(crate) fn shut(&mut self, alloc: Global, place: u64, why: Close)
        requires after { last_place 0 self.old.session.marks ≤ place }
        ensures now { self.new ≡ shut_at place why self.old }
        ensures marks { self.new.session.marks ≡ self.old.session.marks }
    {
        if self.is_open() {
            self.close(alloc, place, why);
        }
    }

    /// Reports to an open session each item of the row that its policy selects, until its outlet is full.
    pub(crate) fn receive(
        &mut self,
        alloc: Global,
        first: u64,
        reports: &[Report],
        row: Row,
        names: &Names,
    )
        // The reports come after all that the session has, and the row has their items.
        requires after { last_place 0 self.old.session.marks ≤ first }
        requires few { first + length reports.now < 2 ^ 63 }
        requires named { AreNamed names.now reports.now }
        requires row { row ≡ row_of names.now reports.now }

        // Each item that the policy selects is due to its client.
        requires may { MayReport O.may (line_for names.now) reports.now self.old.session }

        ensures spreads { Spreads O.exact (line_for names.now) first reports.now self.old self.new }
        ensures marks { self.new.session.marks ≡ self.old.session.marks }
    {
        if self.is_open() {
            report_all(&mut self.session, first, reports, row, names);
            self.rest(alloc);
        }
    }

    /// The requests that a piece of its input ends, and its cutter after the piece. Nothing changes.
    pub(crate) fn cut(&self, piece: &[u8]) -> Result<RequestCut, NoMemory>
        ensures { IfOk result (λ cut. IsCut piece.now self.now cut.requests.items cut.cutter) }
    {
        self.cutter.cut(piece)
    }

    /// Puts a cutter in place after a piece that ended no request.
    pub(crate) fn go_on(&mut self, cut: RequestCut)
        ensures { self.new ≡ with_cutter cut.cutter self.old }
    {
        let _requests = self.cutter.put(cut);
    }

    /// Answers each request that was cut, in order, until the session is closed. Whether it is watched for the first time.
    pub(crate) fn input(
        &mut self,
        alloc: Global,
        texts: &mut ReplyTexts,
        place: u64,
        known: &ReplyData,
        names: &Names,
        cut: RequestCut,
    ) -> Result<bool, NoMemory>
        // The session is open, and the place is not before its last mark.
        requires open { self.old.session.closing ≡ None }
        requires after { last_place 0 self.old.session.marks ≤ place }
        requires named { length names.now ≡ length known.now.firsts }
        requires may { MayReply O.may known.now names.now cut.requests.items self.old.session }

        // What is answered, and whether the session is watched for the first time.
        ensures answers { OnOk result (AnswersCut O.exact known.now names.now place cut.requests.items cut.cutter self.old self.new) }
        ensures watched { IfOk result (λ more. self.new.watched ≡ (self.old.watched || more)) }
        ensures fresh { IfOk result (λ more. more ≡ true → self.old.watched ≡ false) }

        // What a refusal leaves.
        ensures err { OnErr result (self.new ≡ self.old) }
    {
        let before = self.watched;
        let replies = replies_to(
            alloc,
            texts,
            known,
            names,
            self.session.policy(),
            cut.requests.as_slice(),
        )?;
        let count = count_of(&replies)?;
        self.session.reserve(count)?;
        let _requests = self.cutter.put(cut);
        self.put_all(place, replies);
        self.rest(alloc);
        Ok(is_new(before, self.watched))
    }

    pub(crate) fn turn(&mut self)
        ensures { self.new ≡ renewed self.old }
    {
        self.session.turn();
    }
}

impl Member<PlainOutlet> {
    pub(crate) fn take(&mut self) -> Option<Item>
        ensures item { result ≡ slice_get self.old.session.kept 0 }
        ensures now { self.new ≡ with_kept (drop 1 self.old.session.kept) self.old }
    {
        self.session.take()
    }
}

impl<O: TwoEnded> Member<O> {
    pub(crate) fn settle(&mut self, far: &mut O::Far) -> Option<Item>
        requires { O.belongs (O.far_name far.old) self.old.session.name }
        ensures same { self.new ≡ self.old }
        ensures item { O.got far.new ≡ O.got far.old ++ option_to_list result }
        ensures prefix { (rest : List (List ℕ)) × (self.new.session.kept ≡ O.got far.new ++ rest) }
        ensures all { IfNone result (O.got far.new ≡ self.new.session.kept) }
        ensures far_name { O.far_name far.new ≡ O.far_name far.old }
    {
        self.session.settle(far)
    }
}
