//! What the roster does over its vectors. Functions here that only forward are there for the prover: each contract says what changes
//! at one place of a vector. None of these contracts is public.

ghost use Rattle.std.specs.Prelude.{◌≡◌, ◌≤◌, ◌<◌, ◌+◌, ◌^◌, filter, length, count_by, slice_index_or, vec_len, vec_capacity, IfOk, OnOk, OnErr};
ghost use Rattle.std.specs.Int.{from_bool};
ghost use Rattle.std.specs.List.{All};
ghost use Rattle.book_batch.specs.Lines.{line_for};
ghost use Rattle.book_batch.specs.Sharing.{AreNamed, SharesLines, shares_of};
ghost use Rattle.book_sessions.specs.MemberView.{MemberView, is_open, listens, renewed, with_cutter};
ghost use Rattle.session_core.specs.Allowing.{MayReport};
ghost use Rattle.book_sessions.specs.Allowing.{MayReply};
ghost use Rattle.book_sessions.specs.Answering.{AnswersCut};
ghost use Rattle.book_sessions.specs.Roster.{Changes, Closes, IsAfter, IsAfterAll, IsOpenAt, shut_at, was_watched};
ghost use Rattle.book_sessions.specs.Spreading.{Spreads};
ghost use Rattle.book_sessions.specs.Walks.{MayWalk, Walks, passes_at};

use crate::member::Member;
use crate::texts::ReplyTexts;
use book_batch::Batch;
use book_replies::ReplyData;
use gps_command::RequestCut;
use gps_fixed::NoMemory;
use gps_report::Names;
use session_core::{Close, Outlet};
use std::alloc::Global;

fn is_open_at<O: Outlet>(members: &Vec<Member<O>>, n: u32) -> bool
    ensures { result ≡ passes_at is_open members.now.items n }
{
    match members.get(n as usize) {
        Some(member) => member.is_open(),
        None => false,
    }
}

/// Only the numbers of open sessions stay.
pub(crate) fn keep_open<O: Outlet>(members: &Vec<Member<O>>, numbers: &mut Vec<u32>)
    ensures { numbers.new.items ≡ filter (passes_at is_open members.now.items) numbers.old.items }
{
    numbers.retain(|n| is_open_at(members, *n));
}

fn listens_at<O: Outlet>(members: &Vec<Member<O>>, n: u32) -> bool
    ensures { result ≡ passes_at listens members.now.items n }
{
    match members.get(n as usize) {
        Some(member) => member.listens(),
        None => false,
    }
}

/// Only the numbers of sessions that listen stay.
pub(crate) fn keep_listening<O: Outlet>(members: &Vec<Member<O>>, numbers: &mut Vec<u32>)
    ensures { numbers.new.items ≡ filter (passes_at listens members.now.items) numbers.old.items }
{
    numbers.retain(|n| listens_at(members, *n));
}

pub(crate) fn copy_of(alloc: Global, numbers: &Vec<u32>) -> Result<Vec<u32>, NoMemory>
    ensures { IfOk result (λ copy. copy.items ≡ numbers.now.items) }
{
    let mut copy = Vec::new(alloc);
    copy.extend_from_slice(numbers.as_slice())?;
    Ok(copy)
}

/// Room for one more of each.
pub(crate) fn make_room<O: Outlet>(
    members: &mut Vec<Member<O>>,
    live: &mut Vec<u32>,
    recent: &mut Vec<u32>,
) -> Result<(), NoMemory>
    ensures members { members.new.items ≡ members.old.items }
    ensures live { live.new.items ≡ live.old.items }
    ensures recent { recent.new.items ≡ recent.old.items }
    ensures room { OnOk result (vec_len members.new < vec_capacity members.new) }
    ensures live_room { OnOk result (vec_len live.new < vec_capacity live.new) }
    ensures recent_room { OnOk result (vec_len recent.new < vec_capacity recent.new) }
{
    members.reserve(1)?;
    live.reserve(1)?;
    recent.reserve(1)?;
    Ok(())
}

pub(crate) fn go_on_at<O: Outlet>(members: &mut Vec<Member<O>>, s: usize, cut: RequestCut)
    requires { s < length members.old.items }
    ensures { Changes s (λ a b. b ≡ with_cutter cut.cutter a) members.old.items members.new.items }
{
    let member = &mut members[s];
    member.go_on(cut);
}

/// Whether the session is watched for the first time.
pub(crate) fn input_at<O: Outlet>(
    members: &mut Vec<Member<O>>,
    s: usize,
    alloc: Global,
    texts: &mut ReplyTexts,
    place: u64,
    known: &ReplyData,
    names: &Names,
    cut: RequestCut,
) -> Result<bool, NoMemory>
    // The session is open, and the place is not before its last mark.
    requires exists { s < length members.old.items }
    requires open { IsOpenAt s members.old.items }
    requires after { IsAfter place s members.old.items }
    requires named { length names.now ≡ length known.now.firsts }
    requires may { (free : MemberView) → MayReply O.may known.now names.now cut.requests.items (slice_index_or members.old.items s free).session }

    // What is answered, and whether the session is watched for the first time.
    ensures answers { OnOk result (Changes s (AnswersCut O.exact known.now names.now place cut.requests.items cut.cutter) members.old.items members.new.items) }
    ensures watched { IfOk result (λ more. count_by was_watched members.new.items ≡ count_by was_watched members.old.items + from_bool more) }

    // What a refusal leaves.
    ensures err { OnErr result (members.new.items ≡ members.old.items) }
{
    let member = &mut members[s];
    member.input(alloc, texts, place, known, names, cut)
}

pub(crate) fn close_at<O: Outlet>(
    members: &mut Vec<Member<O>>,
    s: usize,
    alloc: Global,
    place: u64,
    why: Close,
)
    requires exists { s < length members.old.items }
    requires open { IsOpenAt s members.old.items }
    requires after { IsAfter place s members.old.items }
    ensures { Changes s (Closes place why) members.old.items members.new.items }
{
    let member = &mut members[s];
    member.close(alloc, place, why);
}

pub(crate) fn turn_each<O: Outlet>(members: &mut Vec<Member<O>>, numbers: &Vec<u32>)
    requires { All (λ n. n < length members.old.items) numbers.now.items }
    ensures { Walks (λ a b. b ≡ renewed a) numbers.now.items members.old.items members.new.items }
{
    'numbers: for n in numbers {
        let member = &mut members[*n as usize];
        member.turn();
    }
}

pub(crate) fn close_each<O: Outlet>(
    members: &mut Vec<Member<O>>,
    numbers: &Vec<u32>,
    alloc: Global,
    place: u64,
    why: Close,
)
    requires within { All (λ n. n < length members.old.items) numbers.now.items }
    requires after { IsAfterAll place members.old.items }
    ensures { Walks (λ a b. b ≡ shut_at place why a) numbers.now.items members.old.items members.new.items }
{
    'numbers: for n in numbers {
        let member = &mut members[*n as usize];
        member.shut(alloc, place, why);
    }
}

pub(crate) fn receive_each<O: Outlet>(
    members: &mut Vec<Member<O>>,
    numbers: &Vec<u32>,
    alloc: Global,
    first: u64,
    mut batch: Batch,
    names: &Names,
)
    // The batch has a share for each of these sessions, and its reports come after all marks.
    requires within { All (λ n. n < length members.old.items) numbers.now.items }
    requires shares { length numbers.now.items ≤ shares_of batch }
    requires after { IsAfterAll first members.old.items }
    requires few { first + length batch.reports < 2 ^ 63 }
    requires named { AreNamed names.now batch.reports }
    requires lines { SharesLines names.now batch }
    requires may { MayWalk (λ a. MayReport O.may (line_for names.now) batch.reports a.session) numbers.now.items members.old.items }

    // What each session is sent.
    ensures { Walks (Spreads O.exact (line_for names.now) first batch.reports) numbers.now.items members.old.items members.new.items }
{
    'numbers: for n in numbers {
        let row = batch.take_row();
        let member = &mut members[*n as usize];
        member.receive(alloc, first, batch.reports(), row, names);
    }
}
