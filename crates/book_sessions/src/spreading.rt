ghost use Rattle.std.specs.Prelude.{◌≡◌, ◌≤◌, ◌<◌, ◌+◌, ◌^◌, [], ◌∷◌, ◌++◌, IfSome, MatchOption, count_by, length};
ghost use Rattle.std.specs.Int.{from_bool};
ghost use Rattle.std.specs.List.{All, AllZip};
ghost use Rattle.session_core.specs.declared.mark.Close.{Close};
ghost use Rattle.session_core.specs.declared.outlet.Push.{Push};
ghost use Rattle.session_core.specs.Pushing.{MatchPush};
ghost use Rattle.session_core.specs.SessionView.{closed_at, given, last_place};
ghost use Rattle.session_core.specs.Stretches.{selected};
ghost use Rattle.session_core.specs.Allowing.{AllowsAll, MayReport};
ghost use Rattle.book_batch.specs.Lines.{line_for};
ghost use Rattle.book_batch.specs.Sharing.{AreNamed, SharesLines, row_of, shares_of};
ghost use Rattle.book_sessions.specs.Answering.{MayAnswer};
ghost use Rattle.book_sessions.specs.Spreading.{Reports, TakesDue, due, is_live};

use book_batch::{Batch, Row};
use gps_report::{Names, Report};
use session_core::{Close, Item, Outlet, Push, Session};

/// Pushes the item, if there is one. It is a function for the prover: the loop below then has one call to follow.
fn report_some<O: Outlet>(session: &mut Session<O>, place: u64, item: Option<Item>) -> Push
    requires open { session.old.closing ≡ None }
    requires after { last_place 0 session.old.marks ≤ place }
    requires may { IfSome item (λ line. O.may session.old.name (session.old.kept ++ line ∷ [])) }
    ensures { MatchOption item ((result ≡ Push.Done) × (session.new ≡ session.old)) (λ line. MayAnswer O.exact session.old result
        × MatchPush result (session.new ≡ given line session.old) (session.new ≡ closed_at place Close.Overrun session.old)) }
{
    match item {
        Some(item) => session.report(place, item),
        None => Push::Done,
    }
}

/// Reports each item that the session's policy selects, until the outlet is full.
pub(crate) fn report_all<O: Outlet>(
    session: &mut Session<O>,
    first: u64,
    reports: &[Report],
    mut row: Row,
    names: &Names,
)
    requires open { session.old.closing ≡ None }

    // The reports come after all that the session has, and the row has their items.
    requires after { last_place 0 session.old.marks ≤ first }
    requires few { first + length reports.now < 2 ^ 63 }
    requires named { AreNamed names.now reports.now }
    requires row { row ≡ row_of names.now reports.now }

    // Each item that the policy selects is due to its client.
    requires may { AllowsAll O.may session.old (selected (line_for names.now) session.old.policy reports.now) }
    ensures { TakesDue O.exact (due (line_for names.now) session.old.policy first reports.now) session.old session.new }
{
    let mut place = first;
    'reports: for report in reports {
        let item = row.item_for(session.policy(), names, report);
        if report_some(session, place, item) == Push::Full {
            return;
        }
        place += 1;
    }
}

/// Reports a row of the batch to an open session, and nothing to a closed one.
fn report_row<O: Outlet>(session: &mut Session<O>, first: u64, batch: &mut Batch, names: &Names)
    // The batch has a share for an open session, and its reports come after the session's marks.
    requires after { last_place 0 session.old.marks ≤ first }
    requires shares { from_bool (is_live session.old) ≤ shares_of batch.old }
    requires few { first + length batch.old.reports < 2 ^ 63 }
    requires named { AreNamed names.now batch.old.reports }
    requires lines { SharesLines names.now batch.old }
    requires may { MayReport O.may (line_for names.now) batch.old.reports session.old }

    // What the session is sent.
    ensures session { Reports O.exact (line_for names.now) first batch.old.reports session.old session.new }

    // What is left of the batch.
    ensures shares { shares_of batch.old ≡ shares_of batch.new + from_bool (is_live session.old) }
    ensures lines { SharesLines names.now batch.new }
    ensures reports { batch.new.reports ≡ batch.old.reports }
{
    if session.closing().is_none() {
        let row = batch.take_row();
        report_all(session, first, batch.reports(), row, names);
    }
}

/// Reports to each open session, in order, each item of the batch that the session's policy selects, at the place `first`
/// plus the report's index, until a full outlet closes that session. Takes no memory.
pub fn spread<O: Outlet>(sessions: &mut [Session<O>], first: u64, mut batch: Batch, names: &Names)
    // The batch has a share for each live session and its reports' lines; they come after all that the sessions have.
    requires shares { count_by is_live sessions.old ≤ shares_of batch }
    requires after { All (λ s. last_place 0 s.marks ≤ first) sessions.old }
    requires few { first + length batch.reports < 2 ^ 63 }
    requires named { AreNamed names.now batch.reports }
    requires lines { SharesLines names.now batch }

    // Each item that a session's policy selects is due to its client.
    requires may { All (MayReport O.may (line_for names.now) batch.reports) sessions.old }
    ensures { AllZip (Reports O.exact (line_for names.now) first batch.reports) sessions.old sessions.new }
{
    'sessions: for session in sessions.iter_mut() {
        report_row(session, first, &mut batch, names);
    }
}
