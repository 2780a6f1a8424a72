//! What a call of a book puts in place, once nothing of it can be refused any more.

ghost use Rattle.std.specs.Prelude.{◌≡◌, ◌≤◌, ◌<◌, ◌+◌, ◌^◌, map, true, length};
ghost use Rattle.std.specs.List.{AllZip};
ghost use Rattle.book_batch.specs.Lines.{line_for};
ghost use Rattle.book_batch.specs.Sharing.{AreNamed, SharesLines, shares_of};
ghost use Rattle.book_sessions.specs.Allowing.{MayReportEach};
ghost use Rattle.book_sessions.specs.MemberView.{renewed};
ghost use Rattle.book_sessions.specs.Roster.{IsAfterAll, MemberTurns, listening_in};
ghost use Rattle.book_sessions.specs.Spreading.{Spreads};
ghost use Rattle.book_units.specs.Changes.{EachUnit, UnitGains, UnitTurns, turned as turned_unit};
ghost use Rattle.book_units.specs.Samples.{samples_of};
ghost use Rattle.book_units.specs.Units.{HasRoom};
ghost use Rattle.report_book.specs.BookView.{renewed_if, units_turned_if};

use book_log::Addition;
use book_sessions::Roster;
use book_units::Units;
use gps_report::Names;
use session_core::Outlet;

/// Begins a new generation of the sessions and the units, if one is due. Takes no memory.
fn turn_if<O: Outlet>(turns: bool, roster: &mut Roster<O>, units: &mut Units)
    ensures sessions { roster.new ≡ renewed_if turns roster.old }
    ensures turned { turns ≡ true → AllZip MemberTurns roster.old (map renewed roster.old) }
    ensures units { units.new.units ≡ units_turned_if turns units.old.units }
    ensures carried { turns ≡ true → EachUnit (λ _. UnitTurns) units.old.units (map turned_unit units.old.units) }
    ensures room { units.new.spare ≡ units.old.spare }
{
    if turns {
        roster.turn();
        units.turn();
    }
}

/// Puts in place what came: a new generation if one began, then the samples, then the lines. Takes no memory.
pub(crate) fn put<O: Outlet>(
    roster: &mut Roster<O>,
    units: &mut Units,
    names: &Names,
    added: Addition,
)
    // The batch has a share for each session that listens, and its reports come after all marks.
    requires shares { listening_in roster.old ≤ shares_of added.batch }
    requires after { IsAfterAll added.first (renewed_if added.turned roster.old) }
    requires few { added.first + length added.batch.reports < 2 ^ 63 }
    requires named { AreNamed names.now added.batch.reports }
    requires lines { SharesLines names.now added.batch }
    requires may { MayReportEach O.may (line_for names.now) added.batch.reports (renewed_if added.turned roster.old) }

    // The units have room for the samples.
    requires room { HasRoom units.old.spare added.batch.reports }

    // If a new generation began, it has come first.
    ensures turned { added.turned ≡ true → AllZip MemberTurns roster.old (map renewed roster.old) }
    ensures carried { added.turned ≡ true → EachUnit (λ _. UnitTurns) units.old.units (map turned_unit units.old.units) }

    // What each session is sent, and what each unit gains.
    ensures sessions { AllZip (Spreads O.exact (line_for names.now) added.first added.batch.reports) (renewed_if added.turned roster.old) roster.new }
    ensures units { EachUnit (λ u. UnitGains (samples_of u added.batch.reports)) (units_turned_if added.turned units.old.units) units.new.units }
{
    let Addition {
        turned,
        first,
        batch,
    } = added;
    turn_if(turned, roster, units);
    units.add_all(batch.reports());
    roster.spread(first, batch, names);
}
