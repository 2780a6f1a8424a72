ghost use Rattle.std.specs.Prelude.{◌≡◌, ◌≤◌, ◌<◌, ◌+◌, ◌∷◌, ◌++◌, [], IfOk, List, ℕ, length};
ghost use Rattle.std.specs.List.{All};
ghost use Rattle.book_batch.specs.Sharing.{AreNamed, SharesLines, row_of, shares_of};

use crate::{Forms, Row};
use gps_fixed::NoMemory;
use gps_report::{Names, Report};
use std::alloc::Global;
use std::marker::Model;

/// The reports of one call, and for each share a row of their forms. Each form was written once.
#[derive(Drop)]
pub struct Batch {
    reports: Vec<Report>,
    rows: Vec<Row>,
}

impl Model for Batch {
    ghost use Rattle.book_batch.specs.Sharing.{BatchView};

    ghost Value = { BatchView };

    ghost view = { λ batch. record { reports = batch.reports.items; rows = batch.rows.items } };
}

fn copy_of(alloc: Global, reports: &[Report]) -> Result<Vec<Report>, NoMemory>
    ensures { IfOk result (λ copy. copy.items ≡ reports.now) }
{
    let mut copy = Vec::with_capacity(alloc, reports.len())?;
    for report in reports {
        copy.push(report.copy()?)?;
    }
    Ok(copy)
}

#[tactic(auto, using(crate::proofs::Walks::named_at, crate::proofs::Walks::row_more))]
fn forms_of_all(alloc: Global, reports: &[Report], names: &Names) -> Result<Vec<Forms>, NoMemory>
    requires { AreNamed names.now reports.now }
    ensures { IfOk result (λ forms. forms.items ≡ row_of names.now reports.now) }
{
    let mut forms = Vec::with_capacity(alloc, reports.len())?;
    for report in reports {
        forms.push(Forms::of(alloc, report, names)?)?;
    }
    Ok(forms)
}

/// The given number of rows of the same forms, at least one; the last of them is the forms themselves.
#[tactic(auto, using(crate::proofs::Walks::one_more_row))]
fn rows_of(alloc: Global, forms: Vec<Forms>, shares: usize) -> Result<Vec<Row>, NoMemory>
    requires { 0 < shares }
    ensures each { IfOk result (λ rows. All (λ row. row ≡ forms.items) rows.items) }
    ensures count { IfOk result (λ rows. length rows.items ≡ shares) }
{
    let mut rows = Vec::with_capacity(alloc, shares)?;
    'rows: for _ in 1..shares {
        rows.push(Row::shared(alloc, forms.as_slice())?)?;
    }
    rows.push(Row::of(forms))?;
    Ok(rows)
}

impl Batch {
    /// The batch of copies of these reports, each with a name for its device; `shares` is at most 64.
    pub fn of(
        alloc: Global,
        reports: &[Report],
        names: &Names,
        shares: u32,
    ) -> Result<Batch, NoMemory>
        requires named { AreNamed names.now reports.now }
        requires few { shares ≤ 64 }
        ensures reports { IfOk result (λ batch. batch.reports ≡ reports.now) }
        ensures shares { IfOk result (λ batch. shares_of batch ≡ shares) }
        ensures lines { IfOk result (λ batch. SharesLines names.now batch) }
    {
        let reports = copy_of(alloc, reports)?;
        Batch::of_vec(alloc, reports, names, shares)
    }

    /// The batch of these reports, which are moved. Without shares nothing is written.
    pub fn of_vec(
        alloc: Global,
        reports: Vec<Report>,
        names: &Names,
        shares: u32,
    ) -> Result<Batch, NoMemory>
        requires named { AreNamed names.now reports.items }
        requires few { shares ≤ 64 }
        ensures reports { IfOk result (λ batch. batch.reports ≡ reports.items) }
        ensures shares { IfOk result (λ batch. shares_of batch ≡ shares) }
        ensures lines { IfOk result (λ batch. SharesLines names.now batch) }
    {
        if shares == 0 {
            let rows = Vec::new(alloc);
            return Ok(Batch { reports, rows });
        }
        let forms = forms_of_all(alloc, reports.as_slice(), names)?;
        let rows = rows_of(alloc, forms, shares as usize)?;
        Ok(Batch { reports, rows })
    }

    pub fn reports(&self) -> &[Report]
        ensures { result.now ≡ self.now.reports }
    {
        self.reports.as_slice()
    }

    /// Takes one row, for one session. Takes no memory.
    pub fn take_row(&mut self) -> Row
        requires { 0 < shares_of self.old }
        ensures row { (names : List (List ℕ)) → SharesLines names self.old → result ≡ row_of names self.old.reports }
        ensures lines { (names : List (List ℕ)) → SharesLines names self.old → SharesLines names self.new }
        ensures reports { self.new.reports ≡ self.old.reports }
        ensures shares { shares_of self.old ≡ shares_of self.new + 1 }
    {
        self.rows.pop().unwrap()
    }
}
