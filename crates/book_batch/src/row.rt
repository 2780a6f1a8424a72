ghost use Rattle.std.specs.Prelude.{◌≡◌, ◌<◌, ◌∷◌, IfOk, List, drop, length, option_to_list};
ghost use Rattle.book_batch.specs.Forms.{forms_of};
ghost use Rattle.book_batch.specs.Lines.{line_for};
ghost use Rattle.book_batch.specs.declared.forms.Forms.{Forms};

use crate::Forms;
use gps_fixed::NoMemory;
use gps_report::{Names, Policy, Report};
use session_core::Item;
use std::alloc::Global;
use std::collections::VecDeque;
use std::marker::Model;
use watch_policy::selects;

/// The forms of the reports of a batch, in order, for one session.
#[derive(Drop)]
pub struct Row {
    forms: VecDeque<Forms>,
}

impl Model for Row {
    ghost use Rattle.std.specs.Prelude.{List};
    ghost use Rattle.book_batch.specs.declared.forms.Forms.{Forms};

    ghost Value = { List Forms };

    ghost view = { λ row. row.forms.items };
}

fn item_in(forms: Forms, policy: &Policy, names: &Names, report: &Report) -> Option<Item>
    requires { report.now.device < length names.now }
    ensures { forms ≡ forms_of names.now report.now → option_to_list result ≡ line_for names.now policy.now report.now }
{
    match selects(policy, names, report) {
        Some(form) => Some(forms.into_item(form)),
        None => None,
    }
}

impl Row {
    /// The row of these forms, which are moved.
    pub(crate) fn of(forms: Vec<Forms>) -> Row
        ensures { result ≡ forms.items }
    {
        Row {
            forms: VecDeque::from_vec(forms),
        }
    }

    /// The row of further shares of these forms.
    pub(crate) fn shared(alloc: Global, forms: &[Forms]) -> Result<Row, NoMemory>
        ensures { IfOk result (λ row. row ≡ forms.now) }
    {
        let mut row = VecDeque::with_capacity(alloc, forms.len())?;
        for form in forms {
            row.push_back(form.share()?)?;
        }
        Ok(Row { forms: row })
    }

    /// Takes the forms of the next report off the row: the item of the form in which the policy selects that
    /// report, or `None` if it does not. The report is the next one of the row's batch, and the names are that
    /// batch's. Takes no memory.
    pub fn item_for(&mut self, policy: &Policy, names: &Names, report: &Report) -> Option<Item>
        requires named { report.now.device < length names.now }
        ensures line { (rest : List Forms) → self.old ≡ forms_of names.now report.now ∷ rest
            → option_to_list result ≡ line_for names.now policy.now report.now }
        ensures rest { self.new ≡ drop 1 self.old }
    {
        let forms = self.forms.pop_front()?;
        item_in(forms, policy, names, report)
    }
}
