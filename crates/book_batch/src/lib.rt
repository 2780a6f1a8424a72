//! The reports of one call of a book, each written once in each form that some policy can select, and shared by
//! the sessions. This project's own.
#![tactic(auto)]

mod batch;
mod forms;
mod row;

pub use batch::Batch;
pub use forms::Forms;
pub use row::Row;
