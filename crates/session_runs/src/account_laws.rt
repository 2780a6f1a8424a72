//! The account of a session through the calls of a book, as contracts of functions that do nothing.

ghost use Rattle.session_runs.specs.Accounts.{AdmittedHasAccount, ClosedHearsNothing, ClosingsEndAccounts, EntriesCarryAccounts, InputsExtendAccounts, OthersKeepAccounts, QuietEntriesCarryAccounts, ShutEndsAccounts, TakingMovesItems};

/// A new session: nothing was taken, and nothing was sent.
pub fn a_new_session_has_an_account()
    ensures { AdmittedHasAccount }
{}

/// Entries come to a book, after a turn or without one.
pub fn entries_carry_accounts()
    ensures { EntriesCarryAccounts }
{}

/// Entries come that give no report.
pub fn quiet_entries_carry_accounts()
    ensures { QuietEntriesCarryAccounts }
{}

/// If one session changes, each other one has the account that it had.
pub fn others_keep_their_accounts()
    ensures { OthersKeepAccounts }
{}

/// A piece of input is heard.
pub fn input_extends_an_account()
    ensures { InputsExtendAccounts }
{}

/// A session is closed.
pub fn a_closing_ends_an_account()
    ensures { ClosingsEndAccounts }
{}

/// What is sent to a closed session has no answer.
pub fn a_closed_session_hears_nothing()
    ensures { ClosedHearsNothing }
{}

/// All sessions are shut.
pub fn shutting_ends_accounts()
    ensures { ShutEndsAccounts }
{}

/// The first item that an outlet keeps is taken.
pub fn taking_moves_an_item()
    ensures { TakingMovesItems }
{}
