//! How what the client of a session sent is answered, as contracts of functions that do nothing.

ghost use Rattle.session_runs.specs.AskingLaws.{ClosingsAreNotHeard, EntriesAreNotHeard, NothingSent, SentInVain, SentMore, SentOnward, ShutsAreNotHeard, TakingIsNotHeard, StretchesHaveTheirPolicies};

/// A new session: its client has sent nothing.
pub fn a_new_client_has_sent_nothing()
    ensures { NothingSent }
{}

/// A longer log changes no answer.
pub fn what_was_sent_stays_answered()
    ensures { SentOnward }
{}

/// A piece that is heard: its requests are answered in order, until the session is closed.
pub fn what_is_heard_is_answered()
    ensures { SentMore }
{}

/// What is sent to a closed session has no answer.
pub fn what_is_sent_in_vain_has_no_answer()
    ensures { SentInVain }
{}

/// Entries that come to a book are no input of its sessions.
pub fn entries_are_not_heard()
    ensures { EntriesAreNotHeard }
{}

/// A closing is no input.
pub fn a_closing_is_not_heard()
    ensures { ClosingsAreNotHeard }
{}

/// Nor is the shutting of all sessions.
pub fn shutting_is_not_heard()
    ensures { ShutsAreNotHeard }
{}

/// Taking items is no input.
pub fn taking_is_not_heard()
    ensures { TakingIsNotHeard }
{}

/// Stretch k has the policy after k requests.
pub fn each_stretch_has_its_policy()
    ensures { StretchesHaveTheirPolicies }
{}
