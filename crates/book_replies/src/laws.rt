//! The laws of answers, as contracts of functions that do nothing.

ghost use Rattle.book_replies.specs.Laws.{AnswersJoin, HasPolicyAfter, OneForEach};
ghost use Rattle.book_replies.specs.Polling.{PollsAloneShowReports};

/// Each request has one answer, and the answers go on over joined requests, with the policy that the first
/// ones left.
#[tactic(auto, using(crate::proofs::Joined::one_for_each, crate::proofs::Joined::goes_on))]
pub fn answers_go_on()
    ensures each { OneForEach }
    ensures joined { AnswersJoin }
{}

/// The policy of each answer is that after its request and all before it.
#[tactic(auto, using(crate::proofs::Joined::has_policy_after))]
pub fn policies_are_those_after()
    ensures { HasPolicyAfter }
{}

/// If no request is `?POLL`, the answers are the same without the last fixes and skies of the devices.
#[tactic(auto, using(crate::proofs::Polls::polls_alone))]
pub fn polls_alone_show_reports()
    ensures { PollsAloneShowReports }
{}
