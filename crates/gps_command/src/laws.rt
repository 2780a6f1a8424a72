//! The laws of requests, as contracts of functions that do nothing.

ghost use Rattle.std.specs.Prelude.{◌≡◌, ◌+◌, ◌++◌, ℕ, List, fold, length, take};
ghost use Rattle.gps_command.specs.declared.request.RawCommand.{RawCommand};
ghost use Rattle.gps_command.specs.Policies.{policy_at, policy_with};
ghost use Rattle.gps_command.specs.Texts.{AwaitsEnds, ReadsRequests, SkipsGaps, SkipsLong};

/// How an input is read depends on the texts that it begins with: gaps, a request and its end, a request that is too
/// long, and one that has no end yet.
#[tactic(auto, using(crate::proofs::Sets::reads_requests, crate::proofs::Readings::skips_gaps, crate::proofs::Readings::skips_long, crate::proofs::Readings::awaits_ends))]
pub fn requests_go_by_the_texts()
    ensures gaps { SkipsGaps }
    ensures ended { ReadsRequests }
    ensures long { SkipsLong }
    ensures unended { AwaitsEnds }
{}

/// The policy after more requests is that of the first ones, changed by the further ones that are counted.
pub fn policy_goes_on()
    ensures { (first more : List RawCommand) (k : ℕ) → policy_at (length first + k) (first ++ more)
        ≡ fold policy_with (policy_at (length first) first) (take k more) }
{}
