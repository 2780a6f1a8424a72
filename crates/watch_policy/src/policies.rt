ghost use Rattle.std.specs.Prelude.{◌≡◌};
ghost use Rattle.watch_policy.specs.Policies.{opening_policy, policy_after};

use crate::Change;
use gps_report::Policy;

/// The policy that a session opens with: every member off, no device set. Takes no memory.
pub fn opening() -> Policy
    ensures { result ≡ opening_policy }
{
    Policy {
        enable: false,
        json: false,
        nmea: false,
        raw: 0,
        pps: false,
        device: None,
    }
}

/// The policy after a change: `enable` is the change's, each other member too if the change gives it.
/// Takes no memory.
pub fn updated(policy: Policy, change: Change) -> Policy
    ensures { result ≡ policy_after policy change }
{
    Policy {
        enable: change.enable,
        json: change.json.unwrap_or(policy.json),
        nmea: change.nmea.unwrap_or(policy.nmea),
        raw: change.raw.unwrap_or(policy.raw),
        pps: change.pps.unwrap_or(policy.pps),
        device: change.device.unwrap_or(policy.device),
    }
}
