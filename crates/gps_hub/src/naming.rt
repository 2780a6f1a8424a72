use hub_door::DoorNaming;
use std::marker::Brand;

/// What no call of a hub changes. So it is known of the hub even while that is behind its lock. A call picks it.
pub trait HubNaming: DoorNaming {
    ghost use Rattle.hub_promise.specs.Parts.{Terms};

    ghost terms: { Terms };
}

impl HubNaming for Brand {
    ghost use Rattle.std.specs.Prelude.{[]};

    ghost terms = { record { names = []; limit = 0; requests = 0; lanes = []; segments = []; wait = 0 } };
}
