use atomic_table::{Join, Play};
use shm_segment::View;

/// The first load of count.
pub struct FirstCount;

impl Play<(), View> for FirstCount {
    ghost use Rattle.std.specs.Prelude.{◌≡◌, []};
    ghost use Rattle.shm_monitor.specs.Loads.{counted, IsFirstCount};

    ghost then = { λ step before value after. (after ≡ (counted before.0 value, [])) × IsFirstCount before.0 value };
}

/// The load of valid.
pub struct Valid;

impl Play<(), View> for Valid {
    ghost use Rattle.std.specs.Prelude.{◌≡◌, []};
    ghost use Rattle.shm_monitor.specs.Loads.{validated};

    ghost then = { λ step before value after. after ≡ (validated before.0 value, []) };
}

/// The load of a word of the body.
pub struct BodyWord;

impl Play<(), View> for BodyWord {
    ghost use Rattle.std.specs.Prelude.{◌≡◌, []};
    ghost use Rattle.shm_monitor.specs.Loads.{read};

    ghost then = { λ step before value after. after ≡ (read before.0 step.word value, []) };
}

/// The second load of count.
pub struct LastCount;

impl Play<(), View> for LastCount {
    ghost use Rattle.std.specs.Prelude.{◌≡◌, []};
    ghost use Rattle.shm_monitor.specs.Loads.{recounted, IsRecounted};

    ghost then = { λ step before value after. (after ≡ (recounted before.0 value, [])) × IsRecounted before.0 value };
}

/// A notice is joined to a monitor's seat.
pub struct Meets;

impl Join<View> for Meets {
    ghost use Rattle.shm_segment.specs.Views.{with_notice, spent};

    ghost both = { with_notice };

    ghost spent = { spent };
}

/// A load at which the monitor's pairs and a notice agree.
impl Play<(), View> for Meets {
    ghost use Rattle.std.specs.Prelude.{◌≡◌, []};
    ghost use Rattle.shm_monitor.specs.Loads.{agreed, Agrees};

    ghost then = { λ step before value after. (after ≡ (agreed before.0, [])) × Agrees before.0.first before.0.met before.0.taken };
}
