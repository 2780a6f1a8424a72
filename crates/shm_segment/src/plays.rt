use crate::sample::Sample;
use crate::view::View;
use atomic_table::{Join, Play, Split};
use std::marker::{Brand, PhantomData};

/// Which sample the first store begins. Each call picks it.
pub trait Beginning {
    ghost use Rattle.shm_segment.specs.declared.sample.Sample.{Sample};

    ghost sample: { Sample };
}

impl Beginning for Brand {
    ghost use Rattle.shm_segment.specs.Samples.{no_sample};

    ghost sample = { no_sample };
}

/// The first store of a sample, which adds it to the publisher's list.
pub struct Begins<B: Beginning> {
    marker: PhantomData<B>,
}

impl<B: Beginning> Play<(), View> for Begins<B> {
    ghost use Rattle.std.specs.Prelude.{◌≡◌, []};
    ghost use Rattle.shm_segment.specs.Views.{begun};

    ghost then = { λ step before word after. after ≡ (begun before.0 B.sample, []) };
}

/// A further store of a sample.
pub struct Stores;

impl Play<(), View> for Stores {
    ghost use Rattle.std.specs.Prelude.{◌≡◌, []};
    ghost use Rattle.shm_segment.specs.Views.{stored};

    ghost then = { λ step before word after. after ≡ (stored before.0, []) };
}

/// A notice is cut off the publisher's seat.
pub struct Notices;

impl Split<View> for Notices {
    ghost use Rattle.shm_segment.specs.Views.{notice_of};

    ghost left = { λ v. v };

    ghost right = { notice_of };
}

/// A monitor's seat is cut off the publisher's.
pub struct Monitors;

impl Split<View> for Monitors {
    ghost use Rattle.shm_segment.specs.Views.{newcomer_of};

    ghost left = { λ v. v };

    ghost right = { newcomer_of };
}

/// An account is cut off a monitor's seat, and joined to the publisher's.
pub struct Accounts;

impl Split<View> for Accounts {
    ghost use Rattle.shm_segment.specs.Views.{account_of};

    ghost left = { λ v. v };

    ghost right = { account_of };
}

impl Join<View> for Accounts {
    ghost use Rattle.shm_segment.specs.Views.{with_account, spent};

    ghost both = { with_account };

    ghost spent = { spent };
}

/// A load at which the publisher's samples and an account agree.
pub struct Hears;

impl Play<(), View> for Hears {
    ghost use Rattle.std.specs.Prelude.{◌≡◌, []};
    ghost use Rattle.shm_segment.specs.Views.{heard};
    ghost use Rattle.shm_segment.specs.Rule.{IsBorneOut};

    ghost then = { λ step before word after. (after ≡ (heard before.0, [])) × IsBorneOut before.0.first before.0.known before.0.taken before.0.kept };
}
