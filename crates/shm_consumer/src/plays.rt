use crate::view::View;
use atomic_table::{Join, Play, Split};
use shm_segment::Sample;
use std::marker::{Brand, PhantomData};

/// Which sample the first store begins. Each call picks it.
pub trait Beginning {
    ghost use Rattle.shm_segment.specs.declared.sample.Sample.{Sample};

    ghost sample: { Sample };
}

impl Beginning for Brand {
    ghost use Rattle.shm_segment.specs.Samples.{no_sample};

    ghost sample = { no_sample };
}

/// The giver's first store of a sample, which adds it to the list.
pub struct Begins<B: Beginning> {
    marker: PhantomData<B>,
}

impl<B: Beginning> Play<(), View> for Begins<B> {
    ghost use Rattle.std.specs.Prelude.{◌≡◌, []};
    ghost use Rattle.shm_consumer.specs.Views.{begun};

    ghost then = { λ step before word after. after ≡ (begun before.0 B.sample, []) };
}

/// A further store of a sample.
pub struct Stores;

impl Play<(), View> for Stores {
    ghost use Rattle.std.specs.Prelude.{◌≡◌, []};
    ghost use Rattle.shm_consumer.specs.Views.{stored};

    ghost then = { λ step before word after. after ≡ (stored before.0, []) };
}

/// The first seat is cut into the giver's and the taker's.
pub struct Parts;

impl Split<View> for Parts {
    ghost use Rattle.shm_consumer.specs.Views.{giver_of, newcomer_of};

    ghost left = { giver_of };

    ghost right = { newcomer_of };
}

/// A notice is cut off the giver's seat, and joined to the taker's.
pub struct Notices;

impl Split<View> for Notices {
    ghost use Rattle.shm_consumer.specs.Views.{notice_of};

    ghost left = { λ v. v };

    ghost right = { notice_of };
}

impl Join<View> for Notices {
    ghost use Rattle.shm_consumer.specs.Views.{with_notice, spent};

    ghost both = { with_notice };

    ghost spent = { spent };
}

/// The taker's first load of count.
pub struct FirstCount;

impl Play<(), View> for FirstCount {
    ghost use Rattle.std.specs.Prelude.{◌≡◌, ◌<◌, ◌^◌, []};
    ghost use Rattle.shm_consumer.specs.Views.{counted};

    ghost then = { λ step before value after. (after ≡ (counted before.0 value, [])) × (value < 2 ^ 32) };
}

/// Its load of valid.
pub struct Valid;

impl Play<(), View> for Valid {
    ghost use Rattle.std.specs.Prelude.{◌≡◌, ◌≤◌, []};
    ghost use Rattle.shm_consumer.specs.Views.{validated};

    ghost then = { λ step before value after. (after ≡ (validated before.0 value, [])) × (value ≤ 1) };
}

/// Its load of a word of the body.
pub struct BodyWord;

impl Play<(), View> for BodyWord {
    ghost use Rattle.std.specs.Prelude.{◌≡◌, []};
    ghost use Rattle.shm_consumer.specs.Views.{fetched};

    ghost then = { λ step before value after. after ≡ (fetched before.0 step.word value, []) };
}

/// Its second load of count.
pub struct LastCount;

impl Play<(), View> for LastCount {
    ghost use Rattle.std.specs.Prelude.{◌≡◌, []};
    ghost use Rattle.shm_consumer.specs.Views.{recounted};
    ghost use Rattle.shm_consumer.specs.Rule.{IsRecounted};

    ghost then = { λ step before value after. (after ≡ (recounted before.0 value, [])) × IsRecounted before.0 value };
}

/// Its store of valid 0, with which the pair that was read is consumed.
pub struct Clears;

impl Play<(), View> for Clears {
    ghost use Rattle.std.specs.Prelude.{◌≡◌, []};
    ghost use Rattle.shm_consumer.specs.Views.{cleared};
    ghost use Rattle.shm_consumer.specs.Rule.{RisesStrictly};

    ghost then = { λ step before value after. (after ≡ (cleared before.0, [])) × RisesStrictly 0 after.0.consumed };
}

/// A load at which the consumed pairs and a notice agree.
pub struct Meets;

impl Play<(), View> for Meets {
    ghost use Rattle.std.specs.Prelude.{◌≡◌};
    ghost use Rattle.shm_consumer.specs.Rule.{Agrees};

    ghost then = { λ step before value after. (after ≡ before) × Agrees before.0.first before.0.known before.0.consumed };
}
