ghost use Rattle.std.specs.Prelude.{◌≡◌, IfOk};

use gps_fixed::{Bytes, NoMemory};
use std::alloc::Global;
use std::marker::Model;
use std::sync::Arc;

/// The bytes of one reply or report, shared by all that hold them.
#[derive(Drop)]
pub struct Item {
    bytes: Arc<Bytes>,
}

impl Model for Item {
    ghost use Rattle.std.specs.Prelude.{List, ℕ};
    ghost use Rattle.std.specs.Arc.{arc_value};

    ghost Value = { List ℕ };

    ghost view = { λ item. arc_value item.bytes };
}

impl Item {
    /// The bytes themselves are not copied.
    pub fn of(alloc: Global, bytes: Bytes) -> Result<Item, NoMemory>
        ensures { IfOk result (λ item. item ≡ bytes) }
    {
        let bytes = Arc::new(alloc, bytes)?;
        Ok(Item { bytes })
    }

    pub fn bytes(&self) -> &[u8]
        ensures { result.now ≡ self.now }
    {
        self.bytes.as_slice()
    }

    /// The same bytes once more, without a copy. Refused if the count of holders is at its greatest value.
    pub fn share(&self) -> Result<Item, NoMemory>
        ensures { IfOk result (λ item. item ≡ self.now) }
    {
        let bytes = Arc::try_clone(&self.bytes)?;
        Ok(Item { bytes })
    }
}
