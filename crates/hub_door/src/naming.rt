ghost use Rattle.std.specs.Prelude.{◌≡◌};

use std::marker::{Brand, PhantomData};
use std::sync::ledger::Ledger;

/// Which table of the door it is, and into how many parts the shares of its ledger are cut. A call picks it.
pub trait DoorNaming: Ledger {
    ghost use Rattle.std.specs.Prelude.{ℕ};
    ghost use Rattle.atomic_table.specs.Seated.{TableId};

    ghost table: { TableId };

    ghost whole: { ℕ };
}

impl DoorNaming for Brand {
    ghost use Rattle.std.specs.Prelude.{[]};

    ghost table = { record { words = 0; slots = 0; views_name = 0; atom = 0; block = 0; offset = 0; slot_names = [] } };

    ghost whole = { 0 };
}

/// That the ledger is cut into `whole` parts. A struct that holds a share of it cannot say so itself.
#[derive(Drop)]
pub(crate) struct Cut<J: DoorNaming> {
    of: PhantomData<J>,
    ghost whole_is: { J.parts ≡ J.whole },
}

impl<J: DoorNaming> Cut<J> {
    pub(crate) fn new() -> Cut<J>
        requires { J.parts ≡ J.whole }
    {
        Cut { of: PhantomData }
    }

    pub(crate) fn show(&self)
        ensures { J.parts ≡ J.whole }
    {
        let _of = &self.of;
    }
}
