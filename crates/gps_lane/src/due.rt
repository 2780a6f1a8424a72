use session_core::Item;

/// What may go through a lane. The kind of its items says it.
pub trait Due {
    ghost use Rattle.std.specs.Prelude.{List};
    ghost use Rattle.session_core.specs.declared.subject.Subject.{Subject};

    /// That these are all items of a lane that is about this.
    ghost due: { Subject → List Self → Type 0 };
}

/// To a client goes what its requests so far select of the history so far.
impl Due for Item {
    ghost use Rattle.session_runs.specs.Due.{IsDue};

    ghost due = { IsDue };
}

/// Any numbers may go through a lane.
impl Due for u32 {
    ghost due = { λ _ _. Unit {0} };
}
