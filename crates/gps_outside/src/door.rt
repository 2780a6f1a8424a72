use crate::{ClientSink, Closer, Source};

/// The result of one call of a door.
#[derive(Drop)]
pub enum DoorStep<I, O> {
    /// A link: where its bytes come from, and where bytes to it go.
    Link(I, O),
    /// No link waits this time; the quiets rose.
    Quiet,
    /// No link is left.
    Closed,
    /// The door failed; the faults rose.
    Failed,
}

/// Where links come from: a listener.
pub trait Door: Drop {
    ghost use Rattle.std.specs.Prelude.{◌≡◌, ℕ, ◌≤◌, List, Option};
    ghost use Rattle.gps_outside.specs.declared.door.DoorStep.{DoorStep};
    ghost use Rattle.gps_outside.specs.Counts.{Rose};
    ghost use Rattle.gps_outside.specs.Links.{Admits, AsksOf, FailsOnly, IfLink, IsUnread, IsUnwritten};

    type In: Source;

    type Out: ClientSink;

    /// How often the door failed.
    ghost faults: { Self → ℕ };

    /// How often no link waited.
    ghost quiets: { Self → ℕ };

    /// The links that are left, if they are modelled.
    ghost links: { Self → Option (List (Self.In × Self.Out)) };

    /// Takes the next link, if one waits.
    fn accept(&mut self) -> DoorStep<Self::In, Self::Out>
        // The links come in order, and none has been used.
        ensures links { Admits result (links self.old) (links self.new) }
        ensures unread { IfLink result (λ source sink.
            IsUnread (Self.In.content source) (Self.In.faults source) (Self.In.quiets source)) }
        ensures unwritten { IfLink result (λ source sink. IsUnwritten (Self.Out.written sink) (Self.Out.faults sink)) }
        ensures client { IfLink result (λ source sink. AsksOf (Self.In.content source) (Self.Out.asks sink)) }

        // What it counts: a fault for a failure, a quiet wait if no link came in time.
        ensures faults_stay { faults self.old ≤ faults self.new }
        ensures quiets_stay { quiets self.old ≤ quiets self.new }
        ensures failed { result ≡ DoorStep.Failed → Rose (faults self.old) (faults self.new) }
        ensures only { FailsOnly result (faults self.old) (faults self.new) }
        ensures quiet { result ≡ DoorStep.Quiet → Rose (quiets self.old) (quiets self.new) };

    /// What closes it from another thread; none if no call of it waits for long.
    fn closer(&self) -> Option<Closer> {
        None
    }
}
