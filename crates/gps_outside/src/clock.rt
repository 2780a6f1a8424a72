use gps_fixed::Stamp;

/// A clock.
pub trait Clock: Drop {
    ghost use Rattle.std.specs.Prelude.{Option};
    ghost use Rattle.gps_outside.specs.Told.{Goes};
    ghost use Rattle.gps_outside.specs.Ticks.{Dial, Gives};

    /// The stamps that the clock may give and those left, if they are modelled.
    ghost stamps: { Self → Option Dial };

    /// The time now.
    fn now(&mut self) -> Stamp
        ensures { Goes (Gives result) (stamps self.old) (stamps self.new) };
}
