use gps_fixed::Stamp;
use gps_report::{CommandFault, Fix, Name, Pair, Policy, Sky};
use std::marker::Model;

/// The devices of a DEVICES line, at most eight: the name of each, and the stamp of its first byte while it is active.
#[derive(Debug, Drop)]
pub struct Listed {
    items: Vec<(Name, Option<Stamp>)>,
}

impl Model for Listed {
    ghost use Rattle.std.specs.Prelude.{List, ℕ, Option, ◌≤◌, length};
    ghost use Rattle.gps_fixed.specs.Moment.{Moment};

    ghost Value = { List (List ℕ × Option Moment) };

    ghost view = { λ l. l.items.items };

    ghost invariant = { λ l. length l.items.items ≤ 8 };
}

/// Fixes, each with the name of its device.
#[derive(Debug, Drop)]
pub struct Fixes {
    items: Vec<(Name, Fix)>,
}

impl Model for Fixes {
    ghost use Rattle.std.specs.Prelude.{List, ℕ};
    ghost use Rattle.gps_report.specs.declared.fix.Fix.{Fix};

    ghost Value = { List (List ℕ × Fix) };

    ghost view = { λ f. f.items.items };
}

/// Skies, each with the name of its device.
#[derive(Debug, Drop)]
pub struct Skies {
    items: Vec<(Name, Sky)>,
}

impl Model for Skies {
    ghost use Rattle.std.specs.Prelude.{List, ℕ};
    ghost use Rattle.gps_report.specs.declared.fix.Sky.{Sky};

    ghost Value = { List (List ℕ × Sky) };

    ghost view = { λ s. s.items.items };
}

/// The answer to a POLL: the stamp of the last byte, the number of active devices, and their last fixes and skies.
#[derive(Debug, Drop)]
pub struct Polled {
    pub time: Option<Stamp>,
    pub active: u8,
    pub tpv: Fixes,
    pub sky: Skies,
}

/// What a line says.
#[derive(Debug, Drop)]
pub enum Line {
    Version,
    Devices(Listed),
    Device {
        path: Name,
        activated: Option<Stamp>,
    },
    Watch(Policy),
    Poll(Polled),
    Tpv {
        device: Name,
        fix: Fix,
    },
    Sky {
        device: Name,
        sky: Sky,
    },
    Toff {
        device: Name,
        pair: Pair,
    },
    Pps {
        device: Name,
        pair: Pair,
    },
    Error(CommandFault),
}

impl Listed {
    ghost use Rattle.std.specs.Prelude.{◌≡◌, ◌≤◌, length};

    pub fn as_slice(&self) -> &[(Name, Option<Stamp>)]
        ensures items { result.now ≡ self.now }
        ensures few { length self.now ≤ 8 }
    {
        self.items.as_slice()
    }

    /// The devices of this list, which are at most eight.
    pub(crate) fn of(items: Vec<(Name, Option<Stamp>)>) -> Listed
        requires { length items.items ≤ 8 }
        ensures { result ≡ items.items }
    {
        Listed { items }
    }
}

impl Fixes {
    ghost use Rattle.std.specs.Prelude.{◌≡◌};

    pub fn as_slice(&self) -> &[(Name, Fix)]
        ensures { result.now ≡ self.now }
    {
        self.items.as_slice()
    }

    pub(crate) fn of(items: Vec<(Name, Fix)>) -> Fixes
        ensures { result ≡ items.items }
    {
        Fixes { items }
    }
}

impl Skies {
    ghost use Rattle.std.specs.Prelude.{◌≡◌};

    pub fn as_slice(&self) -> &[(Name, Sky)]
        ensures { result.now ≡ self.now }
    {
        self.items.as_slice()
    }

    pub(crate) fn of(items: Vec<(Name, Sky)>) -> Skies
        ensures { result ≡ items.items }
    {
        Skies { items }
    }
}
