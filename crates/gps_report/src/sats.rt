use crate::Satellite;
use gps_fixed::NoMemory;
use std::alloc::Global;
use std::marker::Model;

/// Satellites in view, in order.
#[derive(Debug, Drop)]
pub struct Sats {
    items: Vec<Satellite>,
}

impl Model for Sats {
    ghost use Rattle.std.specs.Prelude.{List};
    ghost use Rattle.gps_report.specs.declared.satellite.Satellite.{Satellite};

    ghost Value = { List Satellite };

    ghost view = { λ sats. sats.items.items };
}

impl Sats {
    ghost use Rattle.std.specs.Prelude.{◌≡◌, ◌∷◌, ◌++◌, [], IfOk, OnOk, OnErr};

    /// No satellites. Takes no memory.
    pub fn new(alloc: Global) -> Sats
        ensures { result ≡ [] }
    {
        Sats {
            items: Vec::new(alloc),
        }
    }

    pub fn from_vec(items: Vec<Satellite>) -> Sats
        ensures { result ≡ items.items }
    {
        Sats { items }
    }

    pub fn into_vec(self) -> Vec<Satellite>
        ensures { result.items ≡ self }
    {
        let Sats { items } = self;
        items
    }

    /// Adds a satellite at the end; a refusal changes nothing.
    pub fn push(&mut self, satellite: Satellite) -> Result<(), NoMemory>
        ensures ok { OnOk result (self.new ≡ self.old ++ satellite ∷ []) }
        ensures err { OnErr result (self.new ≡ self.old) }
    {
        self.items.push(satellite)?;
        Ok(())
    }

    pub fn as_slice(&self) -> &[Satellite]
        ensures { result.now ≡ self.now }
    {
        self.items.as_slice()
    }

    pub fn copy(&self) -> Result<Sats, NoMemory>
        ensures { IfOk result (λ sats. sats ≡ self.now) }
    {
        let items = self.items.clone()?;
        Ok(Sats { items })
    }
}
