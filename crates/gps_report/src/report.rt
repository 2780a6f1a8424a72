use crate::{Fix, Packet, Pair, Sky};
use gps_fixed::{NoMemory, Stamp};

/// What a report says.
#[derive(Debug, Drop)]
pub enum Body {
    Packet(Packet),
    Tpv(Fix),
    Sky(Sky),
    /// A time of the satellites beside the host's stamp of the bytes that said it.
    Toff(Pair),
    /// A whole second beside the host's stamp of the pulse that marks it.
    Pps(Pair),
    /// The device's first byte came at this stamp; without one, the device has ended.
    Device(Option<Stamp>),
}

/// An entry of the history: a device, by its number, and what it said.
#[derive(Debug, Drop)]
pub struct Report {
    pub device: u8,
    pub body: Body,
}

impl Packet {
    ghost use Rattle.std.specs.Prelude.{◌≡◌, IfOk};

    pub fn copy(&self) -> Result<Packet, NoMemory>
        ensures { IfOk result (λ packet. packet ≡ self.now) }
    {
        let bytes = self.bytes.copy()?;
        Ok(Packet {
            kind: self.kind,
            at: self.at,
            bytes,
        })
    }
}

impl Body {
    ghost use Rattle.std.specs.Prelude.{◌≡◌, IfOk};

    pub fn copy(&self) -> Result<Body, NoMemory>
        ensures { IfOk result (λ body. body ≡ self.now) }
    {
        match self {
            Body::Packet(packet) => Ok(Body::Packet(packet.copy()?)),
            Body::Tpv(fix) => Ok(Body::Tpv(*fix)),
            Body::Sky(sky) => Ok(Body::Sky(sky.copy()?)),
            Body::Toff(pair) => Ok(Body::Toff(*pair)),
            Body::Pps(pair) => Ok(Body::Pps(*pair)),
            Body::Device(first) => Ok(Body::Device(*first)),
        }
    }
}

impl Report {
    ghost use Rattle.std.specs.Prelude.{◌≡◌, IfOk};

    pub fn copy(&self) -> Result<Report, NoMemory>
        ensures { IfOk result (λ report. report ≡ self.now) }
    {
        let body = self.body.copy()?;
        Ok(Report {
            device: self.device,
            body,
        })
    }
}
