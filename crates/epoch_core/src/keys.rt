ghost use Rattle.std.specs.Prelude.{◌≡◌, ◌≤◌};
ghost use Rattle.epoch_core.specs.Keys.{satellite_key, used_id_key, system_place as place_of_system, signal_place as place_of_signal, system_number as number_of_system};

use crate::once::Keyed;
use crate::running::system_of;
use crate::used_id::UsedId;
use gps_report::{BEIDOU, GALILEO, GLONASS, GPS, Satellite};

/// How many satellites sentences can distinguish: five systems, the absent one among them, 999 numbers and
/// 17 signals.
const OF_SENTENCES: u64 = 84_915;

fn system_place(system: Option<u8>) -> u64
    ensures place { result ≡ place_of_system system }
    ensures few { result ≤ 5 }
{
    match system {
        None => 0,
        Some(GPS) => 1,
        Some(GALILEO) => 2,
        Some(BEIDOU) => 3,
        Some(GLONASS) => 4,
        Some(_) => 5,
    }
}

fn signal_place(signal: Option<u8>) -> u64
    ensures place { result ≡ place_of_signal signal }
    ensures few { result ≤ 256 }
{
    match signal {
        None => 0,
        Some(signal) => u64::from(signal) + 1,
    }
}

fn system_number(system: Option<u8>) -> u64
    ensures { result ≡ number_of_system system }
{
    match system {
        None => 0,
        Some(system) => u64::from(system),
    }
}

impl Keyed for Satellite {
    ghost key = { satellite_key };

    #[tactic(auto, unfolding(crate::specs::Keys::satellite_key))]
    fn key(&self) -> u64 {
        let prn = u64::from(self.prn);
        let system = system_of(self);
        let place = system_place(system);
        if 1 <= prn && prn <= 999 && place <= 4 {
            (place * 999 + prn.saturating_sub(1)) * 17 + signal_place(self.signal)
        } else {
            let number = system_number(system);
            OF_SENTENCES + (number * 256 + prn.saturating_sub(100 * number))
        }
    }
}

impl Keyed for UsedId {
    ghost key = { used_id_key };

    #[tactic(auto, unfolding(crate::specs::Keys::used_id_key))]
    fn key(&self) -> u64 {
        let id = u64::from(self.id);
        system_place(self.system) * 999 + id.saturating_sub(1)
    }
}
