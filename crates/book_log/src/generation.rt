ghost use Rattle.std.specs.Prelude.{◌≡◌, ◌≤◌, ◌+◌, ◌&&◌, cond, is_some, nat_lt, IfOk};
ghost use Rattle.gps_fixed.specs.Limits.{longest_piece};
ghost use Rattle.book_log.specs.DeviceLogView.{next_generation};
ghost use Rattle.book_log.specs.Turning.{IsNext, generation_after};

use crate::device_states::DeviceStates;
use crate::log::Log;
use gps_fixed::NoMemory;
use std::alloc::Global;

/// One generation: what was kept as it began, the log since, how many symbols that holds, and the length of its history.
#[derive(Drop)]
pub struct Generation {
    pub(crate) opening: DeviceStates,
    pub(crate) log: Log,
    pub(crate) length: u64,
    pub(crate) symbols: u32,
}

/// Whether a new generation begins before `more` further symbols.
pub fn turns_due(symbols: u32, limit: u32, more: u32) -> bool
    requires { more ≤ longest_piece }
    ensures { result ≡ (nat_lt 0 symbols && nat_lt limit (symbols + more)) }
{
    0 < symbols && u64::from(limit) < u64::from(symbols) + u64::from(more)
}

/// If a turn is due, the opening of the next generation, which is copies of the devices.
pub fn next_opening(
    alloc: Global,
    turns: bool,
    now: &DeviceStates,
) -> Result<Option<DeviceStates>, NoMemory>
    ensures { IfOk result (λ next. IsNext turns now.now next) }
{
    if !turns {
        return Ok(None);
    }
    let opening = now.copy(alloc)?;
    Ok(Some(opening))
}

/// Begins the next generation, if there is an opening of one.
pub fn begin(next: Option<DeviceStates>, current: &mut Generation, number: &mut u64)
    ensures current { current.new ≡ generation_after next current.old }
    ensures number { number.new ≡ cond (is_some next) (next_generation number.old) number.old }
{
    if let Some(opening) = next {
        current.opening = opening;
        current.log = Log::new();
        current.length = 0;
        current.symbols = 0;
        *number = number.saturating_add(1);
    }
}
