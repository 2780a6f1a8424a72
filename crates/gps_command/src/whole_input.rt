ghost use Rattle.std.specs.Prelude.{◌≡◌, IfOk};
ghost use Rattle.gps_command.specs.Requests.{requests};
ghost use Rattle.gps_command.specs.Texts.{AreRequests};

use crate::{CommandCutter, RawCommand};
use gps_fixed::NoMemory;
use std::alloc::Global;

/// The requests of a whole input. Each holds 1 to 1,024 bytes, which are plain bytes and whole strings. What the
/// input leaves open is dropped.
pub fn requests_of(alloc: Global, input: &[u8]) -> Result<Vec<RawCommand>, NoMemory>
    ensures requests { IfOk result (λ out. out.items ≡ requests input.now) }
    ensures texts { IfOk result (λ out. AreRequests out.items) }
{
    let mut cutter = CommandCutter::new(alloc);
    let out = cutter.push(input)?;
    Ok(out)
}
