ghost use Rattle.std.specs.Prelude.{◌≡◌, ◌<◌, Some, None, IfOk, OnOk, Err, length};
ghost use Rattle.gps_report.specs.declared.policy.CommandFault.{CommandFault};
ghost use Rattle.gps_command.specs.Commands.{json_of};
ghost use Rattle.serde_json.specs.View.{view};

use crate::ReadFault;
use gps_report::CommandFault;
use serde_json::Value;
use std::alloc::Global;

/// The value of a JSON text.
#[tactic(auto, using(crate::proofs::JsonTexts::utf8, crate::proofs::JsonTexts::not_empty))]
pub(crate) fn value_of(alloc: Global, text: &[u8]) -> Result<Value, ReadFault>
    ensures ok { IfOk result (λ value. json_of text.now ≡ Some (view value)) }
    ensures some { OnOk result (0 < length text.now) }
    ensures memory { result ≡ Err ReadFault.NoMemory → 0 < length text.now }
    ensures fault { (f : CommandFault) → result ≡ Err (ReadFault.Fault f) → (f ≡ CommandFault.BadJson) × (json_of text.now ≡ None) }
{
    match Value::from_slice(alloc, text) {
        Ok(value) => Ok(value),
        Err(error) => {
            if error.is_memory() {
                Err(ReadFault::NoMemory)
            } else {
                Err(ReadFault::Fault(CommandFault::BadJson))
            }
        }
    }
}
