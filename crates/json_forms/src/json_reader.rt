ghost use Rattle.std.specs.Prelude.{◌≡◌, IfOk, OnOk, OnErr, option_map};
ghost use Rattle.serde_json.specs.Errors.{IsMemory};
ghost use Rattle.serde_json.specs.View.{view};
ghost use Rattle.json_forms.specs.JsonTexts.{json_in};

use serde_json::{Error, Value};
use std::alloc::Global;
use td_base::NoMemory;

/// The JSON value that the bytes encode, or None where they are not JSON.
pub(crate) fn read_value(alloc: Global, bytes: &[u8]) -> Result<Option<Value>, NoMemory>
    ensures { IfOk result (λ found. option_map view found ≡ json_in bytes.now) }
{
    match Value::from_slice(alloc, bytes) {
        Ok(value) => Ok(Some(value)),
        Err(error) => {
            check_memory(&error)?;
            Ok(None)
        }
    }
}

/// Returns `NoMemory` if reading failed because memory ran out.
fn check_memory(error: &Error) -> Result<(), NoMemory>
    ensures ok { OnOk result (¬ IsMemory error.now) }
    ensures err { OnErr result (IsMemory error.now) }
{
    if error.is_memory() {
        Err(NoMemory)
    } else {
        Ok(())
    }
}
