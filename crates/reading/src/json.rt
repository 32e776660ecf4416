//! A text of bytes as a JSON value.
ghost use Rattle.std.specs.Prelude.{◌≡◌};
ghost use Rattle.std.specs.Option.{ok_or};
ghost use Rattle.serde_json.specs.View.{view};
ghost use Rattle.reading.specs.Json.{json_of};
ghost use Rattle.reading.specs.Steps.{Gives};

use serde_json::Value;
use std::alloc::Global;

/// What a reader answers where it has no value.
pub trait ReadFault: Drop {
    /// The fault that says that memory ran out.
    ghost memory: { Self };

    fn no_memory() -> Self
        ensures { result ≡ memory };
}

/// The JSON value of the bytes, as `serde_json` reads them; `not_json` where it refuses them for
/// another cause than memory.
pub fn read_json<E: ReadFault>(alloc: Global, bytes: &[u8], not_json: E) -> Result<Value, E>
    ensures { Gives E.memory view (ok_or (json_of bytes.now) not_json) result }
{
    match Value::from_slice(alloc, bytes) {
        Ok(value) => Ok(value),
        Err(error) => {
            if error.is_memory() {
                Err(E::no_memory())
            } else {
                Err(not_json)
            }
        }
    }
}
