//! From a text to its value.

ghost use Rattle.std.specs.Prelude.{◌≡◌, ◌≢◌, IfOk, IfErr};
ghost use Rattle.serde_json.specs.View.{view};
ghost use Rattle.ft_json.specs.Reading.{read_line};

use crate::faults::JsonFault;
use serde_json::Value;
use std::alloc::Global;

/// The value that the bytes are, with white space allowed round it. Of a key that stands twice in an
/// object the last counts.
///
/// Returns `NotUtf8` exactly where the bytes aren't UTF-8, `NotJson` exactly where they are, and are
/// not one JSON value of at most 127 levels, and `OutOfMemory` where there is no room for the value.
pub fn read_line(alloc: Global, bytes: &[u8]) -> Result<Value, JsonFault>
    ensures ok { IfOk result (λ value. read_line bytes.now ≡ Ok (view value)) }
    ensures err { IfErr result (λ fault. fault ≢ JsonFault.OutOfMemory
        → read_line bytes.now ≡ Err fault) }
{
    let Ok(text) = str::from_utf8(bytes) else {
        return Err(JsonFault::NotUtf8);
    };
    match Value::from_str(alloc, text) {
        Ok(value) => Ok(value),
        Err(error) if error.is_memory() => Err(JsonFault::OutOfMemory),
        Err(_) => Err(JsonFault::NotJson),
    }
}
