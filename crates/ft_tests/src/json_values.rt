//! Texts of values that can't stand in a file of texts, since they hold an LF or a NUL, and a number that no program
//! writes so.

use ft_base::OutOfMemory;
use ft_json::{JsonFault, read_line, whole_text};
use serde_json::Value;
use std::alloc::Global;
use std::test::Fail;

// Whether the bytes are null.
fn is_null(alloc: Global, bytes: &[u8]) -> Result<bool, JsonFault> {
    let value = read_line(alloc, bytes)?;
    Ok(value == Value::Null)
}

// Whether the bytes are no JSON.
fn is_refused(alloc: Global, bytes: &[u8]) -> bool {
    matches!(read_line(alloc, bytes), Err(JsonFault::NotJson))
}

// Whether the number is written so.
fn is_written(alloc: Global, number: i64, text: &str) -> Result<bool, OutOfMemory> {
    let written = whole_text(alloc, number)?;
    Ok(written.as_str() == text)
}

#[test]
fn a_value_may_stand_between_lines(rt: HostRuntime) -> Result<(), Fail> {
    assert!(rt; is_null(rt.alloc(), b" \t\r\n null \n")?);
    assert!(rt; is_refused(rt.alloc(), b"\x00null"));
    assert!(rt; is_written(rt.alloc(), -7, "-7")?);
    Ok(())
}
