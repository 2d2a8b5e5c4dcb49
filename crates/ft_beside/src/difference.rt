//! Where two reports differ.

use ft_base::OutOfMemory;
use std::alloc::Global;

/// Adds the first lines in which two reports differ, and nothing where they are equal.
///
/// Returns `OutOfMemory` where there is no room for them.
pub fn push_difference(
    alloc: Global,
    plain: &[u8],
    trees: &[u8],
    output: &mut Vec<u8>,
) -> Result<(), OutOfMemory> {
    if plain == trees {
        return Ok(());
    }
    let mut plain_lines = plain.split(|byte| *byte == b'\n');
    let mut number: u64 = 1;
    for line in trees.split(|byte| *byte == b'\n') {
        let beside = plain_lines.next().unwrap_or(b"".as_slice());
        if line != beside {
            return push_lines(alloc, number, beside, line, output);
        }
        number = number.saturating_add(1);
    }
    push_lines(alloc, number, b"more".as_slice(), b"".as_slice(), output)
}

// Adds two lines of this number.
fn push_lines(
    alloc: Global,
    number: u64,
    plain: &[u8],
    trees: &[u8],
    output: &mut Vec<u8>,
) -> Result<(), OutOfMemory> {
    let head = format!(in alloc; "differ from line {number} of the report\nplain: ")?;
    output.extend_from_slice(head.as_bytes())?;
    output.extend_from_slice(plain)?;
    output.extend_from_slice(b"\ntrees: ")?;
    output.extend_from_slice(trees)?;
    output.push(b'\n')?;
    Ok(())
}
