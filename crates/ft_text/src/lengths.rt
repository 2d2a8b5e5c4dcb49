//! Which operations fit, told by lengths alone.

ghost use Rattle.std.specs.Prelude.{◌≡◌, ◌≢◌, ◌+◌, ◌<◌, ◌≤◌, ℕ, Err, IfOk, IfErr, IfSome, IsFalse, IsTrue, OnOk, chars, is_ok, length, true};
ghost use Rattle.ft_base.specs.Scan.{len};
ghost use Rattle.ft_block.specs.declared.leaves.LenView.TheVariants.{Stage as at_stage};
ghost use Rattle.ft_interval_store.specs.State.{text_elements};
ghost use Rattle.ft_tree_leaves.specs.Elements.{seen_in};
ghost use Rattle.ft_op.specs.Operation.{segment_contents};
ghost use Rattle.ft_props.specs.Properties.{max_safe_integer};
ghost use Rattle.ft_text.specs.Lengths.{count_after, count_after_all, end_of, put_in_by, put_in_by_all};

use ft_base::OutOfMemory;
use ft_json::GREATEST_COUNT;
use ft_msg::EditFault;
use ft_op::{BaseOp, Seg};
use ft_tree::{TextContent, Tree};

/// Both numbers together.
///
/// Returns `OutOfMemory` where they are more than 2^64 - 1.
pub fn sum(a: u64, b: u64) -> Result<u64, OutOfMemory>
    ensures { IfOk result (λ n. n ≡ a + b) }
{
    match a.checked_add(b) {
        Some(n) => Ok(n),
        None => Err(OutOfMemory),
    }
}

// How many characters a text has.
fn char_count(text: &str) -> u64
    ensures { result ≡ length (chars text.now) }
{
    text.chars().count() as u64
}

/// How many elements a segment puts in.
pub(crate) fn segment_len(seg: &Seg) -> u64
    ensures { result ≡ length (segment_contents seg.now) }
{
    match seg {
        Seg::Chars { text } => char_count(text.as_str()),
        Seg::Marker { .. } => 1,
    }
}

/// How many elements an operation puts in.
pub fn put_in_by(op: &BaseOp) -> u64
    ensures { result ≡ put_in_by op.now }
{
    match op {
        BaseOp::Insert { seg, .. } => segment_len(seg),
        BaseOp::Remove { .. } | BaseOp::Annotate { .. } => 0,
    }
}

/// The position up to which an operation wants elements.
pub fn end_of(op: &BaseOp) -> u64
    ensures { result ≡ end_of op.now }
{
    match op {
        BaseOp::Insert { pos, .. } => *pos,
        BaseOp::Remove { pos2, .. } | BaseOp::Annotate { pos2, .. } => *pos2,
    }
}

// How many elements are seen after an operation, where so many are before it: None where they would be more than 2^64 - 1.
fn count_after(count: u64, op: &BaseOp) -> Option<u64>
    ensures { IfSome result (λ n. n ≡ count_after count op.now) }
{
    match op {
        BaseOp::Insert { seg, .. } => count.checked_add(segment_len(seg)),
        BaseOp::Remove { pos1, pos2 } => Some(count.saturating_sub(pos2.saturating_sub(*pos1))),
        BaseOp::Annotate { .. } => Some(count),
    }
}

/// Tests the operations of a group, where so many elements are seen before the first.
///
/// Returns `OutOfRange` with the count before the first that is out of range, and `OutOfMemory` where the elements would be
/// more than 2^64 - 1.
pub fn test_all(count: u64, ops: &[BaseOp]) -> Result<(), EditFault>
    ensures fits { OnOk result (is_ok (count_after_all count ops.now) ≡ true) }
    ensures refused { IfErr result (λ fault. fault ≢ EditFault.OutOfMemory → count_after_all count ops.now ≡ Err fault) }
{
    let mut seen = count;
    for op in ops {
        if seen < end_of(op) {
            return Err(EditFault::OutOfRange { length: seen });
        }
        let Some(after) = count_after(seen, op) else {
            return Err(EditFault::OutOfMemory);
        };
        seen = after;
    }
    Ok(())
}

/// Whether so many elements more may be made beside these: exactly where they are at most 2^53 - 1 in all.
pub fn have_room(made: u64, more: u64) -> bool
    ensures room { IsTrue result → made + more ≤ max_safe_integer }
    ensures full { IsFalse result → max_safe_integer < made + more }
{
    match made.checked_add(more) {
        Some(n) => n <= GREATEST_COUNT,
        None => false,
    }
}

/// How many elements were ever made in a tree: so few that ends are numbers among those that a stage sees.
pub fn made_in(tree: &Tree<TextContent>) -> u64
    requires { IsTrue tree.now.usable }
    ensures made { result ≡ tree.now.made }
    ensures few { (stage : ℕ) → len (seen_in (at_stage stage)) (text_elements tree.now) ≤ 9223372036854775807 }
{
    tree.made()
}

/// How many elements the operations of a group put in.
///
/// Returns `OutOfMemory` where they are more than 2^64 - 1.
pub fn put_in_by_all(ops: &[BaseOp]) -> Result<u64, OutOfMemory>
    ensures { IfOk result (λ n. n ≡ put_in_by_all ops.now) }
{
    let mut count: u64 = 0;
    for op in ops {
        count = sum(count, put_in_by(op))?;
    }
    Ok(count)
}
