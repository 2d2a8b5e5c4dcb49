//! The summary of a client of a map session.

ghost use Rattle.std.specs.Prelude.{◌≡◌, ◌++◌, IfOk, OnOk, codes, decimal, string_bytes};
ghost use Rattle.std.specs.List.{AllByRecursion};
ghost use Rattle.ft_json.specs.Canonical.{IsCanonicalText};
ghost use Rattle.ft_map.specs.MapReport.{later_pairs, pair_text, pairs_text, summary_text};
ghost use Rattle.ft_map.specs.MapWorlds.{IsWritable};

use crate::replica::MapReplica;
use ft_base::{OutOfMemory, Text};
use ft_json::{ValText, quote};
use std::alloc::Global;

/// The summary of a client, which tells what was sequenced, as its one text.
pub(crate) fn summary_text(alloc: Global, client: &MapReplica) -> Result<ValText, OutOfMemory>
    ensures { IfOk result (λ text. text ≡ summary_text client.now) }
{
    let text = spelled_summary(alloc, client)?;
    ValText::new(alloc, text.as_str())
}

// The same, by its characters.
fn spelled_summary(alloc: Global, client: &MapReplica) -> Result<String, OutOfMemory>
    ensures text { IfOk result (λ text. string_bytes text ≡ summary_text client.now) }
    ensures canonical { IfOk result (λ text. IsCanonicalText (summary_text client.now)) }
{
    let mut text = summary_start(alloc, client.min())?;
    push_pairs(alloc, &mut text, client.acked())?;
    let end = summary_end(alloc, client.seq())?;
    text.push_str(end.as_str())?;
    Ok(text)
}

// What stands before the pairs.
fn summary_start(alloc: Global, min: u64) -> Result<String, OutOfMemory>
    ensures { IfOk result (λ text. string_bytes text ≡ codes "{\"min\":" ++ (decimal min ++ codes ",\"pairs\":[")) }
{
    Ok(format!(in alloc; "{{\"min\":{min},\"pairs\":[")?)
}

// What stands behind the pairs.
fn summary_end(alloc: Global, seq: u64) -> Result<String, OutOfMemory>
    ensures { IfOk result (λ text. string_bytes text ≡ codes "],\"seq\":" ++ (decimal seq ++ codes ",\"version\":1}")) }
{
    Ok(format!(in alloc; "],\"seq\":{seq},\"version\":1}}")?)
}

// The pairs, with commas between them.
fn push_pairs(
    alloc: Global,
    text: &mut String,
    pairs: &[(Text, ValText)],
) -> Result<(), OutOfMemory>
    ensures text { OnOk result (string_bytes text.new ≡ string_bytes text.old ++ pairs_text pairs.now) }
    ensures writable { OnOk result (AllByRecursion IsWritable pairs.now) }
{
    let Some((first, later)) = pairs.split_first() else {
        return Ok(());
    };
    push_pair(alloc, text, first)?;
    push_later_pairs(alloc, text, later)
}

// The pairs behind the first one.
fn push_later_pairs(
    alloc: Global,
    text: &mut String,
    pairs: &[(Text, ValText)],
) -> Result<(), OutOfMemory>
    ensures text { OnOk result (string_bytes text.new ≡ string_bytes text.old ++ later_pairs pairs.now) }
    ensures writable { OnOk result (AllByRecursion IsWritable pairs.now) }
{
    for pair in pairs {
        text.push(',')?;
        push_pair(alloc, text, pair)?;
    }
    Ok(())
}

// A pair.
fn push_pair(alloc: Global, text: &mut String, pair: &(Text, ValText)) -> Result<(), OutOfMemory>
    ensures text { OnOk result (string_bytes text.new ≡ string_bytes text.old ++ pair_text pair.now) }
    ensures writable { OnOk result (IsWritable pair.now) }
{
    // So the proof has it that the key is a text.
    let _spelled = pair.0.as_str();
    let key = quote(alloc, &pair.0)?;
    push_parts(text, key.as_str(), pair.1.as_str())
}

// A pair by its key and its value as they are written.
fn push_parts(text: &mut String, key: &str, value: &str) -> Result<(), OutOfMemory>
    ensures { OnOk result (string_bytes text.new ≡ string_bytes text.old ++ (codes "[" ++ (key.now ++ (codes "," ++ (value.now ++ codes "]"))))) }
{
    text.push('[')?;
    text.push_str(key)?;
    text.push(',')?;
    text.push_str(value)?;
    text.push(']')?;
    Ok(())
}
