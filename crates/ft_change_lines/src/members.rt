//! Members of JSON objects, and the objects of properties.

ghost use Rattle.std.specs.Prelude.{◌≡◌, ◌++◌, [], OnOk, decimal, string_bytes};
ghost use Rattle.std.specs.Fmt.{signed_decimal};
ghost use Rattle.ft_seqr.specs.ViewLines.{json_string, later_members, member_text, object_text};
ghost use Rattle.ft_change_lines.specs.ChangeTexts.{member};

use ft_base::{OutOfMemory, Text};
use ft_json::{ValText, quote};
use ft_props::Props;
use std::alloc::Global;
use std::fmt::Write;

/// Adds a key, behind other members.
pub fn push_key(text: &mut String, key: &str) -> Result<(), OutOfMemory>
    ensures { OnOk result (string_bytes text.new ≡ string_bytes text.old ++ member key.now []) }
{
    text.push_str(",\"")?;
    text.push_str(key)?;
    Ok(text.push_str("\":")?)
}

/// Adds a count under a key.
pub fn push_count(text: &mut String, key: &str, count: u64) -> Result<(), OutOfMemory>
    ensures { OnOk result (string_bytes text.new ≡ string_bytes text.old ++ member key.now (decimal count)) }
{
    push_key(text, key)?;
    Ok(write!(text, "{count}")?)
}

/// Adds a position under a key.
pub fn push_position(text: &mut String, key: &str, position: i64) -> Result<(), OutOfMemory>
    ensures { OnOk result (string_bytes text.new ≡ string_bytes text.old ++ member key.now (signed_decimal position)) }
{
    push_key(text, key)?;
    Ok(write!(text, "{position}")?)
}

/// Adds the JSON string of the characters.
pub fn push_quoted(alloc: Global, text: &mut String, characters: &Text) -> Result<(), OutOfMemory>
    ensures { OnOk result (string_bytes text.new ≡ string_bytes text.old ++ json_string characters.now) }
{
    let quoted = quote(alloc, characters)?;
    Ok(text.push_str(quoted.as_str())?)
}

/// Adds properties as a JSON object.
#[tactic(auto, unfolding(ft_seqr::specs::ViewLines::object_text))]
pub fn push_object(alloc: Global, text: &mut String, props: &Props) -> Result<(), OutOfMemory>
    ensures { OnOk result (string_bytes text.new ≡ string_bytes text.old ++ object_text props.now) }
{
    let Some((first, later)) = props.as_slice().split_first() else {
        return Ok(text.push_str("{}")?);
    };
    text.push('{')?;
    push_property(alloc, text, first)?;
    push_later_properties(alloc, text, later)?;
    Ok(text.push('}')?)
}

// Adds properties, each behind a comma.
fn push_later_properties(
    alloc: Global,
    text: &mut String,
    properties: &[(Text, ValText)],
) -> Result<(), OutOfMemory>
    ensures { OnOk result (string_bytes text.new ≡ string_bytes text.old ++ later_members properties.now) }
{
    for property in properties {
        text.push(',')?;
        push_property(alloc, text, property)?;
    }
    Ok(())
}

// Adds a property.
fn push_property(
    alloc: Global,
    text: &mut String,
    property: &(Text, ValText),
) -> Result<(), OutOfMemory>
    ensures { OnOk result (string_bytes text.new ≡ string_bytes text.old ++ member_text property.now) }
{
    push_quoted(alloc, text, &property.0)?;
    text.push(':')?;
    Ok(text.push_str(property.1.as_str())?)
}
