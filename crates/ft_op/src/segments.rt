//! Reading the segment of an insertion.

ghost use Rattle.std.specs.Prelude.{◌≡◌, Ok, Err, option_map};
ghost use Rattle.serde_json.specs.View.{view};
ghost use Rattle.ft_json.specs.Readers.{Gives};
ghost use Rattle.ft_op.specs.TextGrammar.{characters_of, marker_of, segment};

use crate::operations::{OpFault, Seg};
use crate::reading::is_object;
use ft_base::Text;
use ft_json::{Field, count_field, field};
use serde_json::Value;
use std::alloc::Global;

/// The segment that the value is: a string, or an object, which is read by its field `text` if it is
/// there, and else by its field `marker`.
#[tactic(auto, unfolding(crate::specs::TextGrammar::segment))]
pub(crate) fn read_segment(alloc: Global, seg: &Value) -> Result<Seg, OpFault>
    ensures { Gives OpFault.OutOfMemory (segment (view seg.now)) result }
{
    if !is_object(seg) {
        return read_characters(alloc, seg);
    }
    match field(seg, Field::Text) {
        Some(text) => read_characters(alloc, text),
        None => read_marker(field(seg, Field::Marker)),
    }
}

// The characters that a string has.
fn read_characters(alloc: Global, text: &Value) -> Result<Seg, OpFault>
    ensures { Gives OpFault.OutOfMemory (characters_of (view text.now)) result }
{
    let text = text.as_str().ok_or(OpFault::WrongKind(Field::Seg))?;
    Ok(Seg::Chars {
        text: Text::new(alloc, text)?,
    })
}

// The marker that the field `marker` is.
fn read_marker(marker: Option<&Value>) -> Result<Seg, OpFault>
    ensures { result ≡ marker_of (option_map (λ d. view d.now) marker.entry) }
{
    let marker = marker.ok_or(OpFault::WrongKind(Field::Seg))?;
    if !is_object(marker) {
        return Err(OpFault::WrongKind(Field::Seg));
    }
    let ref_type = count_field(marker, Field::RefType)?;
    Ok(Seg::Marker { ref_type })
}
