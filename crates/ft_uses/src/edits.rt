//! What the editors do to the text.

ghost use Rattle.std.specs.Prelude.{◌≤◌};
ghost use Rattle.ft_op.specs.WellFormed.{IsWellFormed};

use crate::editor::Editor;
use crate::faults::Fault;
use ft_base::Text;
use ft_changes::Telling;
use ft_op::{BaseOp, ChannelOp, Ends, Seg, TextOp};
use ft_props::PropSet;
use std::alloc::Global;

/// Types the text behind so many characters.
pub fn insert<R: Telling + Drop>(
    alloc: Global,
    editor: &mut Editor<R>,
    pos: u32,
    text: &str,
) -> Result<(), Fault> {
    let text = Text::new(alloc, text)?;
    let op = BaseOp::Insert {
        pos: u64::from(pos),
        seg: Seg::Chars { text },
        props: PropSet::new(alloc),
    };
    edit(editor, ChannelOp::Text(TextOp::One(op)))
}

/// Takes the characters from `pos1` up to before `pos2` away.
pub fn remove<R: Telling + Drop>(editor: &mut Editor<R>, pos1: u32, pos2: u32) -> Result<(), Fault>
    requires { pos1 ≤ pos2 }
{
    let op = BaseOp::Remove {
        pos1: u64::from(pos1),
        pos2: u64::from(pos2),
    };
    edit(editor, ChannelOp::Text(TextOp::One(op)))
}

/// Puts a note on the characters from `first` to `last`.
pub fn note<R: Telling + Drop>(
    alloc: Global,
    editor: &mut Editor<R>,
    id: &str,
    first: u32,
    last: u32,
) -> Result<(), Fault>
    requires { first ≤ last }
{
    let label = Text::new(alloc, "notes")?;
    let id = Text::new(alloc, id)?;
    let op = TextOp::IntervalAdd {
        label,
        id,
        ends: Ends {
            start: i64::from(first),
            end: i64::from(last),
        },
        props: PropSet::new(alloc),
    };
    edit(editor, ChannelOp::Text(op))
}

// The editor takes the edit.
fn edit<R: Telling + Drop>(editor: &mut Editor<R>, op: ChannelOp) -> Result<(), Fault>
    requires { IsWellFormed op }
{
    let done = editor.edit(&op);
    drop(op);
    done
}
