//! The operations of edits that are drawn.

ghost use Rattle.std.specs.Prelude.{◌≡◌, ◌≤◌, ◌++◌, IfOk, chars, decimal, length};
ghost use Rattle.ft_op.specs.WellFormed.{IsWellFormed};
ghost use Rattle.ft_gen.specs.declared.edits.DrawnOp.TheVariants as drawn;
ghost use Rattle.ft_gen.specs.Acts.{op_of};
ghost use Rattle.ft_gen.specs.Edits.{letters};

use crate::draws::draw;
use crate::edits::DrawnOp;
use arrayvec::ArrayString;
use ft_base::{OutOfMemory, Text};
use ft_json::ValText;
use ft_op::{BaseOp, CellOp, ChannelOp, Ends, GridOp, Seg, TextOp};
use ft_props::{AdjSet, Changes, PropSet};
use itoa::Buffer;
use std::alloc::Global;

/// A name: a few letters, and a number behind them.
pub(crate) fn numbered(alloc: Global, letters: &str, number: u64) -> Result<Text, OutOfMemory>
    requires { length letters.now ≤ 4 }
    ensures { IfOk result (λ name. name ≡ chars (letters.now ++ decimal number)) }
{
    let mut digits = Buffer::new();
    let mut name = ArrayString::<24>::new();
    name.push_str(letters);
    name.push_str(digits.format(number));
    Text::new(alloc, name.as_str())
}

impl DrawnOp {
    /// The operation.
    pub fn op(self, alloc: Global) -> Result<ChannelOp, OutOfMemory>
        requires { IsWellFormed (op_of self) }
        ensures { IfOk result (λ op. op ≡ op_of self) }
    {
        match self {
            DrawnOp::Insert { pos, count, state } => insertion(alloc, pos, count, state),
            DrawnOp::Remove { pos1, pos2 } => {
                Ok(ChannelOp::Text(TextOp::One(BaseOp::Remove { pos1, pos2 })))
            }
            DrawnOp::Annotate { pos, value } => annotation(alloc, pos, value),
            DrawnOp::Set { row, col, value } => cell_write(alloc, row, col, value),
            DrawnOp::Add { number, pos } => new_interval(alloc, number, pos),
        }
    }
}

// So many letters, drawn from the state.
fn letters(alloc: Global, count: u64, mut state: u64) -> Result<Text, OutOfMemory>
    ensures { IfOk result (λ text. text ≡ letters count state) }
{
    let mut text = String::new(alloc);
    for _i in 0..count {
        let place = draw(&mut state, 26) as u8;
        text.push(char::from(b'a' + place))?;
    }
    Ok(Text::from_string(text))
}

// The insertion of so many letters, drawn from the state.
fn insertion(alloc: Global, pos: u64, count: u64, state: u64) -> Result<ChannelOp, OutOfMemory>
    ensures { IfOk result (λ op. op ≡ op_of (drawn.Insert pos count state)) }
{
    let text = letters(alloc, count, state)?;
    Ok(ChannelOp::Text(TextOp::One(BaseOp::Insert {
        pos,
        seg: Seg::Chars { text },
        props: PropSet::new(alloc),
    })))
}

// The number as a JSON value.
fn number_text(alloc: Global, number: u64) -> Result<ValText, OutOfMemory>
    ensures { IfOk result (λ text. text ≡ decimal number) }
{
    let mut digits = Buffer::new();
    ValText::new(alloc, digits.format(number))
}

// The annotation of one element.
fn annotation(alloc: Global, pos: u64, value: u64) -> Result<ChannelOp, OutOfMemory>
    requires { IsWellFormed (op_of (drawn.Annotate pos value)) }
    ensures { IfOk result (λ op. op ≡ op_of (drawn.Annotate pos value)) }
{
    let mut props = PropSet::new(alloc);
    props.put(Text::new(alloc, "k")?, Some(number_text(alloc, value)?))?;
    Ok(ChannelOp::Text(TextOp::One(BaseOp::Annotate {
        pos1: pos,
        pos2: pos + 1,
        changes: Changes {
            props,
            adjust: AdjSet::new(alloc),
        },
    })))
}

// The write of a number to a cell.
fn cell_write(alloc: Global, row: u64, col: u64, value: u64) -> Result<ChannelOp, OutOfMemory>
    ensures { IfOk result (λ op. op ≡ op_of (drawn.Set row col value)) }
{
    let value = number_text(alloc, value)?;
    Ok(ChannelOp::Grid(GridOp::One(CellOp::Set { row, col, value })))
}

// The interval of that number, round one element.
fn new_interval(alloc: Global, number: u64, pos: u64) -> Result<ChannelOp, OutOfMemory>
    requires { IsWellFormed (op_of (drawn.Add number pos)) }
    ensures { IfOk result (λ op. op ≡ op_of (drawn.Add number pos)) }
{
    let ends = Ends {
        start: pos as i64,
        end: pos as i64,
    };
    Ok(ChannelOp::Text(TextOp::IntervalAdd {
        label: Text::new(alloc, "notes")?,
        id: numbered(alloc, "i", number)?,
        ends,
        props: PropSet::new(alloc),
    }))
}
