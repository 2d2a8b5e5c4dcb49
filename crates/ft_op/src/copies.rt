//! Copies of operations, and whether two operations are the same.

ghost use Rattle.std.specs.Prelude.{◌≡◌, ◌↔◌, IsTrue, IfOk};

use crate::operations::{BaseOp, BaseOps, CellOp, ChannelOp, Ends, GridOp, Seg, Target, TextOp};
use ft_base::moved::{all_three, both};
use ft_base::{Datum, OutOfMemory, Text};
use ft_json::ValText;
use ft_props::{Changes, PropSet};

// Whether the operation is this insertion.
fn is_insertion(op: &BaseOp, pos: u64, seg: &Seg, props: &PropSet) -> bool
    ensures { IsTrue result ↔ (op.now ≡ BaseOp.Insert pos seg.now props.now) }
{
    match op {
        BaseOp::Insert {
            pos: at,
            seg: put_in,
            props: with,
        } => *at == pos && put_in.same(seg) && with.same(props),
        BaseOp::Remove { .. } | BaseOp::Annotate { .. } => false,
    }
}

// Whether the operation is this removal.
fn is_removal(op: &BaseOp, pos1: u64, pos2: u64) -> bool
    ensures { IsTrue result ↔ (op.now ≡ BaseOp.Remove pos1 pos2) }
{
    match op {
        BaseOp::Remove {
            pos1: from,
            pos2: to,
        } => *from == pos1 && *to == pos2,
        BaseOp::Insert { .. } | BaseOp::Annotate { .. } => false,
    }
}

// Whether the operation is this annotation.
fn is_annotation(op: &BaseOp, pos1: u64, pos2: u64, changes: &Changes) -> bool
    ensures { IsTrue result ↔ (op.now ≡ BaseOp.Annotate pos1 pos2 changes.now) }
{
    match op {
        BaseOp::Annotate {
            pos1: from,
            pos2: to,
            changes: made,
        } => *from == pos1 && *to == pos2 && made.same(changes),
        BaseOp::Insert { .. } | BaseOp::Remove { .. } => false,
    }
}

// Whether the operation is this one by itself.
fn is_one(op: &TextOp, one: &BaseOp) -> bool
    ensures { IsTrue result ↔ (op.now ≡ TextOp.One one.now) }
{
    match op {
        TextOp::One(other) => other.same(one),
        TextOp::Group(_)
        | TextOp::IntervalAdd { .. }
        | TextOp::IntervalChange { .. }
        | TextOp::IntervalDelete { .. } => false,
    }
}

// Whether the operation is the group of these.
fn is_group(op: &TextOp, ops: &BaseOps) -> bool
    ensures { IsTrue result ↔ (op.now ≡ TextOp.Group ops.now) }
{
    match op {
        TextOp::Group(others) => others.same(ops),
        TextOp::One(_)
        | TextOp::IntervalAdd { .. }
        | TextOp::IntervalChange { .. }
        | TextOp::IntervalDelete { .. } => false,
    }
}

// Whether the operation adds this interval.
fn is_interval_add(op: &TextOp, label: &Text, id: &Text, ends: &Ends, props: &PropSet) -> bool
    ensures { IsTrue result ↔ (op.now ≡ TextOp.IntervalAdd label.now id.now ends.now props.now) }
{
    match op {
        TextOp::IntervalAdd {
            label: of,
            id: named,
            ends: at,
            props: with,
        } => of.same(label) && named.same(id) && at == ends && with.same(props),
        TextOp::One(_)
        | TextOp::Group(_)
        | TextOp::IntervalChange { .. }
        | TextOp::IntervalDelete { .. } => false,
    }
}

// Whether the operation changes this interval so.
fn is_interval_change(
    op: &TextOp,
    label: &Text,
    id: &Text,
    ends: &Option<Ends>,
    props: &PropSet,
) -> bool
    ensures { IsTrue result ↔ (op.now ≡ TextOp.IntervalChange label.now id.now ends.now props.now) }
{
    match op {
        TextOp::IntervalChange {
            label: of,
            id: named,
            ends: at,
            props: with,
        } => of.same(label) && named.same(id) && at == ends && with.same(props),
        TextOp::One(_)
        | TextOp::Group(_)
        | TextOp::IntervalAdd { .. }
        | TextOp::IntervalDelete { .. } => false,
    }
}

// Whether the operation deletes this interval.
fn is_interval_delete(op: &TextOp, label: &Text, id: &Text) -> bool
    ensures { IsTrue result ↔ (op.now ≡ TextOp.IntervalDelete label.now id.now) }
{
    match op {
        TextOp::IntervalDelete {
            label: of,
            id: named,
        } => of.same(label) && named.same(id),
        TextOp::One(_)
        | TextOp::Group(_)
        | TextOp::IntervalAdd { .. }
        | TextOp::IntervalChange { .. } => false,
    }
}

// Whether the operation puts in these units.
fn is_splice_in(op: &CellOp, target: Target, pos: u64, count: u64) -> bool
    ensures { IsTrue result ↔ (op.now ≡ CellOp.SpliceIn target pos count) }
{
    match op {
        CellOp::SpliceIn {
            target: of,
            pos: at,
            count: many,
        } => *of == target && *at == pos && *many == count,
        CellOp::SpliceOut { .. } | CellOp::Set { .. } => false,
    }
}

// Whether the operation takes out these units.
fn is_splice_out(op: &CellOp, target: Target, pos1: u64, pos2: u64) -> bool
    ensures { IsTrue result ↔ (op.now ≡ CellOp.SpliceOut target pos1 pos2) }
{
    match op {
        CellOp::SpliceOut {
            target: of,
            pos1: from,
            pos2: to,
        } => *of == target && *from == pos1 && *to == pos2,
        CellOp::SpliceIn { .. } | CellOp::Set { .. } => false,
    }
}

// Whether the operation sets this cell to the value.
fn is_set(op: &CellOp, row: u64, col: u64, value: &ValText) -> bool
    ensures { IsTrue result ↔ (op.now ≡ CellOp.Set row col value.now) }
{
    match op {
        CellOp::Set {
            row: i,
            col: j,
            value: written,
        } => *i == row && *j == col && written.same(value),
        CellOp::SpliceIn { .. } | CellOp::SpliceOut { .. } => false,
    }
}

/// An insertion with copies of these parts.
pub fn copy_insertion(pos: u64, seg: &Seg, props: &PropSet) -> Result<BaseOp, OutOfMemory>
    ensures { IfOk result (λ op. op ≡ BaseOp.Insert pos seg.now props.now) }
{
    let (seg, props) = both(seg.copy(), props.copy())?;
    Ok(BaseOp::Insert { pos, seg, props })
}

/// The addition of an interval with copies of these parts.
pub fn copy_interval_add(
    label: &Text,
    id: &Text,
    ends: Ends,
    props: &PropSet,
) -> Result<TextOp, OutOfMemory>
    ensures { IfOk result (λ op. op ≡ TextOp.IntervalAdd label.now id.now ends props.now) }
{
    let (label, id, props) = all_three(label.copy(), id.copy(), props.copy())?;
    Ok(TextOp::IntervalAdd {
        label,
        id,
        ends,
        props,
    })
}

/// The change of an interval with copies of these parts.
pub fn copy_interval_change(
    label: &Text,
    id: &Text,
    ends: Option<Ends>,
    props: &PropSet,
) -> Result<TextOp, OutOfMemory>
    ensures { IfOk result (λ op. op ≡ TextOp.IntervalChange label.now id.now ends props.now) }
{
    let (label, id, props) = all_three(label.copy(), id.copy(), props.copy())?;
    Ok(TextOp::IntervalChange {
        label,
        id,
        ends,
        props,
    })
}

// A copy of the deletion of an interval.
fn copy_interval_delete(label: &Text, id: &Text) -> Result<TextOp, OutOfMemory>
    ensures { IfOk result (λ op. op ≡ TextOp.IntervalDelete label.now id.now) }
{
    let (label, id) = both(label.copy(), id.copy())?;
    Ok(TextOp::IntervalDelete { label, id })
}

impl Datum for Seg {
    fn copy(&self) -> Result<Seg, OutOfMemory> {
        match self {
            Seg::Chars { text } => Ok(Seg::Chars { text: text.copy()? }),
            Seg::Marker { ref_type } => Ok(Seg::Marker {
                ref_type: *ref_type,
            }),
        }
    }

    fn same(&self, other: &Seg) -> bool {
        match (self, other) {
            (Seg::Chars { text: mine }, Seg::Chars { text: theirs }) => mine.same(theirs),
            (Seg::Marker { ref_type: mine }, Seg::Marker { ref_type: theirs }) => mine == theirs,
            (Seg::Chars { .. }, Seg::Marker { .. }) | (Seg::Marker { .. }, Seg::Chars { .. }) =>
                false,
        }
    }
}

impl Datum for BaseOp {
    fn copy(&self) -> Result<BaseOp, OutOfMemory> {
        match self {
            BaseOp::Insert { pos, seg, props } => copy_insertion(*pos, seg, props),
            BaseOp::Remove { pos1, pos2 } => Ok(BaseOp::Remove {
                pos1: *pos1,
                pos2: *pos2,
            }),
            BaseOp::Annotate {
                pos1,
                pos2,
                changes,
            } => Ok(BaseOp::Annotate {
                pos1: *pos1,
                pos2: *pos2,
                changes: changes.copy()?,
            }),
        }
    }

    fn same(&self, other: &BaseOp) -> bool {
        match self {
            BaseOp::Insert { pos, seg, props } => is_insertion(other, *pos, seg, props),
            BaseOp::Remove { pos1, pos2 } => is_removal(other, *pos1, *pos2),
            BaseOp::Annotate {
                pos1,
                pos2,
                changes,
            } => is_annotation(other, *pos1, *pos2, changes),
        }
    }
}

impl Datum for Ends {
    fn copy(&self) -> Result<Ends, OutOfMemory> {
        Ok(*self)
    }

    fn same(&self, other: &Ends) -> bool {
        self == other
    }
}

impl Datum for TextOp {
    fn copy(&self) -> Result<TextOp, OutOfMemory> {
        match self {
            TextOp::One(op) => Ok(TextOp::One(op.copy()?)),
            TextOp::Group(ops) => Ok(TextOp::Group(ops.copy()?)),
            TextOp::IntervalAdd {
                label,
                id,
                ends,
                props,
            } => copy_interval_add(label, id, *ends, props),
            TextOp::IntervalChange {
                label,
                id,
                ends,
                props,
            } => copy_interval_change(label, id, *ends, props),
            TextOp::IntervalDelete { label, id } => copy_interval_delete(label, id),
        }
    }

    fn same(&self, other: &TextOp) -> bool {
        match self {
            TextOp::One(op) => is_one(other, op),
            TextOp::Group(ops) => is_group(other, ops),
            TextOp::IntervalAdd {
                label,
                id,
                ends,
                props,
            } => is_interval_add(other, label, id, ends, props),
            TextOp::IntervalChange {
                label,
                id,
                ends,
                props,
            } => is_interval_change(other, label, id, ends, props),
            TextOp::IntervalDelete { label, id } => is_interval_delete(other, label, id),
        }
    }
}

impl Datum for Target {
    fn copy(&self) -> Result<Target, OutOfMemory> {
        Ok(*self)
    }

    fn same(&self, other: &Target) -> bool {
        self == other
    }
}

impl Datum for CellOp {
    fn copy(&self) -> Result<CellOp, OutOfMemory> {
        match self {
            CellOp::SpliceIn { target, pos, count } => Ok(CellOp::SpliceIn {
                target: *target,
                pos: *pos,
                count: *count,
            }),
            CellOp::SpliceOut { target, pos1, pos2 } => Ok(CellOp::SpliceOut {
                target: *target,
                pos1: *pos1,
                pos2: *pos2,
            }),
            CellOp::Set { row, col, value } => Ok(CellOp::Set {
                row: *row,
                col: *col,
                value: value.copy()?,
            }),
        }
    }

    fn same(&self, other: &CellOp) -> bool {
        match self {
            CellOp::SpliceIn { target, pos, count } => is_splice_in(other, *target, *pos, *count),
            CellOp::SpliceOut { target, pos1, pos2 } => is_splice_out(other, *target, *pos1, *pos2),
            CellOp::Set { row, col, value } => is_set(other, *row, *col, value),
        }
    }
}

impl Datum for GridOp {
    fn copy(&self) -> Result<GridOp, OutOfMemory> {
        match self {
            GridOp::One(op) => Ok(GridOp::One(op.copy()?)),
            GridOp::Group(ops) => Ok(GridOp::Group(ops.copy()?)),
        }
    }

    fn same(&self, other: &GridOp) -> bool {
        match (self, other) {
            (GridOp::One(mine), GridOp::One(theirs)) => mine.same(theirs),
            (GridOp::Group(mine), GridOp::Group(theirs)) => mine.same(theirs),
            (GridOp::One(_), GridOp::Group(_)) | (GridOp::Group(_), GridOp::One(_)) => false,
        }
    }
}

impl Datum for ChannelOp {
    fn copy(&self) -> Result<ChannelOp, OutOfMemory> {
        match self {
            ChannelOp::Text(op) => Ok(ChannelOp::Text(op.copy()?)),
            ChannelOp::Grid(op) => Ok(ChannelOp::Grid(op.copy()?)),
        }
    }

    fn same(&self, other: &ChannelOp) -> bool {
        match (self, other) {
            (ChannelOp::Text(mine), ChannelOp::Text(theirs)) => mine.same(theirs),
            (ChannelOp::Grid(mine), ChannelOp::Grid(theirs)) => mine.same(theirs),
            (ChannelOp::Text(_), ChannelOp::Grid(_)) | (ChannelOp::Grid(_), ChannelOp::Text(_)) =>
                false,
        }
    }
}
