//! How pending stages are sent again after a reconnection.

ghost use Rattle.std.specs.Prelude.{◌≡◌, ℕ, ◌↔◌, ◌-◌, ◌<◌, ◌^◌, ◌&&◌, [], ◌∷◌, Some, IfOk, IsTrue, cond, length, map, nat_eq};
ghost use Rattle.std.specs.List.{list_any};
ghost use Rattle.ft_props.specs.Element.{has_id, seen};
ghost use Rattle.ft_props.specs.Steps.{is_annotated_by, is_removed_by, lowered_runs, marked_runs, stage_position};
ghost use Rattle.ft_op.specs.Operation.{OnGrid, OnText, segment_contents};
ghost use Rattle.ft_op.specs.Pieces.{ends_in, grid_pieces, interval_piece, is_named_and_seen, pieces, position_of_named, text_pieces};
ghost use Rattle.ft_plain_document.specs.SubOperations.{sub_operation_of};

use crate::documents::PlainDocument;
use crate::moved::queue_of;
use crate::stages::{PlainStage, SubOp};
use ft_base::moved::push_behind;
use ft_base::{Datum, OutOfMemory};
use ft_json::ValText;
use ft_op::{
    BaseOp, CellOp, Ends, Seg, Target, TextOp, copy_insertion, copy_interval_add,
    copy_interval_change,
};
use ft_plain_lists::{
    AnnotatedBy, Before, ElementName, ElementNames, PlainElement, RemovedBy, end_number,
    lowered_runs, marked_runs, rank, stage_position,
};
use ft_props::{Changes, PropSet};
use std::alloc::Global;
use std::collections::VecDeque;

impl PlainDocument {
    /// The pieces of a stage.
    pub fn pieces(&self, stage: &PlainStage) -> Result<VecDeque<SubOp>, OutOfMemory>
        ensures { IfOk result (λ v. map sub_operation_of v.items ≡ pieces self.now stage.now) }
    {
        match stage.sub_operation() {
            SubOp::Text(op) => text_pieces(self.alloc(), self.text.as_slice(), stage.stage(), op),
            SubOp::Intervals(op) => {
                let items = self.text.as_slice();
                let names = stage.names().settled(items, stage.stage());
                let piece = interval_piece(items, stage.stage(), &names, op)?;
                queue_of(self.alloc(), SubOp::Intervals(piece))
            }
            SubOp::Grid(op) => self.grid_pieces(stage.stage(), stage.names(), op),
        }
    }

    // The pieces of a sub-operation of the grid that names these units; a cell write has none where its row
    // or column isn't seen.
    fn grid_pieces(
        &self,
        stage: u64,
        names: &ElementNames,
        op: &CellOp,
    ) -> Result<VecDeque<SubOp>, OutOfMemory>
        ensures { IfOk result (λ v. map sub_operation_of v.items ≡ grid_pieces stage self.now names.now op.now) }
    {
        let alloc = self.alloc();
        match op {
            CellOp::SpliceIn { target, count, .. } => {
                insertion_piece(alloc, self.list(*target).as_slice(), stage, *target, *count)
            }
            CellOp::SpliceOut { target, .. } => {
                unit_removals(alloc, self.list(*target).as_slice(), stage, *target)
            }
            CellOp::Set { value, .. } => self.cell_piece(stage, names, value),
        }
    }

    // The piece of a write to the cell of these two units, none where one isn't seen.
    fn cell_piece(
        &self,
        stage: u64,
        names: &ElementNames,
        value: &ValText,
    ) -> Result<VecDeque<SubOp>, OutOfMemory>
        ensures { (i j : ℕ) → IfOk result (λ v. map sub_operation_of v.items ≡ grid_pieces stage self.now names.now (CellOp.Set i j value.now)) }
    {
        let rows = self.rows.as_slice();
        let cols = self.cols.as_slice();
        if !is_named_and_seen(rows, stage, names.first())
            || !is_named_and_seen(cols, stage, names.second())
        {
            return Ok(VecDeque::new(self.alloc()));
        }
        queue_of(
            self.alloc(),
            SubOp::Grid(CellOp::Set {
                row: position_of_named(rows, Before(stage), names.first()),
                col: position_of_named(cols, Before(stage), names.second()),
                value: value.copy()?,
            }),
        )
    }
}

// The pieces of a sub-operation of the text: an insertion of nothing has none, a removal and an annotation one
// for each run of marked elements.
fn text_pieces(
    alloc: Global,
    items: &[PlainElement],
    stage: u64,
    op: &BaseOp,
) -> Result<VecDeque<SubOp>, OutOfMemory>
    ensures { IfOk result (λ v. map sub_operation_of v.items ≡ text_pieces stage items.now op.now) }
{
    match op {
        BaseOp::Insert { seg, props, .. } => segment_piece(alloc, items, stage, seg, props),
        BaseOp::Remove { .. } => text_removals(alloc, items, stage),
        BaseOp::Annotate { changes, .. } => text_annotations(alloc, items, stage, changes),
    }
}

// The piece of an insertion of the segment, none where it is empty.
fn segment_piece(
    alloc: Global,
    items: &[PlainElement],
    stage: u64,
    seg: &Seg,
    props: &PropSet,
) -> Result<VecDeque<SubOp>, OutOfMemory>
    ensures { (p : ℕ) → IfOk result (λ v. map sub_operation_of v.items ≡ text_pieces stage items.now (BaseOp.Insert p seg.now props.now)) }
{
    if is_empty(seg) {
        return Ok(VecDeque::new(alloc));
    }
    let insertion = copy_insertion(stage_position(items, stage), seg, props)?;
    queue_of(alloc, SubOp::Text(insertion))
}

// Whether the segment puts nothing in.
fn is_empty(seg: &Seg) -> bool
    ensures { IsTrue result ↔ (segment_contents seg.now ≡ []) }
{
    match seg {
        Seg::Chars { text } => text.as_str().is_empty(),
        Seg::Marker { .. } => false,
    }
}

// The removals of the runs that the stage marks in the text.
fn text_removals(
    alloc: Global,
    items: &[PlainElement],
    stage: u64,
) -> Result<VecDeque<SubOp>, OutOfMemory>
    ensures { IfOk result (λ v. map sub_operation_of v.items ≡ map (λ r. OnText (BaseOp.Remove r.0 r.1)) (lowered_runs 0 (marked_runs stage (is_removed_by stage) items.now))) }
{
    let runs = marked_runs(alloc, items, Before(stage), RemovedBy(stage))?;
    let lowered = lowered_runs(alloc, runs.as_slice())?;
    removals_of(alloc, lowered.as_slice())
}

// A removal of the text for each run.
fn removals_of(alloc: Global, runs: &[(u64, u64)]) -> Result<VecDeque<SubOp>, OutOfMemory>
    ensures { IfOk result (λ v. map sub_operation_of v.items ≡ map (λ r. OnText (BaseOp.Remove r.0 r.1)) runs.now) }
{
    let mut ops = VecDeque::new(alloc);
    for (pos1, pos2) in runs {
        let removal = BaseOp::Remove {
            pos1: *pos1,
            pos2: *pos2,
        };
        push_behind(&mut ops, SubOp::Text(removal))?;
    }
    Ok(ops)
}

// The annotations of the runs of which the stage has changes.
fn text_annotations(
    alloc: Global,
    items: &[PlainElement],
    stage: u64,
    changes: &Changes,
) -> Result<VecDeque<SubOp>, OutOfMemory>
    ensures { IfOk result (λ v. map sub_operation_of v.items ≡ map (λ r. OnText (BaseOp.Annotate r.0 r.1 changes.now)) (marked_runs stage (is_annotated_by stage) items.now)) }
{
    let runs = marked_runs(alloc, items, Before(stage), AnnotatedBy(stage))?;
    annotations_of(alloc, runs.as_slice(), changes)
}

// An annotation for each run.
fn annotations_of(
    alloc: Global,
    runs: &[(u64, u64)],
    changes: &Changes,
) -> Result<VecDeque<SubOp>, OutOfMemory>
    ensures { IfOk result (λ v. map sub_operation_of v.items ≡ map (λ r. OnText (BaseOp.Annotate r.0 r.1 changes.now)) runs.now) }
{
    let mut ops = VecDeque::new(alloc);
    for (pos1, pos2) in runs {
        let annotation = BaseOp::Annotate {
            pos1: *pos1,
            pos2: *pos2,
            changes: changes.copy()?,
        };
        push_behind(&mut ops, SubOp::Text(annotation))?;
    }
    Ok(ops)
}

// The piece of an insertion of so many units, none for none.
fn insertion_piece(
    alloc: Global,
    items: &[PlainElement],
    stage: u64,
    target: Target,
    count: u64,
) -> Result<VecDeque<SubOp>, OutOfMemory>
    ensures { IfOk result (λ v. map sub_operation_of v.items ≡ cond (nat_eq count 0) [] (OnGrid (CellOp.SpliceIn target (stage_position stage items.now) count) ∷ [])) }
{
    if count == 0 {
        return Ok(VecDeque::new(alloc));
    }
    queue_of(
        alloc,
        SubOp::Grid(CellOp::SpliceIn {
            target,
            pos: stage_position(items, stage),
            count,
        }),
    )
}

// The removals of the runs that the stage marks among rows or columns.
fn unit_removals(
    alloc: Global,
    items: &[PlainElement],
    stage: u64,
    target: Target,
) -> Result<VecDeque<SubOp>, OutOfMemory>
    ensures { IfOk result (λ v. map sub_operation_of v.items ≡ map (λ r. OnGrid (CellOp.SpliceOut target r.0 r.1))
        (lowered_runs 0 (marked_runs stage (is_removed_by stage) items.now))) }
{
    let runs = marked_runs(alloc, items, Before(stage), RemovedBy(stage))?;
    let lowered = lowered_runs(alloc, runs.as_slice())?;
    splices_of(alloc, lowered.as_slice(), target)
}

// A removal of rows or columns for each run.
fn splices_of(
    alloc: Global,
    runs: &[(u64, u64)],
    target: Target,
) -> Result<VecDeque<SubOp>, OutOfMemory>
    ensures { IfOk result (λ v. map sub_operation_of v.items ≡ map (λ r. OnGrid (CellOp.SpliceOut target r.0 r.1)) runs.now) }
{
    let mut ops = VecDeque::new(alloc);
    for (pos1, pos2) in runs {
        let removal = CellOp::SpliceOut {
            target,
            pos1: *pos1,
            pos2: *pos2,
        };
        push_behind(&mut ops, SubOp::Grid(removal))?;
    }
    Ok(ops)
}

// The interval operation with its ends, which are these elements, as they are at the stage.
fn interval_piece(
    items: &[PlainElement],
    stage: u64,
    names: &ElementNames,
    op: &TextOp,
) -> Result<TextOp, OutOfMemory>
    requires { length items.now < 2 ^ 53 }
    ensures { IfOk result (λ piece. piece ≡ interval_piece stage items.now names.now op.now) }
{
    match op {
        TextOp::IntervalAdd {
            label,
            id,
            props,
            ..
        } => copy_interval_add(label, id, ends_in(items, stage, names), props),
        TextOp::IntervalChange {
            label,
            id,
            ends: Some(_),
            props,
        } => { copy_interval_change(label, id, Some(ends_in(items, stage, names)), props) },
        TextOp::IntervalChange { ends: None, .. }
        | TextOp::IntervalDelete { .. }
        | TextOp::One(_)
        | TextOp::Group(_) => op.copy(),
    }
}

// The elements as numbers at the stage.
fn ends_in(items: &[PlainElement], stage: u64, names: &ElementNames) -> Ends
    requires { length items.now < 2 ^ 53 }
    ensures { result ≡ ends_in stage items.now names.now }
{
    Ends {
        start: end_number(items, names.first(), stage),
        end: end_number(items, names.second(), stage),
    }
}

// Whether an element is named and seen at the stage.
fn is_named_and_seen(items: &[PlainElement], stage: u64, name: Option<ElementName>) -> bool
    ensures { result ≡ is_named_and_seen stage items.now name }
{
    match name {
        Some(name) => has_seen(items, stage, name),
        None => false,
    }
}

// Whether the element of that name is seen at the stage.
fn has_seen(items: &[PlainElement], stage: u64, name: ElementName) -> bool
    ensures { result ≡ list_any (λ e. has_id name e && seen stage e) items.now }
{
    items
        .iter()
        .any(|e| e.has_name(&name) && e.is_seen_at(stage))
}

// The number of a named unit among those seen at the stage before.
fn position_of_named(items: &[PlainElement], seen: Before, name: Option<ElementName>) -> u64
    ensures { result ≡ position_of_named (seen.0 - 1) items.now name }
{
    match name {
        Some(name) => rank(items, name, seen),
        None => 0,
    }
}
