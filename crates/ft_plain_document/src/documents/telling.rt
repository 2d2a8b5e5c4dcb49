//! What a document tells of a sub-operation before it is applied: how the shown elements of its lists change.

ghost use Rattle.std.specs.Prelude.{◌≡◌, IfOk};
ghost use Rattle.ft_op.specs.declared.operations.BaseOp.TheVariants.{Annotate, Insert, Remove};
ghost use Rattle.ft_op.specs.declared.operations.CellOp.TheVariants.{SpliceIn, SpliceOut};
ghost use Rattle.ft_changes.specs.Told.{told_local, told_local_grid, told_local_text, told_of_grid, told_of_text};
ghost use Rattle.ft_plain_document.specs.SubOperations.{sub_operation_of};

use crate::documents::PlainDocument;
use crate::stages::SubOp;
use ft_base::{OutOfMemory, Perspective};
use ft_changes::runs::{puts, styles, takes, takes_of_units};
use ft_changes::{ViewChange, ViewChanges};
use ft_op::{BaseOp, CellOp, Seg, Target};
use ft_plain_lists::Before;
use ft_props::{Changes, PropSet};

impl PlainDocument {
    /// What an operation of the text by the perspective changes in what is shown at stage `last`.
    pub(crate) fn told_of_text(
        &self,
        last: u64,
        op: &BaseOp,
        at: Perspective,
    ) -> Result<ViewChanges, OutOfMemory>
        ensures { IfOk result (λ changes. changes ≡ told_of_text last self.now at.c at.r op.now) }
    {
        match op {
            BaseOp::Insert { pos, seg, props } => self.told_insertion(last, *pos, seg, props, at),
            BaseOp::Remove { pos1, pos2 } => self.told_removal(last, *pos1, *pos2, at),
            BaseOp::Annotate {
                pos1,
                pos2,
                changes,
            } => self.told_annotation(last, *pos1, *pos2, changes, at),
        }
    }

    // Of an insertion after `p` elements: where it goes in among the shown ones.
    fn told_insertion(
        &self,
        last: u64,
        p: u64,
        seg: &Seg,
        props: &PropSet,
        at: Perspective,
    ) -> Result<ViewChanges, OutOfMemory>
        ensures { IfOk result (λ changes. changes ≡ told_of_text last self.now at.c at.r (Insert p seg.now props.now)) }
    {
        if !self.text.is_within(p, at) {
            return Ok(ViewChanges::new(self.alloc()));
        }
        puts(
            self.alloc(),
            self.text.place_of_insertion(p, at, last),
            seg,
            props,
        )
    }

    // Of a removal from `p` up to before `q`: the runs of shown elements that go away.
    fn told_removal(
        &self,
        last: u64,
        p: u64,
        q: u64,
        at: Perspective,
    ) -> Result<ViewChanges, OutOfMemory>
        ensures { IfOk result (λ changes. changes ≡ told_of_text last self.now at.c at.r (Remove p q)) }
    {
        if !self.text.is_within(q, at) {
            return Ok(ViewChanges::new(self.alloc()));
        }
        let runs = self.text.gone_runs(p, q, at, last)?;
        takes(self.alloc(), runs.as_slice())
    }

    // Of an annotation from `p` up to before `q`: the runs of shown elements whose properties change.
    fn told_annotation(
        &self,
        last: u64,
        p: u64,
        q: u64,
        changes: &Changes,
        at: Perspective,
    ) -> Result<ViewChanges, OutOfMemory>
        ensures { IfOk result (λ told. told ≡ told_of_text last self.now at.c at.r (Annotate p q changes.now)) }
    {
        if !self.text.is_within(q, at) {
            return Ok(ViewChanges::new(self.alloc()));
        }
        let runs = self.text.changed_runs(p, q, at, changes, last)?;
        styles(self.alloc(), runs)
    }

    /// What an operation of the grid by the perspective changes in the rows and columns that are shown at stage `last`.
    pub(crate) fn told_of_grid(
        &self,
        last: u64,
        op: &CellOp,
        at: Perspective,
    ) -> Result<ViewChanges, OutOfMemory>
        ensures { IfOk result (λ changes. changes ≡ told_of_grid last self.now at.c at.r op.now) }
    {
        match op {
            CellOp::SpliceIn { target, pos, count } => {
                self.told_new_units(last, *target, *pos, *count, at)
            }
            CellOp::SpliceOut { target, pos1, pos2 } => {
                self.told_gone_units(last, *target, *pos1, *pos2, at)
            }
            CellOp::Set { .. } => Ok(ViewChanges::new(self.alloc())),
        }
    }

    // Of new rows or columns after `p`: where they go in among the shown ones.
    fn told_new_units(
        &self,
        last: u64,
        target: Target,
        p: u64,
        count: u64,
        at: Perspective,
    ) -> Result<ViewChanges, OutOfMemory>
        ensures { IfOk result (λ changes. changes ≡ told_of_grid last self.now at.c at.r (SpliceIn target p count)) }
    {
        let list = self.list(target);
        let mut changes = ViewChanges::new(self.alloc());
        if list.is_within(p, at) && count != 0 {
            let pos = list.place_of_insertion(p, at, last);
            changes.push(ViewChange::PutUnits { target, pos, count })?;
        }
        Ok(changes)
    }

    // Of the removal of rows or columns from `p` up to before `q`: the runs of shown ones that go away.
    fn told_gone_units(
        &self,
        last: u64,
        target: Target,
        p: u64,
        q: u64,
        at: Perspective,
    ) -> Result<ViewChanges, OutOfMemory>
        ensures { IfOk result (λ changes. changes ≡ told_of_grid last self.now at.c at.r (SpliceOut target p q)) }
    {
        let list = self.list(target);
        if !list.is_within(q, at) {
            return Ok(ViewChanges::new(self.alloc()));
        }
        let runs = list.gone_runs(p, q, at, last)?;
        takes_of_units(self.alloc(), target, runs.as_slice())
    }

    /// What a sub-operation of the client's own changes, at its stage, in what is shown at the stage before.
    pub(crate) fn told_local(&self, stage: u64, op: &SubOp) -> Result<ViewChanges, OutOfMemory>
        ensures { IfOk result (λ changes. changes ≡ told_local stage self.now (sub_operation_of op.now)) }
    {
        match op {
            SubOp::Text(op) => self.told_local_text(stage, op),
            SubOp::Intervals(_) => Ok(ViewChanges::new(self.alloc())),
            SubOp::Grid(op) => self.told_local_grid(stage, op),
        }
    }

    // Of one of the text.
    fn told_local_text(&self, stage: u64, op: &BaseOp) -> Result<ViewChanges, OutOfMemory>
        ensures { IfOk result (λ changes. changes ≡ told_local_text stage self.now op.now) }
    {
        match op {
            BaseOp::Insert { pos, seg, props } => puts(self.alloc(), *pos, seg, props),
            BaseOp::Remove { pos1, pos2 } => {
                let runs = self.text.gone_runs(*pos1, *pos2, Before(stage), stage)?;
                takes(self.alloc(), runs.as_slice())
            }
            BaseOp::Annotate {
                pos1,
                pos2,
                changes,
            } => {
                let runs = self
                    .text
                    .changed_runs_at_stage(stage, *pos1, *pos2, changes)?;
                styles(self.alloc(), runs)
            }
        }
    }

    // Of one of the grid.
    fn told_local_grid(&self, stage: u64, op: &CellOp) -> Result<ViewChanges, OutOfMemory>
        ensures { IfOk result (λ changes. changes ≡ told_local_grid stage self.now op.now) }
    {
        let mut changes = ViewChanges::new(self.alloc());
        match op {
            CellOp::SpliceIn { target, pos, count } => {
                if *count != 0 {
                    changes.push(ViewChange::PutUnits {
                        target: *target,
                        pos: *pos,
                        count: *count,
                    })?;
                }
                Ok(changes)
            }
            CellOp::SpliceOut { target, pos1, pos2 } => {
                let runs = self
                    .list(*target)
                    .gone_runs(*pos1, *pos2, Before(stage), stage)?;
                takes_of_units(self.alloc(), *target, runs.as_slice())
            }
            CellOp::Set { .. } => Ok(changes),
        }
    }
}
