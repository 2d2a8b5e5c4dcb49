//! What the client's own sub-operations make of a document.

ghost use Rattle.std.specs.Prelude.{◌≡◌, ◌-◌, [], OnOk, OnErr};
ghost use Rattle.ft_base.specs.Scan.{len};
ghost use Rattle.ft_props.specs.Element.{seen};
ghost use Rattle.ft_props.specs.Properties.{ValueBytes, apply};
ghost use Rattle.ft_props.specs.Steps.{after_local_insertion};
ghost use Rattle.ft_op.specs.Operation.{segment_contents};
ghost use Rattle.ft_msg.specs.Client.{local_grid, local_text};
ghost use Rattle.ft_plain_document.specs.OwnEdits.{AnswersSubOperation};

use crate::documents::PlainDocument;
use crate::documents::text_effects::segment_contents;
use ft_base::OutOfMemory;
use ft_msg::EditFault;
use ft_op::{BaseOp, CellOp, Seg, Target};
use ft_plain_lists::{Before, ElementNames, PlainList};
use ft_props::{Changes, PropSet, Props};
use std::error::Error;
use std::fmt;

/// Why a sub-operation of the client's own isn't taken.
#[derive(Clone, Copy, Debug, PartialEq, Eq)]
pub enum NotTaken {
    /// There was no memory.
    OutOfMemory,
    /// It is refused.
    Refused(EditFault),
}

impl fmt::Display for NotTaken {
    ghost use Rattle.std.specs.Prelude.{Some};
    ghost use Rattle.ft_plain_document.specs.OwnEdits.{not_taken_text};

    ghost output = { λ why. Some (not_taken_text why) };

    fn fmt<W: fmt::Write>(&self, f: &mut fmt::Formatter<W>) -> fmt::Result {
        match *self {
            NotTaken::OutOfMemory => f.write_str("OutOfMemory"),
            NotTaken::Refused(fault) => write!(f, "{fault}"),
        }
    }
}

impl Error for NotTaken {}

impl From<OutOfMemory> for NotTaken {
    ghost use Rattle.std.specs.Prelude.{◌≡◌};
    ghost use Rattle.ft_plain_document.specs.declared.documents.own_edits.NotTaken.TheVariants.{OutOfMemory as WantOfMemory};

    ghost from_gives = { λ _ made. made ≡ WantOfMemory };

    fn from(_error: OutOfMemory) -> NotTaken {
        NotTaken::OutOfMemory
    }
}

/// The refusal of a position in a list that has as many elements at the stage before.
pub fn out_of_range(list: &PlainList, stage: u64) -> NotTaken
    ensures { result ≡ NotTaken.Refused (EditFault.OutOfRange (len (seen (stage - 1)) list.now.items)) }
{
    NotTaken::Refused(EditFault::OutOfRange {
        length: list.seen_count(Before(stage)) as u64,
    })
}

impl PlainDocument {
    /// Takes an insertion, a removal or an annotation of the text as a pending stage.
    pub(crate) fn edit_text(&mut self, stage: u64, op: &BaseOp) -> Result<ElementNames, NotTaken>
        ensures { AnswersSubOperation (local_text self.old stage op.now) self.old self.new result }
    {
        match op {
            BaseOp::Insert { pos, seg, props } => self.insert_own_text(stage, *pos, seg, props),
            BaseOp::Remove { pos1, pos2 } => self.remove_own_text(stage, *pos1, *pos2),
            BaseOp::Annotate {
                pos1,
                pos2,
                changes,
            } => self.annotate_own_text(stage, *pos1, *pos2, changes),
        }
    }

    // Inserts the segment after `p` elements, with the properties that aren't null.
    fn insert_own_text(
        &mut self,
        stage: u64,
        p: u64,
        seg: &Seg,
        props: &PropSet,
    ) -> Result<ElementNames, NotTaken>
        ensures { AnswersSubOperation (local_text self.old stage (BaseOp.Insert p seg.now props.now)) self.old self.new result }
    {
        if !self.text.is_within(p, Before(stage)) {
            return Err(out_of_range(&self.text, stage));
        }
        self.put_own_text(stage, p, seg, props)?;
        Ok(ElementNames::none())
    }

    // Puts the elements of the segment in after `p` elements.
    fn put_own_text(
        &mut self,
        stage: u64,
        p: u64,
        seg: &Seg,
        props: &PropSet,
    ) -> Result<(), OutOfMemory>
        ensures ok { OnOk result (self.new ≡ record self.old { text = after_local_insertion stage p (apply [] props.now) (segment_contents seg.now) self.old.text }) }
        ensures err { OnErr result (self.new ≡ self.old) }
    {
        let alloc = self.text.alloc();
        let props = Props::new(alloc).applied(props)?;
        let contents = segment_contents(alloc, seg)?;
        self.text
            .insert_at_stage(stage, p, &props, contents.as_slice())
    }

    // Removes the elements of the text from `p` up to before `q`.
    fn remove_own_text(&mut self, stage: u64, p: u64, q: u64) -> Result<ElementNames, NotTaken>
        ensures { AnswersSubOperation (local_text self.old stage (BaseOp.Remove p q)) self.old self.new result }
    {
        if !self.text.is_within(q, Before(stage)) {
            return Err(out_of_range(&self.text, stage));
        }
        self.text.remove_at_stage(stage, p, q)?;
        Ok(ElementNames::none())
    }

    // Changes the properties of the elements of the text from `p` up to before `q`.
    fn annotate_own_text(
        &mut self,
        stage: u64,
        p: u64,
        q: u64,
        changes: &Changes,
    ) -> Result<ElementNames, NotTaken>
        ensures { AnswersSubOperation (local_text self.old stage (BaseOp.Annotate p q changes.now)) self.old self.new result }
    {
        if !self.text.is_within(q, Before(stage)) {
            return Err(out_of_range(&self.text, stage));
        }
        self.text.annotate_at_stage(stage, p, q, changes)?;
        Ok(ElementNames::none())
    }

    /// Takes a splice or a cell write as a pending stage.
    pub(crate) fn edit_grid(&mut self, stage: u64, op: &CellOp) -> Result<ElementNames, NotTaken>
        ensures { AnswersSubOperation (local_grid self.old stage op.now) self.old self.new result }
    {
        match op {
            CellOp::SpliceIn { target, pos, count } => {
                self.insert_own_units(stage, *target, *pos, *count)
            }
            CellOp::SpliceOut { target, pos1, pos2 } => {
                self.remove_own_units(stage, *target, *pos1, *pos2)
            }
            CellOp::Set { row, col, .. } => self.name_own_cell(stage, *row, *col),
        }
    }

    // Inserts new rows or columns after `p`.
    fn insert_own_units(
        &mut self,
        stage: u64,
        target: Target,
        p: u64,
        count: u64,
    ) -> Result<ElementNames, NotTaken>
        ensures { AnswersSubOperation (local_grid self.old stage (CellOp.SpliceIn target p count)) self.old self.new result }
    {
        if !self.list(target).is_within(p, Before(stage)) {
            return Err(out_of_range(self.list(target), stage));
        }
        self.list_mut(target)
            .insert_units_at_stage(stage, p, count)?;
        Ok(ElementNames::none())
    }

    // Removes the rows or columns from `p` up to before `q`.
    fn remove_own_units(
        &mut self,
        stage: u64,
        target: Target,
        p: u64,
        q: u64,
    ) -> Result<ElementNames, NotTaken>
        ensures { AnswersSubOperation (local_grid self.old stage (CellOp.SpliceOut target p q)) self.old self.new result }
    {
        if !self.list(target).is_within(q, Before(stage)) {
            return Err(out_of_range(self.list(target), stage));
        }
        self.list_mut(target).remove_at_stage(stage, p, q)?;
        Ok(ElementNames::none())
    }

    // The row and the column that a write to the cell at row `i` and column `j` names; the row is tested
    // first.
    fn name_own_cell(&self, stage: u64, i: u64, j: u64) -> Result<ElementNames, NotTaken>
        ensures { (value : ValueBytes) → AnswersSubOperation (local_grid self.now stage (CellOp.Set i j value)) self.now self.now result }
    {
        let Some(row) = self.rows.name_at(i, Before(stage)) else {
            return Err(out_of_range(&self.rows, stage));
        };
        let Some(col) = self.cols.name_at(j, Before(stage)) else {
            return Err(out_of_range(&self.cols, stage));
        };
        Ok(ElementNames::new(Some(row), Some(col)))
    }
}
