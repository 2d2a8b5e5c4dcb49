//! The client's own join: its pending edits are sent again, and their elements are put in afresh.

ghost use Rattle.std.specs.Prelude.{◌≡◌, ◌<◌, ◌^◌, ◌+◌, ◌∷◌, ◌++◌, [], ℕ, IfOk, List, None, OnOk, Some, cond, flat_map, length, map, true};
ghost use Rattle.std.specs.List.{list_all};
ghost use Rattle.std.specs.Option.{option_map};
ghost use Rattle.ft_op.specs.declared.operations.ChannelOp.{ChannelOp};
ghost use Rattle.ft_op.specs.declared.operations.ChannelOp.TheVariants.{Grid, Text};
ghost use Rattle.ft_op.specs.Document.{Document};
ghost use Rattle.ft_op.specs.Stages.{Stage};
ghost use Rattle.ft_msg.specs.Agreed.{with_numbers};
ghost use Rattle.ft_msg.specs.Process.{process_fault};
ghost use Rattle.ft_msg.specs.WellFormed.{IsWellFormedMessage};
ghost use Rattle.ft_replica.specs.Own.{HeldDocument, HoldsOne, NamesFit, rejoined, resent};
ghost use Rattle.ft_client.specs.Holds.{HoldsTree};
ghost use Rattle.ft_client.specs.Parts.{are_of_one_edit, is_text_part, own_stage};
ghost use Rattle.ft_client.specs.Rejoins.{AddsPieces, GivesEdit, GivesEdits, GivesFirst, GivesNext, GivesPart, GivesSome, GivesStage, GivesTree, Joins, are_of_one_part, base_ops, cell_ops};

use crate::moved::{joined, one_item};
use crate::own::TreeOwn;
use crate::stages::{OwnStage, Part};
use ft_base::OutOfMemory;
use ft_base::moved::beside;
use ft_msg::Entry;
use ft_op::{BaseOps, CellOps, ChannelOp, GridOp, TextOp};
use ft_replica::Resent;
use std::alloc::Global;
use std::collections::VecDeque;

impl TreeOwn {
    /// Takes the client's own join: its pending edits, which have so many stages each, go on as they are sent again.
    pub(crate) fn rejoin_all(
        &mut self,
        counts: &[usize],
        entry: &Entry,
    ) -> Result<VecDeque<Resent>, OutOfMemory>
        requires formed { IsWellFormedMessage entry.now.msg }
        requires known { HoldsOne HoldsTree self.old (λ p. (process_fault p entry.now ≡ None) × (map (λ e. length e.stages) p.pending ≡ counts.now)) }
        ensures { (held : HeldDocument) (edits : List (List Stage)) → NamesFit held → held.stages ≡ flat_map (λ stages. stages) edits
            → map (λ stages. length stages) edits ≡ counts.now → HoldsTree self.old held
            → IfOk result (λ v. (v.items ≡ map (resent (with_numbers entry.now held.doc)) edits) × HoldsTree self.new (rejoined entry.now held)) }
    {
        let again = self.give_edits(counts)?;
        self.text.normalise()?;
        self.table.normalise()?;
        self.numbers.take(entry);
        Ok(again)
    }

    // Gives the next edits, which have so many stages each, and returns as what they are sent again.
    fn give_edits(&mut self, counts: &[usize]) -> Result<VecDeque<Resent>, OutOfMemory>
        requires known { GivesEdits self.old counts.now }
        ensures { (low last : ℕ) (doc : Document) (edits : List (List Stage)) → map (λ stages. length stages) edits ≡ counts.now
            → list_all (λ stages. are_of_one_edit (map own_stage stages)) edits ≡ true → GivesTree self.old low last doc [] (flat_map (λ stages. stages) edits)
            → IfOk result (λ again. (again.items ≡ map (resent doc) edits) × GivesTree self.new low last doc (flat_map (λ stages. stages) edits) []) }
    {
        let mut again = VecDeque::new(self.text.allocator());
        for count in counts {
            let edit = self.give_edit(*count)?;
            again.push_back(edit)?;
        }
        Ok(again)
    }

    // Gives the next edit, which has so many stages, and returns as what it is sent again.
    fn give_edit(&mut self, count: usize) -> Result<Resent, OutOfMemory>
        requires known { GivesSome self.old count }
        ensures { (low last : ℕ) (doc : Document) (front mine rest : List Stage) → length mine ≡ count → are_of_one_edit (map own_stage mine) ≡ true
            → GivesTree self.old low last doc front (mine ++ rest) → IfOk result (λ again. GivesEdit self.new low last doc front mine rest again) }
    {
        let mut again = Resent {
            op: None,
            stages: 0,
        };
        for _i in 0..count {
            again = self.give_more(again)?;
        }
        Ok(again)
    }

    // Gives the next stage of an edit that is sent again as this so far.
    fn give_more(&mut self, again: Resent) -> Result<Resent, OutOfMemory>
        requires known { GivesNext self.old again }
        ensures { (low last : ℕ) (doc : Document) (front mine : List Stage) (t : Stage) (rest : List Stage) → are_of_one_edit (map own_stage (mine ++ t ∷ [])) ≡ true
            → GivesEdit self.old low last doc front mine (t ∷ rest) again → IfOk result (λ v. GivesEdit self.new low last doc front (mine ++ t ∷ []) rest v) }
    {
        let op = self.give_stage();
        let (op, so_far) = beside(op, again)?;
        let again = with_pieces(self.text.allocator(), so_far, op)?;
        Ok(again)
    }

    // Gives the next stage, and returns its pieces as one operation: None where it has none, and then it is gone.
    fn give_stage(&mut self) -> Result<Option<ChannelOp>, OutOfMemory>
        requires known { GivesSome self.old 1 }
        ensures { (low last : ℕ) (doc : Document) (front : List Stage) (t : Stage) (rest : List Stage) → GivesTree self.old low last doc front (t ∷ rest)
            → IfOk result (λ op. GivesStage self.new low last doc front t rest op) }
    {
        let stage = take_next(&mut self.stages);
        let op = self.give_part(stage)?;
        let put = put_behind(&mut self.stages, stage, op.is_some());
        let (_put, given) = beside(put, op)?;
        Ok(given)
    }

    // Gives this stage to its part, and returns its pieces as one operation.
    fn give_part(&mut self, stage: OwnStage) -> Result<Option<ChannelOp>, OutOfMemory>
        requires known { GivesFirst self.old stage }
        ensures { IfOk result (λ op. GivesPart stage op self.old self.new) }
    {
        if is_of_text(stage.part) {
            let op = self.text.reconnect(stage.stage, 1)?;
            Ok(text_again(op))
        } else {
            let op = self.table.reconnect(stage.stage, 1)?;
            Ok(grid_again(op))
        }
    }
}

/// Takes the next stage off.
pub(crate) fn take_next(stages: &mut VecDeque<OwnStage>) -> OwnStage
    requires { 0 < length stages.old.items }
    ensures { stages.old.items ≡ result ∷ stages.new.items }
{
    match stages.pop_front() {
        Some(stage) => stage,
        None => unreachable!(),
    }
}

// Puts a stage that goes on behind the others.
fn put_behind(
    stages: &mut VecDeque<OwnStage>,
    stage: OwnStage,
    more: bool,
) -> Result<(), OutOfMemory>
    ensures { OnOk result (stages.new.items ≡ cond more (stages.old.items ++ stage ∷ []) stages.old.items) }
{
    if !more {
        return Ok(());
    }
    stages.push_back(stage)?;
    Ok(())
}

// Whether this part is one of the text.
fn is_of_text(part: Part) -> bool
    ensures { result ≡ is_text_part part }
{
    match part {
        Part::Elements | Part::Intervals => true,
        Part::Grid => false,
    }
}

// An operation on the text, if there is one.
fn text_again(op: Option<TextOp>) -> Option<ChannelOp>
    ensures { result ≡ option_map Text op }
{
    match op {
        None => None,
        Some(op) => Some(ChannelOp::Text(op)),
    }
}

// An operation on the grid, if there is one.
fn grid_again(op: Option<GridOp>) -> Option<ChannelOp>
    ensures { result ≡ option_map Grid op }
{
    match op {
        None => None,
        Some(op) => Some(ChannelOp::Grid(op)),
    }
}

// The edit with the pieces of one stage more, if it has some. They are of the part of the others.
fn with_pieces(alloc: Global, again: Resent, op: Option<ChannelOp>) -> Result<Resent, OutOfMemory>
    requires few { again.stages + 1 < 2 ^ 64 }
    requires one { (first more : ChannelOp) → again.op ≡ Some first → op ≡ Some more → are_of_one_part first more ≡ true }
    ensures { IfOk result (λ v. AddsPieces again op v) }
{
    let Some(op) = op else {
        return Ok(again);
    };
    let stages = again.stages + 1;
    let op = match again.op {
        None => op,
        Some(first) => join(alloc, first, op)?,
    };
    Ok(Resent {
        op: Some(op),
        stages,
    })
}

// Both operations, which are of one part, as one.
fn join(alloc: Global, first: ChannelOp, second: ChannelOp) -> Result<ChannelOp, OutOfMemory>
    requires { are_of_one_part first second ≡ true }
    ensures { IfOk result (λ op. Joins first second op) }
{
    match (first, second) {
        (ChannelOp::Text(first), ChannelOp::Text(second)) => join_texts(alloc, first, second),
        (ChannelOp::Grid(first), ChannelOp::Grid(second)) => join_grids(alloc, first, second),
        (ChannelOp::Text(_), ChannelOp::Grid(_)) | (ChannelOp::Grid(_), ChannelOp::Text(_)) => {
            unreachable!()
        }
    }
}

// Both operations on the elements of the text as one.
fn join_texts(alloc: Global, first: TextOp, second: TextOp) -> Result<ChannelOp, OutOfMemory>
    ensures { IfOk result (λ op. Joins (Text first) (Text second) op) }
{
    let ops = joined(base_ops(alloc, first), base_ops(alloc, second))?;
    Ok(ChannelOp::Text(TextOp::Group(ops)))
}

// Both operations on the grid as one.
fn join_grids(alloc: Global, first: GridOp, second: GridOp) -> Result<ChannelOp, OutOfMemory>
    ensures { IfOk result (λ op. Joins (Grid first) (Grid second) op) }
{
    let ops = joined(cell_ops(alloc, first), cell_ops(alloc, second))?;
    Ok(ChannelOp::Grid(GridOp::Group(ops)))
}

// The members of an operation on the elements of the text. A group is handed on as it is.
fn base_ops(alloc: Global, op: TextOp) -> Result<BaseOps, OutOfMemory>
    ensures { IfOk result (λ ops. ops ≡ base_ops op) }
{
    match op {
        TextOp::One(op) => one_item(alloc, op),
        TextOp::Group(ops) => Ok(ops),
        TextOp::IntervalAdd { .. }
        | TextOp::IntervalChange { .. }
        | TextOp::IntervalDelete { .. } => Ok(BaseOps::new(alloc)),
    }
}

// The members of an operation on the grid. A group is handed on as it is.
fn cell_ops(alloc: Global, op: GridOp) -> Result<CellOps, OutOfMemory>
    ensures { IfOk result (λ ops. ops ≡ cell_ops op) }
{
    match op {
        GridOp::One(op) => one_item(alloc, op),
        GridOp::Group(ops) => Ok(ops),
    }
}
