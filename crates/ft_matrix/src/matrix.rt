//! The shared table as its callers see it.

ghost use Rattle.std.specs.Prelude.{◌≡◌, ◌+◌, ◌-◌, ◌*◌, ◌<◌, ◌≤◌, ◌^◌, ◌++◌, [], ℕ, All, List, IfOk, IsTrue, OnErr, OnOk, false, true, flat_map, length, map, option_map};
ghost use Rattle.std.specs.List.{list_all};
ghost use Rattle.ft_changes.specs.Listeners.{heard};
ghost use Rattle.ft_changes.specs.Told.{told_locals, told_sub_operations};
ghost use Rattle.ft_laws_agreement.specs.Sequencing.{is_grid_stage};
ghost use Rattle.ft_laws_names.specs.GridFacts.{AreCounted};
ghost use Rattle.ft_laws_names.specs.WellNamed.{AreWellNamed};
ghost use Rattle.ft_matrix.specs.Conditions.{AnswersEdit, AreFreeUnits, AreItsStages, AreNext, AreOldest, HasItsMarks, HasNoTombstone, HoldsKept, IsAboveAll, KeepsRest, TakesOp};
ghost use Rattle.ft_matrix.specs.GridStates.{depth_of};
ghost use Rattle.ft_matrix.specs.HoldsGrid.{HoldsGrid};
ghost use Rattle.ft_matrix.specs.Shown.{HasNoUnits, with_grid, with_units};
ghost use Rattle.ft_msg.specs.Acknowledgement.{ack_stages, renamed_stage};
ghost use Rattle.ft_msg.specs.Client.{local_sub_operations};
ghost use Rattle.ft_msg.specs.Content.{all_cells, stage_view};
ghost use Rattle.ft_msg.specs.Reconnection.{carried_stage, rebuilt_document};
ghost use Rattle.ft_msg.specs.Summary.{doc_of};
ghost use Rattle.ft_op.specs.Document.{Document, effects, empty};
ghost use Rattle.ft_op.specs.Operation.{sub_operations};
ghost use Rattle.ft_op.specs.Pieces.{op_of, pieces};
ghost use Rattle.ft_op.specs.Stages.{Stage};
ghost use Rattle.ft_op.specs.WellFormed.{IsWellFormedGrid};
ghost use Rattle.ft_op.specs.declared.operations.CellOp.{CellOp};
ghost use Rattle.ft_op.specs.declared.operations.ChannelOp.{ChannelOp};
ghost use Rattle.ft_op.specs.declared.operations.GridOp.{GridOp};
ghost use Rattle.ft_op.specs.declared.operations.Target.{Target};
ghost use Rattle.ft_named.specs.Nodes.{KeepsNodes};
ghost use Rattle.ft_perm.specs.Handles.{numbers_from};
ghost use Rattle.ft_sumdoc.specs.Valid.{IsValidSummary};

use crate::grid::Grid;
use crate::own_edits::{first_leaf, sub_operation_count};
use crate::saved::saved_units;
use crate::seen::LOCAL;
use crate::splices::seen_count;
use ft_arena::NodeId;
use ft_base::moved::{after, fill};
use ft_base::{OutOfMemory, Perspective, Steps};
use ft_changes::Listener;
use ft_msg::{EditFault, View};
use ft_op::GridOp;
use ft_sumdoc::{CellRecs, SumDoc};
use std::alloc::Global;
use std::marker::Model;
use std::sync::ledger::Ledger;

/// A table of rows and columns with its cells, and a client's pending stages on it. A contract sees its units without names and
/// its cells by places, and says of each call what it makes of every document whose part it holds.
#[derive(Drop)]
pub struct SharedMatrix {
    pub(crate) grid: Grid,
    pub(crate) alloc: Global,
    pub(crate) given: u64,
    pub(crate) usable: bool,
}

impl Model for SharedMatrix {
    ghost use Rattle.std.specs.Prelude.{IsTrue};
    ghost use Rattle.ft_matrix.specs.GridStates.{GridState, grid_state};
    ghost use Rattle.ft_matrix.specs.Sound.{IsSound};

    ghost Value = { GridState };

    ghost view = { λ a. grid_state a.grid a.given a.usable };

    ghost invariant = { λ a. IsTrue a.usable → IsSound a.grid };
}

impl SharedMatrix {
    /// No rows, no columns, no cells, nothing pending.
    pub fn new(alloc: Global) -> SharedMatrix
        ensures holds { HoldsGrid result empty [] }
        ensures given { result.given ≡ 0 }
        ensures floor { result.floor ≡ 0 }
        ensures usable { result.usable ≡ true }
    {
        SharedMatrix {
            grid: Grid::new(alloc),
            alloc,
            given: 0,
            usable: true,
        }
    }

    /// How many rows were ever sequenced.
    pub fn rows_made(&self) -> u64
        ensures { result ≡ self.now.rows_made }
    {
        self.grid.rows_made
    }

    /// How many columns were ever sequenced.
    pub fn cols_made(&self) -> u64
        ensures { result ≡ self.now.cols_made }
    {
        self.grid.cols_made
    }

    /// Applies an operation of a message under number `seq`, by the perspective of its sender: past the client's own pending rows
    /// and columns. Returns how many of its sub-operations were out of range, which changed nothing.
    ///
    /// Returns `OutOfMemory` where there is no room for it, and then the table may be used no more.
    pub fn apply<G: Ledger>(
        &mut self,
        op: &GridOp,
        seq: u64,
        at: Perspective,
        steps: &mut Steps<G>,
    ) -> Result<u64, OutOfMemory>
        requires usable { IsTrue self.old.usable }
        requires settled { self.old.given ≡ 0 }
        requires formed { IsWellFormedGrid op.now }
        requires floor { self.old.floor ≤ at.r }
        ensures applied { (last : ℕ) (doc : Document) (stages : List Stage) → AreWellNamed last doc stages → HoldsGrid self.old doc stages
            → IfOk result (λ count. TakesOp last self.new (effects doc seq at.c at.r (sub_operations (ChannelOp.Grid op.now))) doc stages count) }
        ensures rest { OnOk result (KeepsRest self.old self.new) }
        ensures err { OnErr result (self.new.usable ≡ false) }
    {
        let mut nobody = Listener::nobody(self.alloc);
        self.apply_telling(op, seq, at, &mut nobody, steps)
    }

    /// As `apply`; the listener hears how the shown rows and columns change with each sub-operation.
    pub fn apply_telling<G: Ledger>(
        &mut self,
        op: &GridOp,
        seq: u64,
        at: Perspective,
        listener: &mut Listener,
        steps: &mut Steps<G>,
    ) -> Result<u64, OutOfMemory>
        requires usable { IsTrue self.old.usable }
        requires settled { self.old.given ≡ 0 }
        requires formed { IsWellFormedGrid op.now }
        requires floor { self.old.floor ≤ at.r }
        ensures applied { (last : ℕ) (doc : Document) (stages : List Stage) → AreWellNamed last doc stages → HoldsGrid self.old doc stages
            → IfOk result (λ count. TakesOp last self.new (effects doc seq at.c at.r (sub_operations (ChannelOp.Grid op.now))) doc stages count) }
        ensures rest { OnOk result (KeepsRest self.old self.new) }
        ensures err { OnErr result (self.new.usable ≡ false) }
        ensures told { (last : ℕ) (doc : Document) (stages : List Stage) → last < 2 ^ 64 → AreWellNamed last doc stages → HoldsGrid self.old doc stages
            → IsAboveAll (last + 1) self.old
            → OnOk result (listener.new ≡ heard listener.old (told_sub_operations last doc seq at.c at.r (sub_operations (ChannelOp.Grid op.now)))) }
    {
        match self.grid.apply_op(op, seq, at, listener, steps) {
            Ok(skipped) => Ok(skipped),
            Err(e) => {
                self.usable = false;
                Err(e)
            }
        }
    }

    /// Takes an operation of the client's own as pending stages from `first` on, which is above all that is pending, and returns
    /// how many these are.
    ///
    /// Returns `OutOfRange` with the length of the list concerned where one of its sub-operations is out of range in the view that
    /// those before it make, and then nothing changed; and `OutOfMemory` where there is no room, and then the table may be used
    /// no more.
    pub fn edit<G: Ledger>(
        &mut self,
        op: &GridOp,
        first: u64,
        steps: &mut Steps<G>,
    ) -> Result<u64, EditFault>
        requires usable { IsTrue self.old.usable }
        requires settled { self.old.given ≡ 0 }
        requires formed { IsWellFormedGrid op.now }
        requires some { 1 ≤ first }
        requires above { IsAboveAll first self.old }
        ensures answers { (last : ℕ) (doc : Document) (stages : List Stage) → first ≡ last + 1 → AreWellNamed last doc stages → HoldsGrid self.old doc stages
            → AnswersEdit stages (local_sub_operations doc stages first (sub_operations (ChannelOp.Grid op.now))) self.old self.new result }
        ensures reads { (target : Target) (p count : ℕ) → op.now ≡ GridOp.One (CellOp.SpliceIn target p count)
            → steps.new ≤ steps.old + 9 * (depth_of target self.old + 1) }
        ensures rest { OnOk result (KeepsRest self.old self.new) }
        ensures rows_depth { 4 ^ self.old.rows_depth ≤ length self.old.rows + 1 }
        ensures cols_depth { 4 ^ self.old.cols_depth ≤ length self.old.cols + 1 }
    {
        let mut nobody = Listener::nobody(self.alloc);
        self.edit_telling(op, first, &mut nobody, steps)
    }

    /// As `edit`; the listener hears how the shown rows and columns change with each stage. After a refusal nothing is said of what
    /// it heard.
    pub fn edit_telling<G: Ledger>(
        &mut self,
        op: &GridOp,
        first: u64,
        listener: &mut Listener,
        steps: &mut Steps<G>,
    ) -> Result<u64, EditFault>
        requires usable { IsTrue self.old.usable }
        requires settled { self.old.given ≡ 0 }
        requires formed { IsWellFormedGrid op.now }
        requires some { 1 ≤ first }
        requires above { IsAboveAll first self.old }
        ensures answers { (last : ℕ) (doc : Document) (stages : List Stage) → first ≡ last + 1 → AreWellNamed last doc stages → HoldsGrid self.old doc stages
            → AnswersEdit stages (local_sub_operations doc stages first (sub_operations (ChannelOp.Grid op.now))) self.old self.new result }
        ensures reads { (target : Target) (p count : ℕ) → op.now ≡ GridOp.One (CellOp.SpliceIn target p count)
            → steps.new ≤ steps.old + 9 * (depth_of target self.old + 1) }
        ensures rest { OnOk result (KeepsRest self.old self.new) }
        ensures rows_depth { 4 ^ self.old.rows_depth ≤ length self.old.rows + 1 }
        ensures cols_depth { 4 ^ self.old.cols_depth ≤ length self.old.cols + 1 }
        ensures told { (last : ℕ) (doc : Document) (stages : List Stage) → first ≡ last + 1 → AreWellNamed last doc stages → HoldsGrid self.old doc stages
            → OnOk result (listener.new ≡ heard listener.old (told_locals doc stages first (sub_operations (ChannelOp.Grid op.now)))) }
    {
        // How deep a search goes is read off its contract.
        let _leaves = self.first_leaves();
        match self.grid.edit_op(op, first, listener, steps) {
            Ok(None) => Ok(sub_operation_count(op)),
            Ok(Some(length)) => Err(EditFault::OutOfRange { length }),
            Err(_) => {
                self.usable = false;
                Err(EditFault::OutOfMemory)
            }
        }
    }

    // The first leaves of the rows and of the columns; the contract tells how deep a search for a unit goes at most.
    fn first_leaves(&self) -> (Option<NodeId>, Option<NodeId>)
        requires { IsTrue self.now.usable }
        ensures rows { 4 ^ self.now.rows_depth ≤ length self.now.rows + 1 }
        ensures cols { 4 ^ self.now.cols_depth ≤ length self.now.cols + 1 }
    {
        (first_leaf(&self.grid.rows), first_leaf(&self.grid.cols))
    }

    /// Makes the `count` stages from `first` on sequenced one after another, under number `seq` by connection `conn`; those of them
    /// that are pending here are the lowest. No position is searched again.
    ///
    /// Returns `OutOfMemory` where there is no room for it, and then the table may be used no more.
    pub fn ack(&mut self, first: u64, count: u64, seq: u64, conn: u32) -> Result<(), OutOfMemory>
        requires usable { IsTrue self.old.usable }
        requires settled { self.old.given ≡ 0 }
        requires lowest { All (λ t. first ≤ t.stage) self.old.stages }
        ensures acked { (last : ℕ) (doc : Document) (acked rest : List Stage) → AreWellNamed last doc (acked ++ rest) → HoldsGrid self.old doc (acked ++ rest)
            → map (λ t. t.stage) acked ≡ numbers_from first count → AreCounted doc acked
            → OnOk result (HoldsGrid self.new (ack_stages seq conn (λ i. i) acked doc).0 (map (renamed_stage (ack_stages seq conn (λ i. i) acked doc).1) rest)) }
        ensures rest { OnOk result (KeepsRest self.old self.new) }
        ensures err { OnErr result (self.new.usable ≡ false) }

        // The same where the edit lost some of its stages in a reconnection.
        ensures acked_within { (last : ℕ) (doc : Document) (acked rest : List Stage) → AreWellNamed last doc (acked ++ rest) → HoldsGrid self.old doc (acked ++ rest)
            → AreOldest first (first + count) acked rest → HasItsMarks (acked ++ rest) doc → AreCounted doc acked
            → OnOk result (HoldsGrid self.new (ack_stages seq conn (λ i. i) acked doc).0 (map (renamed_stage (ack_stages seq conn (λ i. i) acked doc).1) rest)) }
    {
        match self.grid.ack_stages(first, count, seq, conn) {
            Ok(()) => Ok(()),
            Err(e) => {
                self.usable = false;
                Err(e)
            }
        }
    }

    /// Raises the floor, and takes out all rows and columns that were removed at or below it.
    ///
    /// Returns `OutOfMemory` where there is no room for what is kept, and then the table may be used no more.
    pub fn compact(&mut self, floor: u64) -> Result<(), OutOfMemory>
        requires usable { IsTrue self.old.usable }
        requires settled { self.old.given ≡ 0 }
        requires rising { self.old.floor ≤ floor }
        requires free { AreFreeUnits floor self.old }
        ensures kept { (last : ℕ) (doc : Document) (stages : List Stage) → AreWellNamed last doc stages → HoldsGrid self.old doc stages
            → OnOk result (HoldsKept floor self.new doc stages) }
        ensures none { OnOk result (HasNoTombstone floor self.new) }
        ensures floor { OnOk result (self.new.floor ≡ floor) }
        ensures given { self.new.given ≡ self.old.given }
        ensures usable { OnOk result (self.new.usable ≡ self.old.usable) }
        ensures err { OnErr result (self.new.usable ≡ false) }
    {
        match self.grid.compact(self.alloc, floor) {
            Ok(()) => Ok(()),
            Err(e) => {
                self.usable = false;
                Err(e)
            }
        }
    }

    /// Raises the floor, and looks at `budget` further leaves of the rows and as many of the columns: those that were removed at
    /// or below the floor are taken out.
    ///
    /// Returns `OutOfMemory` where there is no room for what is kept, and then the table may be used no more.
    pub fn tidy(&mut self, floor: u64, budget: u64) -> Result<(), OutOfMemory>
        requires usable { IsTrue self.old.usable }
        requires settled { self.old.given ≡ 0 }
        requires rising { self.old.floor ≤ floor }
        requires free { AreFreeUnits floor self.old }
        ensures kept { (last : ℕ) (doc : Document) (stages : List Stage) → AreWellNamed last doc stages → HoldsGrid self.old doc stages
            → OnOk result (HoldsKept floor self.new doc stages) }
        ensures floor { OnOk result (self.new.floor ≡ floor) }
        ensures given { self.new.given ≡ self.old.given }
        ensures usable { OnOk result (self.new.usable ≡ self.old.usable) }
        ensures err { OnErr result (self.new.usable ≡ false) }
    {
        match self.grid.tidy(self.alloc, floor, budget) {
            Ok(()) => Ok(()),
            Err(e) => {
                self.usable = false;
                Err(e)
            }
        }
    }

    /// The operation as which an edit is sent again whose stages are the `count` ones from `first` on: None exactly where nothing
    /// of it is left. Those of its stages of which nothing is left are gone then. The edits are given in order, and `normalise`
    /// follows once for all.
    ///
    /// Returns `OutOfMemory` where there is no room for it, and then the table may be used no more.
    pub fn reconnect(&mut self, first: u64, count: u64) -> Result<Option<GridOp>, OutOfMemory>
        requires usable { IsTrue self.old.usable }
        requires next { self.old.given < first }
        ensures answer { (last : ℕ) (doc : Document) (before mine rest : List Stage) → AreWellNamed last doc (before ++ (mine ++ rest))
            → HoldsGrid self.old doc (before ++ (mine ++ rest)) → map (λ t. t.stage) mine ≡ numbers_from first count → list_all is_grid_stage mine ≡ true
            → IfOk result (λ op. option_map ChannelOp.Grid op ≡ op_of (flat_map (pieces doc) mine)) }
        ensures holds { (last : ℕ) (doc : Document) (before mine rest : List Stage) → AreWellNamed last doc (before ++ (mine ++ rest))
            → HoldsGrid self.old doc (before ++ (mine ++ rest)) → map (λ t. t.stage) mine ≡ numbers_from first count
            → OnOk result (HoldsGrid self.new doc (before ++ (flat_map (carried_stage doc) mine ++ rest))) }
        ensures given { OnOk result (1 ≤ count → self.new.given ≡ first + (count - 1)) }
        ensures floor { OnOk result (self.new.floor ≡ self.old.floor) }
        ensures usable { OnOk result (self.new.usable ≡ self.old.usable) }
        ensures err { OnErr result (self.new.usable ≡ false) }

        // The same where the edit lost some of its stages in an earlier reconnection.
        ensures answer_within { (last : ℕ) (doc : Document) (before mine rest : List Stage) → AreWellNamed last doc (before ++ (mine ++ rest))
            → HoldsGrid self.old doc (before ++ (mine ++ rest)) → AreNext first (first + count) before mine rest
            → IfOk result (λ op. option_map ChannelOp.Grid op ≡ op_of (flat_map (pieces doc) mine)) }
        ensures holds_within { (last : ℕ) (doc : Document) (before mine rest : List Stage) → AreWellNamed last doc (before ++ (mine ++ rest))
            → HoldsGrid self.old doc (before ++ (mine ++ rest)) → AreNext first (first + count) before mine rest
            → OnOk result (HoldsGrid self.new doc (before ++ (flat_map (carried_stage doc) mine ++ rest))) }
    {
        if count == 0 {
            return Ok(None);
        }
        let Some(last) = first.checked_add(count - 1) else {
            self.usable = false;
            return Err(OutOfMemory);
        };
        match self.grid.reconnect(self.alloc, first, count) {
            Ok(op) => {
                self.given = last;
                Ok(op)
            }
            Err(e) => {
                self.usable = false;
                Err(e)
            }
        }
    }

    /// Brings the rows and the columns in order after all pending edits were given to `reconnect`: as if the pending ones had been
    /// put in afresh. Each leaf whose insertion is sequenced keeps its node, in the same order.
    ///
    /// Returns `OutOfMemory` where there is no room for it, and then the table may be used no more.
    pub fn normalise(&mut self) -> Result<(), OutOfMemory>
        requires { IsTrue self.old.usable }
        ensures rebuilt { (last : ℕ) (doc : Document) (stages : List Stage) (numbers : List ℕ) → AreWellNamed last doc stages → HoldsGrid self.old doc stages
            → AreItsStages last numbers doc → OnOk result (HoldsGrid self.new (rebuilt_document numbers doc) stages) }
        ensures given { OnOk result (self.new.given ≡ 0) }
        ensures floor { OnOk result (self.new.floor ≡ self.old.floor) }
        ensures usable { OnOk result (self.new.usable ≡ self.old.usable) }
        ensures err { OnErr result (self.new.usable ≡ false) }
        ensures rows_nodes { OnOk result (KeepsNodes self.old.rows_tree.leaves self.new.rows_tree.leaves) }
        ensures cols_nodes { OnOk result (KeepsNodes self.old.cols_tree.leaves self.new.cols_tree.leaves) }
    {
        match self.grid.normalise() {
            Ok(()) => {
                self.given = 0;
                Ok(())
            }
            Err(e) => {
                self.usable = false;
                Err(e)
            }
        }
    }

    /// The table of a summary, with nothing pending.
    pub fn load(alloc: Global, doc: &SumDoc) -> Result<SharedMatrix, OutOfMemory>
        requires { IsValidSummary doc.now }
        ensures holds { IfOk result (λ made. HoldsGrid made (doc_of doc.now) []) }
        ensures given { IfOk result (λ made. made.given ≡ 0) }
        ensures floor { IfOk result (λ made. made.floor ≡ 0) }
        ensures usable { IfOk result (λ made. made.usable ≡ true) }
    {
        let mut grid = Grid::new(alloc);
        let loaded = grid.load(doc);
        let usable = loaded.is_ok();
        let table = SharedMatrix {
            grid,
            alloc,
            given: 0,
            usable,
        };
        after(loaded, table)
    }

    /// Fills what a summary at the minimum `doc.min` has of the table: its rows, its columns and its cells.
    ///
    /// Returns `OutOfMemory` where there is no room for them, and then a part may be filled.
    pub fn save(&self, doc: &mut SumDoc) -> Result<(), OutOfMemory>
        requires usable { IsTrue self.now.usable }
        requires settled { self.now.given ≡ 0 }
        requires idle { self.now.stages ≡ [] }
        requires floor { self.now.floor ≤ doc.old.min }
        requires empty { HasNoUnits doc.old }
        ensures { (last : ℕ) (of : Document) → AreWellNamed last of [] → HoldsGrid self.now of [] → IsAboveAll 0 self.now → of.minimum ≡ doc.old.min
            → OnOk result (doc.new ≡ with_units of doc.old) }
    {
        fill(&mut doc.rows, saved_units(&self.grid.rows, doc.min))?;
        fill(&mut doc.cols, saved_units(&self.grid.cols, doc.min))?;
        fill(&mut doc.cells, self.grid.shown_cells(self.alloc))
    }

    /// The cells that the client sees and that have a value, by rising row and column. It goes to the seen leaves and to the
    /// cells.
    pub fn shown_cells(&self) -> Result<CellRecs, OutOfMemory>
        requires usable { IsTrue self.now.usable }
        ensures { (last : ℕ) (doc : Document) (stages : List Stage) → last < 2 ^ 64 → AreWellNamed last doc stages → HoldsGrid self.now doc stages
            → IsAboveAll (last + 1) self.now
            → IfOk result (λ cells. cells ≡ all_cells doc.cells stages (stage_view last doc.cols.items) 0 (stage_view last doc.rows.items)) }
    {
        self.grid.shown_cells(self.alloc)
    }

    /// Fills what a view shows of the table: how many rows and columns are seen, and their cells that have a value. It goes to
    /// the seen leaves and to the cells, never to each crossing of a row and a column.
    ///
    /// Returns `OutOfMemory` where there is no room for the cells, and then a part may be filled.
    pub fn view(&self, out: &mut View) -> Result<(), OutOfMemory>
        requires usable { IsTrue self.now.usable }
        requires settled { self.now.given ≡ 0 }
        ensures { (last : ℕ) (doc : Document) (stages : List Stage) → last < 2 ^ 64 → AreWellNamed last doc stages → HoldsGrid self.now doc stages
            → IsAboveAll (last + 1) self.now → OnOk result (out.new ≡ with_grid last doc stages out.old) }
    {
        out.rows = seen_count(&self.grid.rows, LOCAL);
        out.cols = seen_count(&self.grid.cols, LOCAL);
        fill(&mut out.cells, self.grid.shown_cells(self.alloc))
    }
}
