//! The acknowledgement of the client's own messages.

ghost use Rattle.std.specs.Prelude.{◌≡◌, ◌∷◌, [], All, ◌≤◌, ◌++◌, ℕ, IsTrue, List, None, OnOk, drop, length, map, take, true};
ghost use Rattle.std.specs.List.{list_all};
ghost use Rattle.ft_op.specs.Stages.{Stage};
ghost use Rattle.ft_op.specs.Document.{Document};
ghost use Rattle.ft_msg.specs.Client.{stages_of};
ghost use Rattle.ft_msg.specs.Process.{process_fault};
ghost use Rattle.ft_msg.specs.WellFormed.{IsWellFormedMessage};
ghost use Rattle.ft_laws_names.specs.GridFacts.{AreCounted};
ghost use Rattle.ft_laws_names.specs.WellNamed.{AreWellNamed};
ghost use Rattle.ft_replica.specs.Own.{HeldDocument, HoldsOne, NamesFit, acknowledged, oldest_stages};
ghost use Rattle.ft_matrix.specs.HoldsGrid.{HoldsGrid};
ghost use Rattle.ft_client.specs.Acks.{AcksPart, HoldsAckedGrid, HoldsFrontGrid, IsFrontOfOne, last_from};
ghost use Rattle.ft_client.specs.Holds.{HoldsTree};
ghost use Rattle.ft_client.specs.Parts.{is_text_part, own_stage};
ghost use Rattle.ft_matrix.specs.Conditions.{KeepsRest as KeepsGrid};

use crate::own::TreeOwn;
use crate::own::rejoining::take_next;
use crate::stages::{OwnStage, Part};
use ft_base::OutOfMemory;
use ft_matrix::SharedMatrix;
use ft_msg::Entry;
use std::collections::VecDeque;
use std::mem;

impl TreeOwn {
    /// Takes the client's own message: its first `count` stages, those of its oldest edit, become sequenced.
    pub(crate) fn acknowledge(&mut self, count: usize, entry: &Entry) -> Result<(), OutOfMemory>
        requires formed { IsWellFormedMessage entry.now.msg }
        requires known { HoldsOne HoldsTree self.old (λ p. (process_fault p entry.now ≡ None) × (count ≤ length (stages_of p)) × (length (oldest_stages p.pending) ≡ count)) }
        ensures { (held : HeldDocument) (own rest : List Stage) → NamesFit held → held.stages ≡ own ++ rest → length own ≡ count → HoldsTree self.old held
            → OnOk result (HoldsTree self.new (acknowledged entry.now own rest held)) }
    {
        let none = VecDeque::new(self.text.allocator());
        let mut stages = mem::replace(&mut self.stages, none);
        self.ack_front(&mut stages, count, entry)?;
        drop_front(&mut stages, count);
        self.stages = stages;
        self.numbers.take(entry);
        Ok(())
    }

    // Acknowledges the first `count` of these stages. They are moved only where those `count` don't stand side by side in memory.
    fn ack_front(
        &mut self,
        stages: &mut VecDeque<OwnStage>,
        count: usize,
        entry: &Entry,
    ) -> Result<(), OutOfMemory>
        requires enough { count ≤ length stages.old.items }
        requires text_usable { self.old.text.usable ≡ true }
        requires table_usable { self.old.table.usable ≡ true }
        requires text_given { self.old.text.given ≡ 0 }
        requires table_given { self.old.table.given ≡ 0 }
        requires front { IsFrontOfOne (take count stages.old.items) self.old.text self.old.table }
        ensures acks { OnOk result (AcksPart (take count stages.old.items) entry.now.msg.seq entry.now.origin self.old self.new) }
        ensures stages { stages.new.items ≡ stages.old.items }
    {
        let (first, _) = stages.as_slices();
        if count <= first.len() {
            return self.ack_own(&first[..count], entry);
        }
        let all: &[OwnStage] = stages.make_contiguous();
        self.ack_own(&all[..count], entry)
    }

    // Acknowledges these stages, which are the lowest, and all of the text or all of the grid.
    fn ack_own(&mut self, own: &[OwnStage], entry: &Entry) -> Result<(), OutOfMemory>
        requires text_usable { self.old.text.usable ≡ true }
        requires table_usable { self.old.table.usable ≡ true }
        requires text_given { self.old.text.given ≡ 0 }
        requires table_given { self.old.table.given ≡ 0 }
        requires front { IsFrontOfOne own.now self.old.text self.old.table }
        ensures { OnOk result (AcksPart own.now entry.now.msg.seq entry.now.origin self.old self.new) }
    {
        if are_of_text(own) {
            self.text
                .ack(1, last_number(own), entry.msg.seq, entry.origin)
        } else {
            ack_table(&mut self.table, own, entry.msg.seq, entry.origin)
        }
    }
}

// The number of the last stage, or else 0.
fn last_number(stages: &[OwnStage]) -> u64
    ensures { result ≡ last_from 0 stages.now }
{
    match stages.last() {
        Some(stage) => stage.stage,
        None => 0,
    }
}

// Drops the first `count` stages.
fn drop_front(stages: &mut VecDeque<OwnStage>, count: usize)
    requires { count ≤ length stages.old.items }
    ensures { stages.new.items ≡ drop count stages.old.items }
{
    for _i in 0..count {
        take_next(stages);
    }
}

// Whether all stages are of the text.
fn are_of_text(stages: &[OwnStage]) -> bool
    ensures { result ≡ list_all (λ t. is_text_part t.part) stages.now }
{
    stages.iter().all(|t| t.part != Part::Grid)
}

// Acknowledges stages of the table, which are the lowest, under number `seq` of connection `conn`: in one call where their numbers
// follow one another, as they do but for those of an edit that lost some in a reconnection.
fn ack_table(
    table: &mut SharedMatrix,
    own: &[OwnStage],
    seq: u64,
    conn: u32,
) -> Result<(), OutOfMemory>
    requires usable { IsTrue table.old.usable }
    requires none_given { table.old.given ≡ 0 }
    requires held { (last : ℕ) × HoldsFrontGrid last own.now table.old }
    ensures acked { (last : ℕ) (doc : Document) (mine rest : List Stage) → map own_stage mine ≡ own.now → AreWellNamed last doc (mine ++ rest) → AreCounted doc mine
        → HoldsGrid table.old doc (mine ++ rest) → OnOk result (HoldsAckedGrid table.new seq conn mine rest doc) }
    ensures rest { OnOk result (KeepsGrid table.old table.new) }
{
    if let Some(first) = own.first() {
        if last_number(own).saturating_sub(first.stage) < own.len() as u64 {
            return table.ack(first.stage, own.len() as u64, seq, conn);
        }
    }
    ack_each(table, own, seq, conn)
}

// The same stage by stage.
fn ack_each(
    table: &mut SharedMatrix,
    own: &[OwnStage],
    seq: u64,
    conn: u32,
) -> Result<(), OutOfMemory>
    requires usable { IsTrue table.old.usable }
    requires none_given { table.old.given ≡ 0 }
    requires held { (last : ℕ) × HoldsFrontGrid last own.now table.old }
    ensures acked { (last : ℕ) (doc : Document) (mine rest : List Stage) → map own_stage mine ≡ own.now → AreWellNamed last doc (mine ++ rest) → AreCounted doc mine
        → HoldsGrid table.old doc (mine ++ rest) → OnOk result (HoldsAckedGrid table.new seq conn mine rest doc) }
    ensures rest { OnOk result (KeepsGrid table.old table.new) }
{
    for stage in own {
        ack_one(table, stage, seq, conn)?;
    }
    Ok(())
}

// Acknowledges a stage of the table, which is the lowest.
fn ack_one(
    table: &mut SharedMatrix,
    stage: &OwnStage,
    seq: u64,
    conn: u32,
) -> Result<(), OutOfMemory>
    requires usable { IsTrue table.old.usable }
    requires none_given { table.old.given ≡ 0 }
    requires lowest { All (λ t. stage.now.stage ≤ t.stage) table.old.stages }
    ensures acked { (last : ℕ) (doc : Document) (t : Stage) (rest : List Stage) → t.stage ≡ stage.now.stage → AreWellNamed last doc (t ∷ rest) → AreCounted doc (t ∷ [])
        → HoldsGrid table.old doc (t ∷ rest) → OnOk result (HoldsAckedGrid table.new seq conn (t ∷ []) rest doc) }
    ensures rest { OnOk result (KeepsGrid table.old table.new) }
{
    table.ack(stage.stage, 1, seq, conn)
}
