//! What one cell holds.

ghost use Rattle.std.specs.Prelude.{◌≡◌, ◌<◌, ◌≤◌, All, OnOk, OnErr, false, length, nat_eq, nat_lt, option_copied, position, true};
ghost use Rattle.std.specs.List.Sorted.{IsPartitionPoint};
ghost use Rattle.std.specs.Map.{lookup};
ghost use Rattle.ft_cells.specs.Indexed.{AreRising};

use ft_base::OutOfMemory;
use ft_json::ValText;
use std::alloc::Global;
use std::collections::VecDeque;
use std::marker::Model;

/// The acknowledged value of a cell, and the pending writes on top of it by rising stage. They are a queue: a write is found by halves,
/// and the first or the last one is taken out at once, however many there are.
#[derive(Drop)]
pub struct CellValues {
    acked: Option<ValText>,
    pending: VecDeque<(u64, ValText)>,
}

impl Model for CellValues {
    ghost use Rattle.ft_cells.specs.CellTables.{CellState};
    ghost use Rattle.ft_cells.specs.Indexed.{AreRising};

    ghost Value = { CellState };

    ghost view = { λ a. record { acked = a.acked; pending = a.pending.items } };

    ghost invariant = { λ a. AreRising a.pending.items };
}

// How many writes are of lower stages.
fn lower_writes(pending: &VecDeque<(u64, ValText)>, stage: u64) -> usize
    requires { AreRising pending.now.items }
    ensures within { result ≤ length pending.now.items }
    ensures end { IsPartitionPoint (λ w. nat_lt w.0 stage ≡ true) (λ w. nat_lt w.0 stage ≡ false) pending.now.items result }
{
    pending.partition_point(|write| write.0 < stage)
}

// The place of the write of that stage, if there is one.
fn place_of_stage(pending: &VecDeque<(u64, ValText)>, stage: u64) -> Option<usize>
    requires { AreRising pending.now.items }
    ensures { result ≡ position (λ w. nat_eq w.0 stage) pending.now.items }
{
    let i = lower_writes(pending, stage);
    let write = pending.get(i)?;
    if write.0 == stage { Some(i) } else { None }
}

impl CellValues {
    ghost use Rattle.ft_cells.specs.CellTables.{acked_write, empty_cell, holds_value, last_value, shown_value, with_acked, with_write, without_write};

    /// No value, and nothing pending.
    pub fn new(alloc: Global) -> CellValues
        ensures { result ≡ empty_cell }
    {
        CellValues {
            acked: None,
            pending: VecDeque::new(alloc),
        }
    }

    /// Sets the acknowledged value.
    pub fn set_acked(&mut self, value: ValText)
        ensures { self.new ≡ with_acked value self.old }
    {
        self.acked = Some(value);
    }

    /// Adds a pending write on top of the others. Its stage is above theirs.
    ///
    /// Returns `OutOfMemory` where there is no room for it, and then all is as it was.
    pub fn write(&mut self, stage: u64, value: ValText) -> Result<(), OutOfMemory>
        requires { All (λ write. write.0 < stage) self.old.pending }
        ensures ok { OnOk result (self.new ≡ with_write stage value self.old) }
        ensures err { OnErr result (self.new ≡ self.old) }
    {
        self.pending.push_back((stage, value))?;
        Ok(())
    }

    /// Takes the write of that stage out, if there is one.
    pub fn drop_pending(&mut self, stage: u64)
        ensures { self.new ≡ without_write stage self.old }
    {
        let _ = self.take_write(stage);
    }

    // Takes the write of that stage out, if there is one, and returns its value.
    fn take_write(&mut self, stage: u64) -> Option<ValText>
        ensures value { result ≡ lookup (λ k. nat_eq k stage) self.old.pending }
        ensures rest { self.new ≡ without_write stage self.old }
    {
        let i = place_of_stage(&self.pending, stage)?;
        let (_, value) = self.pending.remove(i)?;
        Some(value)
    }

    /// Makes the write of that stage the acknowledged value, if there is one.
    pub fn ack(&mut self, stage: u64)
        ensures { self.new ≡ acked_write stage self.old }
    {
        if let Some(value) = self.take_write(stage) {
            self.acked = Some(value);
        }
    }

    /// Whether there is an acknowledged value or a pending write.
    pub fn holds_value(&self) -> bool
        ensures { result ≡ holds_value self.now }
    {
        self.value().is_some()
    }

    // The value of the last pending write, else the acknowledged one.
    fn value(&self) -> Option<&ValText>
        ensures { option_copied result ≡ last_value self.now.acked self.now.pending }
    {
        match self.pending.back() {
            Some((_, value)) => Some(value),
            None => self.acked.as_ref(),
        }
    }

    /// The value of the last pending write, else the acknowledged one: None exactly where there is neither or it
    /// is null.
    pub fn shown(&self) -> Option<&ValText>
        ensures { option_copied result ≡ shown_value self.now }
    {
        self.value().filter(|value| value.as_str() != "null")
    }
}
