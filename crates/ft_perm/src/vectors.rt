//! Vectors of handles.

ghost use Rattle.std.specs.Prelude.{◌≡◌, ℕ, All, ◌+◌, ◌^◌, ◌<◌, ◌≤◌, ◌&&◌, ◌||◌, [], None, not, nat_eq, length, true, false};
ghost use Rattle.ft_block.specs.Leaves.{IsFromFloor};
ghost use Rattle.ft_props.specs.Properties.{max_safe_integer};
ghost use Rattle.ft_perm.specs.Handles.{in_run};
ghost use Rattle.ft_perm.specs.Vectors.{IsProper, RunStandsAt, in_use, seen_handles, vector_elements};

use crate::free::{fitting, give_back, take_front};
use crate::handles::Handles;
use ft_base::OutOfMemory;
use ft_block::LenView;
use ft_tree::Tree;
use std::alloc::Global;
use std::marker::Model;

/// The rows or the columns of a table: a tree whose elements are handles, which handle is the next fresh one, and which
/// are free again. A handle is in use where it is below the next fresh one and isn't free. Who changes the tree keeps
/// the vector proper: each handle of its elements is in use, and no two elements have the same one.
///
/// `alloc_run` looks at the runs of free handles one by one, up to the first that has enough; `recycle` finds its place
/// among them by halves.
#[derive(Drop)]
pub struct Vector {
    pub tree: Tree<Handles>,
    next: u64,
    free: Vec<Handles>,
}

impl Model for Vector {
    ghost use Rattle.ft_perm.specs.Vectors.{AreApart, IsFreeOnce, VectorState};

    ghost Value = { VectorState };

    ghost view = { λ a. record { tree = a.tree; next = a.next; free = a.free.items } };

    ghost invariant = { λ a. IsFreeOnce a.next a.free.items × AreApart a.free.items };
}

impl Vector {
    ghost use Rattle.std.specs.Prelude.{IsTrue, IfSome, IfNone, IfOk, OnOk, OnErr, position, slice_get};

    /// No elements, and no handle in use.
    pub fn new(alloc: Global) -> Vector
        ensures tree { result.tree ≡ record { leaves = []; refs = []; floor = 0; sweep = None; made = 0; depth = 0; usable = true } }
        ensures next { result.next ≡ 0 }
        ensures unused { (h : ℕ) → in_use result h ≡ false }
    {
        Vector {
            tree: Tree::new(alloc),
            next: 0,
            free: Vec::new(alloc),
        }
    }

    // The handles that stand side by side in one leaf from place `p` of the view on.
    fn run_at(&self, view: LenView, p: u64) -> Option<Handles>
        requires usable { IsTrue self.now.tree.usable }
        requires floor { IsFromFloor self.now.tree.floor view }
        ensures run { IfSome result (λ run. RunStandsAt p run (seen_handles view self.now.tree)) }
        ensures none { IfNone result (length (seen_handles view self.now.tree) ≤ p) }
        ensures few { IfSome result (λ run. length (seen_handles view self.now.tree) < 2 ^ 64) }
    {
        // What a contract says of the nodes and of the number of elements is read off it.
        let _ = self.tree.first_leaf();
        let found = self.tree.find(p.checked_add(1)?, view)?;
        let leaf = found.leaf?;
        let run = self.tree.leaf_content(leaf);
        let before = found.offset - 1;
        Some(Handles {
            first: run.first + before,
            count: run.count - before,
        })
    }

    /// The handle at place `p` among those that the view sees: None exactly where `p` isn't below their number. It is
    /// found from the root of the tree.
    pub fn handle_at(&self, view: LenView, p: u64) -> Option<u64>
        requires usable { IsTrue self.now.tree.usable }
        requires floor { IsFromFloor self.now.tree.floor view }
        ensures { result ≡ slice_get (seen_handles view self.now.tree) p }
    {
        let run = self.run_at(view, p)?;
        Some(run.first)
    }

    /// The place of the handle among those that the view sees, the number of elements seen left of its element: None
    /// exactly where the view sees none with it. Where the vector isn't proper, it is the first of them.
    ///
    /// It goes from leaf to leaf up to that one.
    pub fn place_of(&self, view: LenView, handle: u64) -> Option<u64>
        requires usable { IsTrue self.now.tree.usable }
        requires floor { IsFromFloor self.now.tree.floor view }
        ensures { result ≡ position (λ h. nat_eq h handle) (seen_handles view self.now.tree) }
    {
        let mut p = 0;
        let mut next = self.tree.first_leaf();
        while let Some(leaf) = next {
            next = self.tree.next_leaf(leaf);
            if !self.tree.leaf_is_seen(leaf, view) {
                continue;
            }
            let run = self.tree.leaf_content(leaf);
            if run.holds(handle) {
                return Some(p + (handle - run.first));
            }
            p += run.count;
        }
        None
    }

    /// Hands out `count` handles in one run, at least one: the first free run that has as many gives them, else they are
    /// fresh. It returns Ok always.
    pub fn alloc_run(&mut self, count: u64) -> Result<Handles, OutOfMemory>
        requires some { 1 ≤ count }
        requires fits { self.old.next + count ≤ max_safe_integer }
        ensures count { IfOk result (λ run. run.count ≡ count) }
        ensures unused { IfOk result (λ run. (h : ℕ) → in_run h run ≡ true → in_use self.old h ≡ false) }
        ensures used { IfOk result (λ run. (h : ℕ) → in_use self.new h ≡ (in_use self.old h || in_run h run)) }
        ensures tree { self.new.tree ≡ self.old.tree }
        ensures proper { OnOk result (IsProper self.old → IsProper self.new) }
        ensures rises { (self.old.next ≤ self.new.next) × (self.new.next ≤ self.old.next + count) }
        ensures err { OnErr result (self.new ≡ self.old) }
    {
        if let Some(i) = fitting(&self.free, count) {
            return Ok(take_front(&mut self.free, i, count));
        }
        let first = self.next;
        self.next += count;
        Ok(Handles { first, count })
    }

    /// Takes handles back that are in use and stand in no element of the tree: they are free then.
    ///
    /// Returns `OutOfMemory` where there is no room for the run, and then the vector is as it was.
    pub fn recycle(&mut self, run: Handles) -> Result<(), OutOfMemory>
        requires { (h : ℕ) → in_run h run ≡ true → in_use self.old h ≡ true }
        ensures used { OnOk result ((h : ℕ) → in_use self.new h ≡ (in_use self.old h && not (in_run h run))) }
        ensures tree { self.new.tree ≡ self.old.tree }
        ensures next { self.new.next ≡ self.old.next }
        ensures proper { OnOk result (All (λ e. in_run e.unit run ≡ false) (vector_elements self.old.tree) → IsProper self.old → IsProper self.new) }
        ensures err { OnErr result (self.new ≡ self.old) }
    {
        give_back(&mut self.free, run)
    }
}
