//! References on leaves: each stands on an element of a leaf, or is detached, and is pending or acknowledged.

ghost use Rattle.std.specs.Prelude.{◌≡◌, ◌≢◌, ℕ, ◌+◌, ◌<◌, ◌≤◌, ◌^◌, true, false, Some, None, IsSome, IfOk, OnErr, OnOk, length, option_map, slice_index_or};
ghost use Rattle.std.specs.Option.{ForSome};
ghost use Rattle.ft_arena.specs.Ids.{first};
ghost use Rattle.ft_refs.specs.RefLists.{ChangesOne, IsHeld, IsRefs, entry, ids_of, next_of, place_of_reference, raised_place, references_of, split_place, without_reference};
ghost use Rattle.ft_tree_blocks.specs.Anchors.{ChangesAnchor, MovesAnchors, is_acked_at, sent_place};

use ft_arena::NodeId;
use ft_base::OutOfMemory;
use ft_refs::{Place, RefId, Refs};
use std::alloc::Global;
use std::marker::Model;

/// References by number. A contract sees what `Refs` shows of them, with the nodes of leaves as owners, and for
/// each number whether that reference is acknowledged. It knows nothing of what the leaves hold.
///
/// A reference is pending until it is acknowledged.
#[derive(Drop)]
pub struct Anchors {
    refs: Refs,
    acked: Vec<bool>,
}

impl Model for Anchors {
    ghost use Rattle.ft_tree_blocks.specs.Anchors.{AnchorLists};

    ghost Value = { AnchorLists };

    ghost use Rattle.ft_tree_blocks.specs.AnchorsInside.{IsSound, view_of};

    ghost view = { view_of };

    ghost invariant = { IsSound };
}

impl Anchors {
    /// No references, and there is room for those of no leaf.
    pub fn new(alloc: Global) -> Anchors
        ensures { (r : ℕ) → entry result.refs r ≡ None }
    {
        Anchors {
            refs: Refs::new(alloc),
            acked: Vec::new(alloc),
        }
    }

    /// Makes room for the references of the leaf of this node. No reference changes.
    ///
    /// Returns `OutOfMemory` where there is no room for it, and then nothing changed.
    pub fn hold(&mut self, id: NodeId) -> Result<(), OutOfMemory>
        ensures held { OnOk result (IsHeld self.new.refs id) }
        ensures moves { OnOk result (MovesAnchors (λ p. p) self.old self.new) }
        ensures refused { OnErr result (self.new ≡ self.old) }
    {
        self.refs.hold(id)
    }

    /// Makes a new pending reference on the leaf of this node, at this offset, and returns its number.
    pub fn add(&mut self, id: NodeId, offset: u64) -> Result<RefId, OutOfMemory>
        ensures fresh { IfOk result (λ r. entry self.old.refs r ≡ None) }
        ensures added { IfOk result (λ r. ChangesAnchor r (Some (Some record { owner = id; offset = offset })) false self.old self.new) }
    {
        let r = self.refs.attach(id, offset)?;
        if let Err(e) = make_pending(&mut self.acked, r.0) {
            self.refs.release(r);
            return Err(e);
        }
        Ok(r)
    }

    /// Moves a reference to the leaf of this node, at this offset.
    pub fn put(&mut self, r: RefId, id: NodeId, offset: u64)
        requires live { IsSome (entry self.old.refs r) }
        requires held { IsHeld self.old.refs id }
        ensures { ChangesAnchor r (Some (Some record { owner = id; offset = offset })) (is_acked_at self.old r) self.old self.new }
    {
        self.refs.put(r, id, offset);
    }

    /// Takes a reference off its leaf. It stays live.
    pub fn detach(&mut self, r: RefId)
        requires { IsSome (entry self.old.refs r) }
        ensures { ChangesAnchor r (Some None) (is_acked_at self.old r) self.old self.new }
    {
        self.refs.detach(r);
    }

    /// Makes a reference acknowledged. It stays where it is.
    pub fn acknowledge(&mut self, r: RefId)
        requires { IsSome (entry self.old.refs r) }
        ensures { ChangesAnchor r (entry self.old.refs r) true self.old self.new }
    {
        let _ = self.refs.offset(r);
        self.acked[r.0] = true;
    }

    /// Ends a reference.
    pub fn release(&mut self, r: RefId)
        requires { IsSome (entry self.old.refs r) }
        ensures { ChangesAnchor r None (is_acked_at self.old r) self.old self.new }
    {
        self.refs.release(r);
    }

    /// Where a reference stands: None exactly where it is detached.
    pub fn place(&self, r: RefId) -> Option<Place>
        requires { IsSome (entry self.now.refs r) }
        ensures { result ≡ place_of_reference self.now.refs r }
    {
        let owner = self.refs.owner(r)?;
        let offset = self.refs.offset(r)?;
        Some(Place { owner, offset })
    }

    /// Whether a reference is acknowledged.
    pub fn is_acked(&self, r: RefId) -> bool
        requires { IsSome (entry self.now.refs r) }
        ensures { result ≡ is_acked_at self.now r }
    {
        self.acked[r.0]
    }

    /// The first reference on the leaf of this node: None exactly where it has none.
    pub fn first(&self, id: NodeId) -> Option<RefId>
        ensures value { result ≡ first (ids_of self.now.refs id) }
        ensures sound { IsRefs self.now.refs }
    {
        self.refs.first(id)
    }

    /// The reference after this one on its leaf: None exactly where it is the last, or detached.
    pub fn next(&self, r: RefId) -> Option<RefId>
        requires { IsSome (entry self.now.refs r) }
        ensures { result ≡ next_of self.now.refs r }
    {
        self.refs.next(r)
    }

    /// The references on the leaf of `id` at or above offset `at` go to that of `rear`, each lowered by `at`.
    pub fn split(&mut self, id: NodeId, at: u64, rear: NodeId)
        requires held { IsHeld self.old.refs rear }
        requires differ { rear ≢ id }
        ensures { MovesAnchors (split_place id at rear) self.old self.new }
    {
        self.refs.split_list(id, at, rear);
    }

    /// The references on the leaf of `next` go to that of `id`, each raised by `count`.
    pub fn join(&mut self, next: NodeId, id: NodeId, count: u64)
        requires held { IsHeld self.old.refs id }
        requires differ { id ≢ next }
        requires fits { (r offset : ℕ) → place_of_reference self.old.refs r ≡ Some record { owner = next; offset = offset } → offset + count < 2 ^ 64 }
        ensures { MovesAnchors (raised_place next id count) self.old self.new }
    {
        self.refs.splice(next, id, count);
    }

    /// The acknowledged references on the leaf of `from` go to this place, or are detached where none is given.
    pub fn send_acked(&mut self, from: NodeId, to: Option<Place>)
        requires held { ForSome to (λ p. IsHeld self.old.refs p.owner) }
        requires differ { ForSome to (λ p. p.owner ≢ from) }
        ensures places { (r : ℕ) → entry self.new.refs r ≡ option_map (sent_place (is_acked_at self.old r) from to) (entry self.old.refs r) }
        ensures acked { self.new.acked ≡ self.old.acked }
        ensures held { length self.new.refs.lists ≡ length self.old.refs.lists }
    {
        send_acked(&mut self.refs, &self.acked, from, &to);
    }
}

// Makes the flag of this number false, and room for the flags up to it.
//
// Returns `OutOfMemory` where there is no room for them, and then no flag changed.
fn make_pending(acked: &mut Vec<bool>, at: usize) -> Result<(), OutOfMemory>
    ensures flag { slice_index_or acked.new.items at false ≡ false }
    ensures others { (r : ℕ) → r ≢ at → slice_index_or acked.new.items r false ≡ slice_index_or acked.old.items r false }
    ensures longer { length acked.old.items ≤ length acked.new.items }
    ensures room { OnOk result (at < length acked.new.items) }
{
    if at < acked.len() {
        acked[at] = false;
        return Ok(());
    }
    let Some(len) = at.checked_add(1) else {
        return Err(OutOfMemory);
    };
    acked.resize(len, false)?;
    Ok(())
}

// Puts a reference at this place, or detaches it where none is given.
fn send(refs: &mut Refs, r: RefId, to: &Option<Place>)
    requires live { IsSome (entry refs.old r) }
    requires held { ForSome to.now (λ p. IsHeld refs.old p.owner) }
    ensures others { (o : ℕ) → ForSome to.now (λ p. p.owner ≢ o) → references_of refs.new o ≡ without_reference (references_of refs.old o) r }
    ensures changes { ChangesOne refs.old refs.new r (Some to.now) }
    ensures same_held { length refs.new.lists ≡ length refs.old.lists }
    ensures sound { IsRefs refs.new }
{
    match to {
        Some(p) => refs.put(r, p.owner, p.offset),
        None => refs.detach(r),
    }
}

// The references of `from` whose flags are set go to this place, or are detached where none is given.
fn send_acked(refs: &mut Refs, acked: &[bool], from: NodeId, to: &Option<Place>)
    requires flags { (r : ℕ) → IsSome (entry refs.old r) → r < length acked.now }
    requires held { ForSome to.now (λ p. IsHeld refs.old p.owner) }
    requires differ { ForSome to.now (λ p. p.owner ≢ from) }
    ensures places { (r : ℕ) → entry refs.new r ≡ option_map (sent_place (slice_index_or acked.now r false) from to.now) (entry refs.old r) }
    ensures same_held { length refs.new.lists ≡ length refs.old.lists }
    ensures sound { IsRefs refs.new }
{
    let mut ahead = refs.first(from);
    while let Some(r) = ahead {
        ahead = refs.next(r);
        if acked[r.0] {
            send(refs, r, to);
        }
    }
}
