//! The lists of references.

ghost use Rattle.std.specs.Prelude.{◌≡◌, ◌≢◌, ℕ, ◌+◌, ◌++◌, ◌^◌, [], ◌∷◌, Some, None, length, IsSome, IfOk, OnErr, option_map};
ghost use Rattle.ft_arena.specs.Ids.{first};
ghost use Rattle.ft_refs.specs.RefLists.{IsRefs, IsHeld, entry, references_of, ids_of, owner_of, offset_of, next_of, without_reference, ChangesOne, Holds, below, from_on, raised, split_place, raised_place, AllBelow};

use crate::links::{link_to, make_room, set_next, set_prev, wrap};
use crate::numbers::{Ends, Place, RefId, Slot};
use ft_arena::{Link, NodeId, Slots};
use ft_base::OutOfMemory;
use std::alloc::Global;
use std::marker::Model;

/// References by number, and for each owner the list of those that are on it. A contract sees which
/// owners are held, for each owner the list of its references with their offsets, and for each number
/// whether that reference is live and where it stands. There are at most `ft_arena::MOST_SLOTS`
/// references at a time.
#[derive(Drop)]
pub struct Refs {
    slots: Slots<Slot>,
    ends: Vec<Ends>,
}

impl Model for Refs {
    ghost use Rattle.ft_refs.specs.RefLists.{RefLists};

    ghost Value = { RefLists };

    ghost use Rattle.ft_refs.specs.Links.{view_of, IsSound};

    ghost view = { view_of };

    ghost invariant = { IsSound };
}

impl Refs {
    /// No references, and no owner is held.
    pub fn new(alloc: Global) -> Refs
        ensures lists { result.lists ≡ [] }
        ensures refs { (r : ℕ) → entry result r ≡ None }
        ensures sound { IsRefs result }
    {
        Refs {
            slots: Slots::new(alloc),
            ends: Vec::new(alloc),
        }
    }

    /// Makes room for the list of this owner, which is held from then on, as is each owner of a lower
    /// number. No list changes.
    ///
    /// Returns `OutOfMemory` where there is no room for it, and then nothing changed.
    pub fn hold(&mut self, owner: NodeId) -> Result<(), OutOfMemory>
        ensures held { IfOk result (λ _. Holds self.old self.new owner) }
        ensures refused { OnErr result (self.new ≡ self.old) }
        ensures sound { IsRefs self.new }
    {
        make_room(&mut self.ends, owner)
    }

    /// Makes a new reference at the end of the list of this owner, and holds the owner.
    ///
    /// Returns `OutOfMemory` where there is no room for it, or where there would be room for more than
    /// `ft_arena::MOST_SLOTS` references, and then nothing changed.
    pub fn attach(&mut self, owner: NodeId, offset: u64) -> Result<RefId, OutOfMemory>
        ensures fresh { IfOk result (λ r. entry self.old r ≡ None) }
        ensures list { IfOk result (λ r. references_of self.new owner ≡ references_of self.old owner ++ (r, offset) ∷ []) }
        ensures others { IfOk result (λ r. (o : ℕ) → o ≢ owner → references_of self.new o ≡ references_of self.old o) }
        ensures changes { IfOk result (λ r. ChangesOne self.old self.new r (Some (Some record { owner = owner; offset = offset }))) }
        ensures held { IfOk result (λ r. IsHeld self.new owner × ((o : ℕ) → IsHeld self.old o → IsHeld self.new o)) }
        ensures refused { OnErr result (self.new ≡ self.old) }
        ensures sound { IsRefs self.new }
    {
        self.slots.reserve(1)?;
        make_room(&mut self.ends, owner)?;
        let slot = Slot {
            place: None,
            prev: Link::NONE,
            next: Link::NONE,
        };
        let r = RefId(self.slots.insert_reserved(slot));
        self.push(r, owner, offset);
        Ok(r)
    }

    // Puts a detached reference at the end of the list of this owner.
    fn push(&mut self, r: RefId, owner: NodeId, offset: u64)
        requires detached { entry self.old r ≡ Some None }
        requires held { IsHeld self.old owner }
        ensures list { references_of self.new owner ≡ references_of self.old owner ++ (r, offset) ∷ [] }
        ensures others { (o : ℕ) → o ≢ owner → references_of self.new o ≡ references_of self.old o }
        ensures changes { ChangesOne self.old self.new r (Some (Some record { owner = owner; offset = offset })) }
        ensures same_held { length self.new.lists ≡ length self.old.lists }
        ensures sound { IsRefs self.new }
    {
        let here = link_to(&self.slots, r);
        let mut ends = self.ends[owner.0];
        let last = ends.last;
        self.slots[r.0] = Slot {
            place: Some(Place { owner, offset }),
            prev: last,
            next: Link::NONE,
        };
        set_next(&mut self.slots, &mut ends.first, last, here);
        ends.last = here;
        self.ends[owner.0] = ends;
    }

    /// Moves a reference to the end of the list of this owner, at this offset.
    pub fn put(&mut self, r: RefId, owner: NodeId, offset: u64)
        requires live { IsSome (entry self.old r) }
        requires held { IsHeld self.old owner }
        ensures list { references_of self.new owner ≡ without_reference (references_of self.old owner) r ++ (r, offset) ∷ [] }
        ensures others { (o : ℕ) → o ≢ owner → references_of self.new o ≡ without_reference (references_of self.old o) r }
        ensures changes { ChangesOne self.old self.new r (Some (Some record { owner = owner; offset = offset })) }
        ensures same_held { length self.new.lists ≡ length self.old.lists }
        ensures sound { IsRefs self.new }
    {
        self.detach(r);
        self.push(r, owner, offset);
    }

    /// Takes a reference out of the list that it stands in. It stays live, without an owner.
    pub fn detach(&mut self, r: RefId)
        requires live { IsSome (entry self.old r) }
        ensures lists { (o : ℕ) → references_of self.new o ≡ without_reference (references_of self.old o) r }
        ensures changes { ChangesOne self.old self.new r (Some None) }
        ensures same_held { length self.new.lists ≡ length self.old.lists }
        ensures sound { IsRefs self.new }
    {
        let slot = self.slots[r.0];
        let Slot { place, prev, next } = slot;
        let Some(place) = place else {
            return;
        };
        let mut ends = self.ends[place.owner.0];
        self.slots[r.0] = Slot {
            place: None,
            prev: Link::NONE,
            next: Link::NONE,
        };
        set_next(&mut self.slots, &mut ends.first, prev, next);
        set_prev(&mut self.slots, &mut ends.last, next, prev);
        self.ends[place.owner.0] = ends;
    }

    /// Takes a reference out of the list that it stands in, and ends it.
    pub fn release(&mut self, r: RefId)
        requires live { IsSome (entry self.old r) }
        ensures lists { (o : ℕ) → references_of self.new o ≡ without_reference (references_of self.old o) r }
        ensures changes { ChangesOne self.old self.new r None }
        ensures same_held { length self.new.lists ≡ length self.old.lists }
        ensures sound { IsRefs self.new }
    {
        self.detach(r);
        self.slots.remove(r.0);
    }

    /// How far a reference stands from the start of its owner: None exactly where it is detached. It takes
    /// no memory.
    pub fn offset(&self, r: RefId) -> Option<u64>
        requires { IsSome (entry self.now r) }
        ensures { result ≡ offset_of self.now r }
    {
        match self.slots[r.0].place {
            Some(place) => Some(place.offset),
            None => None,
        }
    }

    /// The owner in whose list a reference stands: None exactly where it is detached.
    pub fn owner(&self, r: RefId) -> Option<NodeId>
        requires { IsSome (entry self.now r) }
        ensures { result ≡ owner_of self.now r }
    {
        match self.slots[r.0].place {
            Some(place) => Some(place.owner),
            None => None,
        }
    }

    /// The first reference of this owner: None exactly where it has none.
    pub fn first(&self, owner: NodeId) -> Option<RefId>
        ensures value { result ≡ first (ids_of self.now owner) }
        ensures sound { IsRefs self.now }
    {
        let at = owner.0;
        if at < self.ends.len() {
            wrap(self.ends[at].first)
        } else {
            None
        }
    }

    /// The reference after this one in the list of its owner: None exactly where it is the last, or
    /// detached.
    pub fn next(&self, r: RefId) -> Option<RefId>
        requires { IsSome (entry self.now r) }
        ensures { result ≡ next_of self.now r }
    {
        let slot = self.slots[r.0];
        let Slot {
            place,
            prev: _,
            next,
        } = slot;
        match place {
            Some(_) => wrap(next),
            None => None,
        }
    }

    /// Moves the references of `from` at or above `at` to the end of the list of `to`, in order, each
    /// lowered by `at`.
    pub fn split_list(&mut self, from: NodeId, at: u64, to: NodeId)
        requires held { IsHeld self.old to }
        requires differ { to ≢ from }
        ensures from { references_of self.new from ≡ below at (references_of self.old from) }
        ensures to { references_of self.new to ≡ references_of self.old to ++ from_on at (references_of self.old from) }
        ensures others { (o : ℕ) → o ≢ from → o ≢ to → references_of self.new o ≡ references_of self.old o }
        ensures refs { (r : ℕ) → entry self.new r ≡ option_map (option_map (split_place from at to)) (entry self.old r) }
        ensures same_held { length self.new.lists ≡ length self.old.lists }
        ensures sound { IsRefs self.new }
    {
        let mut ahead = self.first(from);
        'refs: while let Some(r) = ahead {
            ahead = self.next(r);
            let offset = self.offset(r).unwrap();
            if offset >= at {
                self.put(r, to, offset - at);
            }
        }
    }

    /// Moves all references of `from` to the end of the list of `to`, in order, each raised by `add`.
    pub fn splice(&mut self, from: NodeId, to: NodeId, add: u64)
        requires held { IsHeld self.old to }
        requires differ { to ≢ from }
        requires fits { AllBelow add (2 ^ 64) (references_of self.old from) }
        ensures from { references_of self.new from ≡ [] }
        ensures to { references_of self.new to ≡ references_of self.old to ++ raised add (references_of self.old from) }
        ensures others { (o : ℕ) → o ≢ from → o ≢ to → references_of self.new o ≡ references_of self.old o }
        ensures refs { (r : ℕ) → entry self.new r ≡ option_map (option_map (raised_place from to add)) (entry self.old r) }
        ensures same_held { length self.new.lists ≡ length self.old.lists }
        ensures sound { IsRefs self.new }
    {
        'refs: while let Some(r) = self.first(from) {
            let offset = self.offset(r).unwrap();
            self.put(r, to, offset + add);
        }
    }
}
