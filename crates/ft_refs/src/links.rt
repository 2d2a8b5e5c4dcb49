//! The links of one list. In each function `None` is the place before its first reference and after
//! its last, and `first` and `last` are what that place leads to.

ghost use Rattle.std.specs.Prelude.{◌≡◌, Some, IfOk, OnErr};
ghost use Rattle.slab.specs.Slab.{ContainsKey};
ghost use Rattle.ft_refs.specs.Links.{HasPlace, MakesRoom, SetsNext, SetsPrev};

use crate::numbers::{Ends, RefId, Slot};
use ft_arena::{Link, NodeId, Slots};
use ft_base::OutOfMemory;

// The reference that is linked.
pub(crate) fn wrap(at: Link) -> Option<RefId>
    ensures { result ≡ at }
{
    match at.get() {
        Some(r) => Some(RefId(r)),
        None => None,
    }
}

// The link to a reference.
pub(crate) fn link_to(slots: &Slots<Slot>, r: RefId) -> Link
    requires { ContainsKey slots.now r }
    ensures { result ≡ Some r }
{
    // That there are few slots is read off its contract.
    let _capacity = slots.capacity();
    Link::to(r.0)
}

// Writes what follows this reference, or which one is the first.
pub(crate) fn set_next(slots: &mut Slots<Slot>, first: &mut Link, at: Link, to: Link)
    requires { HasPlace slots.old at }
    ensures { SetsNext slots.old first.old slots.new first.new at to }
{
    match at.get() {
        Some(r) => slots[r].next = to,
        None => *first = to,
    }
}

// Writes what stands before this reference, or which one is the last.
pub(crate) fn set_prev(slots: &mut Slots<Slot>, last: &mut Link, at: Link, to: Link)
    requires { HasPlace slots.old at }
    ensures { SetsPrev slots.old last.old slots.new last.new at to }
{
    match at.get() {
        Some(r) => slots[r].prev = to,
        None => *last = to,
    }
}

// Makes room for the list of this owner.
pub(crate) fn make_room(ends: &mut Vec<Ends>, owner: NodeId) -> Result<(), OutOfMemory>
    ensures room { IfOk result (λ _. MakesRoom ends.old.items ends.new.items owner) }
    ensures refused { OnErr result (ends.new.items ≡ ends.old.items) }
{
    let at = owner.0;
    if at < ends.len() {
        return Ok(());
    }
    let Some(len) = at.checked_add(1) else {
        return Err(OutOfMemory);
    };
    let none = Ends {
        first: Link::NONE,
        last: Link::NONE,
    };
    ends.resize(len, none)?;
    Ok(())
}
