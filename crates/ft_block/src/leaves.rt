//! What a leaf of the tree has to offer, and what a view sees of it.

ghost use Rattle.std.specs.Prelude.{◌≡◌, ℕ, ◌+◌, ◌<◌, ◌≤◌, Bool, true, ◌||◌, nat_le, IsTrue, IfOk, IfErr, IfSome, OnOk, OnErr};
ghost use Rattle.std.specs.List.{list_any};
ghost use Rattle.ft_base.specs.declared.elements.Element.{Element};
ghost use Rattle.ft_partial.specs.Entries.{amount};
ghost use Rattle.ft_partial.specs.Items.{inserted_element};
ghost use Rattle.ft_block.specs.Leaves.{sees_in, is_removed, IsFromFloor};
ghost use Rattle.ft_partial.specs.Lifespans.{is_gone_at, is_there_at};
ghost use Rattle.ft_base.specs.Visibility.{has_occurred_at_stage, seen_at};
ghost use Rattle.ft_block.specs.Tree.{IsForAll, KeepsLengths, insertion_of, is_early, shows, shown_length};
ghost use Rattle.ft_block.specs.declared.leaves.View.TheVariants.{Of};

use ft_base::{Element, OutOfMemory, Perspective, Stamp, seen_at, sees};
use ft_partial::Lifespan;

/// A leaf: at least one element, all with the same stamps.
pub trait Leaf: Sized {
    /// What an annotation changes a leaf by.
    type Change;

    ghost size: { Self → ℕ };

    ghost element: { Self → Element };

    ghost with_element: { Self → Element → Self };

    ghost front: { Self → ℕ → Self };

    ghost rear: { Self → ℕ → Self };

    ghost joins: { Self → Self → Bool };

    ghost joined: { Self → Self → Self };

    ghost CanChange: { Self → Self.Change → Type 0 } = { λ _ _. Unit {0} };

    ghost changed: { Self → Self.Change → Self };

    /// How many elements the leaf holds, at least one.
    fn len(&self) -> u64
        ensures value { result ≡ size self.now }
        ensures some { 1 ≤ result };

    /// The stamps of each of its elements.
    fn element(&self) -> &Element
        ensures { result.now ≡ element self.now };

    /// Replaces the stamps of all its elements.
    fn set_element(&mut self, e: Element)
        ensures { self.new ≡ with_element self.old e };

    /// Keeps the first `at` elements and returns the rest, both with the old stamps.
    ///
    /// Returns `OutOfMemory` where there is no room for the rest, and then the leaf is as it was.
    fn split_off(&mut self, at: u64) -> Result<Self, OutOfMemory>
        requires low { 1 ≤ at }
        requires high { at < size self.old }
        ensures front { OnOk result (self.new ≡ front self.old at) }
        ensures rear { IfOk result (λ rest. rest ≡ rear self.old at) }
        ensures err { OnErr result (self.new ≡ self.old) };

    /// Whether the other leaf may be joined to the end of this one.
    fn can_join_back(&self, other: &Self) -> bool
        ensures { result ≡ joins self.now other.now };

    /// Adds the other leaf's elements at the end.
    ///
    /// Gives the other leaf back only where it is out of memory, and then this one is as it was.
    fn join_back(&mut self, other: Self) -> Result<(), Self>
        requires can { IsTrue (joins self.old other) }
        requires equal { element self.old ≡ element other }
        ensures ok { OnOk result (self.new ≡ joined self.old other) }
        ensures back { IfErr result (λ back. back ≡ other) }
        ensures err { OnErr result (self.new ≡ self.old) };

    /// Makes this change of all its elements, which keeps their number and stamps.
    ///
    /// Returns `OutOfMemory` where there is no room for it, and then the leaf is as it was.
    fn change(&mut self, c: &Self::Change) -> Result<(), OutOfMemory>
        requires { CanChange self.old c.now }
        ensures ok { OnOk result (self.new ≡ changed self.old c.now) }
        ensures err { OnErr result (self.new ≡ self.old) };

    ghost with_element_element: { (x : Self) (e : Element) → element (with_element x e) ≡ e };

    ghost with_element_size: { (x : Self) (e : Element) → size (with_element x e) ≡ size x };

    ghost front_size: { (x : Self) (at : ℕ) → 1 ≤ at → at < size x → size (front x at) ≡ at };

    ghost front_element: { (x : Self) (at : ℕ) → 1 ≤ at → at < size x → element (front x at) ≡ element x };

    ghost rear_size: { (x : Self) (at : ℕ) → 1 ≤ at → at < size x → at + size (rear x at) ≡ size x };

    ghost rear_element: { (x : Self) (at : ℕ) → 1 ≤ at → at < size x → element (rear x at) ≡ element x };

    ghost joined_size: { (x y : Self) → IsTrue (joins x y) → element x ≡ element y → size (joined x y) ≡ size x + size y };

    ghost joined_element: { (x y : Self) → IsTrue (joins x y) → element x ≡ element y → element (joined x y) ≡ element x };

    ghost changed_size: { (x : Self) (c : Self.Change) → CanChange x c → size (changed x c) ≡ size x };

    ghost changed_element: { (x : Self) (c : Self.Change) → CanChange x c → element (changed x c) ≡ element x };
}

/// What sees an element: the sender of a message, by its perspective, a client at one of its pending
/// stages, or who sees all. At stage `u64::MAX` a client sees what it sees with all that is pending.
#[derive(Clone, Copy, Debug, PartialEq, Eq)]
pub enum LenView {
    /// A perspective.
    At(Perspective),
    /// A pending stage.
    Stage(u64),
    /// All elements, the removed ones too.
    All,
}

/// What is counted of leaves: the elements that a view sees, or the removed ones.
#[derive(Clone, Copy)]
pub(crate) enum View {
    /// The elements that this view sees.
    Of(LenView),
    /// The elements whose first removal is sequenced.
    Removed,
}

// Whether the view sees the element.
fn sees_in(e: &Element, view: LenView) -> bool
    ensures { result ≡ sees_in view e.now }
{
    match view {
        LenView::At(at) => sees(e, at),
        LenView::Stage(stage) => seen_at(e, stage),
        LenView::All => true,
    }
}

// Whether the element's first removal is sequenced.
fn is_removed(e: &Element) -> bool
    ensures { result ≡ is_removed e.now }
{
    match e.dels.as_slice().first() {
        Some(Stamp::Acked { .. }) => true,
        Some(Stamp::Local { .. }) | None => false,
    }
}

// Whether the view counts the element.
fn shows(e: &Element, view: View) -> bool
    ensures { result ≡ shows view e.now }
{
    match view {
        View::Of(view) => sees_in(e, view),
        View::Removed => is_removed(e),
    }
}

/// How many of `len` elements of these stamps the view counts: all or none.
pub(crate) fn shown_in(e: &Element, len: u64, view: View) -> u64
    ensures { result ≡ amount (shows view e.now) len }
{
    if shows(e, view) { len } else { 0 }
}

/// How many of the leaf's elements the view counts: all or none.
pub(crate) fn shown_length<L: Leaf>(leaf: &L, view: View) -> u64
    ensures { result ≡ shown_length L.size L.element view leaf.now }
{
    shown_in(leaf.element(), leaf.len(), view)
}

/// The view as blocks keep its lengths: that of any stage, or of a perspective whose reference number isn't
/// below the floor.
pub(crate) fn kept_view(view: LenView, _floor: u64) -> View
    requires { IsFromFloor _floor view }
    ensures value { result ≡ Of view }
    ensures kept { KeepsLengths _floor result }
{
    match view {
        LenView::At(_) | LenView::Stage(_) | LenView::All => View::Of(view),
    }
}

/// Whether all see the element from the floor up: it is sequenced up to there, and nobody removed it. An element that all
/// see for another reason isn't told.
pub(crate) fn is_for_all(e: &Element, floor: u64) -> bool
    ensures seen { result ≡ true → IsForAll floor e.now }
    ensures exact { result ≡ is_early floor (insertion_of e.now) }
{
    if !e.dels.is_empty() {
        return false;
    }
    match e.ins {
        Stamp::Acked { seq, .. } => seq <= floor,
        Stamp::Local { .. } => false,
    }
}

/// A sequenced insertion.
#[derive(Clone, Copy)]
pub(crate) struct Insertion {
    pub(crate) seq: u64,
    pub(crate) conn: u32,
}

/// The insertion of an element, where it is sequenced and nobody removed the element.
pub(crate) fn inserted(e: &Element) -> Option<Insertion>
    ensures element { IfSome result (λ at. inserted_element at.seq at.conn ≡ e.now) }
    ensures exact { result ≡ insertion_of e.now }
{
    if !e.dels.is_empty() {
        return None;
    }
    match e.ins {
        Stamp::Acked { seq, conn } => Some(Insertion { seq, conn }),
        Stamp::Local { .. } => None,
    }
}

// The stage from which on a stamp has occurred: 0 where it is sequenced.
fn stage_of(stamp: &Stamp) -> u64
    ensures { (k : ℕ) → nat_le result k ≡ has_occurred_at_stage k stamp.now }
{
    match stamp {
        Stamp::Acked { .. } => 0,
        Stamp::Local { stage } => *stage,
    }
}

// The earlier one of two stages, if the first one is given.
fn earlier(first: &Option<u64>, stage: u64) -> u64
    ensures { (k : ℕ) → nat_le result k ≡ (is_gone_at k first.now || nat_le stage k) }
{
    match first {
        Some(first) if *first <= stage => *first,
        Some(_) | None => stage,
    }
}

// The stage from which on one of the stamps has occurred: None where there is none.
fn first_stage(stamps: &[Stamp]) -> Option<u64>
    ensures { (k : ℕ) → is_gone_at k result ≡ list_any (has_occurred_at_stage k) stamps.now }
{
    let mut first = None;
    for stamp in stamps {
        let stage = stage_of(stamp);
        first = Some(earlier(&first, stage));
    }
    first
}

/// The stages at which a client sees the element.
pub(crate) fn stages_of(e: &Element) -> Lifespan
    ensures { (k : ℕ) → is_there_at result k ≡ seen_at e.now k }
{
    Lifespan {
        from: stage_of(&e.ins),
        until: first_stage(e.dels.as_slice()),
    }
}
