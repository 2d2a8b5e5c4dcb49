//! Intervals by rising label and id.

ghost use Rattle.std.specs.Prelude.{◌≡◌, [], IfOk, OnOk, OnErr, cond, is_some, option_copied};
ghost use Rattle.std.specs.Ordering.{is_eq};
ghost use Rattle.ft_props.specs.Keys.{put_rising};
ghost use Rattle.ft_props.specs.Properties.{apply};
ghost use Rattle.ft_interval_store.specs.Ends.{no_ends};
ghost use Rattle.ft_interval_store.specs.Intervals.{Name, added_interval, after_operation, changed_interval, interval_cmp, interval_of, name_cmp, name_of, place_of_name, place_of_operation, with_changed, without_name};
ghost use Rattle.ft_interval_store.specs.Pages.{AreFilled, from_pages};
ghost use Rattle.ft_interval_store.specs.State.{AreOwnEnds, IsEndsAfter, ends_changed, ends_missing};

use crate::pages::Pages;
use crate::search::search_in;
use ft_base::moved::all_three;
use ft_base::{Datum, OutOfMemory, Text};
use ft_op::{Ends, TextOp};
use ft_props::{PropSet, Props};
use std::alloc::Global;
use std::marker::Model;

/// The two ends of an interval, each None where it is detached.
#[derive(Clone, Copy, Debug, PartialEq, Eq)]
pub struct EndPair<T> {
    pub start: Option<T>,
    pub end: Option<T>,
}

impl<T: Copy> EndPair<T> {
    /// No ends.
    pub fn none() -> EndPair<T>
        ensures { result ≡ no_ends }
    {
        EndPair {
            start: None,
            end: None,
        }
    }
}

/// What an operation makes of ends: those that its interval has, and those that no interval has any more.
#[derive(Clone, Copy)]
pub struct EndsAfter<T> {
    /// Those of the interval that the operation is on, none where it isn't there.
    pub kept: EndPair<T>,
    /// Those of the operation, where no interval takes them.
    pub unused: EndPair<T>,
    /// Those that the interval had, where it got others or was taken away.
    pub lost: EndPair<T>,
}

impl<T: Copy> EndsAfter<T> {
    // Where the interval isn't there: the ends of the operation belong to none.
    fn missing(ends: EndPair<T>) -> EndsAfter<T>
        ensures { result ≡ ends_missing ends }
    {
        EndsAfter {
            kept: EndPair::none(),
            unused: ends,
            lost: EndPair::none(),
        }
    }
}

/// An interval.
#[derive(Drop)]
pub struct Interval<T> {
    pub label: Text,
    pub id: Text,
    pub ends: EndPair<T>,
    pub props: Props,
}

/// Whether two names are the same. Ids differ more often than labels, so they are compared first.
pub fn is_same_name(label: &Text, id: &Text, other_label: &Text, other_id: &Text) -> bool
    ensures { result ≡ is_eq (name_cmp (label.now, id.now) (other_label.now, other_id.now)) }
{
    id.same(other_id) && label.same(other_label)
}

impl<T> Held<T> {
    // Applies the set to its properties. Where that is empty, as in a change of ends alone, they aren't copied.
    //
    // Returns `OutOfMemory` where there is no room for them, and then nothing changed.
    fn set_props(&mut self, set: &PropSet) -> Result<(), OutOfMemory>
        ensures ok { OnOk result (self.new ≡ record self.old { props = apply self.old.props set.now }) }
        ensures err { OnErr result (self.new ≡ self.old) }
    {
        if set.is_empty() {
            return Ok(());
        }
        self.interval.props = self.interval.props.applied(set)?;
        Ok(())
    }
}

impl<T: Copy> Held<T> {
    // Gives it the ends, if an operation gives some, and applies the set to its properties.
    //
    // Returns `OutOfMemory` where there is no room for its properties, and then nothing changed.
    fn change(
        &mut self,
        given: Option<Ends>,
        ends: EndPair<T>,
        props: &PropSet,
    ) -> Result<EndsAfter<T>, OutOfMemory>
        ensures name { name_of self.new ≡ name_of self.old }
        ensures ok { OnOk result (self.new ≡ changed_interval given ends props.now self.old) }
        ensures ends { IfOk result (λ after. after ≡ ends_changed given ends self.old.ends) }
        ensures err { OnErr result (self.new ≡ self.old) }
    {
        self.set_props(props)?;
        Ok(self.give_ends(given, ends))
    }

    // Gives it the ends, if an operation gives some. It returns which it has then, and which no interval has.
    fn give_ends(&mut self, given: Option<Ends>, ends: EndPair<T>) -> EndsAfter<T>
        ensures interval { self.new ≡ record self.old { ends = cond (is_some given) ends self.old.ends } }
        ensures ends { result ≡ ends_changed given ends self.old.ends }
    {
        let had = self.interval.ends;
        if given.is_none() {
            return EndsAfter {
                kept: had,
                unused: ends,
                lost: EndPair::none(),
            };
        }
        self.interval.ends = ends;
        EndsAfter {
            kept: ends,
            unused: EndPair::none(),
            lost: had,
        }
    }
}

/// An interval on the heap: where it is put among many others, each of those moves by one word alone. Contracts see
/// the interval.
#[derive(Drop)]
pub struct Held<T> {
    interval: Box<Interval<T>>,
}

impl<T> Model for Held<T> {
    ghost use Rattle.ft_interval_store.specs.declared.intervals.Interval.{Interval};

    ghost Value = { Interval T };

    ghost view = { λ h. h.interval.value };
}

impl<T> Held<T> {
    /// Puts the interval on the heap.
    ///
    /// Returns `OutOfMemory` where there is no room for it.
    pub fn new(alloc: Global, interval: Interval<T>) -> Result<Held<T>, OutOfMemory>
    where
        T: Drop,
        ensures { IfOk result (λ held. held ≡ interval) }
    {
        Ok(Held {
            interval: Box::new(alloc, interval)?,
        })
    }

    /// The interval.
    pub fn get(&self) -> &Interval<T>
        ensures { result.now ≡ self.now }
    {
        &self.interval
    }

    /// The interval, no longer on the heap.
    pub fn into_interval(self) -> Interval<T>
        ensures { result ≡ self }
    {
        Box::into_inner(self.interval)
    }

    /// Its ends.
    pub fn ends(&self) -> EndPair<T>
    where
        T: Copy,
        ensures { result ≡ self.now.ends }
    {
        self.interval.ends
    }

    /// Gives it other ends.
    pub fn set_ends(&mut self, ends: EndPair<T>)
    where
        T: Copy,
        ensures { self.new ≡ record self.old { ends = ends } }
    {
        self.interval.ends = ends;
    }
}

/// Where the interval that an operation is on was found, so that it is searched for only once.
#[derive(Clone, Copy)]
pub struct FoundInterval<T> {
    // Its place, or else, as an error, the place where it would stand.
    pub(crate) place: Result<usize, usize>,
    /// Its ends, none where it isn't there.
    pub ends: EndPair<T>,
}

// The interval that an operation adds, on the heap.
//
// Returns `OutOfMemory` where there is no room for it.
fn added<T: Copy + Drop>(
    alloc: Global,
    label: &Text,
    id: &Text,
    ends: EndPair<T>,
    props: &PropSet,
) -> Result<Held<T>, OutOfMemory>
    ensures { IfOk result (λ held. held ≡ added_interval label.now id.now ends props.now) }
{
    let props = Props::new(alloc).applied(props);
    let (label, id, props) = all_three(label.copy(), id.copy(), props)?;
    Held::new(
        alloc,
        Interval {
            label,
            id,
            ends,
            props,
        },
    )
}

/// Intervals by rising label and id, so that no name stands twice. One is found by a binary search for its page, and by
/// another one there.
#[derive(Drop)]
pub struct Intervals<T> {
    pub(crate) items: Pages<Held<T>>,
}

impl<T> Model for Intervals<T> {
    ghost use Rattle.std.specs.Prelude.{List};
    ghost use Rattle.ft_interval_store.specs.declared.intervals.Interval.{Interval};
    ghost use Rattle.ft_interval_store.specs.Intervals.{NamesRise};

    ghost Value = { List (Interval T) };

    ghost view = { λ a. a.items };

    ghost invariant = { λ a. NamesRise a.items };
}

impl<T: Copy + Drop> Intervals<T> {
    ghost use Rattle.ft_interval_store.specs.Intervals.{NamesRise};

    /// No intervals.
    pub fn new(alloc: Global) -> Intervals<T>
        ensures { result ≡ [] }
    {
        Intervals {
            items: Pages::new(alloc),
        }
    }

    /// Where it takes its memory.
    pub fn allocator(&self) -> Global {
        self.items.allocator()
    }

    /// All in order, page by page.
    pub(crate) fn pages(&self) -> &[Vec<Held<T>>]
        ensures value { from_pages result.now ≡ self.now }
        ensures filled { AreFilled result.now }
        ensures rising { NamesRise self.now }
    {
        self.items.pages()
    }

    // The place of the interval of that label and id, or else, as an error, the place where it would stand.
    fn search(&self, label: &Text, id: &Text) -> Result<usize, usize>
        ensures { result ≡ place_of_name (label.now, id.now) self.now }
    {
        search_in(self.items.pages(), label, id)
    }

    // The same of the interval that an operation is on.
    fn place_of(&self, op: &TextOp) -> Result<usize, usize>
        ensures { result ≡ place_of_operation op.now self.now }
    {
        match op {
            TextOp::IntervalAdd { label, id, .. } => self.search(label, id),
            TextOp::IntervalChange { label, id, .. } => self.search(label, id),
            TextOp::IntervalDelete { label, id } => self.search(label, id),
            TextOp::One(_) | TextOp::Group(_) => Err(0),
        }
    }

    /// Where the interval that an operation is on stands, and its ends.
    pub fn find(&self, op: &TextOp) -> FoundInterval<T>
        ensures place { result.place ≡ place_of_operation op.now self.now }
        ensures ends { AreOwnEnds op.now self.now result.ends }
    {
        match self.place_of(op) {
            Ok(i) => FoundInterval {
                place: Ok(i),
                ends: self.items[i].ends(),
            },
            Err(i) => FoundInterval {
                place: Err(i),
                ends: EndPair::none(),
            },
        }
    }

    /// The interval of that label and id: None exactly where it isn't there.
    pub fn get(&self, label: &Text, id: &Text) -> Option<&Interval<T>>
        ensures { option_copied result ≡ interval_of (label.now, id.now) self.now }
    {
        match self.search(label, id) {
            Ok(i) => Some(self.items[i].get()),
            Err(_) => None,
        }
    }

    /// Puts the interval in its place, instead of the one of its name if there is one.
    ///
    /// Returns `OutOfMemory` where there is no room for it, and then nothing changed.
    pub fn put(&mut self, interval: Interval<T>) -> Result<(), OutOfMemory>
        ensures ok { OnOk result (self.new ≡ put_rising interval_cmp interval self.old) }
        ensures err { OnErr result (self.new ≡ self.old) }
    {
        self.put_held(Held::new(self.allocator(), interval)?)
    }

    // The same of one that is on the heap already.
    fn put_held(&mut self, held: Held<T>) -> Result<(), OutOfMemory>
        ensures ok { OnOk result (self.new ≡ put_rising interval_cmp held self.old) }
        ensures err { OnErr result (self.new ≡ self.old) }
    {
        let interval = held.get();
        match self.search(&interval.label, &interval.id) {
            Ok(i) => {
                self.items[i] = held;
                Ok(())
            }
            Err(i) => self.items.insert(i, held),
        }
    }

    // Adds an interval, unless one of its name is there.
    //
    // Returns `OutOfMemory` where there is no room for it, and then nothing changed.
    fn add(
        &mut self,
        place: Result<usize, usize>,
        label: &Text,
        id: &Text,
        ends: EndPair<T>,
        props: &PropSet,
    ) -> Result<EndsAfter<T>, OutOfMemory>
        requires place { place ≡ place_of_name (label.now, id.now) self.old }
        ensures ok { (given : Ends) → OnOk result (self.new ≡ after_operation (TextOp.IntervalAdd label.now id.now given props.now) ends self.old) }
        ensures ends { (given : Ends) → IfOk result (IsEndsAfter (TextOp.IntervalAdd label.now id.now given props.now) ends self.old self.new) }
        ensures err { OnErr result (self.new ≡ self.old) }
    {
        match place {
            Ok(i) => Ok(EndsAfter {
                kept: self.items[i].ends(),
                unused: ends,
                lost: EndPair::none(),
            }),
            Err(i) => {
                let held = added(self.allocator(), label, id, ends, props)?;
                self.items.insert(i, held)?;
                Ok(EndsAfter {
                    kept: ends,
                    unused: EndPair::none(),
                    lost: EndPair::none(),
                })
            }
        }
    }

    // Gives the interval at that place, if it is there, the ends, if an operation gives some, and applies the set to
    // its properties.
    //
    // Returns `OutOfMemory` where there is no room for its properties, and then nothing changed.
    fn change(
        &mut self,
        place: Result<usize, usize>,
        given: Option<Ends>,
        ends: EndPair<T>,
        props: &PropSet,
    ) -> Result<EndsAfter<T>, OutOfMemory>
        requires place { (n : Name) × (place ≡ place_of_name n self.old) }
        ensures ok { (n : Name) → place ≡ place_of_name n self.old
            → OnOk result (self.new ≡ with_changed n (changed_interval given ends props.now) self.old) }
        ensures ends { (n : Name) → place ≡ place_of_name n self.old
            → IfOk result (IsEndsAfter (TextOp.IntervalChange n.0 n.1 given props.now) ends self.old self.new) }
        ensures err { OnErr result (self.new ≡ self.old) }
    {
        match place {
            Ok(i) => self.items[i].change(given, ends, props),
            Err(_) => Ok(EndsAfter::missing(ends)),
        }
    }

    // Takes the interval at that place out, if it is there.
    fn delete(&mut self, place: Result<usize, usize>, ends: EndPair<T>) -> EndsAfter<T>
        requires place { (n : Name) × (place ≡ place_of_name n self.old) }
        ensures ok { (n : Name) → place ≡ place_of_name n self.old → self.new ≡ without_name n self.old }
        ensures ends { (n : Name) → place ≡ place_of_name n self.old → IsEndsAfter (TextOp.IntervalDelete n.0 n.1) ends self.old self.new result }
    {
        match place {
            Ok(i) => {
                let lost = self.items.remove(i).ends();
                EndsAfter {
                    kept: EndPair::none(),
                    unused: ends,
                    lost,
                }
            }
            Err(_) => EndsAfter::missing(ends),
        }
    }

    /// Applies an operation with these ends, whose interval was found at that place: an add does nothing where the name is
    /// there, a change and a delete nothing where it isn't. It returns which ends then belong to its interval, and which to
    /// none.
    ///
    /// Returns `OutOfMemory` where there is no room for what it makes, and then nothing changed.
    pub fn apply(
        &mut self,
        place: Result<usize, usize>,
        op: &TextOp,
        ends: EndPair<T>,
    ) -> Result<EndsAfter<T>, OutOfMemory>
        requires place { place ≡ place_of_operation op.now self.old }
        ensures ok { OnOk result (self.new ≡ after_operation op.now ends self.old) }
        ensures ends { IfOk result (IsEndsAfter op.now ends self.old self.new) }
        ensures err { OnErr result (self.new ≡ self.old) }
    {
        match op {
            TextOp::IntervalAdd {
                label,
                id,
                props,
                ..
            } => self.add(place, label, id, ends, props),
            TextOp::IntervalChange {
                ends: given,
                props,
                ..
            } => self.change(place, *given, ends, props),
            TextOp::IntervalDelete { .. } => Ok(self.delete(place, ends)),
            TextOp::One(_) | TextOp::Group(_) => Ok(EndsAfter::missing(ends)),
        }
    }

    /// The same where nobody asks which ends belong to none then.
    ///
    /// Returns `OutOfMemory` where there is no room for what it makes, and then nothing changed.
    pub fn follow(&mut self, op: &TextOp, ends: EndPair<T>) -> Result<(), OutOfMemory>
        ensures ok { OnOk result (self.new ≡ after_operation op.now ends self.old) }
        ensures err { OnErr result (self.new ≡ self.old) }
    {
        self.apply(self.place_of(op), op, ends)?;
        Ok(())
    }
}
