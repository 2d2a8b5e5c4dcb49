//! The properties of an element as its client holds them.

ghost use Rattle.std.specs.Prelude.{◌≡◌, ◌↔◌, ◌<◌, ◌≤◌, ◌++◌, ◌∷◌, [], All, IsTrue, IsFalse, IfOk, OnOk, OnErr, chars, nat_eq, option_copied, position};
ghost use Rattle.std.specs.List.{list_any};
ghost use Rattle.ft_props.specs.Properties.{change, shown_props, value_of};
ghost use Rattle.ft_props.specs.Overlay.{IsReady, StagesRise, kept_acked, kept_pending, without_stage};
ghost use Rattle.ft_props.specs.Steps.{acked_props};

use crate::changed::make_changes;
use crate::moved::list_of;
use crate::properties::{Changes, Props};
use ft_base::moved::{both, boxed, push_beside};
use ft_base::{Datum, OutOfMemory};
use ft_json::ValText;
use std::alloc::Global;
use std::marker::Model;
use std::mem::{replace, swap};

/// Acknowledged properties, and pending changes on top of them by rising stage.
///
/// While something is pending, what is shown is kept ready, so that reading takes no memory. Most
/// elements have nothing pending, and hold the acknowledged properties alone.
#[derive(Drop)]
pub struct Overlay {
    kept: Kept,
}

impl Model for Overlay {
    ghost use Rattle.ft_props.specs.Overlay.{OverlayState, IsReady, kept_acked, kept_pending};

    ghost Value = { OverlayState };

    ghost view = { λ a. record { acked = kept_acked a.kept; pending = kept_pending a.kept } };

    ghost invariant = { λ a. IsReady a.kept };
}

// The acknowledged properties, alone where nothing is pending.
#[derive(Drop)]
enum Kept {
    Settled(Props),
    Changed(Box<Ahead>),
}

// Acknowledged properties, pending changes by rising stage, and what is shown with them.
#[derive(Drop)]
struct Ahead {
    acked: Props,
    pending: Vec<(u64, Changes)>,
    shown: Props,
}

// Makes the changes of each stage in turn. After `OutOfMemory` some of them may be made.
fn make_all_changes(props: &mut Props, pending: &[(u64, Changes)]) -> Result<(), OutOfMemory>
    ensures { OnOk result (props.new ≡ shown_props props.old pending.now) }
{
    for (_, changes) in pending {
        make_changes(props, changes)?;
    }
    Ok(())
}

// What is shown of acknowledged properties with changes in two parts.
fn shown_over(
    acked: &Props,
    front: &[(u64, Changes)],
    back: &[(u64, Changes)],
) -> Result<Props, OutOfMemory>
    ensures { IfOk result (λ shown. shown ≡ shown_props acked.now (front.now ++ back.now)) }
{
    let mut shown = acked.copy()?;
    make_all_changes(&mut shown, front)?;
    make_all_changes(&mut shown, back)?;
    Ok(shown)
}

// The place of that stage, if it is there.
fn place_of_stage(pending: &[(u64, Changes)], stage: u64) -> Option<usize>
    ensures { result ≡ position (λ change. nat_eq change.0 stage) pending.now }
{
    pending.iter().position(|change| change.0 == stage)
}

// Equal changes, of this stage.
fn copy_change(stage: u64, changes: &Changes) -> Result<(u64, Changes), OutOfMemory>
    ensures { IfOk result (λ copy. copy ≡ (stage, changes.now)) }
{
    Ok((stage, changes.copy()?))
}

// Equal changes of the same stages.
fn copy_pending(
    alloc: Global,
    pending: &[(u64, Changes)],
) -> Result<Vec<(u64, Changes)>, OutOfMemory>
    ensures { IfOk result (λ copy. copy.items ≡ pending.now) }
{
    let mut copy = Vec::with_capacity(alloc, pending.len())?;
    for (stage, changes) in pending {
        copy.push(copy_change(*stage, changes)?)?;
    }
    Ok(copy)
}

// Whether both have the same changes of the same stages.
fn is_same_pending(mine: &[(u64, Changes)], theirs: &[(u64, Changes)]) -> bool
    ensures { IsTrue result ↔ (mine.now ≡ theirs.now) }
{
    if mine.len() != theirs.len() {
        return false;
    }
    for (a, b) in mine.iter().zip(theirs) {
        if a.0 != b.0 || !a.1.same(&b.1) {
            return false;
        }
    }
    true
}

impl Ahead {
    // The changes of one stage alone, over acknowledged properties, which it takes.
    //
    // Returns `OutOfMemory` where there is no room for them, and then leaves the properties as they
    // were.
    fn first(acked: &mut Props, stage: u64, set: &Changes) -> Result<Box<Ahead>, OutOfMemory>
        ensures acked { IfOk result (λ b. b.value.acked ≡ acked.old) }
        ensures pending { IfOk result (λ b. b.value.pending.items ≡ (stage, set.now) ∷ []) }
        ensures shown { IfOk result (λ b. b.value.shown ≡ change acked.old set.now) }
        ensures err { OnErr result (acked.new ≡ acked.old) }
    {
        let mut ahead = boxed(acked.allocator(), Ahead::over(acked, stage, set))?;
        swap(&mut ahead.acked, acked);
        Ok(ahead)
    }

    // The changes of one stage alone, and what is shown with them over these acknowledged properties,
    // but none acknowledged yet.
    fn over(acked: &Props, stage: u64, set: &Changes) -> Result<Ahead, OutOfMemory>
        ensures pending { IfOk result (λ a. a.pending.items ≡ (stage, set.now) ∷ []) }
        ensures shown { IfOk result (λ a. a.shown ≡ change acked.now set.now) }
    {
        let alloc = acked.allocator();
        let only = list_of(alloc, copy_change(stage, set));
        let (shown, pending) = both(acked.changed(set), only)?;
        Ok(Ahead {
            acked: Props::new(alloc),
            pending,
            shown,
        })
    }

    // Takes the acknowledged properties, and leaves none.
    fn take_acked(&mut self) -> Props
        ensures { result ≡ self.old.acked }
    {
        let none = Props::new(self.acked.allocator());
        replace(&mut self.acked, none)
    }

    // Adds changes of a stage.
    //
    // Returns `OutOfMemory` where there is no room for them, and then all is as it was.
    fn push(&mut self, stage: u64, set: &Changes) -> Result<(), OutOfMemory>
        ensures acked { self.new.acked ≡ self.old.acked }
        ensures pending { OnOk result (self.new.pending.items ≡ self.old.pending.items ++ (stage, set.now) ∷ []) }
        ensures shown { OnOk result (self.new.shown ≡ change self.old.shown set.now) }
        ensures err_pending { OnErr result (self.new.pending.items ≡ self.old.pending.items) }
        ensures err_shown { OnErr result (self.new.shown ≡ self.old.shown) }
    {
        let made = both(copy_change(stage, set), self.shown.changed(set));
        let shown = push_beside(&mut self.pending, made)?;
        self.shown = shown;
        Ok(())
    }

    // Makes changes of the acknowledged properties, below the pending changes.
    //
    // Returns `OutOfMemory` where there is no room for what they make, and then all is as it was.
    fn set_acked(&mut self, set: &Changes) -> Result<(), OutOfMemory>
        ensures acked { OnOk result (self.new.acked ≡ change self.old.acked set.now) }
        ensures pending { self.new.pending ≡ self.old.pending }
        ensures shown { OnOk result (self.new.shown ≡ shown_props self.new.acked self.old.pending.items) }
        ensures err_acked { OnErr result (self.new.acked ≡ self.old.acked) }
        ensures err_shown { OnErr result (self.new.shown ≡ self.old.shown) }
    {
        let acked = self.acked.changed(set)?;
        self.shown = shown_over(&acked, &self.pending, &[])?;
        self.acked = acked;
        Ok(())
    }

    // Takes the changes of that stage out, if there are any.
    //
    // Returns `OutOfMemory` where there is no room for what is then shown, and then all is as it
    // was.
    fn drop_stage(&mut self, stage: u64) -> Result<(), OutOfMemory>
        requires rising { StagesRise self.old.pending.items }
        requires shown { self.old.shown ≡ shown_props self.old.acked self.old.pending.items }
        ensures rising { StagesRise self.new.pending.items }
        ensures acked { self.new.acked ≡ self.old.acked }
        ensures pending { OnOk result (self.new.pending.items ≡ without_stage stage self.old.pending.items) }
        ensures shown { OnOk result (self.new.shown ≡ shown_props self.old.acked self.new.pending.items) }
        ensures err_pending { OnErr result (self.new.pending.items ≡ self.old.pending.items) }
        ensures err_shown { OnErr result (self.new.shown ≡ self.old.shown) }
    {
        if let Some(i) = place_of_stage(&self.pending, stage) {
            self.shown = shown_over(&self.acked, &self.pending[..i], &self.pending[i + 1..])?;
            let _ = self.pending.remove(i);
        }
        Ok(())
    }

    // Makes the changes of that stage, if it is the first, to the acknowledged properties, and takes
    // them out.
    //
    // Returns `OutOfMemory` where there is no room for what they make, and then all is as it was.
    fn ack(&mut self, stage: u64) -> Result<(), OutOfMemory>
        requires lowest { All (λ change. stage ≤ change.0) self.old.pending.items }
        requires rising { StagesRise self.old.pending.items }
        requires shown { self.old.shown ≡ shown_props self.old.acked self.old.pending.items }
        ensures rising { StagesRise self.new.pending.items }
        ensures acked { OnOk result (self.new.acked ≡ acked_props stage self.old.acked self.old.pending.items) }
        ensures pending { OnOk result (self.new.pending.items ≡ without_stage stage self.old.pending.items) }
        ensures shown { self.new.shown ≡ shown_props self.new.acked self.new.pending.items }
        ensures err_acked { OnErr result (self.new.acked ≡ self.old.acked) }
        ensures err_pending { OnErr result (self.new.pending.items ≡ self.old.pending.items) }
    {
        if let Some((first, changes)) = self.pending.first() {
            if *first == stage {
                self.acked = self.acked.changed(changes)?;
                let _ = self.pending.remove(0);
            }
        }
        Ok(())
    }

    // Equal properties and changes.
    fn copy(&self) -> Result<Box<Ahead>, OutOfMemory>
        ensures acked { IfOk result (λ b. b.value.acked ≡ self.now.acked) }
        ensures pending { IfOk result (λ b. b.value.pending.items ≡ self.now.pending.items) }
        ensures shown { IfOk result (λ b. b.value.shown ≡ self.now.shown) }
    {
        let alloc = *self.pending.allocator();
        boxed(alloc, self.copy_parts(alloc))
    }

    // The same, not yet on the heap.
    fn copy_parts(&self, alloc: Global) -> Result<Ahead, OutOfMemory>
        ensures acked { IfOk result (λ a. a.acked ≡ self.now.acked) }
        ensures pending { IfOk result (λ a. a.pending.items ≡ self.now.pending.items) }
        ensures shown { IfOk result (λ a. a.shown ≡ self.now.shown) }
    {
        let props = both(self.acked.copy(), self.shown.copy());
        let ((acked, shown), pending) = both(props, copy_pending(alloc, &self.pending))?;
        Ok(Ahead {
            acked,
            pending,
            shown,
        })
    }
}

impl Kept {
    // Keeps the acknowledged properties alone where nothing is pending any more.
    fn settle(&mut self)
        ensures acked { kept_acked self.new ≡ kept_acked self.old }
        ensures pending { kept_pending self.new ≡ kept_pending self.old }
        ensures ready { IsReady self.old → IsReady self.new }
    {
        if let Kept::Changed(ahead) = self {
            if ahead.pending.is_empty() {
                let acked = ahead.take_acked();
                *self = Kept::Settled(acked);
            }
        }
    }
}

impl Overlay {
    ghost use Rattle.ft_props.specs.Overlay.{after_ack, after_acked_changes, after_drop, after_pending_changes, shown_of};

    /// No properties, and nothing pending.
    pub fn new(alloc: Global) -> Overlay
        ensures { result ≡ record { acked = []; pending = [] } }
    {
        Overlay::of(alloc, Props::new(alloc))
    }

    /// These acknowledged properties, and nothing pending.
    pub fn of(_alloc: Global, acked: Props) -> Overlay
        ensures { result ≡ record { acked = acked; pending = [] } }
    {
        Overlay {
            kept: Kept::Settled(acked),
        }
    }

    /// Makes changes of the acknowledged properties, below the pending changes.
    ///
    /// Returns `OutOfMemory` where there is no room for what they make, and then all is as it was.
    pub fn set_acked(&mut self, set: &Changes) -> Result<(), OutOfMemory>
        ensures ok { OnOk result (self.new ≡ after_acked_changes set.now self.old) }
        ensures err { OnErr result (self.new ≡ self.old) }
    {
        match &mut self.kept {
            Kept::Settled(acked) => *acked = acked.changed(set)?,
            Kept::Changed(ahead) => ahead.set_acked(set)?,
        }
        Ok(())
    }

    /// Adds changes of a new pending stage, which is above all pending ones.
    ///
    /// Returns `OutOfMemory` where there is no room for them and what they make, and then all is as
    /// it was.
    pub fn push_pending(&mut self, stage: u64, set: &Changes) -> Result<(), OutOfMemory>
        requires { All (λ change. change.0 < stage) self.old.pending }
        ensures ok { OnOk result (self.new ≡ after_pending_changes stage set.now self.old) }
        ensures err { OnErr result (self.new ≡ self.old) }
    {
        match &mut self.kept {
            Kept::Settled(acked) => {
                self.kept = Kept::Changed(Ahead::first(acked, stage, set)?);
            }
            Kept::Changed(ahead) => ahead.push(stage, set)?,
        }
        Ok(())
    }

    /// Makes the changes of that stage, if there are any, to the acknowledged properties, and takes
    /// them out. No lower stage is pending here.
    ///
    /// Returns `OutOfMemory` where there is no room for what they make, and then all is as it was.
    pub fn ack(&mut self, stage: u64) -> Result<(), OutOfMemory>
        requires { All (λ change. stage ≤ change.0) self.old.pending }
        ensures ok { OnOk result (self.new ≡ after_ack stage self.old) }
        ensures err { OnErr result (self.new ≡ self.old) }
    {
        if let Kept::Changed(ahead) = &mut self.kept {
            ahead.ack(stage)?;
            self.kept.settle();
        }
        Ok(())
    }

    /// Takes the changes of that stage out, if there are any.
    ///
    /// Returns `OutOfMemory` where there is no room for what is then shown, and then all is as it
    /// was.
    pub fn drop_pending(&mut self, stage: u64) -> Result<(), OutOfMemory>
        ensures ok { OnOk result (self.new ≡ after_drop stage self.old) }
        ensures err { OnErr result (self.new ≡ self.old) }
    {
        if let Kept::Changed(ahead) = &mut self.kept {
            ahead.drop_stage(stage)?;
            self.kept.settle();
        }
        Ok(())
    }

    /// The acknowledged properties.
    pub fn acked(&self) -> &Props
        ensures { result.now ≡ self.now.acked }
    {
        match &self.kept {
            Kept::Settled(acked) => acked,
            Kept::Changed(ahead) => &ahead.acked,
        }
    }

    // The pending changes by rising stage.
    fn pending(&self) -> &[(u64, Changes)]
        ensures { result.now ≡ self.now.pending }
    {
        match &self.kept {
            Kept::Settled(_) => &[],
            Kept::Changed(ahead) => ahead.pending.as_slice(),
        }
    }

    /// What is shown: the acknowledged properties with the pending changes made in order of stage.
    pub fn shown_props(&self) -> &Props
        ensures { result.now ≡ shown_of self.now }
    {
        match &self.kept {
            Kept::Settled(acked) => acked,
            Kept::Changed(ahead) => &ahead.shown,
        }
    }

    /// The value that is shown for the key: None exactly where it has none.
    pub fn get(&self, key: &str) -> Option<&ValText>
        ensures { option_copied result ≡ value_of (chars key.now) (shown_of self.now) }
    {
        self.shown_props().get(key)
    }

    /// All that is shown.
    pub fn shown(&self) -> Result<Props, OutOfMemory>
        ensures { IfOk result (λ props. props ≡ shown_of self.now) }
    {
        self.shown_props().copy()
    }

    /// Whether changes of that stage are pending.
    pub fn has(&self, stage: u64) -> bool
        ensures { result ≡ list_any (λ change. nat_eq change.0 stage) self.now.pending }
    {
        self.pending().iter().any(|change| change.0 == stage)
    }

    /// Whether any changes are pending.
    pub fn has_pending(&self) -> bool
        ensures { IsFalse result ↔ (self.now.pending ≡ []) }
    {
        !self.pending().is_empty()
    }
}

impl Datum for Overlay {
    fn copy(&self) -> Result<Overlay, OutOfMemory> {
        let kept = match &self.kept {
            Kept::Settled(acked) => Kept::Settled(acked.copy()?),
            Kept::Changed(ahead) => Kept::Changed(ahead.copy()?),
        };
        Ok(Overlay { kept })
    }

    fn same(&self, other: &Overlay) -> bool {
        self.acked().same(other.acked()) && is_same_pending(self.pending(), other.pending())
    }
}
