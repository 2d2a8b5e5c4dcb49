//! The elements of a plain replica.

ghost use Rattle.std.specs.Prelude.{◌≡◌, [], None, IfOk, chars, map};
ghost use Rattle.std.specs.List.{list_any};
ghost use Rattle.ft_base.specs.Visibility.{has_occurred, has_occurred_at_stage, is_acked};
ghost use Rattle.ft_props.specs.Element.{has_id, id as name_of_element, is_pending, is_sequenced, is_unremoved, removal_stamp, seen, seen_by};
ghost use Rattle.ft_props.specs.Properties.{shown_props};
ghost use Rattle.ft_changes.specs.Beside.{is_always_seen, is_standing};
ghost use Rattle.ft_plain_lists.specs.Contents.{content_of};

pub(crate) mod marks;
mod pending;
mod trimming;

use crate::names::ElementName;
use ft_base::moved::both;
use ft_base::visibility::{has_occurred, has_occurred_at_stage};
use ft_base::{Datum, OutOfMemory, Perspective, Stamp, Stamps};
use ft_props::{Changes, Props};
use std::alloc::Global;
use std::marker::Model;

/// What an element is.
#[derive(Clone, Copy)]
pub enum Content {
    /// A character of the text.
    Character(char),
    /// A marker of the text, by its reference type.
    Marker(u64),
    /// A row or a column.
    Unit,
}

/// The characters of the text as contents.
pub fn characters(alloc: Global, text: &str) -> Result<Vec<Content>, OutOfMemory>
    ensures { IfOk result (λ v. v.items ≡ map (λ c. Content.Character c) (chars text.now)) }
{
    let contents = text.chars().map(Content::Character).collect(alloc)?;
    Ok(contents)
}

/// An element of the text, the rows or the columns. One that was removed stays as a tombstone.
#[derive(Drop)]
pub struct PlainElement {
    /// Its number among the elements ever sequenced in its list, or in its stage while it is pending.
    nth: u64,
    content: Content,
    ins: Stamp,
    /// Its sequenced removals, by rising number.
    dels: Stamps,
    /// The stage of its pending removal.
    removal_stage: Option<u64>,
    /// The message that inserted it, where that is known.
    by: Option<Stamp>,
    /// Its acknowledged properties.
    props: Props,
    /// Its pending changes, by rising stage.
    pending: Vec<(u64, Changes)>,
}

impl Model for PlainElement {
    ghost use Rattle.ft_props.specs.Element.{ListElement};

    ghost Value = { ListElement };

    ghost use Rattle.ft_plain_lists.specs.Contents.{content_of};

    ghost view = { λ a. record { nth = a.nth; content = content_of a.content; ins = a.ins; dels = a.dels; removal_stage = a.removal_stage; by = a.by; props = a.props; pending = a.pending.items } };
}

impl PlainElement {
    /// An element without pending removals and changes.
    pub(crate) fn new(
        alloc: Global,
        nth: u64,
        content: Content,
        ins: Stamp,
        dels: &Stamps,
        by: Option<Stamp>,
        props: &Props,
    ) -> Result<PlainElement, OutOfMemory>
        ensures { IfOk result (λ e. e ≡ record { nth = nth; content = content_of content; ins = ins; dels = dels.now; removal_stage = None; by = by; props = props.now; pending = [] }) }
    {
        let (dels, props) = both(dels.copy(), props.copy())?;
        Ok(PlainElement {
            nth,
            content,
            ins,
            dels,
            removal_stage: None,
            by,
            props,
            pending: Vec::new(alloc),
        })
    }

    /// What it is.
    pub fn content(&self) -> Content
        ensures { content_of result ≡ self.now.content }
    {
        self.content
    }

    /// Its name.
    pub fn name(&self) -> ElementName
        ensures { result ≡ name_of_element self.now }
    {
        ElementName::new(&self.ins, self.nth)
    }

    /// Whether it has this name.
    pub fn has_name(&self, name: &ElementName) -> bool
        ensures { result ≡ has_id name.now self.now }
    {
        name.same(&self.name())
    }

    /// Whether its insertion is sequenced.
    pub(crate) fn is_sequenced(&self) -> bool
        ensures { result ≡ is_sequenced self.now }
    {
        matches!(self.ins, Stamp::Acked { .. })
    }

    /// Whether its insertion is sequenced and no removal of it is.
    pub fn is_unremoved(&self) -> bool
        ensures { result ≡ is_unremoved self.now }
    {
        self.is_sequenced() && !has_any_sequenced(self.dels.as_slice())
    }

    /// Whether no sequenced removal took it.
    pub(crate) fn is_standing(&self) -> bool
        ensures { result ≡ is_standing self.now }
    {
        !self.is_removed()
    }

    /// Whether each stage sees it, and the agreed document too.
    pub(crate) fn is_always_seen(&self) -> bool
        ensures { result ≡ is_always_seen self.now }
    {
        self.is_unremoved() && self.removal_stage.is_none()
    }

    /// Whether its insertion is pending.
    pub(crate) fn is_pending(&self) -> bool
        ensures { result ≡ is_pending self.now }
    {
        matches!(self.ins, Stamp::Local { .. })
    }

    /// Whether the perspective sees it.
    pub(crate) fn is_seen_by(&self, at: Perspective) -> bool
        ensures { result ≡ seen_by at.r at.c self.now }
    {
        has_occurred(&self.ins, at) && !has_any_occurred(self.dels.as_slice(), at)
    }

    /// Whether a client sees it at its pending stage.
    pub fn is_seen_at(&self, stage: u64) -> bool
        ensures { result ≡ seen stage self.now }
    {
        has_occurred_at_stage(&self.ins, stage)
            && !has_any_occurred_at_stage(self.dels.as_slice(), stage)
            && !has_pending_removal_at(self.removal_stage, stage)
    }

    /// Its acknowledged properties with its pending changes made in order of stage.
    pub(crate) fn shown_props(&self) -> Result<Props, OutOfMemory>
        ensures { IfOk result (λ props. props ≡ shown_props self.now.props self.now.pending) }
    {
        let mut props = self.props.copy()?;
        for (_, changes) in &self.pending {
            props = props.changed(changes)?;
        }
        Ok(props)
    }
}

// Whether one of the stamps is sequenced.
fn has_any_sequenced(stamps: &[Stamp]) -> bool
    ensures { result ≡ list_any is_acked stamps.now }
{
    stamps
        .iter()
        .any(|stamp| matches!(stamp, Stamp::Acked { .. }))
}

// Whether one of the stamps has occurred for the perspective.
fn has_any_occurred(stamps: &[Stamp], at: Perspective) -> bool
    ensures { result ≡ list_any (has_occurred at.r at.c) stamps.now }
{
    stamps.iter().any(|stamp| has_occurred(stamp, at))
}

// Whether one of the stamps has occurred at the stage.
fn has_any_occurred_at_stage(stamps: &[Stamp], stage: u64) -> bool
    ensures { result ≡ list_any (has_occurred_at_stage stage) stamps.now }
{
    stamps
        .iter()
        .any(|stamp| has_occurred_at_stage(stamp, stage))
}

// Whether there is a pending removal of a stage up to this one.
fn has_pending_removal_at(removal_stage: Option<u64>, stage: u64) -> bool
    ensures { result ≡ list_any (has_occurred_at_stage stage) (removal_stamp removal_stage) }
{
    match removal_stage {
        Some(own) => own <= stage,
        None => false,
    }
}
