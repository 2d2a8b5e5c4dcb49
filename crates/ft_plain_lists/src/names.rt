//! Names of elements.

ghost use Rattle.std.specs.Prelude.{◌≡◌, IfOk};
ghost use Rattle.ft_props.specs.Element.{id_of_stamp, same_id};
ghost use Rattle.ft_props.specs.Steps.{acked_id};
ghost use Rattle.ft_op.specs.Intervals.{no_elements, settle_elements};
ghost use Rattle.ft_plain_lists.specs.Names.{sequenced_number};

use crate::elements::PlainElement;
use crate::slides::settle;
use ft_base::{OutOfMemory, Stamp};
use std::marker::Model;

/// The name of an element in its list: its number among the elements that were ever sequenced there,
/// or its number in a pending stage.
#[derive(Clone, Copy, PartialEq, Eq, PartialOrd, Ord)]
pub struct ElementName {
    /// The stage of its insertion, while that is pending.
    stage: Option<u64>,
    nth: u64,
}

impl Model for ElementName {
    ghost use Rattle.ft_props.specs.Element.{ElementId};

    ghost Value = { ElementId };

    ghost use Rattle.ft_plain_lists.specs.Names.{name_of, number_of_name, stage_of_name};
    ghost use Rattle.ft_plain_lists.specs.NamedBack.{name_of-back};

    ghost view = { λ a. name_of a.stage a.nth };

    ghost inverse = { λ x. record { stage = stage_of_name x; nth = number_of_name x } };

    ghost inverse_ok = { λ a h. name_of-back a.stage a.nth };
}

impl ElementName {
    /// The name of the `nth` element with this insertion.
    pub(crate) fn new(ins: &Stamp, nth: u64) -> ElementName
        ensures { result ≡ id_of_stamp ins.now nth }
    {
        match ins {
            Stamp::Acked { .. } => ElementName { stage: None, nth },
            Stamp::Local { stage } => ElementName {
                stage: Some(*stage),
                nth,
            },
        }
    }

    /// The name after the stage was acknowledged in a list in which `made` elements were sequenced before.
    ///
    /// Returns `OutOfMemory` where its number would pass 2^64 - 1.
    pub fn acked(self, stage: u64, made: u64) -> Result<ElementName, OutOfMemory>
        ensures { IfOk result (λ name. name ≡ acked_id stage made self) }
    {
        match self.stage {
            Some(own) if own == stage => Ok(ElementName {
                stage: None,
                nth: made.checked_add(self.nth).ok_or(OutOfMemory)?,
            }),
            Some(_) | None => Ok(self),
        }
    }

    /// The number, if it is the name of a sequenced element.
    pub(crate) fn sequenced_number(&self) -> Option<u64>
        ensures { result ≡ sequenced_number self.now }
    {
        match self.stage {
            Some(_) => None,
            None => Some(self.nth),
        }
    }

    /// Whether both names are equal.
    pub(crate) fn same(&self, other: &ElementName) -> bool
        ensures { result ≡ same_id self.now other.now }
    {
        self.stage == other.stage && self.nth == other.nth
    }
}

/// The two elements that an operation names: the ends of an interval, none for a detached one, or the row
/// and the column of a cell.
#[derive(Drop)]
pub struct ElementNames {
    first: Option<ElementName>,
    second: Option<ElementName>,
}

impl Model for ElementNames {
    ghost use Rattle.ft_op.specs.Intervals.{NamedElements};

    ghost Value = { NamedElements };

    ghost view = { λ a. record { first = a.first; second = a.second } };
}

impl ElementNames {
    /// These two.
    pub fn new(first: Option<ElementName>, second: Option<ElementName>) -> ElementNames
        ensures { result ≡ record { first = first; second = second } }
    {
        ElementNames { first, second }
    }

    /// No element.
    pub fn none() -> ElementNames
        ensures { result ≡ no_elements }
    {
        ElementNames {
            first: None,
            second: None,
        }
    }

    /// The element at the start, or the row, if there is one.
    pub fn first(&self) -> Option<ElementName>
        ensures { result ≡ self.now.first }
    {
        self.first
    }

    /// The element at the end, or the column, if there is one.
    pub fn second(&self) -> Option<ElementName>
        ensures { result ≡ self.now.second }
    {
        self.second
    }

    /// Equal names.
    pub fn copy(&self) -> ElementNames
        ensures { result ≡ self.now }
    {
        ElementNames {
            first: self.first,
            second: self.second,
        }
    }

    /// Both elements settled at the pending stage.
    pub fn settled(&self, items: &[PlainElement], stage: u64) -> ElementNames
        ensures { result ≡ settle_elements items.now stage self.now }
    {
        ElementNames {
            first: settle(items, stage, self.first),
            second: settle(items, stage, self.second),
        }
    }
}
