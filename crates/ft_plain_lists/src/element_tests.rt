//! Tests of elements, over which the scans of a list are generic: who sees an element, and which
//! element is meant.

ghost use Rattle.std.specs.Prelude.{◌-◌};
ghost use Rattle.ft_props.specs.Element.{has_id, is_pending, is_unremoved, seen, seen_by};
ghost use Rattle.ft_props.specs.Steps.{is_annotated_by, is_inserted_by, is_removed_by};

use crate::elements::PlainElement;
use crate::names::ElementName;
use ft_base::Perspective;

/// A test of elements.
pub trait ElementTest: Copy + Drop {
    ghost use Rattle.std.specs.Prelude.{◌≡◌, Bool};
    ghost use Rattle.ft_props.specs.Element.{ListElement};

    /// Whether an element passes.
    ghost test: { Self → ListElement → Bool };

    /// Whether the element passes.
    fn passes(self, e: &PlainElement) -> bool
        ensures { result ≡ test self e.now };
}

/// Whether the perspective sees it.
impl ElementTest for Perspective {
    ghost test = { λ at e. seen_by at.r at.c e };

    fn passes(self, e: &PlainElement) -> bool {
        e.is_seen_by(self)
    }
}

/// Whether a client sees it at this pending stage: what is sequenced, and its own stages up to this
/// one.
#[derive(Clone, Copy)]
pub struct AtStage(pub u64);

impl ElementTest for AtStage {
    ghost test = { λ at e. seen at.0 e };

    fn passes(self, e: &PlainElement) -> bool {
        e.is_seen_at(self.0)
    }
}

/// Whether a client sees it at the stage before this one.
#[derive(Clone, Copy)]
pub struct Before(pub u64);

impl ElementTest for Before {
    ghost test = { λ before e. seen (before.0 - 1) e };

    fn passes(self, e: &PlainElement) -> bool {
        e.is_seen_at(self.0.saturating_sub(1))
    }
}

/// Whether it has this name.
impl ElementTest for ElementName {
    ghost test = { λ name e. has_id name e };

    fn passes(self, e: &PlainElement) -> bool {
        e.has_name(&self)
    }
}

/// Whether its insertion is sequenced and no removal of it is.
#[derive(Clone, Copy)]
pub struct Unremoved;

impl ElementTest for Unremoved {
    ghost test = { λ _ e. is_unremoved e };

    fn passes(self, e: &PlainElement) -> bool {
        e.is_unremoved()
    }
}

/// Whether its insertion is pending.
#[derive(Clone, Copy)]
pub struct Pending;

impl ElementTest for Pending {
    ghost test = { λ _ e. is_pending e };

    fn passes(self, e: &PlainElement) -> bool {
        e.is_pending()
    }
}

/// Whether this pending stage inserted it.
#[derive(Clone, Copy)]
pub struct InsertedBy(pub u64);

impl ElementTest for InsertedBy {
    ghost test = { λ by e. is_inserted_by by.0 e };

    fn passes(self, e: &PlainElement) -> bool {
        e.is_inserted_by(self.0)
    }
}

/// Whether this pending stage marks it as removed.
#[derive(Clone, Copy)]
pub struct RemovedBy(pub u64);

impl ElementTest for RemovedBy {
    ghost test = { λ by e. is_removed_by by.0 e };

    fn passes(self, e: &PlainElement) -> bool {
        e.is_removed_by(self.0)
    }
}

/// Whether this pending stage has changes of it.
#[derive(Clone, Copy)]
pub struct AnnotatedBy(pub u64);

impl ElementTest for AnnotatedBy {
    ghost test = { λ by e. is_annotated_by by.0 e };

    fn passes(self, e: &PlainElement) -> bool {
        e.is_annotated_by(self.0)
    }
}
