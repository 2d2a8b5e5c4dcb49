//! Where an end goes whose element isn't seen any more.

ghost use Rattle.std.specs.Prelude.{◌≡◌, Some, find, option_map};
ghost use Rattle.ft_base.specs.Scan.{settled};
ghost use Rattle.ft_props.specs.Element.{has_id, id, is_unremoved, seen};
ghost use Rattle.ft_props.specs.Slide.{settle, slide};
ghost use Rattle.ft_plain_lists.specs.NameTables.{HasAnswers};

use crate::element_tests::{AtStage, ElementTest, Unremoved};
use crate::elements::PlainElement;
use crate::name_tables::NameTable;
use crate::names::ElementName;

/// The element of the end if a client sees it at its pending stage, else the next one that it sees,
/// else the last one before it, else none.
pub fn settle(items: &[PlainElement], stage: u64, end: Option<ElementName>) -> Option<ElementName>
    ensures { result ≡ settle items.now stage end }
{
    settled(items, end?, AtStage(stage))
}

/// The same, by a table of where the ends go.
pub fn settle_by(
    names: &NameTable<Option<ElementName>>,
    items: &[PlainElement],
    stage: u64,
    end: Option<ElementName>,
) -> Option<ElementName>
    requires { HasAnswers (λ x. option_map id (settled (has_id x) (seen stage) items.now)) names.now }
    ensures { result ≡ settle items.now stage end }
{
    match end {
        Some(name) => noted(names, items, name, AtStage(stage)),
        None => None,
    }
}

/// The element of the end if no removal of it is sequenced, else the next one of which none is,
/// else the last one before it, else none: by a table of where the ends go that are on sequenced elements.
pub fn slide_by(
    names: &NameTable<Option<ElementName>>,
    items: &[PlainElement],
    end: Option<ElementName>,
) -> Option<ElementName>
    requires { HasAnswers (λ x. option_map id (settled (has_id x) is_unremoved items.now)) names.now }
    ensures { result ≡ slide items.now end }
{
    match end {
        Some(name) => noted_slide(names, items, name),
        None => None,
    }
}

// Where an end on the element of that name slides, by the same table: one on a pending element to none.
fn noted_slide(
    names: &NameTable<Option<ElementName>>,
    items: &[PlainElement],
    name: ElementName,
) -> Option<ElementName>
    requires { HasAnswers (λ x. option_map id (settled (has_id x) is_unremoved items.now)) names.now }
    ensures { result ≡ slide items.now (Some name) }
{
    if name.sequenced_number().is_none() {
        return None;
    }
    noted(names, items, name, Unremoved)
}

// Where an end on the element of that name goes, by a table of that.
fn noted<T: ElementTest>(
    names: &NameTable<Option<ElementName>>,
    items: &[PlainElement],
    name: ElementName,
    seen: T,
) -> Option<ElementName>
    requires { HasAnswers (λ x. option_map id (settled (has_id x) (T.test seen) items.now)) names.now }
    ensures { result ≡ option_map id (settled (has_id name) (T.test seen) items.now) }
{
    match names.at(name) {
        Some(to) => to,
        None => settled(items, name, seen),
    }
}

// The element that is meant if it is seen, else the next one that is, else the last one before it, else
// none.
fn settled<M: ElementTest, T: ElementTest>(
    items: &[PlainElement],
    meant: M,
    seen: T,
) -> Option<ElementName>
    ensures { result ≡ option_map id (settled (M.test meant) (T.test seen) items.now) }
{
    let mut last = None;
    for (i, e) in items.iter().enumerate() {
        if meant.passes(e) {
            return first_seen(&items[i..], seen).or(last);
        }
        if seen.passes(e) {
            last = Some(e.name());
        }
    }
    None
}

// The first element that is seen.
fn first_seen<T: ElementTest>(items: &[PlainElement], seen: T) -> Option<ElementName>
    ensures { result ≡ option_map id (find (T.test seen) items.now) }
{
    for e in items {
        if seen.passes(e) {
            return Some(e.name());
        }
    }
    None
}
