//! The indexes beside an operation on an interval, which is out of them while that takes effect.

ghost use Rattle.std.specs.Prelude.{◌≡◌, IsTrue, OnOk, length};
ghost use Rattle.ft_props.specs.Keys.{Characters};
ghost use Rattle.ft_interval_index.specs.Indexes.{AreEndsWithin, AreListed, AreNamedEndsWithin, ends_but, ends_without};
ghost use Rattle.ft_interval_store.specs.State.{AreOwnEnds, IsLive, ends_of_name, text_elements};

use crate::indexes::{Indexes, enlist, unlist};
use ft_base::{OutOfMemory, Text};
use ft_interval_store::Store;
use ft_interval_store::intervals::EndPair;
use ft_op::TextOp;
use ft_refs::RefId;
use ft_tree::{TextContent, Tree};

// Takes the interval of that label which has these ends out of the index of the label.
fn unlist_named(
    indexes: &mut Indexes,
    store: &Store,
    tree: &Tree<TextContent>,
    label: &Text,
    ends: EndPair<RefId>,
)
    requires usable { IsTrue tree.now.usable }
    requires live { IsLive tree.now.refs store.now }
    requires listed { AreListed (length (text_elements tree.now)) tree.now.refs (λ n. ends_of_name n store.now.acked) indexes.old }
    ensures { (id : Characters) → ends ≡ ends_of_name (label.now, id) store.now.acked
        → AreListed (length (text_elements tree.now)) tree.now.refs (ends_without (label.now, id) store.now.acked) indexes.new }
{
    // That no end is kept twice, and that there are few elements, is read off their contracts.
    let _first = store.first_stage();
    let _made = tree.made();
    unlist(indexes, tree, label, &ends);
}

// Puts the interval of that label and id, which has these ends, into the index of its label, if both are attached.
fn enlist_named(
    indexes: &mut Indexes,
    store: &Store,
    tree: &Tree<TextContent>,
    label: &Text,
    id: &Text,
    ends: EndPair<RefId>,
) -> Result<(), OutOfMemory>
    requires usable { IsTrue tree.now.usable }
    requires live { IsLive tree.now.refs store.now }
    requires listed { AreListed (length (text_elements tree.now)) tree.now.refs (ends_without (label.now, id.now) store.now.acked) indexes.old }
    requires within { AreNamedEndsWithin (length (text_elements tree.now)) tree.now.refs (label.now, id.now) store.now.acked }
    requires ends { ends ≡ ends_of_name (label.now, id.now) store.now.acked }
    ensures { OnOk result (AreListed (length (text_elements tree.now)) tree.now.refs (λ n. ends_of_name n store.now.acked) indexes.new) }
{
    let _first = store.first_stage();
    let _made = tree.made();
    enlist(indexes, tree, label, id, ends)
}

/// Takes the interval that the operation is on, which has these ends, out of the index of its label.
pub fn unlist_changed(
    indexes: &mut Indexes,
    store: &Store,
    tree: &Tree<TextContent>,
    op: &TextOp,
    ends: EndPair<RefId>,
)
    requires usable { IsTrue tree.now.usable }
    requires live { IsLive tree.now.refs store.now }
    requires listed { AreListed (length (text_elements tree.now)) tree.now.refs (λ n. ends_of_name n store.now.acked) indexes.old }
    requires ends { AreOwnEnds op.now store.now.acked ends }
    ensures { AreListed (length (text_elements tree.now)) tree.now.refs (ends_but op.now store.now.acked) indexes.new }
{
    match op {
        TextOp::IntervalAdd { label, .. } => unlist_named(indexes, store, tree, label, ends),
        TextOp::IntervalChange { label, .. } => unlist_named(indexes, store, tree, label, ends),
        TextOp::IntervalDelete { label, .. } => unlist_named(indexes, store, tree, label, ends),
        TextOp::One(_) => {}
        TextOp::Group(_) => {}
    }
}

/// Puts the interval that the operation is on, which has these ends, into the index of its label, if both are attached.
pub fn enlist_changed(
    indexes: &mut Indexes,
    store: &Store,
    tree: &Tree<TextContent>,
    op: &TextOp,
    ends: EndPair<RefId>,
) -> Result<(), OutOfMemory>
    requires usable { IsTrue tree.now.usable }
    requires live { IsLive tree.now.refs store.now }
    requires listed { AreListed (length (text_elements tree.now)) tree.now.refs (ends_but op.now store.now.acked) indexes.old }
    requires within { AreEndsWithin (length (text_elements tree.now)) tree.now.refs op.now store.now.acked }
    requires ends { AreOwnEnds op.now store.now.acked ends }
    ensures { OnOk result (AreListed (length (text_elements tree.now)) tree.now.refs (λ n. ends_of_name n store.now.acked) indexes.new) }
{
    match op {
        TextOp::IntervalAdd { label, id, .. } => enlist_named(
            indexes, store, tree, label, id, ends,
        ),
        TextOp::IntervalChange { label, id, .. } => enlist_named(
            indexes, store, tree, label, id, ends,
        ),
        TextOp::IntervalDelete { label, id } => enlist_named(indexes, store, tree, label, id, ends),
        TextOp::One(_) => Ok(()),
        TextOp::Group(_) => Ok(()),
    }
}
