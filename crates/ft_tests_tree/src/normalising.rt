//! A tree of markers that is normalised.

ghost use Rattle.std.specs.Prelude.{◌≡◌, ◌++◌, ◌∷◌, [], IfOk, IsTrue, OnOk, true};
ghost use Rattle.ft_base.specs.declared.stamps.Stamp.TheVariants.{Acked, Local};
ghost use Rattle.ft_tests_tree.specs.Markers.{elements_of, marker_element, two_stages};

use crate::faults::StepFault;
use crate::sights::{push_insertions, push_leaves};
use ft_base::{Element, OutOfMemory, Stamp, Stamps};
use ft_props::Props;
use ft_rebase::normalise;
use ft_tree::{TextContent, Tree};
use std::alloc::Global;

// The stamps of an element that message 1 inserted.
fn inserted(alloc: Global) -> Element
    ensures { result ≡ record { ins = Acked 1 2; dels = [] } }
{
    Element {
        ins: Stamp::Acked { seq: 1, conn: 2 },
        dels: Stamps::new(alloc),
    }
}

// The same, where message 6 removed it.
fn removed(alloc: Global) -> Result<Element, OutOfMemory>
    ensures { IfOk result (λ e. e ≡ record { ins = Acked 1 2; dels = Acked 6 2 ∷ [] }) }
{
    let mut dels = Stamps::new(alloc);
    dels.push(Stamp::Acked { seq: 6, conn: 2 })?;
    Ok(Element {
        ins: Stamp::Acked { seq: 1, conn: 2 },
        dels,
    })
}

// The stamps of an element of a pending stage.
fn pending(alloc: Global, stage: u64) -> Element
    ensures { result ≡ record { ins = Local stage; dels = [] } }
{
    Element {
        ins: Stamp::Local { stage },
        dels: Stamps::new(alloc),
    }
}

// Puts a marker at the end.
fn add(alloc: Global, tree: &mut Tree<TextContent>, e: Element) -> Result<(), StepFault>
    requires { IsTrue tree.old.usable }
    ensures elements { OnOk result (elements_of tree.new ≡ elements_of tree.old ++ marker_element e ∷ []) }
    ensures usable { OnOk result (tree.new.usable ≡ true) }
{
    if tree.made() > 1000 {
        return Err(StepFault::TooLarge);
    }
    let props = Props::new(alloc);
    let added = tree.append(TextContent::marker(7), &props, e);
    drop(props);
    Ok(added?)
}

// Puts in four markers: one, a removed one, one of stage 2 and one of stage 1.
fn fill(alloc: Global, tree: &mut Tree<TextContent>) -> Result<(), StepFault>
    requires usable { IsTrue tree.old.usable }
    requires empty { elements_of tree.old ≡ [] }
    ensures usable { OnOk result (tree.new.usable ≡ true) }
    ensures elements { OnOk result (elements_of tree.new ≡ two_stages) }
{
    add(alloc, tree, inserted(alloc))?;
    add(alloc, tree, removed(alloc)?)?;
    add(alloc, tree, pending(alloc, 2))?;
    add(alloc, tree, pending(alloc, 1))?;
    Ok(())
}

// Fills the tree, and adds its leaves, what is sent again of the stages 1 and 2, and the leaves once the tree is normalised.
fn push_filled(
    alloc: Global,
    tree: &mut Tree<TextContent>,
    out: &mut String,
) -> Result<(), StepFault>
    requires usable { IsTrue tree.old.usable }
    requires empty { elements_of tree.old ≡ [] }
{
    fill(alloc, tree)?;
    push_leaves(tree, out)?;
    push_insertions(tree, 1, out)?;
    push_insertions(tree, 2, out)?;
    normalise(tree)?;
    push_leaves(tree, out)
}

/// Adds the leaves of a tree whose two stages stand behind what was removed, what is sent again of these, and the leaves once
/// the tree is normalised.
///
/// Returns `OutOfMemory` where there is no room for it.
pub(crate) fn push_normalised(alloc: Global, out: &mut String) -> Result<(), StepFault> {
    let mut tree = Tree::new(alloc);
    push_filled(alloc, &mut tree, out)
}
