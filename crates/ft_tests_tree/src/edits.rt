//! Edits of a tree.

ghost use Rattle.std.specs.Prelude.{◌≡◌, ◌<◌, IsTrue, OnOk};
ghost use Rattle.ft_tests_tree.specs.Playing.{GoesTogether};
ghost use Rattle.ft_tests_tree.specs.Passing.{Passes};

use crate::faults::StepFault;
use crate::progress::Progress;
use crate::texts::{erase, hear, strike, write};
use ft_base::{Perspective, Steps};
use ft_props::PropSet;
use ft_tree::{TextContent, Tree};
use std::alloc::Global;
use std::marker::Brand;
use std::sync::ledger::{Blank, Ledger};

/// What an edit does.
#[derive(Clone, Copy)]
pub(crate) enum Kind {
    Insert,
    Write,
    Remove,
    Erase,
}

/// An edit; what its kind doesn't need is passed over.
#[derive(Clone, Copy)]
pub(crate) struct Edit<'a> {
    pub(crate) kind: Kind,
    pub(crate) p: u64,
    pub(crate) q: u64,
    pub(crate) text: &'a str,
    pub(crate) seq: u64,
    pub(crate) at: Perspective,
}

// Makes the edit, of that stage if it is the client's own, and tells whether it can be made.
fn make<G: Ledger>(
    alloc: Global,
    tree: &mut Tree<TextContent>,
    edit: &Edit,
    stage: u64,
    blank: Blank,
) -> Result<bool, StepFault>
    requires usable { IsTrue tree.old.usable }
    requires name { blank.name ≡ G.name }
    requires parts { blank.parts ≡ G.parts }
    requires some { 0 < blank.parts }
    ensures { OnOk result (Passes tree.old tree.new) }
{
    let props = PropSet::new(alloc);
    let mut steps = Steps::<G>::new(blank);
    let made = match edit.kind {
        Kind::Insert => hear(
            alloc, tree, edit.p, edit.text, &props, edit.seq, edit.at, &mut steps,
        ),
        Kind::Write => write(alloc, tree, edit.p, edit.text, &props, stage, &mut steps),
        Kind::Remove => strike(tree, edit.p, edit.q, edit.seq, edit.at, &mut steps),
        Kind::Erase => erase(tree, edit.p, edit.q, stage, &mut steps),
    };
    drop(props);
    made
}

/// Makes an edit, of the next stage if it is the client's own, and tells whether it can be made.
///
/// Returns `OutOfMemory` where there is no room for it, `NotARun` where the text isn't of 1 to 256 characters, and
/// `TooLarge` where the tree is too large or there is no further stage.
pub(crate) fn make_edit(
    alloc: Global,
    tree: &mut Tree<TextContent>,
    progress: &mut Progress,
    edit: &Edit,
) -> Result<bool, StepFault>
    requires { GoesTogether tree.old progress.old }
    ensures { OnOk result (GoesTogether tree.new progress.new) }
{
    let made = make::<Brand>(alloc, tree, edit, progress.stage, Blank::new(1))?;
    if !made {
        return Ok(false);
    }
    progress.pass(matches!(edit.kind, Kind::Write | Kind::Erase))?;
    Ok(true)
}
