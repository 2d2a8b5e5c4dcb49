//! A leaf of a tree as a leaf of blocks.

ghost use Rattle.std.specs.Prelude.{[], ◌≡◌, IfOk, length, refl};
ghost use Rattle.ft_base.specs.declared.stamps.Stamp.TheVariants.{Acked};
ghost use Rattle.ft_tree_leaves.specs.Elements.{acked_stamps, removed_stamps, sequenced_stamps, unmarked_stamps};
ghost use Rattle.std.proofs.Common.{ap, ◌∙◌, length-append};
ghost use Rattle.ft_tree_leaves.specs.BlockChanges.{MayChange, changed_leaf};
ghost use Rattle.ft_tree_leaves.specs.BlockLaws.{changed_length, changed_stamps, front_length, rear_length};

use crate::content::Content;
use crate::leaves::TreeLeaf;
use crate::stamps::{acked, acked_all, is_of_stage, sequenced_only, with_removal, without_stage};
use ft_base::{Datum, Element, OutOfMemory, Stamp, Stamps};
use ft_block::Leaf;
use ft_props::{Changes, Overlay};
use std::alloc::Global;

/// What a call of a tree changes in a leaf beside its stamps.
#[derive(Drop)]
pub enum LeafChange {
    /// Changes of the acknowledged properties.
    SetAcked(Changes),
    /// Changes of a pending stage.
    PushPending(u64, Changes),
    /// The changes of that stage go.
    DropPending(u64),
    /// All pending changes go.
    DropAll,
    /// The stage is acknowledged under that number of that connection.
    Ack(u64, u64, u32),
}

impl<C: Content> Leaf for TreeLeaf<C> {
    type Change = LeafChange;

    ghost size = { λ x. length (C.units x.content) };

    ghost element = { λ x. x.stamps };

    ghost with_element = { λ x e. record x { stamps = e } };

    ghost front = { λ x at. record x { content = C.front x.content at } };

    ghost rear = { λ x at. record x { content = C.rear x.content at } };

    ghost joins = { λ x y. C.joins x.content y.content };

    ghost joined = { λ x y. record x { content = C.joined x.content y.content } };

    ghost CanChange = { λ x c. MayChange c x.overlay };

    ghost changed = { λ x c. changed_leaf C.stamped x c };

    fn len(&self) -> u64 {
        self.content.len()
    }

    fn element(&self) -> &Element {
        &self.stamps
    }

    fn set_element(&mut self, e: Element) {
        self.stamps = e;
    }

    fn split_off(&mut self, at: u64) -> Result<TreeLeaf<C>, OutOfMemory> {
        self.split(at)
    }

    fn can_join_back(&self, other: &TreeLeaf<C>) -> bool {
        self.content.can_join(&other.content)
    }

    fn join_back(&mut self, other: TreeLeaf<C>) -> Result<(), TreeLeaf<C>> {
        let TreeLeaf {
            content,
            stamps,
            overlay,
        } = other;
        match self.content.join(content) {
            Ok(()) => Ok(()),
            Err(content) => Err(TreeLeaf {
                content,
                stamps,
                overlay,
            }),
        }
    }

    fn change(&mut self, c: &LeafChange) -> Result<(), OutOfMemory> {
        match c {
            LeafChange::SetAcked(set) => self.overlay.set_acked(set),
            LeafChange::PushPending(stage, set) => self.overlay.push_pending(*stage, set),
            LeafChange::DropPending(stage) => self.overlay.drop_pending(*stage),
            LeafChange::DropAll => {
                let alloc = self.stamps.dels.allocator();
                self.overlay = Overlay::of(alloc, self.overlay.acked().copy()?);
                Ok(())
            }
            LeafChange::Ack(stage, seq, conn) => {
                self.overlay.ack(*stage)?;
                if is_of_stage(&self.stamps.ins, *stage) {
                    self.content.stamped(*seq, *conn);
                }
                Ok(())
            }
        }
    }

    ghost with_element_element = { λ x e. refl };

    ghost with_element_size = { λ x e. refl };

    ghost front_size = { λ x at low high. front_length C.units x.content (C.front x.content at) at high (C.front_units x.content at low high) };

    ghost front_element = { λ x at low high. refl };

    ghost rear_size = { λ x at low high. rear_length C.units x.content (C.rear x.content at) at high (C.rear_units x.content at low high) };

    ghost rear_element = { λ x at low high. refl };

    ghost joined_size = { λ x y can same. ap length (C.joined_units x.content y.content can) ∙ length-append (C.units x.content) (C.units y.content) };

    ghost joined_element = { λ x y can same. refl };

    ghost changed_size = { λ x c can. changed_length C.units C.stamped C.stamped_units x c };

    ghost changed_element = { λ x c can. changed_stamps C.stamped x c };
}

/// The stamps with one more removal, before the pending one.
pub fn removed_stamps(alloc: Global, e: &Element, t: Stamp) -> Result<Element, OutOfMemory>
    ensures { IfOk result (λ x. x ≡ removed_stamps t e.now) }
{
    Ok(Element {
        ins: e.ins,
        dels: with_removal(alloc, e.dels.as_slice(), t)?,
    })
}

/// The stamps without a removal of a pending stage.
pub fn unmarked_stamps(alloc: Global, e: &Element, stage: u64) -> Result<Element, OutOfMemory>
    ensures { IfOk result (λ x. x ≡ unmarked_stamps stage e.now) }
{
    Ok(Element {
        ins: e.ins,
        dels: without_stage(alloc, e.dels.as_slice(), stage)?,
    })
}

/// The stamps with the removals that are sequenced alone.
pub fn sequenced_stamps(alloc: Global, e: &Element) -> Result<Element, OutOfMemory>
    ensures { IfOk result (λ x. x ≡ sequenced_stamps e.now) }
{
    Ok(Element {
        ins: e.ins,
        dels: sequenced_only(alloc, e.dels.as_slice())?,
    })
}

/// The stamps after a stage was acknowledged under number `seq` of connection `conn`.
pub fn acked_stamps(
    alloc: Global,
    e: &Element,
    stage: u64,
    seq: u64,
    conn: u32,
) -> Result<Element, OutOfMemory>
    ensures { IfOk result (λ x. x ≡ acked_stamps stage seq conn e.now) }
{
    Ok(Element {
        ins: acked(e.ins, stage, seq, conn),
        dels: acked_all(alloc, e.dels.as_slice(), stage, seq, conn)?,
    })
}

/// The stamps of elements whose insertion everybody sees, and which nobody has removed.
pub fn universal(alloc: Global) -> Element
    ensures { result ≡ record { ins = Acked 0 0; dels = [] } }
{
    Element {
        ins: Stamp::Acked { seq: 0, conn: 0 },
        dels: Stamps::new(alloc),
    }
}
