//! A pending stage, and which leaves it touched.

ghost use Rattle.std.specs.Prelude.{[], ◌≡◌, ◌∷◌, ◌++◌, IfOk, OnOk};
ghost use Rattle.ft_tree_blocks.specs.Touched.{holds, is_some_node, purged, with_heir};

use ft_arena::NodeId;
use ft_base::OutOfMemory;
use smallvec::SmallVec;
use std::alloc::Global;
use std::marker::Model;

/// The node of a leaf that a stage touched. Contracts see the number of the node.
#[derive(Clone, Copy, Drop)]
pub(crate) struct TouchedNode(pub(crate) NodeId);

impl Model for TouchedNode {
    ghost use Rattle.std.specs.Prelude.{ℕ};

    ghost Value = { ℕ };

    ghost view = { λ n. n.0 };

    ghost inverse = { λ n. record { 0 = n } };
}

/// What stands in a place of a list that isn't in use.
impl Default for TouchedNode {
    fn default() -> TouchedNode {
        TouchedNode(NodeId(0))
    }
}

/// A list of nodes, which takes no memory as long as there are at most two.
pub(crate) type Nodes = SmallVec<TouchedNode, 2>;

/// A pending stage, and the nodes of leaves that it touched. A node may stand there more than once.
#[derive(Drop)]
pub struct StageNodes {
    stage: u64,
    nodes: Nodes,
}

impl Model for StageNodes {
    ghost use Rattle.ft_tree_blocks.specs.Touched.{NodesOfStage};

    ghost Value = { NodesOfStage };

    ghost view = { λ a. record { stage = a.stage; nodes = a.nodes.items } };
}

impl StageNodes {
    /// A stage that touched the leaf of this node alone.
    pub(crate) fn of(alloc: Global, stage: u64, id: NodeId) -> Result<StageNodes, OutOfMemory>
        ensures { IfOk result (λ s. s ≡ record { stage = stage; nodes = id ∷ [] }) }
    {
        let mut nodes = SmallVec::new(alloc);
        nodes.push(TouchedNode(id))?;
        Ok(StageNodes { stage, nodes })
    }

    /// The stage.
    pub(crate) fn stage(&self) -> u64
        ensures { result ≡ self.now.stage }
    {
        self.stage
    }

    /// The nodes.
    pub(crate) fn nodes(&self) -> &[TouchedNode]
        ensures { result.now ≡ self.now.nodes }
    {
        self.nodes.as_slice()
    }

    /// The nodes, taken out.
    pub(crate) fn into_nodes(self) -> Nodes
        ensures { result.items ≡ self.nodes }
    {
        self.nodes
    }

    /// Whether there is a node.
    pub(crate) fn is_some(&self) -> bool
        ensures { result ≡ is_some_node self.now.nodes }
    {
        !self.nodes.is_empty()
    }

    // Whether the node is one of them.
    fn holds(&self, id: NodeId) -> bool
        ensures { result ≡ holds self.now.nodes id }
    {
        self.nodes.as_slice().iter().any(|n| n.0.0 == id.0)
    }

    /// Adds a node.
    pub(crate) fn add(&mut self, id: NodeId) -> Result<(), OutOfMemory>
        ensures { OnOk result (self.new ≡ record self.old { nodes = self.old.nodes ++ id ∷ [] }) }
    {
        self.nodes.push(TouchedNode(id))?;
        Ok(())
    }

    /// Adds the second node if the first one is one of them.
    pub(crate) fn add_heir(&mut self, front: NodeId, rear: NodeId) -> Result<(), OutOfMemory>
        ensures { OnOk result (self.new ≡ with_heir front rear self.old) }
    {
        if !self.holds(front) {
            return Ok(());
        }
        self.add(rear)
    }

    /// Gives it these nodes instead of those that it has.
    pub(crate) fn set_nodes(&mut self, nodes: Nodes)
        ensures { self.new ≡ record self.old { nodes = nodes.items } }
    {
        self.nodes = nodes;
    }

    /// Takes a node out.
    pub(crate) fn purge(&mut self, id: NodeId)
        ensures { self.new ≡ purged id self.old }
    {
        self.nodes.retain(|n| n.0.0 != id.0);
    }
}
