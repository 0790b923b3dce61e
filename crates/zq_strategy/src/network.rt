//! Networks, what node numbers stand for, and what faces are told.
ghost use Rattle.std.specs.Prelude.{◌≡◌, [], IfOk};
ghost use Rattle.zq_strategy.specs.Nets.{no_network};

use std::alloc::Global;
use zq_key::items::Items;
use zq_key::memory::OutOfMemory;
use zq_key::message::{FaceId, QueryableInfoType, Zid};
use zq_key::text::Text;

/// A declaration to a face; with no information its withdrawal.
#[derive(Debug, Drop)]
pub struct Telling {
    /// The face that is told.
    pub face: FaceId,
    /// The id of the key at the face; along trees of routers 0.
    pub id: u32,
    /// The key that is told of.
    pub key: Text,
    /// What stands on the key from then on; none where nothing does.
    pub info: Option<QueryableInfoType>,
    /// Along trees the place of the router in the network; else 0.
    pub node: u16,
}

/// Declarations and withdrawals, in order.
pub type TellingList = Items<Telling>;

/// Ids of nodes.
pub type ZidList = Items<Zid>;

/// Distances.
pub type U16List = Items<u16>;

/// Places in a list of nodes.
pub type U32List = Items<u32>;

/// For each node the place of the next one towards it, or none.
pub type DirectionList = Items<Option<u32>>;

/// A tree of a network, as one node sees it.
#[derive(Debug, Drop)]
pub struct Tree {
    /// The places of the routers to which this node passes on what is of the tree's root.
    pub children: U32List,
    /// For the router at each place the place of the next one on the way there, or none.
    pub directions: DirectionList,
}

impl Tree {
    /// An equal tree.
    pub fn copy(&self, alloc: Global) -> Result<Tree, OutOfMemory>
        ensures { IfOk result (λ t. t ≡ self.now) }
    {
        Ok(Tree {
            children: copy_items(&self.children, alloc)?,
            directions: copy_items(&self.directions, alloc)?,
        })
    }
}

/// One tree for each node.
pub type TreeList = Items<Tree>;

/// The routers of a region: their ids, a tree for each, and how far each is.
#[derive(Debug, Drop)]
pub struct Network {
    /// The ids of the routers, the gateway's own among them.
    pub nodes: ZidList,
    /// The tree of the router at each place, as the gateway sees it.
    pub trees: TreeList,
    /// How far the router at each place is.
    pub distances: U16List,
}

/// Equal items.
fn copy_items<T: Copy>(items: &Items<T>, alloc: Global) -> Result<Items<T>, OutOfMemory>
    ensures { IfOk result (λ i. i ≡ items.now) }
{
    Ok(Items::from_vec(Vec::from_slice(alloc, items.as_slice())?))
}

/// Equal trees.
fn copy_trees(trees: &[Tree], alloc: Global) -> Result<TreeList, OutOfMemory>
    ensures { IfOk result (λ t. t ≡ trees.now) }
{
    let mut made = Items::new(alloc);
    for tree in trees {
        made.push(tree.copy(alloc)?)?;
    }
    Ok(made)
}

impl Network {
    /// A network without nodes.
    pub fn empty(alloc: Global) -> Network
        ensures { result ≡ no_network }
    {
        Network {
            nodes: Items::new(alloc),
            trees: Items::new(alloc),
            distances: Items::new(alloc),
        }
    }

    /// An equal network.
    pub fn copy(&self, alloc: Global) -> Result<Network, OutOfMemory>
        ensures { IfOk result (λ n. n ≡ self.now) }
    {
        Ok(Network {
            nodes: copy_items(&self.nodes, alloc)?,
            trees: copy_trees(self.trees.as_slice(), alloc)?,
            distances: copy_items(&self.distances, alloc)?,
        })
    }
}

/// What the node numbers of a face stand for.
#[derive(Debug, Drop)]
pub struct NodeIds {
    /// The id that each number stands for, from the number 0 on.
    pub ids: ZidList,
}

impl NodeIds {
    /// A table that says nothing of any number.
    pub fn empty(alloc: Global) -> NodeIds
        ensures { result.ids ≡ [] }
    {
        NodeIds {
            ids: Items::new(alloc),
        }
    }

    /// An equal table.
    pub fn copy(&self, alloc: Global) -> Result<NodeIds, OutOfMemory>
        ensures { IfOk result (λ n. n ≡ self.now) }
    {
        Ok(NodeIds {
            ids: copy_items(&self.ids, alloc)?,
        })
    }
}
