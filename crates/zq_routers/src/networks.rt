//! What a network hands: to the new children of each tree what stands of its root.
ghost use Rattle.std.specs.Prelude.{◌≡◌, ◌++◌, [], IfOk, OnOk, Some, map};
ghost use Rattle.std.specs.List.{flat_map};
ghost use Rattle.zq_strategy.specs.Networks.{any_gives, fresh_faces, gives_child, network_told_by, root_told_by, standing_by, trees_told_by};
ghost use Rattle.zq_strategy.specs.Entries.{staying};
ghost use Rattle.zq_strategy.specs.Nets.{is_listed, named_trees};
ghost use Rattle.zq_strategy.specs.Seating.{number, seated};
ghost use Rattle.zq_strategy.specs.Tellings.{all_told_of};

use crate::children::{child_ids, faces_of, fresh_ids};
use crate::entries::{Entries, StandingList};
use std::alloc::Global;
use zq_key::items::Items;
use zq_key::memory::OutOfMemory;
use zq_key::message::{FaceId, NodeId, QueryableInfoType, Zid};
use zq_key::text::Text;
use zq_strategy::nets::IndexedNetwork;
use zq_strategy::network::{Network, Telling, TellingList, Tree};
use zq_strategy::seats::FacesById;

/// How many places a message can name: those up to 65535.
const PLACES: usize = 65536;

/// A network that takes the place of another, and what stands of its roots: of the gateway its own
/// entries, of a router what it announced.
#[derive(Drop)]
pub struct NetworkChange<'a> {
    /// The network as it was, to which new children are compared.
    pub before: &'a IndexedNetwork,
    /// The network as it will be.
    pub net: &'a IndexedNetwork,
    /// Which open faces have which ids.
    pub seats: &'a FacesById,
    /// The gateway's own id.
    pub own: Zid,
    /// What stands of the gateway itself: its own entries on keys.
    pub own_entries: &'a StandingList,
    /// What stands of the routers: what each announced.
    pub entries: &'a Entries,
}

/// The face is told all that stands of the root at the place.
fn tell_standing(
    tellings: &mut TellingList,
    alloc: Global,
    standing: &[(Text, QueryableInfoType)],
    node: NodeId,
    face: FaceId,
) -> Result<(), OutOfMemory>
    ensures { OnOk result (tellings.new ≡ tellings.old ++ all_told_of standing.now node face.0) }
{
    for (key, info) in standing {
        tellings.push(Telling {
            face,
            id: 0,
            key: Text::new(alloc, key.as_str())?,
            info: Some(*info),
            node,
        })?;
    }
    Ok(())
}

/// The faces are told all that stands of the root at the place.
fn tell_all(
    tellings: &mut TellingList,
    alloc: Global,
    standing: &[(Text, QueryableInfoType)],
    node: NodeId,
    faces: &[FaceId],
) -> Result<(), OutOfMemory>
    ensures { OnOk result (tellings.new ≡ tellings.old ++ flat_map (all_told_of standing.now node) (map number faces.now)) }
{
    for face in faces {
        tell_standing(tellings, alloc, standing, node, *face)?;
    }
    Ok(())
}

/// The open faces of a tree's children that the old tree of the root had not.
fn fresh_faces(
    alloc: Global,
    before: &IndexedNetwork,
    net: &IndexedNetwork,
    seats: &FacesById,
    root: Zid,
    tree: &Tree,
) -> Result<Vec<FaceId>, OutOfMemory>
    ensures { IfOk result (λ faces. map number faces.items ≡ fresh_faces (λ zid. seated zid seats.now) before.now net.now root tree.now) }
{
    let ids = child_ids(alloc, net.network(), tree)?;
    let fresh = fresh_ids(alloc, before, root, &ids)?;
    let faces = faces_of(alloc, seats, None, &fresh)?;
    Ok(faces)
}

/// The trees at places that a message can name.
fn named_trees(net: &Network) -> &[Tree]
    ensures { result.now ≡ named_trees net.now }
{
    let trees = net.trees.as_slice();
    &trees[..PLACES.min(trees.len())]
}

/// Whether the tree is one of the root, and has a child that the old tree of the root had not.
fn gives_child(
    alloc: Global,
    before: &IndexedNetwork,
    net: &IndexedNetwork,
    seats: &FacesById,
    root: Zid,
    node: Zid,
    tree: &Tree,
) -> Result<bool, OutOfMemory>
    ensures { IfOk result (λ gives. gives ≡ gives_child (λ zid. seated zid seats.now) before.now net.now root node tree.now) }
{
    if node.0 != root.0 {
        return Ok(false);
    }
    let faces = fresh_faces(alloc, before, net, seats, node, tree)?;
    Ok(!faces.is_empty())
}

/// Whether a tree of the root that has a node gives a child.
fn any_gives(
    alloc: Global,
    before: &IndexedNetwork,
    net: &IndexedNetwork,
    seats: &FacesById,
    root: Zid,
    nodes: &[Zid],
    trees: &[Tree],
) -> Result<bool, OutOfMemory>
    ensures { IfOk result (λ gives. gives ≡ any_gives (λ zid. seated zid seats.now) before.now net.now root nodes.now trees.now) }
{
    let mut i = 0;
    while i < nodes.len() && i < trees.len() {
        let gives = gives_child(alloc, before, net, seats, root, nodes[i], &trees[i])?;
        if gives {
            return Ok(true);
        }
        i += 1;
    }
    Ok(false)
}

/// Whether the network gives the root's tree a child that it had not: only then something is handed
/// of what stands of the root.
pub fn gives(
    alloc: Global,
    before: &IndexedNetwork,
    net: &IndexedNetwork,
    seats: &FacesById,
    root: Zid,
) -> Result<bool, OutOfMemory>
    ensures { IfOk result (λ gives. gives ≡ any_gives (λ zid. seated zid seats.now) before.now net.now root net.now.nodes (named_trees net.now)) }
{
    let network = net.network();
    let nodes = network.nodes.as_slice();
    let trees = named_trees(network);
    let gives = any_gives(alloc, before, net, seats, root, nodes, trees)?;
    Ok(gives)
}

impl<'a> NetworkChange<'a> {
    /// The faces are told what stands of the root at the place.
    fn tell_faces(
        &self,
        tellings: &mut TellingList,
        alloc: Global,
        root: Zid,
        node: NodeId,
        faces: &[FaceId],
    ) -> Result<(), OutOfMemory>
        ensures { OnOk result (tellings.new ≡ tellings.old ++ flat_map (all_told_of (standing_by self.now.own self.now.own_entries.now self.now.entries.now root) node) (map number faces.now)) }
    {
        if root.0 == self.own.0 {
            return tell_all(tellings, alloc, self.own_entries.as_slice(), node, faces);
        }
        let standing = self.entries.of_router(alloc, root)?;
        tell_all(tellings, alloc, standing.as_slice(), node, faces)
    }

    /// The new children of a tree of the root are told what stands of it.
    fn tell_root(
        &self,
        tellings: &mut TellingList,
        alloc: Global,
        root: Zid,
        tree: &Tree,
    ) -> Result<(), OutOfMemory>
        ensures { OnOk result (tellings.new ≡ tellings.old ++ root_told_by (standing_by self.now.own self.now.own_entries.now self.now.entries.now) (λ zid. seated zid self.now.seats.now) self.now.before.now self.now.net.now root tree.now) }
    {
        let Some(node) = self.net.place_of(root) else {
            return Ok(());
        };
        let faces = fresh_faces(alloc, self.before, self.net, self.seats, root, tree)?;
        if faces.is_empty() {
            return Ok(());
        }
        self.tell_faces(tellings, alloc, root, node, &faces)
    }

    /// The new children of each tree that has a node are told what stands of its root.
    fn tell_trees(
        &self,
        alloc: Global,
        nodes: &[Zid],
        trees: &[Tree],
    ) -> Result<TellingList, OutOfMemory>
        ensures { IfOk result (λ ts. ts ≡ trees_told_by (standing_by self.now.own self.now.own_entries.now self.now.entries.now) (λ zid. seated zid self.now.seats.now) self.now.before.now self.now.net.now nodes.now trees.now) }
    {
        let mut tellings = Items::new(alloc);
        let mut i = 0;
        while i < nodes.len() && i < trees.len() {
            self.tell_root(&mut tellings, alloc, nodes[i], &trees[i])?;
            i += 1;
        }
        Ok(tellings)
    }

    /// What the network hands, of the entries that stay.
    #[tactic(auto, using(crate::proofs::Handing::same_trees))]
    pub fn tellings(&self, alloc: Global) -> Result<TellingList, OutOfMemory>
        ensures { IfOk result (λ ts. ts ≡ network_told_by (standing_by self.now.own self.now.own_entries.now (staying (is_listed self.now.net.now) self.now.entries.now)) (λ zid. seated zid self.now.seats.now) self.now.before.now self.now.net.now) }
    {
        let network = self.net.network();
        let tellings = self.tell_trees(alloc, network.nodes.as_slice(), named_trees(network))?;
        Ok(tellings)
    }
}
