use std::alloc::Global;
use zq_given::{information, list};
use zq_key::items::Items;
use zq_key::memory::OutOfMemory;
use zq_key::message::{FaceId, NodeId, Zid};
use zq_routers::children::{children_of, fresh_ids, tell_children};
use zq_routers::tellings::in_order;
use zq_strategy::nets::IndexedNetwork;
use zq_strategy::network::{Network, Telling, Tree};
use zq_strategy::seats::FacesById;

/// A tree of these.
fn tree(alloc: Global, children: &[u32], directions: &[Option<u32>]) -> Result<Tree, OutOfMemory> {
    Ok(Tree {
        children: list(alloc, children)?,
        directions: list(alloc, directions)?,
    })
}

/// Nodes 1, 2, 3 and 2 again, with trees of the first two: 1 has the children 2 and 3, and one that
/// no node is at; 2 has 3, twice.
fn small_net(alloc: Global) -> Result<IndexedNetwork, OutOfMemory> {
    let mut trees = Items::new(alloc);
    trees.push(tree(alloc, &[1, 2, 9], &[None, Some(1), Some(1), Some(7)])?)?;
    trees.push(tree(alloc, &[2, 2], &[Some(0)])?)?;
    let network = Network {
        nodes: list(alloc, &[Zid(1), Zid(2), Zid(3), Zid(2)])?,
        trees,
        distances: list(alloc, &[0, 1, 2])?,
    };
    IndexedNetwork::new(alloc, network)
}

/// The places of routers in the network, of which the last is none.
fn places_in(net: &IndexedNetwork) -> [Option<NodeId>; 4] {
    [
        net.place_of(Zid(1)),
        net.place_of(Zid(2)),
        net.place_of(Zid(3)),
        net.place_of(Zid(4)),
    ]
}

/// The places of routers in the network of three routers.
fn places_of(alloc: Global) -> Result<[Option<NodeId>; 4], OutOfMemory> {
    match small_net(alloc) {
        Ok(net) => Ok(places_in(&net)),
        Err(error) => Err(error),
    }
}

#[test]
fn places(rt: HostRuntime) {
    assert!(rt; places_of(rt.alloc()) == Ok([Some(0), Some(1), Some(2), None]));
}

/// The next router from a source towards another, and its distance.
type Next = Option<(Zid, u16)>;

/// How a router is reached from a source in that network.
fn towards(alloc: Global, source: NodeId, router: u128) -> Result<Next, OutOfMemory> {
    match small_net(alloc) {
        Ok(net) => Ok(net.towards(source, Zid(router))),
        Err(error) => Err(error),
    }
}

#[test]
fn ways(rt: HostRuntime) {
    for (source, router, way) in [
        (0, 3, Some((Zid(2), 2))),
        (0, 1, None),
        (1, 1, Some((Zid(1), 0))),
        (1, 3, None),
        (2, 3, None),
        (0, 4, None),
    ] {
        assert!(rt;
            towards(rt.alloc(), source, router) == Ok(way),
            "{source} to {router}"
        );
    }
}

/// The router 3 is at face 7, and 2 at the faces 5 and 4.
fn take_seats(seats: &mut FacesById) -> Result<(), OutOfMemory> {
    seats.take(Zid(3), FaceId(7))?;
    seats.take(Zid(2), FaceId(5))?;
    seats.take(Zid(2), FaceId(4))
}

/// How many tellings there are, and the face and the node of the first.
fn first_of(tellings: &[Telling]) -> (usize, u32, u16) {
    match tellings.first() {
        Some(first) => (tellings.len(), first.face.0, first.node),
        None => (0, 0, 0),
    }
}

/// How many tellings there are, and the face and the node of the first once they are in order.
fn first_in_order(alloc: Global, tellings: &[Telling]) -> Result<(usize, u32, u16), OutOfMemory> {
    let tellings = in_order(alloc, tellings)?;
    Ok(first_of(tellings.as_slice()))
}

/// The faces with seats that hear of `k` of the root, and the node of the first telling.
fn told_from(
    seats: &mut FacesById,
    alloc: Global,
    net: &IndexedNetwork,
    from: Option<FaceId>,
    root: u128,
) -> Result<(usize, u32, u16), OutOfMemory> {
    take_seats(seats)?;
    let info = Some(information(true, 0));
    let tellings = tell_children(alloc, net, seats, from, Zid(root), "k", info)?;
    first_in_order(alloc, tellings.as_slice())
}

/// The faces that hear of `k` of the root, and the node of the first telling.
fn told(alloc: Global, from: Option<FaceId>, root: u128) -> Result<(usize, u32, u16), OutOfMemory> {
    let mut seats = FacesById::new(alloc);
    match small_net(alloc) {
        Ok(net) => told_from(&mut seats, alloc, &net, from, root),
        Err(error) => Err(error),
    }
}

#[test]
fn children(rt: HostRuntime) {
    for (from, root, heard) in [
        (None, 1, (2, 4, 0)),
        (Some(FaceId(4)), 1, (1, 7, 0)),
        (Some(FaceId(5)), 1, (2, 4, 0)),
        (None, 2, (1, 7, 1)),
        (None, 3, (0, 0, 0)),
        (None, 4, (0, 0, 0)),
    ] {
        assert!(rt;
            told(rt.alloc(), from, root) == Ok(heard),
            "{from:?} of {root}"
        );
    }
}

/// How many ids are new to the children of root 1.
fn fresh_in(alloc: Global, net: &IndexedNetwork) -> Result<usize, OutOfMemory> {
    Ok(fresh_ids(alloc, net, Zid(1), &[Zid(2), Zid(4), Zid(3)])?.len())
}

/// How many ids are new to the children of root 1 in the network of three routers.
fn fresh(alloc: Global) -> Result<usize, OutOfMemory> {
    match small_net(alloc) {
        Ok(net) => fresh_in(alloc, &net),
        Err(error) => Err(error),
    }
}

/// Nodes 1 to 65537, of which 1 has those at the last two places as children.
fn wide_net(alloc: Global) -> Result<IndexedNetwork, OutOfMemory> {
    let mut nodes = Items::new(alloc);
    for zid in 1..65538u32 {
        nodes.push(Zid(u128::from(zid)))?;
    }
    let mut trees = Items::new(alloc);
    trees.push(tree(alloc, &[65535, 65536], &[])?)?;
    let network = Network {
        nodes,
        trees,
        distances: list(alloc, &[])?,
    };
    IndexedNetwork::new(alloc, network)
}

/// How many children root 1 has there, and the first.
fn wide_children(alloc: Global) -> Result<(usize, Option<Zid>), OutOfMemory> {
    match wide_net(alloc) {
        Ok(net) => {
            let children = children_of(alloc, &net, Zid(1))?;
            Ok((children.len(), children.first().copied()))
        }
        Err(error) => Err(error),
    }
}

#[test]
fn a_child_above_the_last_place(rt: HostRuntime) {
    assert!(rt; wide_children(rt.alloc()) == Ok((1, Some(Zid(65536)))));
}

#[test]
fn fresh_children(rt: HostRuntime) {
    assert!(rt; fresh(rt.alloc()) == Ok(1));
}
