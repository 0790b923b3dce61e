use std::alloc::Global;
use zq_given::{CLIENTS, information, list};
use zq_key::items::Items;
use zq_key::memory::OutOfMemory;
use zq_key::message::{FaceId, QueryTarget, Region, Zid};
use zq_key::text::Text;
use zq_message::RegionMap;
use zq_route::builder::RouteBuilder;
use zq_route::filter::InterRegionFilter;
use zq_route::gateways::{GatewayEntry, GatewayEntryList, Gateways};
use zq_route::overall::compute_best_overall;
use zq_route::selection::compute_final_route;
use zq_strategy::types::{OfferList, QueryTargetQabl};

/// Letters for the faces 3, 3 and 4, for 5 that has none, and for 6.
fn put_letters(route: &mut RouteBuilder<char>) -> Result<(), OutOfMemory> {
    for (face, letter) in [(3, 'a'), (3, 'b'), (4, 'c')] {
        route.insert(FaceId(face), || letter)?;
    }
    route.try_insert(FaceId(5), || None)?;
    route.try_insert(FaceId(6), || Some('d'))
}

#[test]
fn builds_each_face_once(rt: HostRuntime) {
    let mut route = RouteBuilder::new(rt.alloc());
    let put = put_letters(&mut route);
    let built = route.build();
    assert!(rt; (put, built.as_slice()) == (Ok(()), ['a', 'c', 'd'].as_slice()));
}

fn offer(alloc: Global, face: u32, complete: Option<bool>) -> Result<QueryTargetQabl, OutOfMemory> {
    Ok(QueryTargetQabl {
        face: FaceId(face),
        info: match complete {
            Some(complete) => Some(information(complete, 0)),
            None => None,
        },
        key: Text::new(alloc, "k")?,
        region: Region::Local,
        node: 0,
    })
}

/// Five offers, of which that of face 9 does not pass.
fn put_offers(offers: &mut OfferList, alloc: Global) -> Result<(), OutOfMemory> {
    for (face, info) in [
        (9, Some(true)),
        (2, Some(false)),
        (3, None),
        (4, Some(true)),
        (2, Some(true)),
    ] {
        offers.push(offer(alloc, face, info)?)?;
    }
    Ok(())
}

/// The route takes what the target picks of these offers.
fn pick(
    route: &mut RouteBuilder<QueryTargetQabl>,
    offers: &mut OfferList,
    alloc: Global,
    target: QueryTarget,
) -> Result<(), OutOfMemory> {
    put_offers(offers, alloc)?;
    compute_final_route(alloc, target, route, offers, |o| o.face.0 != 9)
}

/// Whether the picked offers are of these faces, in order.
fn are_of(offers: &[QueryTargetQabl], faces: &[u32]) -> bool {
    if offers.len() != faces.len() {
        return false;
    }
    for (offer, face) in offers.iter().zip(faces) {
        if offer.face.0 != *face {
            return false;
        }
    }
    true
}

/// Whether a target picks these faces of them.
fn picks(alloc: Global, target: QueryTarget, want: &[u32]) -> (Result<(), OutOfMemory>, bool) {
    let mut offers = Items::new(alloc);
    let mut route = RouteBuilder::new(alloc);
    let picked = pick(&mut route, &mut offers, alloc, target);
    (picked, are_of(&route.build(), want))
}

#[test]
fn picks_by_target(rt: HostRuntime) {
    for (target, want) in [
        (QueryTarget::All, [2, 3, 4].as_slice()),
        (QueryTarget::AllComplete, [3, 4, 2].as_slice()),
        (QueryTarget::BestMatching, [4].as_slice()),
    ] {
        assert!(rt; picks(rt.alloc(), target, want) == (Ok(()), true));
    }
}

/// One offer of each of two regions, that of the first farther away, and both complete or not.
fn put_regions(
    offers: &mut RegionMap<OfferList>,
    alloc: Global,
    complete: bool,
) -> Result<(), OutOfMemory> {
    for (region, face, distance) in [(Region::Local, 2, 1), (CLIENTS, 3, 0)] {
        let mut part = Items::new(alloc);
        part.push(QueryTargetQabl {
            face: FaceId(face),
            info: Some(information(complete, distance)),
            key: Text::new(alloc, "k")?,
            region,
            node: 0,
        })?;
        offers.insert(region, part)?;
    }
    Ok(())
}

/// The route takes what is kept of these offers of all regions.
fn pick_overall(
    route: &mut RouteBuilder<QueryTargetQabl>,
    offers: &mut RegionMap<OfferList>,
    alloc: Global,
    complete: bool,
) -> Result<(), OutOfMemory> {
    put_regions(offers, alloc, complete)?;
    compute_best_overall(alloc, route, offers, |o| o.face.0 != 9)
}

#[test]
fn picks_of_all_regions(rt: HostRuntime) {
    for (complete, want) in [(true, [3].as_slice()), (false, [2, 3].as_slice())] {
        let mut offers = RegionMap::new(rt.alloc());
        let mut route = RouteBuilder::new(rt.alloc());
        let picked = pick_overall(&mut route, &mut offers, rt.alloc(), complete);
        assert!(rt; (picked, are_of(&route.build(), want)) == (Ok(()), true));
    }
}

/// Node 10 has the gateways 3 and 4, and node 11 none.
fn put_gateways(of: &mut GatewayEntryList, alloc: Global) -> Result<(), OutOfMemory> {
    for (node, gateways) in [(10, [Zid(3), Zid(4)].as_slice()), (11, &[])] {
        of.push(GatewayEntry {
            node: Zid(node),
            gateways: list(alloc, gateways)?,
        })?;
    }
    Ok(())
}

/// The clients have these gateways.
fn put_table(tables: &mut RegionMap<Gateways>, alloc: Global) -> Result<(), OutOfMemory> {
    let mut of = Items::new(alloc);
    let filled = put_gateways(&mut of, alloc);
    match tables.insert(CLIENTS, Gateways { of, all: None }) {
        Ok(_) => filled,
        Err(error) => Err(error),
    }
}

// The source of a query, the node before the gateway, the gateway, and whether it carries the query.
const CARRIES: [(Option<u128>, Option<u128>, u128, bool); 7] = [
    (Some(9), Some(10), 4, true),
    (Some(9), Some(10), 3, false),
    (Some(3), Some(10), 4, false),
    (Some(9), Some(11), 3, true),
    (Some(9), Some(12), 3, true),
    (Some(9), None, 3, true),
    (None, Some(10), 3, true),
];

/// Whether the gateway of that id carries from the clients to the upstream what came from the source by the
/// node.
fn carries(
    tables: &RegionMap<Gateways>,
    src_zid: Option<u128>,
    fwd_zid: Option<u128>,
    own: u128,
) -> bool {
    let filter = InterRegionFilter {
        src: CLIENTS,
        dst: Region::North,
        src_zid: src_zid.map(|zid| Zid(zid)),
        fwd_zid: fwd_zid.map(|zid| Zid(zid)),
        dst_zid: Some(Zid(99)),
    };
    filter.resolve(tables, Zid(own))
}

/// The first row that does not hold.
fn wrong(tables: &RegionMap<Gateways>) -> Option<(Option<u128>, Option<u128>, u128, bool)> {
    for (src_zid, fwd_zid, own, want) in CARRIES {
        if carries(tables, src_zid, fwd_zid, own) != want {
            return Some((src_zid, fwd_zid, own, want));
        }
    }
    None
}

#[test]
fn carries_by_list(rt: HostRuntime) {
    let mut tables = RegionMap::new(rt.alloc());
    let put = put_table(&mut tables, rt.alloc());
    assert!(rt; (put, wrong(&tables)) == (Ok(()), None));
}
