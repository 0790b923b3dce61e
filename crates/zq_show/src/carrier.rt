//! Which gateway carries a request between two regions.
ghost use Rattle.std.specs.Prelude.{◌≡◌, fold, find, max, option_copied, true};
ghost use Rattle.zq_machine.specs.State.{is_region as is_region_of};
ghost use Rattle.zq_route.specs.Filter.{gateways_of, greatest, has_zid, is_node, listed};
ghost use Rattle.zq_show.specs.Reasons.{carrier, carrier_in};

use zq_dispatcher::hats::is_region;
use zq_key::items::Items;
use zq_key::message::Zid;
use zq_message::RegionMap;
use zq_route::filter::InterRegionFilter;
use zq_route::gateways::{GatewayEntry, Gateways};
use zq_strategy::strategy::is_north;

fn entry_of(zid: Zid, entries: &[GatewayEntry]) -> Option<&GatewayEntry>
    ensures { option_copied result ≡ find (is_node zid) entries.now }
{
    entries.iter().find(|entry| zid.0 == entry.node.0)
}

/// The gateways of the node, or of the whole region where no node is named.
fn listed(zid: Option<Zid>, table: &Gateways) -> Option<&Items<Zid>>
    ensures { option_copied result ≡ listed zid table.now }
{
    match zid {
        Some(zid) => match entry_of(zid, table.of.as_slice()) {
            Some(entry) => Some(&entry.gateways),
            None => None,
        },
        None => match &table.all {
            Some(all) => Some(all),
            None => None,
        },
    }
}

/// The list of gateways that counts between two regions.
fn gateways_of<'a>(
    lists: &'a RegionMap<Gateways>,
    filter: InterRegionFilter,
) -> Option<&'a Items<Zid>>
    requires src { is_region_of filter.src ≡ true }
    requires dst { is_region_of filter.dst ≡ true }
    ensures { option_copied result ≡ gateways_of filter lists.now }
{
    let (region, zid) = if is_north(filter.src) {
        (filter.dst, filter.dst_zid)
    } else {
        (filter.src, filter.fwd_zid)
    };
    match lists.get(&region) {
        Some(table) => listed(zid, table),
        None => None,
    }
}

fn greatest(zids: &[Zid]) -> u128
    ensures { result ≡ greatest zids.now }
{
    let mut greatest = 0;
    for zid in zids {
        greatest = greatest.max(zid.0);
    }
    greatest
}

fn has_zid(zid: Zid, zids: &[Zid]) -> bool
    ensures { result ≡ has_zid zid zids.now }
{
    zids.iter().any(|z| zid.0 == z.0)
}

/// The gateway of a list that carries what a node asks; none where the node is itself listed, or is
/// not known.
fn carrier_in(zids: Option<&Items<Zid>>, source: Option<Zid>) -> Option<Zid>
    ensures { result ≡ carrier_in (option_copied zids.entry) source }
{
    let (Some(zids), Some(source)) = (zids, source) else {
        return None;
    };
    if has_zid(source, zids.as_slice()) {
        return None;
    }
    Some(Zid(greatest(zids.as_slice())))
}

/// The gateway that carries a request between two regions, where a list says one.
pub fn carrier(lists: &RegionMap<Gateways>, filter: InterRegionFilter) -> Option<Zid>
    ensures { result ≡ carrier lists.now filter }
{
    if !is_region(filter.src) {
        return None;
    }
    if !is_region(filter.dst) {
        return None;
    }
    carrier_in(gateways_of(lists, filter), filter.src_zid)
}
