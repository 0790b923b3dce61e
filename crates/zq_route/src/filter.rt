//! Which gateway carries a request between regions.
ghost use Rattle.std.specs.Prelude.{◌≡◌, ◌↔◌, List, true, false, fold, find, option_map, max};
ghost use Rattle.std.specs.Option.{option_copied, option_and_then};
ghost use Rattle.zq_message.specs.Region.{HasIndex};
ghost use Rattle.zq_message.specs.RegionMap.{value_at};
ghost use Rattle.zq_route.specs.Filter.{is_zid, is_node, listed, gateways_of, greatest, has_zid, carries, passes_between, Decide, IsGreatest};
ghost use Rattle.zq_message.specs.declared.message.Zid.{Zid};

use crate::gateways::{GatewayEntry, Gateways};
use zq_key::message::{Region, Zid};
use zq_message::RegionMap;
use zq_strategy::strategy::is_north;
use zq_strategy::types::ZidList;

/// A request's way between two regions (upstream's `InterRegionFilter`): from `src`, where the node
/// `src_zid` asked and the face of `fwd_zid` brought it, to the face of `dst_zid` in `dst`.
#[derive(Clone, Copy, Debug, PartialEq, Eq)]
pub struct InterRegionFilter {
    /// The region of the asker.
    pub src: Region,
    /// The region of the face that may be asked.
    pub dst: Region,
    /// The node that asked, if it is known.
    pub src_zid: Option<Zid>,
    /// The node at the other end of the face that brought the request.
    pub fwd_zid: Option<Zid>,
    /// The node at the other end of the face that may be asked.
    pub dst_zid: Option<Zid>,
}

fn is_zid(a: Zid, b: Zid) -> bool
    ensures { result ≡ is_zid a b }
{
    a.0 == b.0
}

fn is_node(zid: Zid, entry: &GatewayEntry) -> bool
    ensures { result ≡ is_node zid entry.now }
{
    is_zid(zid, entry.node)
}

fn entry_of(zid: Zid, entries: &[GatewayEntry]) -> Option<&GatewayEntry>
    ensures { option_copied result ≡ find (is_node zid) entries.now }
{
    entries.iter().find(|entry| is_node(zid, entry))
}

/// The gateways of the node, or of the whole region where no node is named.
fn listed(zid: Option<Zid>, table: &Gateways) -> Option<&ZidList>
    ensures { option_copied result ≡ listed zid table.now }
{
    match zid {
        Some(zid) => match entry_of(zid, table.of.as_slice()) {
            Some(entry) => Some(&entry.gateways),
            None => None,
        },
        None => match &table.all {
            Some(all) => Some(all),
            None => None,
        },
    }
}

fn has_zid(zid: Zid, zids: &[Zid]) -> bool
    ensures { result ≡ has_zid zid zids.now }
{
    zids.iter().any(|z| is_zid(zid, *z))
}

fn greatest(zids: &[Zid]) -> u128
    ensures { result ≡ greatest zids.now }
{
    let mut greatest = 0;
    for zid in zids {
        greatest = greatest.max(zid.0);
    }
    greatest
}

fn carries(gateways: Option<&ZidList>, src: Option<Zid>, own: Zid) -> bool
    ensures { result ≡ carries (option_copied gateways.entry) src own }
{
    let Some(gateways) = gateways else {
        return true;
    };
    if gateways.is_empty() {
        return true;
    }
    let Some(src) = src else {
        return true;
    };
    !has_zid(src, gateways.as_slice()) && greatest(gateways.as_slice()) == own.0
}

impl InterRegionFilter {
    /// The list that counts: the destination's for an asker in North, else the asker's.
    fn gateways<'a>(&self, tables: &'a RegionMap<Gateways>) -> Option<&'a ZidList>
        requires src { HasIndex self.now.src }
        requires dst { HasIndex self.now.dst }
        ensures { option_copied result ≡ gateways_of self.now tables.now }
    {
        let (region, zid) = if is_north(self.src) {
            (self.dst, self.dst_zid)
        } else {
            (self.src, self.fwd_zid)
        };
        match tables.get(&region) {
            Some(table) => listed(zid, table),
            None => None,
        }
    }

    // The bounds first, then the list.
    fn passes_between(&self, tables: &RegionMap<Gateways>, own: Zid) -> bool
        requires src { HasIndex self.now.src }
        requires dst { HasIndex self.now.dst }
        ensures { result ≡ passes_between self.now tables.now own }
    {
        if is_north(self.src) == is_north(self.dst) {
            return true;
        }
        carries(self.gateways(tables), self.src_zid, own)
    }

    /// Whether the gateway `own` is the one to carry the request. Between regions of equal bounds
    /// each is. Otherwise a table gives a list: where it has none or an empty one, or the source is
    /// not known, each is; a source in the list is carried by none; any other source is carried by
    /// the greatest id of the list alone. Takes no memory.
    pub fn resolve(&self, tables: &RegionMap<Gateways>, own: Zid) -> bool
        requires src { HasIndex self.now.src }
        requires dst { HasIndex self.now.dst }
        ensures passes { result ≡ passes_between self.now tables.now own }
        ensures listed { (src : Zid) (zids : List Zid) → Decide self.now tables.now src zids → has_zid src zids ≡ true → result ≡ false }
        ensures greatest { (src : Zid) (zids : List Zid) → Decide self.now tables.now src zids → has_zid src zids ≡ false → (result ≡ true) ↔ IsGreatest own zids }
    {
        self.passes_between(tables, own)
    }
}
