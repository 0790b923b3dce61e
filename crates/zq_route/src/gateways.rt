//! Which gateways the nodes of a region have.
ghost use Rattle.std.specs.Prelude.{◌≡◌, IfOk};

use std::alloc::Global;
use zq_key::items::Items;
use zq_key::memory::OutOfMemory;
use zq_key::message::Zid;
use zq_strategy::types::ZidList;

/// The gateways of one node.
#[derive(Debug, Drop)]
pub struct GatewayEntry {
    /// The node that has them.
    pub node: Zid,
    /// The ids of its gateways; with none each gateway may carry its requests.
    pub gateways: ZidList,
}

/// The gateways of some nodes.
pub type GatewayEntryList = Items<GatewayEntry>;

/// A region's gateways: those of each node, of which the first entry counts, and those of the
/// whole region where they are known.
#[derive(Debug, Drop)]
pub struct Gateways {
    /// The gateways of each node that is known.
    pub of: GatewayEntryList,
    /// The gateways of the whole region, for a node that is not known.
    pub all: Option<ZidList>,
}

impl Gateways {
    /// An equal table.
    pub fn copy(&self, alloc: Global) -> Result<Gateways, OutOfMemory>
        ensures { IfOk result (λ g. g ≡ self.now) }
    {
        Ok(Gateways {
            of: copy_entries(alloc, self.of.as_slice())?,
            all: copy_all(alloc, &self.all)?,
        })
    }
}

fn copy_all(alloc: Global, all: &Option<ZidList>) -> Result<Option<ZidList>, OutOfMemory>
    ensures { IfOk result (λ l. l ≡ all.now) }
{
    match all {
        Some(zids) => Ok(Some(copy_zids(alloc, zids.as_slice())?)),
        None => Ok(None),
    }
}

fn copy_zids(alloc: Global, zids: &[Zid]) -> Result<ZidList, OutOfMemory>
    ensures { IfOk result (λ l. l ≡ zids.now) }
{
    Ok(Items::from_vec(Vec::from_slice(alloc, zids)?))
}

fn copy_entry(alloc: Global, entry: &GatewayEntry) -> Result<GatewayEntry, OutOfMemory>
    ensures { IfOk result (λ e. e ≡ entry.now) }
{
    Ok(GatewayEntry {
        node: entry.node,
        gateways: copy_zids(alloc, entry.gateways.as_slice())?,
    })
}

fn copy_entries(alloc: Global, entries: &[GatewayEntry]) -> Result<GatewayEntryList, OutOfMemory>
    ensures { IfOk result (λ l. l ≡ entries.now) }
{
    let mut copies = Items::new(alloc);
    for entry in entries {
        copies.push(copy_entry(alloc, entry)?)?;
    }
    Ok(copies)
}
