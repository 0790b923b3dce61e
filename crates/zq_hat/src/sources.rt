//! The ids of those who declared a key, or ask for it.
ghost use Rattle.std.specs.Prelude.{◌≡◌, ◌++◌, ◌∷◌, [], IfOk, OnOk, OnErr, take};
ghost use Rattle.zq_hat.specs.Sources.{empty, extended, is_empty, with_mode, with_source};

use std::alloc::Global;
use std::mem;
use zq_key::items::Items;
use zq_key::memory::OutOfMemory;
use zq_key::message::{Mode, Zid};
use zq_key::text::Text;
use zq_strategy::network::ZidList;

/// One who declared a key, or asks for it, and the mode under which it counts.
#[derive(Clone, Copy, Debug)]
pub struct Source {
    /// Its id.
    pub zid: Zid,
    /// The mode.
    pub mode: Mode,
}

/// The ids of those who declared a key, or ask for it, by the modes under which they count. (`Sources`)
#[derive(Debug, Drop)]
pub struct Sources {
    /// Those that count as routers.
    pub routers: ZidList,
    /// Those that count as peers.
    pub peers: ZidList,
    /// Those that count as clients.
    pub clients: ZidList,
}

/// Keys, by text, each with the ids of those who declared it, or ask for it.
pub type SourceList = Items<(Text, Sources)>;

/// The ids stand behind those of the list.
fn append(list: &mut ZidList, alloc: Global, more: &[Zid]) -> Result<(), OutOfMemory>
    ensures ok { OnOk result (list.new ≡ list.old ++ more.now) }
    ensures err { OnErr result (list.new ≡ list.old) }
{
    let mut ids = mem::replace(list, Items::new(alloc)).into_vec();
    let done = ids.extend_from_slice(more);
    *list = Items::from_vec(ids);
    match done {
        Ok(()) => Ok(()),
        Err(_) => Err(OutOfMemory),
    }
}

/// The first ids of the list stay.
fn cut(list: &mut ZidList, alloc: Global, len: usize)
    ensures { list.new ≡ take len list.old }
{
    let mut ids = mem::replace(list, Items::new(alloc)).into_vec();
    ids.truncate(len);
    *list = Items::from_vec(ids);
}

impl Sources {
    /// No ids. It stands for zenoh's `Default`, too, which has no allocator to give.
    pub fn empty(alloc: Global) -> Sources
        ensures { result ≡ empty }
    {
        Sources {
            routers: Items::new(alloc),
            peers: Items::new(alloc),
            clients: Items::new(alloc),
        }
    }

    /// Whether there are none.
    pub fn is_empty(&self) -> bool
        ensures { result ≡ is_empty self.now }
    {
        self.routers.is_empty() && self.peers.is_empty() && self.clients.is_empty()
    }

    /// These ids, with the given ones behind those of the mode. Where memory is lacking, all is given up.
    pub fn with_mode(
        self,
        alloc: Global,
        zids: &ZidList,
        mode: Mode,
    ) -> Result<Sources, OutOfMemory>
        ensures { IfOk result (λ s. s ≡ with_mode self zids.now mode) }
    {
        let Sources {
            mut routers,
            mut peers,
            mut clients,
        } = self;
        match mode {
            Mode::Router => append(&mut routers, alloc, zids.as_slice())?,
            Mode::Peer => append(&mut peers, alloc, zids.as_slice())?,
            Mode::Client => append(&mut clients, alloc, zids.as_slice())?,
        }
        Ok(Sources {
            routers,
            peers,
            clients,
        })
    }

    /// One more id, behind those of its mode.
    pub(crate) fn add(&mut self, source: Source) -> Result<(), OutOfMemory>
        ensures ok { OnOk result (self.new ≡ with_source source self.old) }
        ensures err { OnErr result (self.new ≡ self.old) }
    {
        match source.mode {
            Mode::Router => self.routers.push(source.zid),
            Mode::Peer => self.peers.push(source.zid),
            Mode::Client => self.clients.push(source.zid),
        }
    }

    /// Each list is followed by that of the other. All is as it was where memory is lacking.
    pub fn extend(&mut self, alloc: Global, other: &Sources) -> Result<(), OutOfMemory>
        ensures ok { OnOk result (self.new ≡ extended self.old other.now) }
        ensures err { OnErr result (self.new ≡ self.old) }
    {
        let routers = self.routers.len();
        let peers = self.peers.len();
        append(&mut self.routers, alloc, other.routers.as_slice())?;
        match append(&mut self.peers, alloc, other.peers.as_slice()) {
            Ok(()) => {}
            Err(error) => {
                cut(&mut self.routers, alloc, routers);
                return Err(error);
            }
        }
        match append(&mut self.clients, alloc, other.clients.as_slice()) {
            Ok(()) => Ok(()),
            Err(error) => {
                cut(&mut self.routers, alloc, routers);
                cut(&mut self.peers, alloc, peers);
                Err(error)
            }
        }
    }
}
