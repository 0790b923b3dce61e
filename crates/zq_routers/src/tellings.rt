//! Tellings in order: by face, key text and node, each once.
ghost use Rattle.std.specs.Prelude.{◌≡◌, [], IfOk, OnOk, OnErr};
ghost use Rattle.std.specs.BTreeSet.{insert_key};
ghost use Rattle.zq_strategy.specs.Tellings.{in_order, same_infos, telling_cmp};

use std::alloc::Global;
use std::collections::BTreeMap;
use std::marker::Model;
use zq_index::info::same_info;
use zq_key::items::Items;
use zq_key::memory::OutOfMemory;
use zq_key::message::{FaceId, QueryableInfoType};
use zq_key::text::Text;
use zq_strategy::network::{Telling, TellingList};

/// Where a telling is kept: by its face, key and node.
type Slot = (u32, String, u16);

/// What a telling says: its id, and an information or its end.
#[derive(Clone, Copy)]
struct Said {
    id: u32,
    info: Option<QueryableInfoType>,
}

/// Tellings, seen as their list in order.
#[derive(Drop)]
struct Tellings {
    told: BTreeMap<Slot, Said>,
}

impl Model for Tellings {
    ghost use Rattle.std.specs.Prelude.{List, map};
    ghost use Rattle.zq_strategy.specs.declared.network.Telling.{Telling};
    ghost use Rattle.std.specs.List.Sorted.{IsStrictlySortedBy};
    ghost use Rattle.std.specs.Map.{keys_of};
    ghost use Rattle.zq_routers.specs.Told.{slot_cmp, telling_of};

    ghost Value = { List Telling };

    ghost view = { λ t. map telling_of t.told.entries };

    ghost invariant = { λ t. IsStrictlySortedBy slot_cmp (keys_of t.told.entries) };
}

impl Tellings {
    fn new(alloc: Global) -> Tellings
        ensures { result ≡ [] }
    {
        Tellings {
            told: BTreeMap::new(alloc),
        }
    }

    /// The telling is kept, unless one has its slot.
    fn put(&mut self, alloc: Global, telling: &Telling) -> Result<(), OutOfMemory>
        ensures ok { OnOk result (self.new ≡ insert_key telling_cmp self.old telling.now) }
        ensures err { OnErr result (self.new ≡ self.old) }
    {
        let key = String::from_str(alloc, telling.key.as_str())?;
        let slot = (telling.face.0, key, telling.node);
        if self.told.contains_key(&slot) {
            return Ok(());
        }
        let said = Said {
            id: telling.id,
            info: telling.info,
        };
        self.told.insert(slot, said)?;
        Ok(())
    }

    /// The list of the tellings.
    fn into_list(self, alloc: Global) -> Result<TellingList, OutOfMemory>
        ensures { IfOk result (λ l. l ≡ self) }
    {
        let mut list = Items::new(alloc);
        for ((face, key, node), said) in self.told {
            list.push(Telling {
                face: FaceId(face),
                id: said.id,
                key: Text::from_string(key),
                info: said.info,
                node,
            })?;
        }
        Ok(list)
    }
}

/// The tellings in order, each once.
pub fn in_order(alloc: Global, tellings: &[Telling]) -> Result<TellingList, OutOfMemory>
    ensures { IfOk result (λ l. l ≡ in_order tellings.now) }
{
    let mut ordered = Tellings::new(alloc);
    for telling in tellings {
        ordered.put(alloc, telling)?;
    }
    ordered.into_list(alloc)
}

/// Whether both or neither informations are there, and are the same.
pub fn same_infos(a: Option<QueryableInfoType>, b: Option<QueryableInfoType>) -> bool
    ensures { result ≡ same_infos a b }
{
    match (a, b) {
        (None, None) => true,
        (Some(a), Some(b)) => same_info(a, b),
        (None, Some(_)) | (Some(_), None) => false,
    }
}
