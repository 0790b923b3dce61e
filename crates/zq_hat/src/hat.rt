//! The hat of one region.
ghost use Rattle.std.specs.Prelude.{◌≡◌, ◌↔◌, [], Some, None, true, false, is_some, OnOk, OnErr, IfOk, IsErrOf, option_copied, option_map, IsTrue, filter, fold, map, string_bytes};
ghost use Rattle.zq_index.specs.Texts.{text_cmp};
ghost use Rattle.std.specs.List.{AllByRecursion};
ghost use Rattle.std.specs.Map.{keys_of, set_value};
ghost use Rattle.std.specs.BTreeMap.{is_at};
ghost use Rattle.std.specs.Ordering.{nat_cmp};
ghost use Rattle.zq_key.specs.Key.{intersects, is_key};
ghost use Rattle.zq_strategy.specs.Kept.{declared_keys, new_hat, with_face_opened, without_face, keys_of_face, has_face, clashes_at, declaration_at, has_any, is_full, change_face, registered, unregistered, unregister_result, faces_info, region_info, routers_info, changed, at_id, face_at, declare, withdraw, declaration};
ghost use Rattle.zq_hat.specs.Tied.{without_declared};
ghost use Rattle.zq_hat.specs.Unreached.{unreached};
ghost use Rattle.zq_strategy.specs.State.{FaceState};
ghost use Rattle.zq_strategy.specs.Marks.{finalized, marked};
ghost use Rattle.zq_strategy.specs.OfferOrder.{offer_cmp, sorted};
ghost use Rattle.zq_strategy.specs.Offers.{declared_offers, offers_beside, offers_of};
ghost use Rattle.std.specs.BTreeSet.{insert_key};
ghost use Rattle.zq_strategy.specs.Seating.{number, seat_cmp};
ghost use Rattle.zq_strategy.specs.Routers.{announced, context_at, entry_at, face_with, losing, networked, noded, retracted, router_offers, source_at, source_for};
ghost use Rattle.zq_strategy.specs.Changes.{changed_by, changed_if};
ghost use Rattle.zq_strategy.specs.Fellows.{fellow_info, info_but};
ghost use Rattle.zq_strategy.specs.Entries.{is_one_of, keys_by, staying, without_routers};
ghost use Rattle.zq_strategy.specs.Nets.{is_listed};
ghost use Rattle.zq_strategy.specs.Networks.{any_gives};
ghost use Rattle.zq_strategy.specs.Tellings.{same_infos};
ghost use Rattle.zq_strategy.specs.Trees.{gives_own, network_told, own_told, region_keys, to_children};
ghost use Rattle.zq_strategy.specs.Regions.{in_routers, strategy_at};

mod shown;

use crate::face::HatFace;
use crate::faces::{
    add_numbers, changed, copy_faces, declare, forget, set_mark, set_nodes, take_seat, withdraw,
};
use crate::offers;
use crate::unreached::{RouterEntryList, Ways, unreached_for};
use std::alloc::Global;
use std::collections::{BTreeMap, BTreeSet};
use std::marker::Model;
use zq_index::holders::{FacePlace, KeyHolders};
use zq_index::info::joined;
use zq_key::Key;
use zq_key::items::Items;
use zq_key::memory::OutOfMemory;
use zq_key::message::{
    DEFAULT_NODE_ID, FaceId, Mode, NodeId, QueryableInfoType, Region, TextList, Zid,
};
use zq_key::text::Text;
use zq_routers::children::tell_children;
use zq_routers::entries::{Entries, StandingList};
use zq_routers::networks::{NetworkChange, gives};
use zq_routers::tellings::same_infos;
use zq_strategy::groups::FaceOffers;
use zq_strategy::merges::{Leaving, add_texts, is_other, merged_but};
use zq_strategy::nets::IndexedNetwork;
use zq_strategy::routers::RouterOffers;
use zq_strategy::seats::FacesById;
use zq_strategy::strategy::{same_region, strategy_of};
use zq_strategy::texts::add_met_texts;
use zq_strategy::types::{
    Change, FaceRecord, FinalMark, HatRefusal, NodeIds, OfferList, QueryTargetQabl, Strategy,
    TellingList, UnregisterEntityResult, ZidList,
};
use zq_strategy::walk::offers_for;

/// The hat of a region (upstream's `HatQueriesTrait` and what implements it).
pub struct Hat {
    region: Region,
    north_mode: Mode,
    own: Zid,
    told_start: u32,
    faces: BTreeMap<u32, HatFace>,
    index: KeyHolders<FacePlace>,
    seats: FacesById,
    net: IndexedNetwork,
    entries: Entries,
    alloc: Global,
}

impl Drop for Hat {
    fn drop(self) {
        let Hat {
            region,
            north_mode,
            own,
            told_start,
            faces,
            index,
            seats,
            net,
            entries,
            alloc,
        } = self;
    }
}

impl Model for Hat {
    ghost use Rattle.zq_strategy.specs.State.{HatState};
    ghost use Rattle.zq_strategy.specs.Regions.{strategy_of};
    ghost use Rattle.zq_hat.specs.Tied.{IsWhole};

    ghost Value = { HatState };

    ghost view = { λ h. record {
      region = h.region;
      north_mode = h.north_mode;
      own = h.own;
      told_start = h.told_start;
      faces = h.faces.entries;
      entries = h.entries;
      network = h.net;
    } };

    ghost invariant = { λ h. IsWhole (strategy_of h.region h.north_mode) h.faces.entries h.index h.seats };
}

impl Hat {
    /// A hat without faces; `told_start` is the id before the first that a face is told.
    pub fn new(alloc: Global, region: Region, north_mode: Mode, own: Zid, told_start: u32) -> Hat
        ensures { result ≡ new_hat region north_mode own told_start }
    {
        Hat {
            region,
            north_mode,
            own,
            told_start,
            faces: BTreeMap::new(alloc),
            index: KeyHolders::new(alloc),
            seats: FacesById::new(alloc),
            net: IndexedNetwork::empty(alloc),
            entries: Entries::new(alloc),
            alloc,
        }
    }

    /// An equal hat.
    pub fn copy(&self, alloc: Global) -> Result<Hat, OutOfMemory>
        ensures { IfOk result (λ h. h ≡ self.now) }
    {
        Ok(Hat {
            region: self.region,
            north_mode: self.north_mode,
            own: self.own,
            told_start: self.told_start,
            faces: copy_faces(&self.faces, alloc)?,
            index: self.index.copy(alloc)?,
            seats: self.seats.copy()?,
            net: self.net.copy(alloc)?,
            entries: self.entries.copy(alloc)?,
            alloc,
        })
    }

    /// Whose hat it is.
    pub fn region(&self) -> Region
        ensures { result ≡ self.now.region }
    {
        self.region
    }

    /// How the region keeps and offers queryables.
    pub fn strategy(&self) -> Strategy
        ensures { result ≡ strategy_at self.now }
    {
        strategy_of(self.region, self.north_mode)
    }

    /// Whether the face is open in the region.
    pub fn has_face(&self, face: FaceId) -> bool
        ensures { result ≡ has_face face.0 self.now }
    {
        self.faces.contains_key(&face.0)
    }

    /// Whether the hat takes no further face: a client region has one.
    pub fn is_full(&self) -> bool
        ensures { result ≡ is_full self.now }
    {
        matches!(self.strategy(), Strategy::Client) && !self.faces.is_empty()
    }

    fn face(&self, face: FaceId) -> &HatFace
        requires { has_face face.0 self.now ≡ true }
        ensures { face_at face.0 self.now ≡ Some result.now }
    {
        match self.faces.get(&face.0) {
            Some(found) => found,
            None => unreachable!(),
        }
    }

    /// The key that the face declared under the id.
    pub fn key_at(&self, face: FaceId, id: u32) -> Option<&str>
        requires { has_face face.0 self.now ≡ true }
        ensures { option_copied result ≡ option_map (λ d. d.key) (declaration_at face.0 id self.now) }
    {
        match self.face(face).declaration(id) {
            Some(declaration) => Some(declaration.key.as_str()),
            None => None,
        }
    }

    /// Whether the id stands for another key of the face.
    pub fn clashes(&self, face: FaceId, id: u32, key: &str) -> bool
        requires { has_face face.0 self.now ≡ true }
        ensures { result ≡ clashes_at face.0 id key.now self.now }
    {
        match self.face(face).declaration(id) {
            Some(declaration) => declaration.key.as_str() != key,
            None => false,
        }
    }

    /// The keys that the face declared, by id, one for each declaration.
    pub fn keys_of(&self, face: FaceId) -> Result<TextList, OutOfMemory>
        requires { has_face face.0 self.now ≡ true }
        ensures keys { IfOk result (λ ks. ks ≡ keys_of_face face.0 self.now) }
        ensures valid { IfOk result (AllByRecursion (λ k. is_key k ≡ true)) }
    {
        match self.face(face).keys(self.alloc) {
            Ok(keys) => Ok(keys),
            Err(error) => Err(error),
        }
    }

    /// The face declares the key under an id that does not stand for another.
    fn declare(
        &mut self,
        face: FaceId,
        id: u32,
        key: &Key,
        info: QueryableInfoType,
    ) -> Result<(), OutOfMemory>
        requires face { has_face face.0 self.old ≡ true }
        requires free { clashes_at face.0 id key.now self.old ≡ false }
        ensures ok { OnOk result (self.new ≡ change_face face.0 (declare id key.now info) self.old) }
        ensures err { OnErr result (self.new ≡ self.old) }
    {
        let copy = key.copy(self.alloc)?;
        let place = (face.0, id);
        match self.index.put(self.alloc, key.as_str(), place, info) {
            Ok(()) => {}
            Err(error) => return Err(error),
        }
        match declare(&mut self.faces, face, id, copy, info) {
            Ok(()) => Ok(()),
            Err(error) => {
                self.index.take(key.as_str(), place);
                Err(error)
            }
        }
    }

    /// The face withdraws the id, which stands for the key.
    fn withdraw(&mut self, face: FaceId, id: u32, key: &str)
        requires { option_map (λ d. d.key) (declaration_at face.0 id self.old) ≡ Some key.now }
        ensures { self.new ≡ unregistered face.0 id self.old }
    {
        withdraw(&mut self.faces, face, id);
        self.index.take(key, (face.0, id));
    }

    /// Takes in a face, which has declared nothing.
    pub fn new_face(&mut self, face: FaceRecord) -> Result<(), OutOfMemory>
        requires { has_face face.face.0 self.old ≡ false }
        ensures ok { OnOk result (self.new ≡ with_face_opened face self.old) }
        ensures err { OnErr result (self.new ≡ self.old) }
    {
        let strategy = strategy_of(self.region, self.north_mode);
        match take_seat(&mut self.seats, strategy, face.zid, face.face) {
            Ok(()) => {}
            Err(error) => return Err(error),
        }
        let opened = HatFace::new(self.alloc, face, self.told_start);
        match self.faces.insert(face.face.0, opened) {
            Ok(_) => Ok(()),
            Err(_) => {
                self.seats.give_back(face.zid, face.face);
                Err(OutOfMemory)
            }
        }
    }

    /// The face declares the key under the id; the same id replaces. `IdInUse` exactly where the id
    /// stands for another key.
    pub fn register_queryable(
        &mut self,
        face: FaceId,
        id: u32,
        key: &Key,
        node: u16,
        info: QueryableInfoType,
    ) -> Result<(), HatRefusal>
        requires { has_face face.0 self.old ≡ true }
        ensures in_use { IsErrOf result HatRefusal.IdInUse ↔ (clashes_at face.0 id key.now self.old ≡ true) }
        ensures known { IsErrOf result HatRefusal.UnknownId → ⊥ }
        ensures after { OnOk result (self.new ≡ registered face.0 id key.now node info self.old) }
        ensures err { OnErr result (self.new ≡ self.old) }
    {
        if self.clashes(face, id, key.as_str()) {
            return Err(HatRefusal::IdInUse);
        }
        match self.declare(face, id, key, info) {
            Ok(()) => Ok(()),
            Err(_) => Err(HatRefusal::OutOfMemory),
        }
    }

    /// The face withdraws the id. Answers its key, and whether the region's information on it stays,
    /// changes or ends. `UnknownId` exactly where the id is not declared.
    pub fn unregister_queryable(
        &mut self,
        face: FaceId,
        id: u32,
        _key: Option<&Key>,
        _node: u16,
    ) -> Result<UnregisterEntityResult, HatRefusal>
        requires { has_face face.0 self.old ≡ true }
        ensures unknown { IsErrOf result HatRefusal.UnknownId ↔ (declaration_at face.0 id self.old ≡ None) }
        ensures own { IsErrOf result HatRefusal.IdInUse → ⊥ }
        ensures value { IfOk result (λ r. option_map (unregister_result self.old self.new) (declaration_at face.0 id self.old) ≡ Some r) }
        ensures after { OnOk result (self.new ≡ unregistered face.0 id self.old) }
        ensures err { OnErr result (self.new ≡ self.old) }
    {
        let Some(declaration) = self.face(face).declaration(id) else {
            return Err(HatRefusal::UnknownId);
        };
        let Ok(copy) = Text::new(self.alloc, declaration.key.as_str()) else {
            return Err(HatRefusal::OutOfMemory);
        };
        let before = self.remote_queryables_of(copy.as_str());
        self.withdraw(face, id, copy.as_str());
        let after = self.remote_queryables_of(copy.as_str());
        Ok(changed(copy, before, after))
    }

    /// What the region's faces declared on the key, merged.
    fn declared_info(&self, key: &str) -> Option<QueryableInfoType>
        ensures { result ≡ faces_info key.now self.now.faces }
    {
        match self.index.get(key) {
            Some(holders) => holders.merged(),
            None => None,
        }
    }

    /// The region's information on the key: what its faces declared on it, merged; in a region of
    /// routers what these announced.
    pub fn remote_queryables_of(&self, key: &str) -> Option<QueryableInfoType>
        ensures { result ≡ region_info key.now self.now }
    {
        match strategy_of(self.region, self.north_mode) {
            Strategy::Broker | Strategy::Client | Strategy::Peer => self.declared_info(key),
            Strategy::Router => self.entries.merged(key),
        }
    }

    /// The offers for the key to an asker of region `src`, by distance, key text and face.
    pub fn compute_query_route(
        &self,
        src: &Region,
        key: &str,
        node: Option<u16>,
    ) -> Result<OfferList, OutOfMemory>
        requires { IsTrue (is_key key.now) }
        ensures { IfOk result (λ o. o ≡ offers_of self.now src.now key.now node) }
    {
        match self.strategy() {
            Strategy::Broker => Ok(Items::from_vec(self.declared_offers(key)?)),
            Strategy::Client => self.offers_beside(Strategy::Client, *src, key),
            Strategy::Peer => self.offers_beside(Strategy::Peer, *src, key),
            Strategy::Router => self.router_offers(*src, key, node),
        }
    }

    /// The offers by declarations, in order.
    fn declared_offers(&self, key: &str) -> Result<Vec<QueryTargetQabl>, OutOfMemory>
        requires { IsTrue (is_key key.now) }
        ensures { IfOk result (λ o. o.items ≡ sorted offer_cmp (declared_offers self.now.region self.now.faces key.now)) }
    {
        let faces = FaceOffers {
            alloc: self.alloc,
            region: self.region,
        };
        offers_for(self.alloc, &faces, &self.index, key)
    }

    /// The offers to askers of other regions.
    fn offers_beside(
        &self,
        strategy: Strategy,
        src: Region,
        key: &str,
    ) -> Result<OfferList, OutOfMemory>
        requires { IsTrue (is_key key.now) }
        ensures { IfOk result (λ o. o ≡ sorted offer_cmp (offers_beside strategy self.now.region src self.now.faces key.now)) }
    {
        if same_region(src, self.region) {
            return Ok(Items::new(self.alloc));
        }
        let mut offers = self.declared_offers(key)?;
        offers::add_bare_offers(
            &mut offers,
            self.alloc,
            strategy,
            self.region,
            src,
            &self.faces,
            key,
        )?;
        Ok(Items::from_vec(offers))
    }

    /// The node whose tree leads from an asker: of this region the one that it names, of another the
    /// gateway's own.
    fn source_for(&self, src: Region, node: Option<NodeId>) -> Option<NodeId>
        ensures { result ≡ source_for self.now src node }
    {
        let node = node?;
        let is_own = same_region(src, self.region);
        if is_own {
            return Some(node);
        }
        self.net.place_of(self.own)
    }

    /// The offers by routers' entries, in order.
    fn router_offers(
        &self,
        src: Region,
        key: &str,
        node: Option<NodeId>,
    ) -> Result<OfferList, OutOfMemory>
        requires key { IsTrue (is_key key.now) }
        requires routers { strategy_at self.now ≡ Strategy.Router }
        ensures { IfOk result (λ o. o ≡ sorted offer_cmp (router_offers self.now src key.now node)) }
    {
        let Some(source) = self.source_for(src, node) else {
            return Ok(Items::new(self.alloc));
        };
        let routers = RouterOffers {
            alloc: self.alloc,
            region: self.region,
            net: &self.net,
            seats: &self.seats,
            source,
        };
        let offers = offers_for(self.alloc, &routers, self.entries.by_key(), key)?;
        Ok(Items::from_vec(offers))
    }

    /// The entries of routers on keys that meet the key to which no way leads from an asker of region
    /// `src`: to their routers leads none from its node in this region, and from the gateway for another
    /// region; or no open face is on it. They are in no offer. By key and router.
    pub fn unreached(
        &self,
        src: &Region,
        key: &str,
        node: Option<u16>,
    ) -> Result<RouterEntryList, OutOfMemory>
        requires key { IsTrue (is_key key.now) }
        requires routers { strategy_at self.now ≡ Strategy.Router }
        ensures { IfOk result (λ l. l ≡ unreached self.now src.now key.now node) }
    {
        let ways = Ways {
            alloc: self.alloc,
            net: &self.net,
            seats: &self.seats,
            source: self.source_for(*src, node),
        };
        let found = unreached_for(&ways, self.entries.by_key(), key)?;
        Ok(Items::from_vec(found))
    }

    /// The router's entry on the key.
    pub fn entry(&self, router: Zid, key: &str) -> Option<QueryableInfoType>
        ensures { result ≡ entry_at router.0 key.now self.now }
    {
        self.entries.get(router, key)
    }

    /// The router's entry on the key is this one from now on.
    pub fn announce(
        &mut self,
        router: Zid,
        key: &Key,
        info: QueryableInfoType,
    ) -> Result<(), OutOfMemory>
        ensures ok { OnOk result (self.new ≡ announced router.0 key.now info self.old) }
        ensures err { OnErr result (self.new ≡ self.old) }
    {
        self.entries.put(self.alloc, router, key, info)
    }

    /// The router's entry on the key goes. Takes no memory.
    pub fn retract(&mut self, router: Zid, key: &str)
        ensures { self.new ≡ retracted router.0 key.now self.old }
    {
        self.entries.take(router, key);
    }

    /// The routers with entries that a network does not list.
    pub fn unlisted(&self, net: &IndexedNetwork) -> Result<ZidList, OutOfMemory>
        ensures left { IfOk result (λ ids. without_routers ids self.now.entries ≡ staying (is_listed net.now) self.now.entries) }
        ensures losing { IfOk result (λ ids. keys_by (is_one_of ids) self.now.entries ≡ losing net.now self.now) }
    {
        self.entries.unlisted(self.alloc, net)
    }

    /// The keys that have an entry of one of these routers, in order, each once.
    pub fn losing(&self, gone: &[Zid]) -> Result<TextList, OutOfMemory>
        ensures { IfOk result (λ ks. ks ≡ keys_by (is_one_of gone.now) self.now.entries) }
    {
        self.entries.losing(self.alloc, gone)
    }

    /// In a region of routers a network is put in place: the entries of routers that it does not
    /// list, which are these, go. Takes no memory.
    pub fn put_network(&mut self, net: IndexedNetwork, gone: &[Zid])
        requires { without_routers gone.now self.old.entries ≡ staying (is_listed net) self.old.entries }
        ensures { self.new ≡ networked net self.old }
    {
        match strategy_of(self.region, self.north_mode) {
            Strategy::Broker | Strategy::Client | Strategy::Peer => (),
            Strategy::Router => {
                self.entries.drop_routers(gone);
                self.net = net;
            }
        }
    }

    /// What the faces but one would have declared on the key, merged, with this declaration.
    fn declared_with(
        &self,
        but: Option<FaceId>,
        face: FaceId,
        id: u32,
        info: QueryableInfoType,
        key: &str,
    ) -> Option<QueryableInfoType>
        ensures { result ≡ info_but but key.now (change_face face.0 (declare id key.now info) self.now) }
    {
        let leaving = Leaving { face, id: Some(id) };
        let others = merged_but(&self.index, but, Some(leaving), key);
        if is_other(but, face) && self.faces.contains_key(&face.0) {
            joined(others, Some(info))
        } else {
            others
        }
    }

    /// What the faces but one would have declared on the key after the change, merged.
    fn declared_after(
        &self,
        but: Option<FaceId>,
        change: &Change,
        key: &str,
    ) -> Option<QueryableInfoType>
        ensures { result ≡ info_but but key.now (changed_by change.now key.now self.now) }
    {
        match change {
            Change::Declared { face, id, info } => self.declared_with(but, *face, *id, *info, key),
            Change::Withdrawn { face, id } => {
                let id = Some(*id);
                merged_but(&self.index, but, Some(Leaving { face: *face, id }), key)
            }
            Change::Left(face) => {
                let id = None;
                merged_but(&self.index, but, Some(Leaving { face: *face, id }), key)
            }
            Change::Announced { .. } | Change::Retracted(_) | Change::Networked(_) => {
                merged_but(&self.index, but, None, key)
            }
        }
    }

    /// What the other faces will have declared on the key once the hat has changed, merged; where
    /// nothing changes, what they have.
    pub fn fellows_after(
        &self,
        change: Option<&Change>,
        face: FaceId,
        key: &str,
    ) -> Option<QueryableInfoType>
        ensures { result ≡ fellow_info face.0 key.now (changed_if (option_copied change.entry) key.now self.now) }
    {
        match change {
            Some(change) => self.declared_after(Some(face), change, key),
            None => merged_but(&self.index, Some(face), None, key),
        }
    }

    /// What the routers' entries on the key would be after the change, merged.
    fn routed_after(&self, change: &Change, key: &str) -> Option<QueryableInfoType>
        requires { strategy_at self.now ≡ Strategy.Router }
        ensures { result ≡ routers_info key.now (changed_by change.now key.now self.now) }
    {
        match change {
            Change::Announced { router, info } => {
                Some(self.entries.merged_with(*router, key, *info))
            }
            Change::Retracted(router) => self.entries.merged_without(*router, key),
            Change::Networked(net) => self.entries.merged_listed(net, key),
            Change::Declared { .. } | Change::Withdrawn { .. } | Change::Left(_) => {
                self.entries.merged(key)
            }
        }
    }

    /// The region's information on the key as it would be after the change.
    pub fn info_after(&self, change: &Change, key: &str) -> Option<QueryableInfoType>
        ensures { result ≡ region_info key.now (changed_by change.now key.now self.now) }
    {
        match self.strategy() {
            Strategy::Broker | Strategy::Client | Strategy::Peer => {
                self.declared_after(None, change, key)
            }
            Strategy::Router => self.routed_after(change, key),
        }
    }

    /// The face has this node table from now on. Takes no memory. (`set_node_ids`)
    pub fn set_node_ids(&mut self, face: FaceId, ids: NodeIds)
        requires { has_face face.0 self.old ≡ true }
        ensures { self.new ≡ noded face.0 ids self.old }
    {
        set_nodes(&mut self.faces, face, ids);
    }

    /// The place in the region's network of what a node number of the face stands for: 0 outside
    /// regions of routers; none where the face's table has nothing at the number, or the network has
    /// no place for it that a message can name.
    pub fn map_routing_context(&self, face: FaceId, node: NodeId) -> Option<NodeId>
        requires { has_face face.0 self.now ≡ true }
        ensures { result ≡ context_at face.0 node self.now }
    {
        match self.strategy() {
            Strategy::Broker | Strategy::Client | Strategy::Peer => Some(DEFAULT_NODE_ID),
            Strategy::Router => match self.face(face).zid_at(node) {
                Some(zid) => self.net.place_of(zid),
                None => None,
            },
        }
    }

    /// The id that a node number of the face stands for: the face's own outside regions of routers;
    /// none where the face's table has nothing at the number.
    pub fn remote_node_id_to_zid(&self, face: FaceId, node: NodeId) -> Option<Zid>
        requires { has_face face.0 self.now ≡ true }
        ensures { result ≡ source_at face.0 node self.now }
    {
        match self.strategy() {
            Strategy::Broker | Strategy::Client | Strategy::Peer => Some(self.face(face).zid()),
            Strategy::Router => self.face(face).zid_at(node),
        }
    }

    /// What the children of a root's tree are told of a key, without the face that the call came
    /// from; nothing outside regions of routers.
    pub fn to_children(
        &self,
        from: Option<FaceId>,
        root: Zid,
        key: &str,
        info: Option<QueryableInfoType>,
    ) -> Result<TellingList, OutOfMemory>
        ensures { IfOk result (λ ts. ts ≡ in_routers (strategy_at self.now) (to_children (option_map number from) root key.now info self.now) []) }
    {
        match self.strategy() {
            Strategy::Broker | Strategy::Client | Strategy::Peer => Ok(Items::new(self.alloc)),
            Strategy::Router => {
                tell_children(self.alloc, &self.net, &self.seats, from, root, key, info)
            }
        }
    }

    /// What faces are told of the gateway's own entry on a key, which was `before` and is the other
    /// regions' merge: in a region of routers the children of the gateway's own tree hear of a change.
    #[tactic(auto, using(crate::proofs::Routing::same_either))]
    pub fn propagate_queryable(
        &self,
        key: &str,
        before: Option<QueryableInfoType>,
        other: Option<QueryableInfoType>,
    ) -> Result<TellingList, OutOfMemory>
        ensures { IfOk result (λ ts. ts ≡ in_routers (strategy_at self.now) (own_told key.now before other self.now) []) }
    {
        if same_infos(before, other) {
            return Ok(Items::new(self.alloc));
        }
        self.to_children(None, self.own, key, other)
    }

    /// Whether the gateway's own tree gets a child by the network that it had not: only then its own
    /// entries are handed.
    pub fn wants_own(&self, net: &IndexedNetwork) -> Result<bool, OutOfMemory>
        ensures { IfOk result (λ wants. wants ≡ gives_own net.now self.now) }
    {
        match self.strategy() {
            Strategy::Broker | Strategy::Client | Strategy::Peer => Ok(false),
            Strategy::Router => {
                let gives = gives(self.alloc, &self.net, net, &self.seats, self.own)?;
                Ok(gives)
            }
        }
    }

    /// What a network hands in a region of routers, before it is put in place, by the gateway's own
    /// entries: to each new child of a tree what stands of its root.
    pub fn network_tellings(
        &self,
        net: &IndexedNetwork,
        own: &StandingList,
    ) -> Result<TellingList, OutOfMemory>
        ensures { IfOk result (λ ts. ts ≡ in_routers (strategy_at self.now) (network_told own.now self.now.network (networked net.now self.now)) []) }
    {
        match self.strategy() {
            Strategy::Broker | Strategy::Client | Strategy::Peer => Ok(Items::new(self.alloc)),
            Strategy::Router => {
                let change = NetworkChange {
                    before: &self.net,
                    net,
                    seats: &self.seats,
                    own: self.own,
                    own_entries: own,
                    entries: &self.entries,
                };
                let tellings = change.tellings(self.alloc)?;
                Ok(tellings)
            }
        }
    }

    /// The keys that the faces declared join the texts.
    fn add_declared(&self, keys: &mut BTreeSet<String>) -> Result<(), OutOfMemory>
        ensures joined { OnOk result (map string_bytes keys.new.keys ≡ fold (insert_key text_cmp) (map string_bytes keys.old.keys) (declared_keys self.now.faces)) }
        ensures valid { AllByRecursion (λ k. is_key k ≡ true) (declared_keys self.now.faces) }
    {
        add_texts(keys, self.alloc, &self.index)
    }

    /// The keys on which the region has information join the texts.
    pub fn add_keys(&self, keys: &mut BTreeSet<String>) -> Result<(), OutOfMemory>
        ensures joined { OnOk result (map string_bytes keys.new.keys ≡ fold (insert_key text_cmp) (map string_bytes keys.old.keys) (region_keys self.now)) }
        ensures valid { AllByRecursion (λ k. is_key k ≡ true) (region_keys self.now) }
    {
        match strategy_of(self.region, self.north_mode) {
            Strategy::Broker | Strategy::Client | Strategy::Peer => self.add_declared(keys),
            Strategy::Router => add_texts(keys, self.alloc, self.entries.by_key()),
        }
    }

    /// The keys that the faces declared and that meet the one that is asked for join the texts.
    fn add_met_declared(&self, keys: &mut BTreeSet<String>, asked: &str) -> Result<(), OutOfMemory>
        requires { IsTrue (is_key asked.now) }
        ensures joined { OnOk result (map string_bytes keys.new.keys ≡ fold (insert_key text_cmp) (map string_bytes keys.old.keys) (filter (λ k. intersects k asked.now) (declared_keys self.now.faces))) }
        ensures valid { AllByRecursion (λ k. is_key k ≡ true) (declared_keys self.now.faces) }
    {
        add_met_texts(keys, self.alloc, &self.index, asked)
    }

    /// The keys on which the region has information and that meet the one that is asked for join the
    /// texts. Keys of which the first bytes show that they do not meet it are passed over by one search.
    pub fn add_met_keys(&self, keys: &mut BTreeSet<String>, asked: &str) -> Result<(), OutOfMemory>
        requires { IsTrue (is_key asked.now) }
        ensures joined { OnOk result (map string_bytes keys.new.keys ≡ fold (insert_key text_cmp) (map string_bytes keys.old.keys) (filter (λ k. intersects k asked.now) (region_keys self.now))) }
        ensures valid { AllByRecursion (λ k. is_key k ≡ true) (region_keys self.now) }
    {
        match strategy_of(self.region, self.north_mode) {
            Strategy::Broker | Strategy::Client | Strategy::Peer => {
                self.add_met_declared(keys, asked)
            }
            Strategy::Router => add_met_texts(keys, self.alloc, self.entries.by_key(), asked),
        }
    }

    /// The numbers of the region's faces join others, in order, each once.
    pub fn add_faces(&self, found: &mut BTreeSet<u32>) -> Result<(), OutOfMemory>
        ensures { OnOk result (found.new.keys ≡ fold (insert_key nat_cmp) found.old.keys (keys_of self.now.faces)) }
    {
        add_numbers(found, &self.faces)
    }

    /// Sets or unsets a mark of the face: that all which it had to declare has come, at its opening
    /// or on a key.
    pub fn finalize_local_interest(
        &mut self,
        face: FaceId,
        mark: &FinalMark,
        set: bool,
    ) -> Result<(), OutOfMemory>
        requires { has_face face.0 self.old ≡ true }
        ensures ok { OnOk result (self.new ≡ finalized face.0 mark.now set self.old) }
        ensures err { OnErr result (self.new ≡ self.old) }
    {
        set_mark(&mut self.faces, self.alloc, face, mark, set)
    }

    /// Takes the face out, with what it declared. Takes no memory.
    pub fn forget_face(&mut self, face: FaceId)
        requires { has_face face.0 self.old ≡ true }
        ensures { self.new ≡ without_face face.0 self.old }
    {
        match self.faces.remove(&face.0) {
            Some(gone) => {
                self.seats.give_back(gone.zid(), face);
                forget(&mut self.index, face.0, gone.declared());
            }
            None => unreachable!(),
        }
    }

    /// Takes the face out, with what it declared; answers the keys that it had declared, one for
    /// each declaration.
    pub fn close_face(&mut self, face: FaceId) -> Result<TextList, OutOfMemory>
        requires { has_face face.0 self.old ≡ true }
        ensures keys { IfOk result (λ ks. ks ≡ keys_of_face face.0 self.old) }
        ensures after { OnOk result (self.new ≡ without_face face.0 self.old) }
        ensures err { OnErr result (self.new ≡ self.old) }
    {
        let keys = self.keys_of(face)?;
        self.forget_face(face);
        Ok(keys)
    }
}
