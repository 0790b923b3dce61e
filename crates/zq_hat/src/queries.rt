//! What a gateway asks of the hat of a region.
ghost use Rattle.std.specs.Prelude.{◌≡◌, ◌↔◌, [], None, true, IfOk, IsErrOf, IsTrue, OnErr, OnOk, option_copied, option_map};
ghost use Rattle.std.specs.List.{AllByRecursion};
ghost use Rattle.zq_key.specs.Key.{is_key};
ghost use Rattle.zq_strategy.specs.State.{HatState};
ghost use Rattle.zq_strategy.specs.Kept.{clashes_at, declaration_at, has_face, region_info, registered, unregister_result, unregistered};
ghost use Rattle.zq_strategy.specs.Offers.{offers_of};
ghost use Rattle.zq_strategy.specs.Regions.{in_routers, strategy_at};
ghost use Rattle.zq_strategy.specs.Trees.{own_told};
ghost use Rattle.zq_hat.specs.Infos.{remote_queryables};
ghost use Rattle.zq_hat.specs.Sourced.{sourced_queriers, sourced_queryables};

use crate::hat::Hat;
use crate::infos::{self, InfoList};
use crate::sources::SourceList;
use crate::{queriers, queryables};
use std::alloc::Global;
use zq_interests::interests::Interests;
use zq_key::Key;
use zq_key::memory::OutOfMemory;
use zq_key::message::{FaceId, QueryableInfoType, Region};
use zq_strategy::types::{HatRefusal, OfferList, TellingList, UnregisterEntityResult};

/// The queryables of one region: who declares which, what the region has on a key, and whom it offers (upstream's `HatQueriesTrait`, over
/// key texts in place of contexts and tables). What faces ask to hear is kept apart from the hat, so it is an argument.
pub trait HatQueriesTrait {
    /// What the hat keeps, as lists.
    ghost hat: { Self → HatState };

    /// A face declares a queryable on a key under an id; the same id replaces. `IdInUse` exactly where the id stands for another key, and
    /// then, as without memory, nothing changes. What a router announces on a key is put in place by `Hat::announce`.
    fn register_queryable(
        &mut self,
        face: FaceId,
        id: u32,
        key: &Key,
        node: u16,
        info: QueryableInfoType,
    ) -> Result<(), HatRefusal>
        requires { has_face face.0 (hat self.old) ≡ true }
        ensures in_use { IsErrOf result HatRefusal.IdInUse ↔ (clashes_at face.0 id key.now (hat self.old) ≡ true) }
        ensures known { IsErrOf result HatRefusal.UnknownId → ⊥ }
        ensures after { OnOk result (hat self.new ≡ registered face.0 id key.now node info (hat self.old)) }
        ensures err { OnErr result (hat self.new ≡ hat self.old) };

    /// A face withdraws the queryable of an id. It answers the key, and whether what the region has on it stays, changes or ends.
    /// `UnknownId` exactly where the face has no such id, and then, as without memory, nothing changes.
    fn unregister_queryable(
        &mut self,
        face: FaceId,
        id: u32,
        key: Option<&Key>,
        node: u16,
    ) -> Result<UnregisterEntityResult, HatRefusal>
        requires { has_face face.0 (hat self.old) ≡ true }
        ensures unknown { IsErrOf result HatRefusal.UnknownId ↔ (declaration_at face.0 id (hat self.old) ≡ None) }
        ensures own { IsErrOf result HatRefusal.IdInUse → ⊥ }
        ensures value { IfOk result (λ r. option_map (unregister_result (hat self.old) (hat self.new)) (declaration_at face.0 id (hat self.old)) ≡ Some r) }
        ensures after { OnOk result (hat self.new ≡ unregistered face.0 id (hat self.old)) }
        ensures err { OnErr result (hat self.new ≡ hat self.old) };

    /// What routers are told of the gateway's own entry on a key, which was one information, or none, and is what the other regions now
    /// have there, merged.
    fn propagate_queryable(
        &self,
        key: &str,
        before: Option<QueryableInfoType>,
        other: Option<QueryableInfoType>,
    ) -> Result<TellingList, OutOfMemory>
        ensures { IfOk result (λ ts. ts ≡ in_routers (strategy_at (hat self.now)) (own_told key.now before other (hat self.now)) []) };

    /// What routers are told of the gateway's own entry on a key where the other regions have nothing there any more.
    fn unpropagate_queryable(
        &self,
        key: &str,
        before: Option<QueryableInfoType>,
    ) -> Result<TellingList, OutOfMemory>
        ensures { IfOk result (λ ts. ts ≡ in_routers (strategy_at (hat self.now)) (own_told key.now before None (hat self.now)) []) };

    /// What routers are told of it where the last queryable on the key is of this region: the other regions have nothing there.
    fn unpropagate_last_non_owned_queryable(
        &self,
        key: &str,
        before: Option<QueryableInfoType>,
    ) -> Result<TellingList, OutOfMemory>
        ensures { IfOk result (λ ts. ts ≡ in_routers (strategy_at (hat self.now)) (own_told key.now before None (hat self.now)) []) };

    /// What the region has on a key, merged. Takes no memory.
    fn remote_queryables_of(&self, key: &str) -> Option<QueryableInfoType>
        ensures { result ≡ region_info key.now (hat self.now) };

    /// What the region has on each of its keys, by text.
    fn remote_queryables(&self, alloc: Global) -> Result<InfoList, OutOfMemory>
        ensures infos { IfOk result (λ l. l ≡ remote_queryables None (hat self.now)) }
        ensures valid { IfOk result (AllByRecursion (λ e. is_key e.0 ≡ true)) };

    /// What the region has on those of its keys that meet a key, or on all, by text.
    fn remote_queryables_matching(
        &self,
        alloc: Global,
        key: Option<&Key>,
    ) -> Result<InfoList, OutOfMemory>
        ensures infos { IfOk result (λ l. l ≡ remote_queryables (option_copied key.entry) (hat self.now)) }
        ensures valid { IfOk result (AllByRecursion (λ e. is_key e.0 ≡ true)) };

    /// Who declared each key of the region, by text.
    fn sourced_queryables(&self, alloc: Global) -> Result<SourceList, OutOfMemory>
        ensures { IfOk result (λ l. l ≡ sourced_queryables (hat self.now)) };

    /// Who asks for each key of the region, by text.
    fn sourced_queriers(
        &self,
        alloc: Global,
        interests: &Interests,
    ) -> Result<SourceList, OutOfMemory>
        ensures { IfOk result (λ l. l ≡ sourced_queriers interests.now (hat self.now)) };

    /// Whom the region offers for a key to an asker of a region, by distance, key text and face.
    fn compute_query_route(
        &self,
        src: &Region,
        key: &str,
        node: Option<u16>,
    ) -> Result<OfferList, OutOfMemory>
        requires { IsTrue (is_key key.now) }
        ensures { IfOk result (λ o. o ≡ offers_of (hat self.now) src.now key.now node) };
}

impl HatQueriesTrait for Hat {
    ghost hat = { λ h. h };

    fn register_queryable(
        &mut self,
        face: FaceId,
        id: u32,
        key: &Key,
        node: u16,
        info: QueryableInfoType,
    ) -> Result<(), HatRefusal> {
        Hat::register_queryable(self, face, id, key, node, info)
    }

    fn unregister_queryable(
        &mut self,
        face: FaceId,
        id: u32,
        key: Option<&Key>,
        node: u16,
    ) -> Result<UnregisterEntityResult, HatRefusal> {
        Hat::unregister_queryable(self, face, id, key, node)
    }

    fn propagate_queryable(
        &self,
        key: &str,
        before: Option<QueryableInfoType>,
        other: Option<QueryableInfoType>,
    ) -> Result<TellingList, OutOfMemory> {
        Hat::propagate_queryable(self, key, before, other)
    }

    fn unpropagate_queryable(
        &self,
        key: &str,
        before: Option<QueryableInfoType>,
    ) -> Result<TellingList, OutOfMemory> {
        Hat::propagate_queryable(self, key, before, None)
    }

    fn unpropagate_last_non_owned_queryable(
        &self,
        key: &str,
        before: Option<QueryableInfoType>,
    ) -> Result<TellingList, OutOfMemory> {
        Hat::propagate_queryable(self, key, before, None)
    }

    fn remote_queryables_of(&self, key: &str) -> Option<QueryableInfoType> {
        Hat::remote_queryables_of(self, key)
    }

    fn remote_queryables(&self, alloc: Global) -> Result<InfoList, OutOfMemory> {
        infos::remote_queryables(alloc, self)
    }

    fn remote_queryables_matching(
        &self,
        alloc: Global,
        key: Option<&Key>,
    ) -> Result<InfoList, OutOfMemory> {
        infos::remote_queryables_matching(alloc, self, key)
    }

    fn sourced_queryables(&self, alloc: Global) -> Result<SourceList, OutOfMemory> {
        queryables::sourced_queryables(alloc, self)
    }

    fn sourced_queriers(
        &self,
        alloc: Global,
        interests: &Interests,
    ) -> Result<SourceList, OutOfMemory> {
        queriers::sourced_queriers(alloc, self, interests)
    }

    fn compute_query_route(
        &self,
        src: &Region,
        key: &str,
        node: Option<u16>,
    ) -> Result<OfferList, OutOfMemory> {
        Hat::compute_query_route(self, src, key, node)
    }
}
