//! What holds nodes of the names at one face.
ghost use Rattle.std.specs.Prelude.{◌≡◌, ◌≢◌, [], None, Some, false, IfOk, IfNone, OnOk, OnErr, option_copied, option_map, slice_get};
ghost use Rattle.std.specs.List.Sorted.{IsStrictlySortedBy};
ghost use Rattle.std.specs.Map.{keys_of};
ghost use Rattle.std.specs.Ordering.{nat_cmp};
ghost use Rattle.zq_tables.specs.FaceIds.{AreLive, next_id, of_id, with_id, without_id};
ghost use Rattle.zq_tables.specs.Holding.{Numbers, are_numbers, held_ids, with_node, without_node};

use crate::FaceNames;
use crate::holder::Holder;
use std::alloc::Global;
use std::collections::BTreeMap;
use std::marker::Model;
use zq_key::memory::OutOfMemory;
use zq_key::message::{Mapping, WireExpr};
use zq_names::{Names, ResourceId};

// The numbers of a face, and the nodes that its queryables and its interests hold, by their ids.
pub(crate) struct FaceNodes {
    numbers: FaceNames,
    queryables: BTreeMap<u32, u64>,
    interests: BTreeMap<u32, u64>,
}

impl Drop for FaceNodes {
    fn drop(self) {
        let FaceNodes {
            numbers,
            queryables,
            interests,
        } = self;
    }
}

impl Model for FaceNodes {
    ghost use Rattle.zq_tables.specs.Holding.{FaceHolds};

    ghost Value = { FaceHolds };

    ghost view = { λ f. record { numbers = f.numbers; queryables = f.queryables.entries; interests = f.interests.entries } };
}

impl FaceNodes {
    // Nothing holds a node.
    pub(crate) fn new(alloc: Global) -> FaceNodes
        ensures theirs { result.numbers.theirs ≡ [] }
        ensures ours { result.numbers.ours ≡ [] }
        ensures queryables { result.queryables ≡ [] }
        ensures interests { result.interests ≡ [] }
    {
        FaceNodes {
            numbers: FaceNames::new(alloc),
            queryables: BTreeMap::new(alloc),
            interests: BTreeMap::new(alloc),
        }
    }

    // The numbers.
    pub(crate) fn numbers(&self) -> &FaceNames
        ensures { result.now ≡ self.now.numbers }
    {
        &self.numbers
    }

    // The node of an id.
    pub(crate) fn node(&self, holder: Holder, id: u32) -> Option<ResourceId>
        ensures { option_map (λ r. r.0) result ≡ of_id (held_ids holder self.now) id }
    {
        match holder {
            Holder::Number(side) => self.numbers.node_of(side, id),
            Holder::Queryable => node_of(self.queryables.get(&id)),
            Holder::Interest => node_of(self.interests.get(&id)),
        }
    }

    // The least id of a holder.
    pub(crate) fn first(&self, holder: Holder) -> Option<u32>
        ensures { result ≡ slice_get (keys_of (held_ids holder self.now)) 0 }
    {
        match holder {
            Holder::Number(Mapping::Sender) => wide(self.numbers.first_id()),
            Holder::Number(Mapping::Receiver) => wide(self.numbers.first_given()),
            Holder::Queryable => self.queryables.keys().next().copied(),
            Holder::Interest => self.interests.keys().next().copied(),
        }
    }

    // An id is let go; its node, which stays as it is.
    pub(crate) fn take(&mut self, holder: Holder, id: u32) -> Option<ResourceId>
        ensures node { option_map (λ r. r.0) result ≡ of_id (held_ids holder self.old) id }
        ensures ids { self.new ≡ without_node holder id self.old }
        ensures absent { IfNone result (self.new ≡ self.old) }
    {
        match holder {
            Holder::Number(side) => self.numbers.take(side, id),
            Holder::Queryable => take_node(&mut self.queryables, id),
            Holder::Interest => take_node(&mut self.interests, id),
        }
    }

    // The face declares a new number for a whole text, of which the node is made.
    pub(crate) fn declare(
        &mut self,
        alloc: Global,
        names: &mut Names,
        id: u16,
        wire: &WireExpr,
    ) -> Result<ResourceId, OutOfMemory>
        requires live { AreLive names.old self.old.numbers }
        requires new { of_id self.old.numbers.theirs id ≡ None }
        requires whole { wire.now.scope ≡ 0 }
        ensures ok { IfOk result (λ r. Numbers names.old names.new self.old.numbers self.new.numbers id wire.now.suffix r.0) }
        ensures queryables { self.new.queryables ≡ self.old.queryables }
        ensures interests { self.new.interests ≡ self.old.interests }
        ensures names { OnErr result (names.new ≡ names.old) }
        ensures err { OnErr result (self.new.numbers ≡ self.old.numbers) }
    {
        if let Err(_) = self.numbers.register_expr(alloc, names, id, wire) {
            return Err(OutOfMemory);
        }
        match self.numbers.get_mapping(id, Mapping::Sender) {
            Some(node) => Ok(node),
            None => unreachable!(),
        }
    }

    // The least free number, which the gateway declares to the face, holds a node.
    pub(crate) fn put_given(&mut self, id: u16, node: ResourceId) -> Result<(), OutOfMemory>
        requires { next_id self.old.numbers.theirs self.old.numbers.ours ≡ Some id }
        ensures ok { OnOk result (self.new ≡ with_node (Holder.Number Mapping.Receiver) id node.0 self.old) }
        ensures err { OnErr result (self.new ≡ self.old) }
    {
        self.numbers.declare(id, node)
    }

    // An id of a holder that is no number holds a node.
    pub(crate) fn put(
        &mut self,
        holder: Holder,
        id: u32,
        node: ResourceId,
    ) -> Result<(), OutOfMemory>
        requires unnumbered { are_numbers holder ≡ false }
        ensures ok { OnOk result (self.new ≡ with_node holder id node.0 self.old) }
        ensures err { OnErr result (self.new ≡ self.old) }
    {
        match holder {
            Holder::Number(_) => unreachable!(),
            Holder::Queryable => put_node(&mut self.queryables, id, node),
            Holder::Interest => put_node(&mut self.interests, id, node),
        }
    }
}

fn wide(id: Option<u16>) -> Option<u32>
    ensures { result ≡ id }
{
    match id {
        Some(id) => Some(id as u32),
        None => None,
    }
}

fn node_of(node: Option<&u64>) -> Option<ResourceId>
    ensures { option_map (λ r. r.0) result ≡ option_copied node.entry }
{
    match node {
        Some(node) => Some(ResourceId(*node)),
        None => None,
    }
}

fn put_node(nodes: &mut BTreeMap<u32, u64>, id: u32, node: ResourceId) -> Result<(), OutOfMemory>
    ensures ok { OnOk result (nodes.new.entries ≡ with_id nodes.old.entries id node.0) }
    ensures err { OnErr result (nodes.new.entries ≡ nodes.old.entries) }
{
    match nodes.insert(id, node.0) {
        Ok(_) => Ok(()),
        Err(_) => Err(OutOfMemory),
    }
}

fn take_node(nodes: &mut BTreeMap<u32, u64>, id: u32) -> Option<ResourceId>
    ensures node { option_map (λ r. r.0) result ≡ of_id nodes.old.entries id }
    ensures ids { nodes.new.entries ≡ without_id nodes.old.entries id }
    ensures absent { IfNone result (nodes.new.entries ≡ nodes.old.entries) }
{
    match nodes.remove(&id) {
        Some(node) => Some(ResourceId(node)),
        None => None,
    }
}
