//! The ids of one side of a face, with a way back from a node to its least id.
ghost use Rattle.std.specs.Prelude.{◌≡◌, ◌↔◌, ◌++◌, ◌<◌, [], None, OnOk, OnErr, IfOk, IfErr, IfSome, IfNone, IsTrue, is_some, option_map, slice_get, true, false};
ghost use Rattle.std.specs.List.Sorted.{IsStrictlySortedBy};
ghost use Rattle.std.specs.Map.{keys_of};
ghost use Rattle.std.specs.Ordering.{nat_cmp};
ghost use Rattle.zq_key.specs.Key.{is_key as key_of};
ghost use Rattle.zq_names.specs.Names.{IsLive, HasText, Makes, entry_at};
ghost use Rattle.zq_names.specs.Keeping.{AllStay};
ghost use Rattle.zq_names.specs.Idle.{IdleAt, NoneIdle};
ghost use Rattle.zq_tables.specs.FaceIds.{of_id, with_id, without_id, least_id as least_of_node};
ghost use Rattle.zq_tables.specs.FaceIndex.{AreShort};

use crate::by_node::{least_of, put_in, seat_in, take_out};
use std::alloc::Global;
use std::collections::BTreeMap;
use std::marker::Model;
use zq_key::memory::OutOfMemory;
use zq_names::{NameRefusal, Names, ResourceId, Tree};

// Ids with their nodes, and the ids in the order of their nodes.
pub(crate) struct Ids {
    nodes: BTreeMap<u16, u64>,
    by_node: Tree,
    alloc: Global,
}

impl Drop for Ids {
    fn drop(self) {
        let Ids {
            nodes,
            by_node,
            alloc,
        } = self;
    }
}

impl Model for Ids {
    ghost use Rattle.std.specs.Prelude.{List, ℕ};
    ghost use Rattle.zq_tables.specs.FaceIndex.{IsIndex};

    ghost Value = { List (ℕ × ℕ) };

    ghost view = { λ s. s.nodes.entries };

    ghost invariant = { λ s. IsIndex s.nodes.entries s.by_node };
}

impl Ids {
    #[tactic(auto, using(crate::proofs::IndexLemmas::empty_index))]
    pub(crate) fn new(alloc: Global) -> Ids
        ensures { result ≡ [] }
    {
        Ids {
            nodes: BTreeMap::new(alloc),
            by_node: Tree::new(),
            alloc,
        }
    }

    // The node of the id; one of more than 16 bits has none.
    pub(crate) fn get(&self, id: u32) -> Option<u64>
        ensures { result ≡ of_id self.now id }
    {
        node_at(&self.nodes, id)
    }

    pub(crate) fn contains(&self, id: u16) -> bool
        ensures { result ≡ is_some (of_id self.now id) }
    {
        self.nodes.contains_key(&id)
    }

    // The least id of the node.
    pub(crate) fn least_id(&self, node: u64) -> Option<u16>
        ensures { result ≡ least_of_node self.now node }
    {
        let _ids = self.nodes.len();
        least_of(&self.nodes, &self.by_node, node)
    }

    // The least id.
    pub(crate) fn first(&self) -> Option<u16>
        ensures { result ≡ slice_get (keys_of self.now) 0 }
    {
        self.nodes.keys().next().copied()
    }

    // The ids, from the least on.
    pub(crate) fn ids(&self, alloc: Global) -> Result<Vec<u16>, OutOfMemory>
        ensures { IfOk result (λ ids. ids.items ≡ keys_of self.now) }
    {
        Ok(self.nodes.keys().copied().collect::<Vec<u16>>(alloc)?)
    }

    // Whether there is no id.
    pub(crate) fn is_empty(&self) -> bool
        ensures { IsTrue result ↔ (self.now ≡ []) }
    {
        self.nodes.is_empty()
    }

    // How many ids there are.
    pub(crate) fn len(&self) -> usize
        ensures { IsStrictlySortedBy nat_cmp (keys_of self.now) }
    {
        self.nodes.len()
    }

    // Lets a new id stand for the node.
    pub(crate) fn put(&mut self, id: u16, node: u64) -> Result<(), OutOfMemory>
        requires { of_id self.old id ≡ None }
        ensures ok { OnOk result (self.new ≡ with_id self.old id node) }
        ensures err { OnErr result (self.new ≡ self.old) }
    {
        let seat = seat_in(&self.by_node, self.alloc)?;
        put_id(&mut self.nodes, id, node)?;
        put_in(&self.nodes, &mut self.by_node, node, id, seat);
        Ok(())
    }

    // Lets a new id stand for a text, of which the node is made. Room for the id is taken first, in the map under the greatest number.
    pub(crate) fn put_made(
        &mut self,
        names: &mut Names,
        id: u16,
        from: ResourceId,
        suffix: &str,
    ) -> Result<ResourceId, NameRefusal>
        requires live { IsLive names.old from }
        requires new { of_id self.old id ≡ None }
        ensures put { IfOk result (λ r. self.new ≡ with_id self.old id r.0) }
        ensures made { IfOk result (λ r. Makes names.old names.new r ((entry_at names.old from.0).text ++ suffix.now)) }
        ensures named { IfOk result (λ r. HasText names.new r ((entry_at names.old from.0).text ++ suffix.now)) }
        ensures kept { OnOk result (AllStay names.old names.new) }
        ensures lean { IfOk result (λ r. NoneIdle names.old → IdleAt names.new r.0) }
        ensures only { IfErr result (λ e. key_of ((entry_at names.old from.0).text ++ suffix.now) ≡ true → e ≡ NameRefusal.OutOfMemory) }
        ensures err { OnErr result (self.new ≡ self.old) }
        ensures names { OnErr result (names.new ≡ names.old) }
    {
        let seat = seat_in(&self.by_node, self.alloc)?;
        put_id(&mut self.nodes, id, u64::MAX)?;
        match names.make_resource(from, suffix) {
            Ok(r) => {
                set_id(&mut self.nodes, id, r.0);
                put_in(&self.nodes, &mut self.by_node, r.0, id, seat);
                Ok(r)
            }
            Err(refusal) => {
                let _ = self.nodes.remove(&id);
                Err(refusal)
            }
        }
    }

    // Drops the id, and answers its node.
    pub(crate) fn take(&mut self, id: u32) -> Option<u64>
        ensures node { result ≡ of_id self.old id }
        ensures short { IfSome result (λ _. id < 65536) }
        ensures entries { self.new ≡ without_id self.old id }
        ensures absent { IfNone result (self.new ≡ self.old) }
    {
        let Some(node) = node_at(&self.nodes, id) else {
            return None;
        };
        take_out(&self.nodes, &mut self.by_node, node, id as u16);
        drop_id(&mut self.nodes, id as u16);
        Some(node)
    }

    #[tactic(auto, using(crate::proofs::IndexLemmas::same_index))]
    pub(crate) fn copy(&self, alloc: Global) -> Result<Ids, OutOfMemory>
        ensures { IfOk result (λ ids. ids ≡ self.now) }
    {
        Ok(Ids {
            nodes: self.nodes.clone()?,
            by_node: self.by_node.copy(alloc)?,
            alloc,
        })
    }
}

fn node_at(nodes: &BTreeMap<u16, u64>, id: u32) -> Option<u64>
    requires { AreShort nodes.now.entries }
    ensures node { result ≡ of_id nodes.now.entries id }
    ensures short { IfSome result (λ _. id < 65536) }
{
    if id > 65535 {
        return None;
    }
    nodes.get(&(id as u16)).copied()
}

fn drop_id(nodes: &mut BTreeMap<u16, u64>, id: u16)
    ensures entries { nodes.new.entries ≡ without_id nodes.old.entries id }
    ensures gone { of_id (without_id nodes.old.entries id) id ≡ None }
{
    let _ = nodes.remove(&id);
}

fn put_id(nodes: &mut BTreeMap<u16, u64>, id: u16, node: u64) -> Result<(), OutOfMemory>
    ensures ok { OnOk result (nodes.new.entries ≡ with_id nodes.old.entries id node) }
    ensures err { OnErr result (nodes.new.entries ≡ nodes.old.entries) }
{
    match nodes.insert(id, node) {
        Ok(_) => Ok(()),
        Err(_) => Err(OutOfMemory),
    }
}

// Gives an id that is there another node.
fn set_id(nodes: &mut BTreeMap<u16, u64>, id: u16, node: u64)
    requires { is_some (of_id nodes.old.entries id) ≡ true }
    ensures set { nodes.new.entries ≡ with_id nodes.old.entries id node }
    ensures ordered { IsStrictlySortedBy nat_cmp (keys_of nodes.old.entries) }
{
    let _ = nodes.insert(id, node);
}
