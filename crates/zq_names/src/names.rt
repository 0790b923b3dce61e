//! The table of names.
ghost use Rattle.std.specs.Prelude.{◌≡◌, ◌≢◌, ℕ, ◌+◌, ◌<◌, ◌^◌, ◌++◌, ◌↔◌, [], ◌∷◌, IsTrue, IfOk, IfErr, ◌⊎◌, IfSome, IfNone, OnOk, OnErr, Err, Some, true, false, slice_get, length, drop, map, filter};
ghost use Rattle.std.specs.List.{All, AllPairs, Contains};
ghost use Rattle.std.specs.String.{string_bytes};
ghost use Rattle.zq_key.specs.Key.{is_key as key_of};
ghost use Rattle.zq_names.specs.Names.{IsLive, IsNames, entry_at, entry_of, change_at, with_hold, without_hold, with_context, texts, HasText, Adds, Makes, Cleans, ids};
ghost use Rattle.zq_names.specs.Closing.{Closes};
ghost use Rattle.zq_names.specs.Linking.{HasContext, matched};
ghost use Rattle.zq_names.specs.Keeping.{AllStay, ChangesAt, NoneCome};
ghost use Rattle.zq_names.specs.Idle.{IdleAt, NoneIdle};
ghost use Rattle.zq_names.specs.Texts.{heads, last_part, nonwild};
ghost use Rattle.zq_names.specs.Matching.{number, is_match};

use crate::close::close_at;
use crate::edit::{add_text, clean_from};
use crate::linking::link;
use crate::matching::matches_of;
use crate::node::{Node, ResourceId, ResourceList};
use crate::order::{cut_before_star, last_slash, place_of, search};
use crate::part::Part;
use crate::refusal::NameRefusal;
use crate::{Seat, Tree};
use slab::Slab;
use std::alloc::Global;
use std::marker::Model;
use zq_key::is_key;
use zq_key::memory::OutOfMemory;

/// The texts that stand for something, in order, each with its marks: whether it has a context, how often it is held, and its matches.
///
/// With a text, each part of it that ends before a `/` is there. The root is the empty text. (`Resource`, `Tables::root_res`)
pub struct Names {
    nodes: Slab<Node>,
    order: Tree,
    alloc: Global,
}

impl Drop for Names {
    fn drop(self) {
        let Names {
            nodes,
            order,
            alloc,
        } = self;
    }
}

impl Model for Names {
    ghost use Rattle.std.specs.Prelude.{List};
    ghost use Rattle.zq_names.specs.Names.{NameEntry, IsSound, rows};

    ghost Value = { List NameEntry };

    ghost view = { λ s. rows s.nodes.slots s.order };

    ghost invariant = { λ s. IsSound s.nodes.slots s.order };
}

// Two texts in a row.
fn joined(alloc: Global, head: &str, tail: &str) -> Result<String, OutOfMemory>
    ensures { IfOk result (λ s. string_bytes s ≡ head.now ++ tail.now) }
{
    let mut text = String::from_str(alloc, head)?;
    text.push_str(tail)?;
    Ok(text)
}

impl Names {
    /// A table of the root alone, without marks.
    pub fn new(alloc: Global) -> Result<Names, OutOfMemory>
        ensures root { IfOk result (λ ns. texts ns ≡ [] ∷ []) }
        ensures unheld { IfOk result (λ ns. map (λ e. e.holds) ns ≡ 0 ∷ []) }
        ensures unmarked { IfOk result (λ ns. map (λ e. e.context) ns ≡ false ∷ []) }
        ensures unmatched { IfOk result (λ ns. map (λ e. e.matches) ns ≡ [] ∷ []) }
    {
        let mut nodes = Slab::new(alloc);
        let mut order = Tree::new();
        let text = Part::new(alloc, "")?;
        let seat = Seat::new(alloc)?;
        nodes.reserve(1)?;
        let root = nodes.insert_reserved(Node {
            text,
            context: false,
            holds: 0,
            matches: Vec::new(alloc),
            former: Vec::new(alloc),
        });
        order.insert(0, root, seat);
        Ok(Names {
            nodes,
            order,
            alloc,
        })
    }

    /// An equal table, with the same numbers.
    pub fn copy(&self, alloc: Global) -> Result<Names, OutOfMemory>
        ensures { IfOk result (λ names. names ≡ self.now) }
    {
        Ok(Names {
            nodes: self.nodes.clone()?,
            order: self.order.copy(alloc)?,
            alloc,
        })
    }

    /// How many texts there are.
    pub fn len(&self) -> usize
        ensures len { result ≡ length self.now }
        ensures names { IsNames (ids self.now) (texts self.now) }
        ensures distinct { AllPairs ◌≢◌ (texts self.now) }
    {
        self.order.len()
    }

    /// Whether the number is a node's.
    pub fn is_live(&self, r: ResourceId) -> bool
        ensures { IsTrue result ↔ IsLive self.now r }
    {
        self.nodes.contains(r.0 as usize)
    }

    /// The root's number.
    pub fn root(&self) -> ResourceId
        ensures { HasText self.now result [] }
    {
        let _table = &self.order;
        ResourceId(0)
    }

    /// The node's text.
    pub fn expr(&self, r: ResourceId) -> &str
        requires { IsLive self.now r }
        ensures { result.now ≡ (entry_at self.now r.0).text }
    {
        self.nodes[r.0 as usize].text.as_str()
    }

    /// The last chunk of the node's text, with the `/` before it where it has one.
    pub fn suffix(&self, r: ResourceId) -> &str
        requires { IsLive self.now r }
        ensures { result.now ≡ last_part (entry_at self.now r.0).text }
    {
        let text = self.expr(r);
        match last_slash(text.as_bytes()) {
            Some(k) => &text[k..],
            None => text,
        }
    }

    /// The node's text as a key, or None for the root.
    pub fn keyexpr(&self, r: ResourceId) -> Option<&str>
        requires { IsLive self.now r }
        ensures root { IfNone result ((entry_at self.now r.0).text ≡ []) }
        ensures text { IfSome result (λ t. t.now ≡ (entry_at self.now r.0).text) }
        ensures key { IfSome result (λ t. key_of t.now ≡ true) }
    {
        let node = &self.nodes[r.0 as usize];
        let text = node.text.as_str();
        if text.is_empty() {
            return None;
        }
        Some(text)
    }

    /// The node of the part of the text that stands before its first chunk with a `*`, and what follows that part.
    ///
    /// There is no node, and all follows, where the part is empty and the text isn't.
    pub fn nonwild_prefix(&self, r: ResourceId) -> (Option<ResourceId>, &str)
        requires { IsLive self.now r }
        ensures prefix { IfSome result.0 (λ p. HasText self.now p (nonwild (entry_at self.now r.0).text)) }
        ensures some { IfSome result.0 (λ _. nonwild (entry_at self.now r.0).text ≡ [] → (entry_at self.now r.0).text ≡ []) }
        ensures none { IfNone result.0 ((nonwild (entry_at self.now r.0).text ≡ []) × (0 < length (entry_at self.now r.0).text)) }
        ensures rest { result.1.now ≡ drop (length (nonwild (entry_at self.now r.0).text)) (entry_at self.now r.0).text }
    {
        let text = self.expr(r);
        match cut_before_star(text) {
            None => (Some(r), ""),
            Some(0) => (None, text),
            Some(k) => (self.get_resource(self.root(), &text[..k]), &text[k..]),
        }
    }

    /// Whether the node has a context.
    pub fn has_context(&self, r: ResourceId) -> bool
        requires { IsLive self.now r }
        ensures { result ≡ (entry_at self.now r.0).context }
    {
        self.nodes[r.0 as usize].context
    }

    /// Gives the node a context.
    pub fn upgrade_resource(&mut self, r: ResourceId)
        requires { IsLive self.old r }
        ensures all { self.new ≡ change_at self.old r.0 with_context }
        ensures entries { ChangesAt self.old self.new r.0 with_context }
    {
        let node = &mut self.nodes[r.0 as usize];
        node.context = true;
    }

    /// Counts one more hold on the node.
    pub fn hold(&mut self, r: ResourceId)
        requires live { IsLive self.old r }
        requires room { (entry_at self.old r.0).holds + 1 < 2 ^ 128 }
        ensures all { self.new ≡ change_at self.old r.0 with_hold }
        ensures entries { ChangesAt self.old self.new r.0 with_hold }
    {
        let node = &mut self.nodes[r.0 as usize];
        node.holds += 1;
    }

    /// Counts one hold less on the node.
    pub fn unhold(&mut self, r: ResourceId)
        requires live { IsLive self.old r }
        requires held { 0 < (entry_at self.old r.0).holds }
        ensures all { self.new ≡ change_at self.old r.0 without_hold }
        ensures entries { ChangesAt self.old self.new r.0 without_hold }
    {
        let node = &mut self.nodes[r.0 as usize];
        node.holds -= 1;
    }

    // The node of the node's text followed by the suffix, or a place near to which it would go.
    fn find(&self, from: ResourceId, suffix: &str) -> Result<ResourceId, usize>
        requires { IsLive self.now from }
        ensures found { IfOk result (λ r. HasText self.now r ((entry_at self.now from.0).text ++ suffix.now)) }
        ensures only { IfOk result (λ r. (i : ℕ) → Contains (ids self.now) i → (entry_at self.now i).text ≡ (entry_at self.now from.0).text ++ suffix.now → i ≡ r.0) }
        ensures absent { OnErr result (Contains (texts self.now) ((entry_at self.now from.0).text ++ suffix.now) → ⊥) }
        ensures names { IsNames (ids self.now) (texts self.now) }
        ensures distinct { AllPairs ◌≢◌ (ids self.now) }
    {
        let head = self.expr(from);
        match search(&self.nodes, &self.order, head, suffix) {
            Ok(at) => Ok(ResourceId(self.order.get(at) as u64)),
            Err(at) => Err(at.saturating_sub(1)),
        }
    }

    /// The node of the node's text followed by the suffix.
    pub fn get_resource(&self, from: ResourceId, suffix: &str) -> Option<ResourceId>
        requires { IsLive self.now from }
        ensures found { IfSome result (λ r. HasText self.now r ((entry_at self.now from.0).text ++ suffix.now)) }
        ensures only { IfSome result (λ r. (i : ℕ) → Contains (ids self.now) i → (entry_at self.now i).text ≡ (entry_at self.now from.0).text ++ suffix.now → i ≡ r.0) }
        ensures absent { IfNone result (Contains (texts self.now) ((entry_at self.now from.0).text ++ suffix.now) → ⊥) }
        ensures names { IsNames (ids self.now) (texts self.now) }
        ensures distinct { AllPairs ◌≢◌ (ids self.now) }
    {
        self.find(from, suffix).ok()
    }

    /// The node of the node's text followed by the suffix, as `get_resource`, which takes no memory either.
    pub fn get_resource_ref(&self, from: ResourceId, suffix: &str) -> Option<ResourceId>
        requires { IsLive self.now from }
        ensures found { IfSome result (λ r. HasText self.now r ((entry_at self.now from.0).text ++ suffix.now)) }
        ensures absent { IfNone result (Contains (texts self.now) ((entry_at self.now from.0).text ++ suffix.now) → ⊥) }
    {
        self.get_resource(from, suffix)
    }

    // The node of the node's text followed by the suffix, where that is a key and has one; or a place near to which it would go.
    fn get_key(&self, from: ResourceId, suffix: &str) -> Result<ResourceId, usize>
        requires { IsLive self.now from }
        ensures named { IfOk result (λ r. HasText self.now r ((entry_at self.now from.0).text ++ suffix.now)) }
        ensures adds { IfOk result (λ _. Adds self.now self.now (heads ((entry_at self.now from.0).text ++ suffix.now))) }
        ensures key { IfOk result (λ _. key_of ((entry_at self.now from.0).text ++ suffix.now) ≡ true) }
    {
        let r = self.find(from, suffix)?;
        match self.keyexpr(r) {
            Some(_) => Ok(r),
            None => Err(0),
        }
    }

    /// The node of the node's text followed by the suffix, made with the parts that end before a `/`, and given a context.
    ///
    /// No memory is taken where the node is there.
    pub fn make_resource(
        &mut self,
        from: ResourceId,
        suffix: &str,
    ) -> Result<ResourceId, NameRefusal>
        requires { IsLive self.old from }
        ensures made { IfOk result (λ r. Makes self.old self.new r ((entry_at self.old from.0).text ++ suffix.now)) }
        ensures named { IfOk result (λ r. HasText self.new r ((entry_at self.old from.0).text ++ suffix.now)) }
        ensures kept { OnOk result (AllStay self.old self.new) }
        ensures lean { IfOk result (λ r. NoneIdle self.old → IdleAt self.new r.0) }
        ensures key { OnOk result (key_of ((entry_at self.old from.0).text ++ suffix.now) ≡ true) }
        ensures invalid { result ≡ Err NameRefusal.InvalidKeyExpr → key_of ((entry_at self.old from.0).text ++ suffix.now) ≡ false }
        ensures kind { IfErr result (λ e. (e ≡ NameRefusal.InvalidKeyExpr) ⊎ (e ≡ NameRefusal.OutOfMemory)) }
        ensures only { IfErr result (λ e. key_of ((entry_at self.old from.0).text ++ suffix.now) ≡ true → e ≡ NameRefusal.OutOfMemory) }
        ensures refused { OnErr result (self.new ≡ self.old) }
    {
        let near = match self.get_key(from, suffix) {
            Ok(r) => {
                self.upgrade_resource(r);
                return Ok(r);
            }
            Err(near) => near,
        };
        let text = joined(self.alloc, self.expr(from), suffix)?;
        if !is_key(text.as_str()) {
            return Err(NameRefusal::InvalidKeyExpr);
        }
        let id = add_text(
            self.alloc,
            &mut self.nodes,
            &mut self.order,
            near,
            text.as_str(),
        )?;
        let r = ResourceId(id as u64);
        self.upgrade_resource(r);
        Ok(r)
    }

    /// Takes out the node and then its parents, as far as each isn't held, has no text below it and isn't the root.
    pub fn clean(&mut self, r: ResourceId)
        requires { IsLive self.old r }
        ensures cleans { Cleans self.old (entry_at self.old r.0).text self.new }
        ensures held { (i : ℕ) → Contains (ids self.old) i → 0 < (entry_at self.old i).holds → Contains (ids self.new) i }
        ensures kept { NoneCome self.old self.new }
        ensures lean { IdleAt self.old r.0 → NoneIdle self.new }
    {
        let place = place_of(&self.nodes, &self.order, r.0 as usize);
        clean_from(&mut self.nodes, &mut self.order, place);
    }

    /// Takes out all nodes below the node, and the node unless it is the root, held or not. (`Resource::close`)
    pub fn close(&mut self, r: ResourceId)
        requires { IsLive self.old r }
        ensures closes { Closes self.old (entry_at self.old r.0).text self.new }
        ensures kept { NoneCome self.old self.new }
    {
        let place = place_of(&self.nodes, &self.order, r.0 as usize);
        close_at(&mut self.nodes, &mut self.order, place);
    }

    /// The node's matches. Each has a context, and so has a node that has any.
    pub fn matches(&self, r: ResourceId) -> &[ResourceId]
        requires { IsLive self.now r }
        ensures matches { result.now ≡ (entry_at self.now r.0).matches }
        ensures contexts { All (HasContext self.now) result.now }
        ensures none { (entry_at self.now r.0).context ≡ false → result.now ≡ [] }
    {
        let node = &self.nodes[r.0 as usize];
        &node.matches
    }

    /// Makes the list the node's matches, and puts the node among the matches of each other member that lacks it.
    ///
    /// (`Resource::match_resource`)
    pub fn match_resource(
        &mut self,
        r: ResourceId,
        matches: ResourceList,
    ) -> Result<(), OutOfMemory>
        requires node { HasContext self.old r }
        requires members { All (HasContext self.old) matches }
        ensures ok { OnOk result (self.new ≡ map (matched r matches) self.old) }
        ensures kept { OnOk result (AllStay self.old self.new) }
        ensures err { OnErr result (self.new ≡ self.old) }
    {
        link(self.alloc, &mut self.nodes, r, matches.into_vec())?;
        Ok(())
    }

    /// The nodes with a context whose texts the key meets, by text.
    pub fn get_matches(&self, alloc: Global, key: &str) -> Result<ResourceList, OutOfMemory>
        requires { key_of key.now ≡ true }
        ensures { IfOk result (λ rs. map number rs ≡ ids (filter (is_match key.now) self.now)) }
    {
        Ok(ResourceList::from_vec(matches_of(alloc, &self.nodes, &self.order, key)?))
    }
}
