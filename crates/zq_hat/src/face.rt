//! One face of a hat.
ghost use Rattle.std.specs.Prelude.{◌≡◌, OnOk, OnErr, IfOk, map, None, true};
ghost use Rattle.std.specs.List.{AllByRecursion};
ghost use Rattle.std.specs.Option.{option_copied, option_map};
ghost use Rattle.zq_key.specs.Key.{is_key};
ghost use Rattle.zq_strategy.specs.Kept.{declaration, declare, withdraw, new_face, key_of};
ghost use Rattle.zq_strategy.specs.Marks.{is_finalized, marked};
ghost use Rattle.zq_strategy.specs.Routers.{zid_at};

use std::alloc::Global;
use std::collections::{BTreeMap, BTreeSet};
use std::marker::Model;
use zq_index::text_set::{copy_texts, put_text, take_text};
use zq_key::Key;
use zq_key::items::Items;
use zq_key::memory::OutOfMemory;
use zq_key::message::{Bound, Mode, NodeId, QueryableInfoType, TextList, Zid};
use zq_key::text::Text;
use zq_strategy::types::{Declaration, FaceRecord, FinalMark, NodeIds};

/// A face of a hat, with what it declared.
pub struct HatFace {
    zid: Zid,
    mode: Mode,
    remote_bound: Bound,
    declared: BTreeMap<u32, Declaration>,
    last_told: u32,
    initial: bool,
    finalized: BTreeSet<String>,
    nodes: NodeIds,
}

impl Drop for HatFace {
    fn drop(self) {
        let HatFace {
            zid,
            mode,
            remote_bound,
            declared,
            last_told,
            initial,
            finalized,
            nodes,
        } = self;
    }
}

impl Model for HatFace {
    ghost use Rattle.std.specs.Prelude.{map};
    ghost use Rattle.std.specs.String.{string_bytes};
    ghost use Rattle.zq_strategy.specs.State.{FaceState};

    ghost Value = { FaceState };

    ghost view = { λ f. record {
      zid = f.zid;
      mode = f.mode;
      remote_bound = f.remote_bound;
      declared = f.declared.entries;
      last_told = f.last_told;
      initial = f.initial;
      finalized = map string_bytes f.finalized.keys;
      nodes = f.nodes;
    } };
}

/// Copies of the keys.
fn keys(declared: &BTreeMap<u32, Declaration>, alloc: Global) -> Result<TextList, OutOfMemory>
    ensures keys { IfOk result (λ ks. ks ≡ map key_of declared.now.entries) }
    ensures valid { IfOk result (AllByRecursion (λ k. is_key k ≡ true)) }
{
    let mut keys = Items::new(alloc);
    for (_, declaration) in declared {
        keys.push(Text::new(alloc, declaration.key.as_str())?)?;
    }
    Ok(keys)
}

/// Equal declarations.
#[tactic(auto, using(zq_index::proofs::Rebuilt::rebuilt_numbers))]
fn copy_declared(
    declared: &BTreeMap<u32, Declaration>,
    alloc: Global,
) -> Result<BTreeMap<u32, Declaration>, OutOfMemory>
    ensures { IfOk result (λ d. d.entries ≡ declared.now.entries) }
{
    let mut made = BTreeMap::new(alloc);
    for (id, declaration) in declared {
        made.insert(*id, declaration.copy(alloc)?)?;
    }
    Ok(made)
}

impl HatFace {
    /// A face that has declared nothing and was told nothing.
    pub fn new(alloc: Global, opened: FaceRecord, told_start: u32) -> HatFace
        ensures { result ≡ new_face opened told_start }
    {
        HatFace {
            zid: opened.zid,
            mode: opened.mode,
            remote_bound: opened.remote_bound,
            declared: BTreeMap::new(alloc),
            last_told: told_start,
            initial: false,
            finalized: BTreeSet::new(alloc),
            nodes: NodeIds::empty(alloc),
        }
    }

    /// An equal face.
    pub fn copy(&self, alloc: Global) -> Result<HatFace, OutOfMemory>
        ensures { IfOk result (λ f. f ≡ self.now) }
    {
        Ok(HatFace {
            zid: self.zid,
            mode: self.mode,
            remote_bound: self.remote_bound,
            declared: copy_declared(&self.declared, alloc)?,
            last_told: self.last_told,
            initial: self.initial,
            finalized: copy_texts(&self.finalized)?,
            nodes: self.nodes.copy(alloc)?,
        })
    }

    /// The id of the remote.
    pub fn zid(&self) -> Zid
        ensures { result ≡ self.now.zid }
    {
        self.zid
    }

    /// The mode with which the face was opened.
    pub fn mode(&self) -> Mode
        ensures { result ≡ self.now.mode }
    {
        self.mode
    }

    /// The id that a node number of the face stands for.
    pub fn zid_at(&self, node: NodeId) -> Option<Zid>
        ensures { result ≡ zid_at node self.now }
    {
        self.nodes.ids.get(usize::from(node)).copied()
    }

    /// The face has this node table from now on.
    pub fn set_nodes(&mut self, nodes: NodeIds)
        ensures { self.new ≡ record self.old { nodes = nodes } }
    {
        self.nodes = nodes;
    }

    /// Which way the remote lies.
    pub fn remote_bound(&self) -> Bound
        ensures { result ≡ self.now.remote_bound }
    {
        self.remote_bound
    }

    /// Whether all that the face had to declare at its opening has come.
    pub fn is_initial(&self) -> bool
        ensures { result ≡ self.now.initial }
    {
        self.initial
    }

    /// Whether all that the face had to declare on the key has come.
    #[tactic(auto, using(zq_index::proofs::Texts::texts_any))]
    pub fn is_finalized(&self, key: &str) -> bool
        ensures { result ≡ is_finalized key.now self.now }
    {
        self.finalized.contains(key)
    }

    /// Sets or unsets a mark.
    pub fn mark(&mut self, alloc: Global, mark: &FinalMark, set: bool) -> Result<(), OutOfMemory>
        ensures ok { OnOk result (self.new ≡ marked mark.now set self.old) }
        ensures err { OnErr result (self.new ≡ self.old) }
    {
        match mark {
            FinalMark::Initial => {
                self.initial = set;
                Ok(())
            }
            FinalMark::Key(key) => {
                if set {
                    return put_text(&mut self.finalized, alloc, key.as_str());
                }
                take_text(&mut self.finalized, key.as_str());
                Ok(())
            }
        }
    }

    /// Copies of the keys that the face declared.
    pub fn keys(&self, alloc: Global) -> Result<TextList, OutOfMemory>
        ensures keys { IfOk result (λ ks. ks ≡ map key_of self.now.declared) }
        ensures valid { IfOk result (AllByRecursion (λ k. is_key k ≡ true)) }
    {
        keys(&self.declared, alloc)
    }

    /// The declaration of the id.
    pub fn declaration(&self, id: u32) -> Option<&Declaration>
        ensures { option_copied result ≡ declaration id self.now }
    {
        self.declared.get(&id)
    }

    /// What the face declared, by id.
    pub fn declared(&self) -> &BTreeMap<u32, Declaration>
        ensures { result.now.entries ≡ self.now.declared }
    {
        &self.declared
    }

    /// The face declares a key under an id; what it declared under the same id is replaced.
    pub fn declare(&mut self, id: u32, key: Key, info: QueryableInfoType) -> Result<(), OutOfMemory>
        ensures ok { OnOk result (self.new ≡ declare id key info self.old) }
        ensures absent { OnErr result (declaration id self.old ≡ None) }
        ensures err { OnErr result (self.new ≡ self.old) }
    {
        match self.declared.insert(id, Declaration { key, info }) {
            Ok(_) => Ok(()),
            Err(_) => Err(OutOfMemory),
        }
    }

    /// The declaration of the id goes.
    pub fn withdraw(&mut self, id: u32) -> Option<Declaration>
        ensures taken { result ≡ declaration id self.old }
        ensures after { self.new ≡ withdraw id self.old }
    {
        self.declared.remove(&id)
    }
}
