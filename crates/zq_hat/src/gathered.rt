//! The ids on each key, as they are gathered.
ghost use Rattle.std.specs.Prelude.{◌≡◌, [], None, IfOk, OnOk, is_some, true};
ghost use Rattle.std.specs.BTreeMap.{insert_entry};
ghost use Rattle.zq_index.specs.Texts.{at_text, text_cmp, texts_of};
ghost use Rattle.zq_hat.specs.Sources.{empty, extended, source_put, sources_at, sources_put, with_source};

use crate::sources::{Source, SourceList, Sources};
use std::alloc::Global;
use std::collections::BTreeMap;
use std::marker::Model;
use zq_key::items::Items;
use zq_key::memory::OutOfMemory;
use zq_key::text::Text;

/// The ids on each key, by its text.
#[derive(Drop)]
pub(crate) struct Gathered {
    keys: BTreeMap<String, Sources>,
}

impl Model for Gathered {
    ghost use Rattle.zq_index.specs.Texts.{texts_of};
    ghost use Rattle.zq_hat.specs.Sources.{SourceTexts};

    ghost Value = { SourceTexts };

    ghost view = { λ g. texts_of g.keys.entries };
}

/// The key has these ids.
#[tactic(auto, using(zq_index::proofs::Texts::text_insert))]
fn put_first(
    keys: &mut BTreeMap<String, Sources>,
    alloc: Global,
    key: &str,
    sources: Sources,
) -> Result<(), OutOfMemory>
    ensures { OnOk result (texts_of keys.new.entries ≡ insert_entry text_cmp (texts_of keys.old.entries) key.now sources) }
{
    let text = String::from_str(alloc, key)?;
    match keys.insert(text, sources) {
        Ok(_) => Ok(()),
        Err(_) => Err(OutOfMemory),
    }
}

/// An id joins those on a key that has some.
#[tactic(auto, using(zq_index::proofs::Texts::text_lookup))]
fn add_beside(
    keys: &mut BTreeMap<String, Sources>,
    key: &str,
    source: Source,
) -> Result<(), OutOfMemory>
    requires { is_some (at_text key.now (texts_of keys.old.entries)) ≡ true }
    ensures { OnOk result (texts_of keys.new.entries ≡ source_put key.now source (texts_of keys.old.entries)) }
{
    match keys.get_mut(key) {
        Some(sources) => match sources.add(source) {
            Ok(()) => Ok(()),
            Err(error) => Err(error),
        },
        None => unreachable!(),
    }
}

/// Ids join those on a key that has some.
#[tactic(auto, using(zq_index::proofs::Texts::text_lookup))]
fn extend_beside(
    keys: &mut BTreeMap<String, Sources>,
    alloc: Global,
    key: &str,
    more: &Sources,
) -> Result<(), OutOfMemory>
    requires { is_some (at_text key.now (texts_of keys.old.entries)) ≡ true }
    ensures { OnOk result (texts_of keys.new.entries ≡ sources_put key.now more.now (texts_of keys.old.entries)) }
{
    match keys.get_mut(key) {
        Some(sources) => match sources.extend(alloc, more) {
            Ok(()) => Ok(()),
            Err(error) => Err(error),
        },
        None => unreachable!(),
    }
}

impl Gathered {
    /// No keys.
    pub(crate) fn new(alloc: Global) -> Gathered
        ensures { result ≡ [] }
    {
        Gathered {
            keys: BTreeMap::new(alloc),
        }
    }

    /// Whether the key has some.
    #[tactic(auto, using(zq_index::proofs::Texts::text_lookup))]
    pub(crate) fn has(&self, key: &str) -> bool
        ensures { result ≡ is_some (at_text key.now self.now) }
    {
        self.keys.contains_key(key)
    }

    /// An id joins those on the key, behind them.
    pub(crate) fn add(
        &mut self,
        alloc: Global,
        key: &str,
        source: Source,
    ) -> Result<(), OutOfMemory>
        ensures { OnOk result (self.new ≡ source_put key.now source self.old) }
    {
        if self.has(key) {
            return add_beside(&mut self.keys, key, source);
        }
        let mut sources = Sources::empty(alloc);
        sources.add(source)?;
        put_first(&mut self.keys, alloc, key, sources)
    }

    /// Ids join those on the key, behind them.
    pub(crate) fn extend(
        &mut self,
        alloc: Global,
        key: &str,
        more: Sources,
    ) -> Result<(), OutOfMemory>
        ensures { OnOk result (self.new ≡ sources_put key.now more self.old) }
    {
        if self.has(key) {
            return extend_beside(&mut self.keys, alloc, key, &more);
        }
        put_first(&mut self.keys, alloc, key, more)
    }

    /// The keys with their ids, by text.
    pub(crate) fn into_list(self, alloc: Global) -> Result<SourceList, OutOfMemory>
        ensures { IfOk result (λ l. l ≡ self) }
    {
        let Gathered { keys } = self;
        let mut list = Items::new(alloc);
        for (key, sources) in keys {
            list.push((Text::from_string(key), sources))?;
        }
        Ok(list)
    }
}
