//! The pairs of a storage.
ghost use Rattle.std.specs.Prelude.{◌≡◌, ◌+◌, ◌++◌, ◌∷◌, ◌<◌, [], IfOk, IfSome, OnOk, OnErr, drop, if◌then◌else◌, is_some, length, map, slice_index, true};
ghost use Rattle.std.specs.BTreeMap.{insert_entry, is_at};
ghost use Rattle.std.specs.Map.{remove_entry};
ghost use Rattle.zq_index.specs.Texts.{at_text, text_cmp, texts_of};
ghost use Rattle.std.specs.String.{string_bytes};
ghost use Rattle.zq_key.specs.Key.{is_plain as is_plain_text};
ghost use Rattle.zq_store.specs.Held.{are_plain, meeting};
ghost use Rattle.zq_store.specs.Pair.{pair_of};
ghost use Rattle.zq_store.specs.Span.{IsSpan};

use std::alloc::Global;
use std::collections::BTreeMap;
use std::collections::btree_map::Range;
use std::marker::Model;
use std::ops::Bound;
use zq_key::items::Items;
use zq_key::memory::OutOfMemory;
use zq_key::pruning::may_be_wild;
use zq_key::text::{Bytes, Text};
use zq_key::{Key, intersects, is_plain};

/// Values by key, in the order of the keys, which are plain.
pub struct Held {
    pub(crate) pairs: BTreeMap<String, Bytes>,
    alloc: Global,
}

impl Drop for Held {
    fn drop(self) {
        let Held { pairs, alloc } = self;
    }
}

impl Model for Held {
    ghost use Rattle.std.specs.Prelude.{◌≡◌, true};
    ghost use Rattle.zq_store.specs.Held.{Pairs, are_plain};
    ghost use Rattle.zq_index.specs.Texts.{texts_of};

    ghost Value = { Pairs };

    ghost view = { λ h. texts_of h.pairs.entries };

    ghost invariant = { λ h. are_plain (texts_of h.pairs.entries) ≡ true };
}

/// A pair that a storage has.
#[derive(Debug, Drop)]
pub struct Pair {
    /// Its key.
    pub key: Text,
    /// Its value.
    pub value: Bytes,
}

/// All plain keys that meet a key are texts from the first one on, before the other.
#[derive(Drop)]
struct Span {
    from: String,
    to: String,
}

/// The place of the last slash before the first byte that may be wild.
fn last_slash(text: &[u8]) -> Option<usize>
    ensures { IfSome result (λ at. (at < length text.now) × (slice_index text.now at ≡ 47)) }
{
    let mut last = None;
    for at in 0..text.len() {
        if may_be_wild(text[at]) {
            return last;
        }
        if text[at] == b'/' {
            last = Some(at);
        }
    }
    None
}

/// The first chunks of a key that is not plain, before those that are wild, where they are a plain key.
fn front_of(key: &str) -> Option<&str>
    ensures { IfSome result (λ f. (is_plain_text f.now ≡ true) × (key.now ≡ f.now ++ 47 ∷ drop (length f.now + 1) key.now)) }
{
    let at = last_slash(key.as_bytes())?;
    let front = &key[..at];
    if is_plain(front) { Some(front) } else { None }
}

/// The texts from one on, before the same with these bytes behind it.
fn span_to(alloc: Global, from: &str, end: &str) -> Result<Span, OutOfMemory>
    ensures { IfOk result (λ s. (string_bytes s.from ≡ from.now) × (string_bytes s.to ≡ from.now ++ end.now)) }
{
    let mut to = String::from_str(alloc, from)?;
    to.push_str(end)?;
    Ok(Span {
        from: String::from_str(alloc, from)?,
        to,
    })
}

/// Where the plain keys lie that meet a key; none where that may be anywhere. A plain key meets itself alone.
/// Behind the first chunks the byte after a slash ends the span.
fn span_of(alloc: Global, key: &str) -> Result<Option<Span>, OutOfMemory>
    ensures { IfOk result (λ o. IfSome o (λ s. IsSpan key.now (string_bytes s.from) (string_bytes s.to))) }
{
    if is_plain(key) {
        return Ok(Some(span_to(alloc, key, "\0")?));
    }
    match front_of(key) {
        Some(front) => Ok(Some(span_to(alloc, front, "0")?)),
        None => Ok(None),
    }
}

/// Puts the pair behind the others, if its key meets the other.
fn push_pair(
    alloc: Global,
    found: &mut Items<Pair>,
    text: &str,
    value: &Bytes,
    key: &Key,
) -> Result<(), OutOfMemory>
    requires { is_plain_text text.now ≡ true }
    ensures { OnOk result (found.new ≡ found.old ++ map pair_of (meeting key.now ((text.now, value.now) ∷ []))) }
{
    if intersects(text, key.as_str()) {
        found.push(Pair {
            key: Text::new(alloc, text)?,
            value: value.copy(alloc)?,
        })?;
    }
    Ok(())
}

/// Puts those of the pairs behind the others that meet the key.
fn push_each(
    alloc: Global,
    found: &mut Items<Pair>,
    pairs: Range<'_, String, Bytes>,
    key: &Key,
) -> Result<(), OutOfMemory>
    requires { are_plain (texts_of pairs) ≡ true }
    ensures { OnOk result (found.new ≡ found.old ++ map pair_of (meeting key.now (texts_of pairs.entry))) }
{
    for (text, value) in pairs {
        push_pair(alloc, found, text.as_str(), value, key)?;
    }
    Ok(())
}

impl Held {
    /// No pair.
    pub fn new(alloc: Global) -> Held
        ensures { result ≡ [] }
    {
        Held {
            pairs: BTreeMap::new(alloc),
            alloc,
        }
    }

    /// How many pairs there are.
    pub fn len(&self) -> usize
        ensures { result ≡ length self.now }
    {
        self.pairs.len()
    }

    /// Puts all pairs behind the others that meet the key.
    fn push_all(&self, alloc: Global, found: &mut Items<Pair>, key: &Key) -> Result<(), OutOfMemory>
        ensures { OnOk result (found.new ≡ found.old ++ map pair_of (meeting key.now self.now)) }
    {
        for (text, value) in &self.pairs {
            push_pair(alloc, found, text.as_str(), value, key)?;
        }
        Ok(())
    }

    /// Puts those pairs in the span behind the others that meet the key.
    fn push_lying(
        &self,
        alloc: Global,
        found: &mut Items<Pair>,
        span: &Span,
        key: &Key,
    ) -> Result<(), OutOfMemory>
        requires { IsSpan key.now (string_bytes span.now.from) (string_bytes span.now.to) }
        ensures { OnOk result (found.new ≡ found.old ++ map pair_of (meeting key.now self.now)) }
    {
        let lying = self
            .pairs
            .range((Bound::Included(&span.from), Bound::Excluded(&span.to)));
        push_each(alloc, found, lying, key)?;
        Ok(())
    }

    /// The pairs that meet the key, in their order. Only those are looked at that begin as the key does, in
    /// whole chunks, up to its first wild one.
    pub fn meeting(&self, alloc: Global, key: &Key) -> Result<Items<Pair>, OutOfMemory>
        ensures { IfOk result (λ l. l ≡ map pair_of (meeting key.now self.now)) }
    {
        let mut found = Items::new(alloc);
        match span_of(alloc, key.as_str())? {
            Some(span) => self.push_lying(alloc, &mut found, &span, key)?,
            None => self.push_all(alloc, &mut found, key)?,
        }
        Ok(found)
    }

    /// The key has this value from now on; answers the value before.
    #[tactic(auto, using(zq_index::proofs::Texts::text_lookup, zq_index::proofs::Texts::text_insert, crate::proofs::Plainness::plain_put))]
    pub fn put(&mut self, key: &Key, value: &Bytes) -> Result<Option<Bytes>, OutOfMemory>
        requires { is_plain_text key.now ≡ true }
        ensures old { IfOk result (λ o. o ≡ at_text key.now self.old) }
        ensures new { OnOk result (self.new ≡ insert_entry text_cmp self.old key.now value.now) }
        ensures size { IfOk result (λ o. length self.new ≡ length self.old + (if is_some o then 0 else 1)) }
        ensures err { OnErr result (self.new ≡ self.old) }
    {
        let text = String::from_str(self.alloc, key.as_str())?;
        let value = value.copy(self.alloc)?;
        match self.pairs.insert(text, value) {
            Ok(old) => Ok(old),
            Err(_) => Err(OutOfMemory),
        }
    }

    /// The key has no value from now on; answers the value before.
    #[tactic(auto, using(zq_index::proofs::Texts::text_lookup, zq_index::proofs::Texts::text_remove, crate::proofs::Plainness::plain_removed))]
    pub fn delete(&mut self, key: &str) -> Option<Bytes>
        ensures old { result ≡ at_text key.now self.old }
        ensures new { self.new ≡ remove_entry (is_at (text_cmp key.now)) self.old }
        ensures size { length self.new + (if is_some result then 1 else 0) ≡ length self.old }
    {
        self.pairs.remove(key)
    }
}
