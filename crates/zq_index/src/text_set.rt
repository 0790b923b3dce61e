//! Texts that are kept in order.
ghost use Rattle.std.specs.Prelude.{◌≡◌, ◌≢◌, ◌∷◌, [], List, ℕ, Bool, false, true, map, OnOk, OnErr, IfOk, MatchOption};
ghost use Rattle.std.specs.BTreeMap.{is_at};
ghost use Rattle.std.specs.BTreeSet.{insert_key};
ghost use Rattle.std.specs.Set.{remove_key};
ghost use Rattle.std.specs.Ordering.{is_lt};
ghost use Rattle.std.specs.declared.cmp.Ordering.TheVariants.{Less};
ghost use Rattle.std.specs.String.{string_bytes};
ghost use Rattle.zq_index.specs.Texts.{text_cmp, has_text, is_mixed, mixed_after, IsFirstAfter, IsListed, NoneAfter, NoneBetween, lists_without};

use std::alloc::Global;
use std::cmp::Ordering;
use std::collections::BTreeSet;
use std::marker::Model;
use std::ops::Bound;
use zq_key::is_plain;
use zq_key::memory::OutOfMemory;
use zq_key::pruning::may_be_wild;

/// The order of two texts.
pub fn compare_texts(a: &str, b: &str) -> Ordering
    ensures { result ≡ text_cmp a.now b.now }
{
    a.cmp(b)
}

/// Whether a text comes before another.
pub fn comes_before(a: &str, b: &str) -> bool
    ensures { result ≡ is_lt (text_cmp a.now b.now) }
{
    compare_texts(a, b) == Ordering::Less
}

/// Whether a chunk of the text begins as a plain one and goes on by a `*` or `$`.
pub fn is_mixed(text: &[u8]) -> bool
    ensures { result ≡ is_mixed text.now }
{
    let mut tame = false;
    for byte in text {
        let wild = may_be_wild(*byte);
        if tame && wild {
            return true;
        }
        tame = !wild && *byte != b'/';
    }
    false
}

/// The text joins the others.
#[tactic(auto, using(crate::proofs::Texts::texts_put))]
pub fn put_text(texts: &mut BTreeSet<String>, alloc: Global, text: &str) -> Result<(), OutOfMemory>
    ensures ok { OnOk result (map string_bytes texts.new.keys ≡ insert_key text_cmp (map string_bytes texts.old.keys) text.now) }
    ensures err { OnErr result (texts.new.keys ≡ texts.old.keys) }
{
    match texts.insert(String::from_str(alloc, text)?) {
        Ok(_) => Ok(()),
        Err(_) => Err(OutOfMemory),
    }
}

/// The text leaves the others.
pub fn take_text(texts: &mut BTreeSet<String>, text: &str)
    ensures { map string_bytes texts.new.keys ≡ remove_key (is_at (text_cmp text.now)) (map string_bytes texts.old.keys) }
{
    let _ = texts.remove(text);
}

/// Equal texts.
#[tactic(auto, using(crate::proofs::Texts::texts_same))]
pub fn copy_texts(texts: &BTreeSet<String>) -> Result<BTreeSet<String>, OutOfMemory>
    ensures { IfOk result (λ t. map string_bytes t.keys ≡ map string_bytes texts.now.keys) }
{
    Ok(texts.clone()?)
}

/// The first text after another.
fn first_after<'a>(texts: &'a BTreeSet<String>, text: &String) -> Option<&'a String>
    ensures { MatchOption result (NoneAfter (map string_bytes texts.now.keys) (string_bytes text.now)) (λ t. IsFirstAfter (map string_bytes texts.now.keys) (string_bytes text.now) (string_bytes t.now)) }
{
    let mut later = texts.range((Bound::Excluded(text), Bound::Unbounded));
    match later.next() {
        Some(first) => Some(first),
        None => None,
    }
}

/// The first of the texts between two.
fn first_between<'a>(texts: &'a BTreeSet<String>, text: &String, end: &str) -> Option<&'a String>
    ensures { MatchOption result (NoneBetween (map string_bytes texts.now.keys) (string_bytes text.now) end.now) (λ t. IsFirstAfter (map string_bytes texts.now.keys) (string_bytes text.now) (string_bytes t.now) × (text_cmp (string_bytes t.now) end.now ≡ Less)) }
{
    let first = first_after(texts, text)?;
    if comes_before(first.as_str(), end) {
        Some(first)
    } else {
        None
    }
}

/// The text joins the others if that is wanted.
fn list_text(
    texts: &mut BTreeSet<String>,
    alloc: Global,
    text: &str,
    wanted: bool,
) -> Result<(), OutOfMemory>
    ensures ok { OnOk result (wanted ≡ true → has_text text.now (map string_bytes texts.new.keys) ≡ true) }
    ensures wider { (t : List ℕ) → has_text t (map string_bytes texts.old.keys) ≡ true → has_text t (map string_bytes texts.new.keys) ≡ true }
{
    if !wanted {
        return Ok(());
    }
    match put_text(texts, alloc, text) {
        Ok(()) => Ok(()),
        Err(error) => Err(error),
    }
}

/// The declared keys that are not plain; and the mixed ones, of which a chunk goes on to a `$*` behind
/// other bytes.
pub struct KeyLists {
    wild: BTreeSet<String>,
    mixed: BTreeSet<String>,
}

impl Drop for KeyLists {
    fn drop(self) {
        let KeyLists { wild, mixed } = self;
    }
}

impl Model for KeyLists {
    ghost use Rattle.std.specs.Prelude.{map};
    ghost use Rattle.std.specs.String.{string_bytes};
    ghost use Rattle.zq_index.specs.Texts.{Lists};

    ghost Value = { Lists };

    ghost view = { λ k. (map string_bytes k.wild.keys, map string_bytes k.mixed.keys) };
}

impl KeyLists {
    /// No keys.
    pub fn new(alloc: Global) -> KeyLists
        ensures { result ≡ ([], []) }
    {
        KeyLists {
            wild: BTreeSet::new(alloc),
            mixed: BTreeSet::new(alloc),
        }
    }

    /// Equal lists.
    pub fn copy(&self) -> Result<KeyLists, OutOfMemory>
        ensures { IfOk result (λ k. k ≡ self.now) }
    {
        Ok(KeyLists {
            wild: copy_texts(&self.wild)?,
            mixed: copy_texts(&self.mixed)?,
        })
    }

    /// The key is listed where it has to be. Where memory is lacking a list may have it all the same.
    pub fn put(&mut self, alloc: Global, key: &str) -> Result<(), OutOfMemory>
        ensures ok { OnOk result (IsListed self.new key.now) }
        ensures wider { (t : List ℕ) → IsListed self.old t → IsListed self.new t }
    {
        list_text(&mut self.wild, alloc, key, !is_plain(key))?;
        list_text(&mut self.mixed, alloc, key, is_mixed(key.as_bytes()))
    }

    /// The key leaves the lists.
    pub fn take(&mut self, key: &str)
        ensures { self.new ≡ lists_without key.now self.old }
    {
        take_text(&mut self.wild, key);
        take_text(&mut self.mixed, key);
    }

    /// The first key after a text that is not plain.
    pub fn wild_after(&self, text: &String) -> Option<&String>
        ensures { MatchOption result (NoneAfter self.now.0 (string_bytes text.now)) (λ t. IsFirstAfter self.now.0 (string_bytes text.now) (string_bytes t.now)) }
    {
        first_after(&self.wild, text)
    }

    /// The first key between two texts that is not plain.
    pub fn wild_between(&self, text: &String, end: &str) -> Option<&String>
        ensures { MatchOption result (NoneBetween self.now.0 (string_bytes text.now) end.now) (λ t. IsFirstAfter self.now.0 (string_bytes text.now) (string_bytes t.now) × (text_cmp (string_bytes t.now) end.now ≡ Less)) }
    {
        first_between(&self.wild, text, end)
    }

    /// The first mixed key between two texts.
    pub fn mixed_between(&self, text: &String, end: &str) -> Option<&String>
        ensures { MatchOption result (NoneBetween self.now.1 (string_bytes text.now) end.now) (λ t. IsFirstAfter self.now.1 (string_bytes text.now) (string_bytes t.now) × (text_cmp (string_bytes t.now) end.now ≡ Less)) }
    {
        first_between(&self.mixed, text, end)
    }
}
