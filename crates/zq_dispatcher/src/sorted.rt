//! Keys in order, each once.
ghost use Rattle.std.specs.Prelude.{◌≡◌, [], IfOk, OnOk, fold, map, string_bytes};
ghost use Rattle.std.specs.BTreeSet.{insert_key};
ghost use Rattle.zq_index.specs.Texts.{has_text, text_cmp};

use std::alloc::Global;
use std::collections::BTreeSet;
use zq_index::text_set::put_text;
use zq_key::items::Items;
use zq_key::memory::OutOfMemory;
use zq_key::message::TextList;
use zq_key::text::Text;

/// The keys join the texts.
pub(crate) fn put_texts(
    texts: &mut BTreeSet<String>,
    alloc: Global,
    keys: &[Text],
) -> Result<(), OutOfMemory>
    ensures { OnOk result (map string_bytes texts.new.keys ≡ fold (insert_key text_cmp) (map string_bytes texts.old.keys) keys.now) }
{
    for key in keys {
        put_text(texts, alloc, key.as_str())?;
    }
    Ok(())
}

/// The texts, in order.
pub fn list_of(alloc: Global, texts: &BTreeSet<String>) -> Result<TextList, OutOfMemory>
    ensures { IfOk result (λ list. list ≡ map string_bytes texts.now.keys) }
{
    let mut list = Items::new(alloc);
    for text in texts {
        list.push(Text::new(alloc, text.as_str())?)?;
    }
    Ok(list)
}

/// The keys in order, each once.
pub fn sorted(alloc: Global, keys: &[Text]) -> Result<TextList, OutOfMemory>
    ensures { IfOk result (λ ks. ks ≡ fold (insert_key text_cmp) [] keys.now) }
{
    let texts = set_of(alloc, keys)?;
    list_of(alloc, &texts)
}

/// Whether the texts have this one.
#[tactic(auto, using(zq_index::proofs::Texts::texts_any))]
pub(crate) fn has_text(texts: &BTreeSet<String>, text: &str) -> bool
    ensures { result ≡ has_text text.now (map string_bytes texts.now.keys) }
{
    texts.contains(text)
}

/// The keys as a set.
pub(crate) fn set_of(alloc: Global, keys: &[Text]) -> Result<BTreeSet<String>, OutOfMemory>
    ensures { IfOk result (λ s. map string_bytes s.keys ≡ fold (insert_key text_cmp) [] keys.now) }
{
    let mut texts = BTreeSet::new(alloc);
    put_texts(&mut texts, alloc, keys)?;
    Ok(texts)
}
