//! The keys on which regions have information, and so something may be due.
ghost use Rattle.std.specs.Prelude.{◌≡◌, IfOk, IsTrue, OnOk, filter, fold, map, option_copied, string_bytes, true};
ghost use Rattle.std.specs.BTreeSet.{insert_key};
ghost use Rattle.std.specs.List.{AllByRecursion};
ghost use Rattle.zq_index.specs.Texts.{text_cmp};
ghost use Rattle.zq_key.specs.Key.{intersects, is_key};
ghost use Rattle.zq_strategy.specs.Trees.{region_keys};
ghost use Rattle.zq_interests.specs.Interests.{meets};
ghost use Rattle.zq_dispatcher.specs.Dues.{AreKeys, all_keys};

use crate::sorted::list_of;
use std::alloc::Global;
use std::collections::BTreeSet;
use zq_hat::hat::Hat;
use zq_key::Key;
use zq_key::memory::OutOfMemory;
use zq_key::message::TextList;
use zq_tables::RegionMap;

// The keys on which a region has information and that meet what is asked for join the texts.
fn add_met(keys: &mut BTreeSet<String>, hat: &Hat, asked: Option<&Key>) -> Result<(), OutOfMemory>
    ensures joined { OnOk result (map string_bytes keys.new.keys ≡ fold (insert_key text_cmp) (map string_bytes keys.old.keys) (filter (meets (option_copied asked.entry)) (region_keys hat.now))) }
    ensures valid { AllByRecursion (λ k. is_key k ≡ true) (region_keys hat.now) }
{
    match asked {
        Some(asked) => hat.add_met_keys(keys, asked.as_str()),
        None => hat.add_keys(keys),
    }
}

// The keys on which regions have information and that meet what is asked for, each once, in order.
pub(crate) fn met_texts(
    alloc: Global,
    hats: &RegionMap<Hat>,
    asked: Option<&Key>,
) -> Result<BTreeSet<String>, OutOfMemory>
    ensures keys { IfOk result (λ s. map string_bytes s.keys ≡ filter (meets (option_copied asked.entry)) (all_keys hats.now)) }
    ensures valid { IfOk result (λ s. AreKeys (map string_bytes s.keys)) }
{
    let mut keys = BTreeSet::new(alloc);
    for (_, hat) in hats.iter() {
        add_met(&mut keys, hat, asked)?;
    }
    Ok(keys)
}

/// The keys on which regions have information and that meet the key, each once, in order.
pub(crate) fn met_texts_by(
    alloc: Global,
    hats: &RegionMap<Hat>,
    key: &str,
) -> Result<BTreeSet<String>, OutOfMemory>
    requires { IsTrue (is_key key.now) }
    ensures keys { IfOk result (λ s. map string_bytes s.keys ≡ filter (λ k. intersects k key.now) (all_keys hats.now)) }
    ensures valid { IfOk result (λ s. AreKeys (map string_bytes s.keys)) }
{
    let mut keys = BTreeSet::new(alloc);
    for (_, hat) in hats.iter() {
        hat.add_met_keys(&mut keys, key)?;
    }
    Ok(keys)
}

/// The keys on which regions have information and that meet what is asked for, each once, in order;
/// all of them, where nothing is asked for. They are found by their texts.
pub fn met_keys(
    alloc: Global,
    hats: &RegionMap<Hat>,
    asked: Option<&Key>,
) -> Result<TextList, OutOfMemory>
    ensures keys { IfOk result (λ ks. ks ≡ filter (meets (option_copied asked.entry)) (all_keys hats.now)) }
    ensures valid { IfOk result (λ ks. AreKeys ks) }
{
    let keys = met_texts(alloc, hats, asked)?;
    list_of(alloc, &keys)
}
