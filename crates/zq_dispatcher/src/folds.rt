//! What was gathered in a call of the keys of aggregating interests, so that each is gathered once for all
//! faces of a region.
ghost use Rattle.std.specs.Prelude.{◌≡◌, [], false, IsTrue, OnOk, option_copied};
ghost use Rattle.std.specs.BTreeMap.{insert_entry};
ghost use Rattle.std.specs.Option.{is_some};
ghost use Rattle.std.specs.Ordering.{nat_cmp};
ghost use Rattle.zq_index.specs.Texts.{at_text, text_cmp};
ghost use Rattle.zq_machine.specs.State.{at};
ghost use Rattle.zq_dispatcher.specs.Parts.{fold_at, folds_of, with_fold};

use crate::folded::PartList;
use crate::hats::is_region;
use std::alloc::Global;
use std::collections::BTreeMap;
use std::marker::Model;
use zq_key::memory::OutOfMemory;
use zq_key::message::Region;
use zq_tables::region_to_index;

/// What was gathered for a region, by the key of the interest.
#[derive(Drop)]
pub struct KeyFolds {
    keys: BTreeMap<String, PartList>,
}

impl Model for KeyFolds {
    ghost use Rattle.std.specs.Prelude.{List, ℕ};
    ghost use Rattle.zq_index.specs.Texts.{texts_of};
    ghost use Rattle.zq_dispatcher.specs.declared.folded.Part.{Part};

    ghost Value = { List (List ℕ × List Part) };

    ghost view = { λ k. texts_of k.keys.entries };
}

/// What was gathered, by the place of the region.
pub type Folds = BTreeMap<usize, KeyFolds>;

impl KeyFolds {
    // Nothing.
    fn new(alloc: Global) -> KeyFolds
        ensures { result ≡ [] }
    {
        KeyFolds {
            keys: BTreeMap::new(alloc),
        }
    }

    // What was gathered of the key.
    #[tactic(auto, using(zq_index::proofs::Texts::text_lookup))]
    fn get(&self, key: &str) -> Option<&PartList>
        ensures { option_copied result ≡ at_text key.now self.now }
    {
        self.keys.get(key)
    }

    // This is kept of the key.
    #[tactic(auto, using(zq_index::proofs::Texts::text_insert))]
    fn put(&mut self, alloc: Global, key: &str, parts: PartList) -> Result<(), OutOfMemory>
        ensures { OnOk result (self.new ≡ insert_entry text_cmp self.old key.now parts) }
    {
        let text = String::from_str(alloc, key)?;
        match self.keys.insert(text, parts) {
            Ok(_) => Ok(()),
            Err(_) => Err(OutOfMemory),
        }
    }
}

/// What was gathered for the region of the key, if it was.
pub(crate) fn fold_at<'f>(folds: &'f Folds, region: Region, key: &str) -> Option<&'f PartList>
    ensures { option_copied result ≡ fold_at region key.now folds.now.entries }
{
    if !is_region(region) {
        return None;
    }
    match folds.get(&region_to_index(&region)) {
        Some(keys) => keys.get(key),
        None => None,
    }
}

// This is kept of the key at a place at which something is.
fn put_beside(
    folds: &mut Folds,
    alloc: Global,
    place: usize,
    key: &str,
    parts: PartList,
) -> Result<(), OutOfMemory>
    requires { IsTrue (is_some (at place folds.old.entries)) }
    ensures { OnOk result (folds.new.entries ≡ insert_entry nat_cmp folds.old.entries place (insert_entry text_cmp (folds_of place folds.old.entries) key.now parts)) }
{
    match folds.get_mut(&place) {
        Some(keys) => keys.put(alloc, key, parts),
        None => unreachable!(),
    }
}

// This is kept of the key at a place at which nothing is.
fn put_first(
    folds: &mut Folds,
    alloc: Global,
    place: usize,
    key: &str,
    parts: PartList,
) -> Result<(), OutOfMemory>
    requires { is_some (at place folds.old.entries) ≡ false }
    ensures { OnOk result (folds.new.entries ≡ insert_entry nat_cmp folds.old.entries place (insert_entry text_cmp (folds_of place folds.old.entries) key.now parts)) }
{
    let mut keys = KeyFolds::new(alloc);
    keys.put(alloc, key, parts)?;
    match folds.insert(place, keys) {
        Ok(_) => Ok(()),
        Err(_) => Err(OutOfMemory),
    }
}

/// This is kept for the region of the key; where the region can have no hat, nothing is.
pub(crate) fn put_fold(
    folds: &mut Folds,
    alloc: Global,
    region: Region,
    key: &str,
    parts: PartList,
) -> Result<(), OutOfMemory>
    ensures { OnOk result (folds.new.entries ≡ with_fold region key.now parts folds.old.entries) }
{
    if !is_region(region) {
        return Ok(());
    }
    let place = region_to_index(&region);
    if folds.contains_key(&place) {
        put_beside(folds, alloc, place, key, parts)
    } else {
        put_first(folds, alloc, place, key, parts)
    }
}
