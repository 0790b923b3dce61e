//! A search over declared keys for those that meet one that is asked for.
ghost use Rattle.std.specs.Prelude.{◌∷◌, [], List, ℕ, OnOk, IsTrue, filter};
ghost use Rattle.std.specs.List.{AllByRecursion};
ghost use Rattle.zq_key.specs.Key.{is_key};
ghost use Rattle.zq_index.specs.Holders.{AreListed};
ghost use Rattle.zq_index.specs.Texts.{texts_of};
ghost use Rattle.zq_strategy.specs.Met.{AllGathered, is_met};
ghost use Rattle.zq_strategy.specs.OfferOrder.{IsKeyed};

use std::alloc::Global;
use std::collections::BTreeMap;
use std::ops::RangeFull;
use zq_index::search::{Step, next_step};
use zq_index::text_set::KeyLists;
use zq_key::memory::OutOfMemory;
use zq_key::{intersects, is_plain};

/// What is gathered at a declared key that meets the one that is asked for.
pub trait Gather<V, T> {
    ghost gathers: { Self → List ℕ → T → List ℕ × V → T → Type 0 };

    /// Gathers it, by what stands at the key.
    fn gather(&self, found: &mut T, key: &str, held: &V, q: &str) -> Result<(), OutOfMemory>
        requires key { IsTrue (is_key key.now) }
        requires asked { IsTrue (is_key q.now) }
        ensures { OnOk result (gathers self.now q.now found.old (key.now, held.now) found.new) };
}

/// Gathers what is to be gathered at the key, if it meets the one that is asked for.
fn gather_met<V, T, G: Gather<V, T>>(
    source: &G,
    found: &mut T,
    key: &str,
    held: &V,
    q: &str,
) -> Result<(), OutOfMemory>
    requires key { IsTrue (is_key key.now) }
    requires asked { IsTrue (is_key q.now) }
    ensures { OnOk result (AllGathered (G.gathers source.now q.now) found.old (filter (is_met q.now) ((key.now, held.now) ∷ [])) found.new) }
{
    if intersects(key, q) {
        source.gather(found, key, held, q)
    } else {
        Ok(())
    }
}

/// Gathers at each of the keys that meets the one that is asked for, in order. Keys of which the first
/// bytes show that they do not meet it are passed over by one search, and it ends where nothing later
/// meets it; a plain key that is asked for passes over all plain ones but its own.
pub fn gather_all<V, T, G: Gather<V, T>>(
    alloc: Global,
    source: &G,
    found: &mut T,
    keys: &BTreeMap<String, V>,
    lists: &KeyLists,
    q: &str,
) -> Result<(), OutOfMemory>
    requires keys { AllByRecursion IsKeyed (texts_of keys.now.entries) }
    requires listed { AreListed (texts_of keys.now.entries) lists.now }
    requires asked { IsTrue (is_key q.now) }
    ensures { OnOk result (AllGathered (G.gathers source.now q.now) found.old (filter (is_met q.now) (texts_of keys.now.entries)) found.new) }
{
    let plain = is_plain(q);
    let mut bound = String::new(alloc);
    let mut bytes = Vec::new(alloc);
    let mut rest = keys.range::<RangeFull>(..);
    while let Some((key, held)) = rest.next() {
        match next_step(&mut bound, &mut bytes, lists, plain, key, q)? {
            Step::Look => gather_met(source, found, key.as_str(), held, q)?,
            Step::Jump => rest = keys.range(&bound..),
            Step::End => return Ok(()),
        }
    }
    Ok(())
}
