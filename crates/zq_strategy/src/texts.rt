//! The texts of declared keys that meet one that is asked for.
ghost use Rattle.std.specs.Prelude.{◌≡◌, OnOk, IsTrue, filter, fold, map, string_bytes};
ghost use Rattle.std.specs.BTreeSet.{insert_key};
ghost use Rattle.std.specs.List.{AllByRecursion};
ghost use Rattle.std.specs.Map.{keys_of};
ghost use Rattle.zq_key.specs.Key.{intersects, is_key};
ghost use Rattle.zq_index.specs.Texts.{text_cmp};
ghost use Rattle.zq_strategy.specs.OfferOrder.{IsKeyed};

use crate::met::{Gather, gather_all};
use std::alloc::Global;
use std::collections::BTreeSet;
use zq_index::holders::{Holders, KeyHolders, Place};
use zq_index::text_set::put_text;
use zq_key::memory::OutOfMemory;

/// Texts join others.
#[derive(Drop)]
struct Joining {
    alloc: Global,
}

impl<P: Place> Gather<Holders<P>, BTreeSet<String>> for Joining {
    ghost gathers = { λ j q was e is. map string_bytes is.keys ≡ insert_key text_cmp (map string_bytes was.keys) e.0 };

    fn gather(
        &self,
        found: &mut BTreeSet<String>,
        key: &str,
        _held: &Holders<P>,
        _q: &str,
    ) -> Result<(), OutOfMemory> {
        match put_text(found, self.alloc, key) {
            Ok(()) => Ok(()),
            Err(error) => Err(error),
        }
    }
}

/// The keys that meet the one that is asked for join the texts. Keys of which the first bytes show that
/// they do not meet it are passed over.
pub fn add_met_texts<P: Place>(
    texts: &mut BTreeSet<String>,
    alloc: Global,
    index: &KeyHolders<P>,
    q: &str,
) -> Result<(), OutOfMemory>
    requires keys { AllByRecursion IsKeyed index.now }
    requires asked { IsTrue (is_key q.now) }
    ensures { OnOk result (map string_bytes texts.new.keys ≡ fold (insert_key text_cmp) (map string_bytes texts.old.keys) (filter (λ k. intersects k q.now) (keys_of index.now))) }
{
    gather_all(
        alloc,
        &Joining { alloc },
        texts,
        index.keys(),
        index.lists(),
        q,
    )?;
    Ok(())
}
