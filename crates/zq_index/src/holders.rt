//! Who declared each key, kept beside the faces' own lists so that a key is found by its text.
ghost use Rattle.std.specs.Prelude.{◌≡◌, [], OnOk, OnErr, IfOk, Some, None, true, is_some, find, filter, fold, Bool, not, length, ◌==◌};
ghost use Rattle.std.specs.List.Sorted.{IsStrictlySortedBy};
ghost use Rattle.std.specs.Option.{option_copied};
ghost use Rattle.std.specs.Map.{keys_of, remove_entry, set_value};
ghost use Rattle.std.specs.BTreeMap.{insert_entry, is_at};
ghost use Rattle.std.specs.Ordering.{nat_cmp};
ghost use Rattle.zq_index.specs.Texts.{text_cmp, at_text, Lists, texts_of};
ghost use Rattle.zq_index.specs.Holders.{TellsApart, AreListed, with_holding_by, without_holding_by, with_held, rank_cmp, rank_of, HeldBy};

use crate::info::{merge_qabl_infos, same_info};
use crate::text_set::KeyLists;
use std::alloc::Global;
use std::cmp::Ordering;
use std::collections::{BTreeMap, BTreeSet};
use std::marker::Model;
use zq_key::memory::OutOfMemory;
use zq_key::message::QueryableInfoType;

/// Where a declaration stands, as a face's number and an id there: places have an order that tells
/// them apart, and a copy of one is the same.
pub trait Place: Copy + Ord + Drop {
    ghost tells_apart: { TellsApart Self.cmp };

    ghost copied: { (place copy : Self) → Self.is_clone place copy → copy ≡ place };
}

/// A face's number and an id there.
pub type FacePlace = (u32, u32);

impl Place for FacePlace {
    ghost use Rattle.std.proofs.lemmas.Map.Lookups.{exact_pairs, exact_unsigned};

    ghost tells_apart = { exact_pairs nat_cmp nat_cmp exact_unsigned exact_unsigned };

    ghost copied = { λ place copy same i. (same.0 i, same.1 i) };
}

impl Place for u128 {
    ghost use Rattle.std.proofs.lemmas.Map.Lookups.{exact_unsigned};

    ghost tells_apart = { exact_unsigned };

    ghost copied = { λ place copy same. same };
}

/// A test of places, by which declarations are left out of a merge.
pub trait PlaceTest<P: Place> {
    ghost passes: { Self → P → Bool };

    /// Whether the declaration of the place stays.
    fn is_passed(&self, place: P) -> bool
        ensures { result ≡ passes self.now place };
}

/// The other places.
#[derive(Drop)]
struct Elsewhere<P: Place> {
    place: P,
}

impl<P: Place> PlaceTest<P> for Elsewhere<P> {
    ghost passes = { λ e p. not (is_at (P.cmp e.place) p) };

    fn is_passed(&self, place: P) -> bool {
        self.place.cmp(&place) != Ordering::Equal
    }
}

/// Where an information goes in merging: complete ones first, then the nearer; by place where they
/// are alike.
type Rank<P> = ((bool, u16), P);

/// The declarations on one key: their informations by place, and the ranks of these, so that the
/// merge is the first.
pub struct Holders<P: Place> {
    infos: BTreeMap<P, QueryableInfoType>,
    ranks: BTreeSet<Rank<P>>,
}

impl<P: Place> Drop for Holders<P> {
    fn drop(self) {
        let Holders { infos, ranks } = self;
    }
}

impl<P: Place> Model for Holders<P> {
    ghost use Rattle.zq_index.specs.Holders.{HeldBy, IsRanked};

    ghost Value = { HeldBy P };

    ghost view = { λ h. h.infos.entries };

    ghost invariant = { λ h. IsRanked P.cmp h.infos.entries h.ranks.keys };
}

fn rank<P: Place>(place: P, info: QueryableInfoType) -> Rank<P>
    ensures { result ≡ rank_of place info }
{
    ((!info.complete, info.distance), place)
}

/// The information of the rank.
fn ranked<P: Place>(rank: &Rank<P>) -> QueryableInfoType
    ensures { result ≡ record { complete = not rank.now.0.0; distance = rank.now.0.1 } }
{
    let ((incomplete, distance), _) = *rank;
    QueryableInfoType {
        complete: !incomplete,
        distance,
    }
}

/// The first rank whose place passes.
fn first_passed<'a, P: Place, T: PlaceTest<P>>(
    ranks: &'a BTreeSet<Rank<P>>,
    test: &T,
) -> Option<&'a Rank<P>>
    ensures first { option_copied result ≡ find (λ k. T.passes test.now k.1) ranks.now.keys }
    ensures ordered { IsStrictlySortedBy (rank_cmp P.cmp) ranks.now.keys }
{
    for rank in ranks {
        if test.is_passed(rank.1) {
            return Some(rank);
        }
    }
    None
}

/// Equal informations.
#[tactic(auto, using(crate::proofs::Rebuilt::rebuilt))]
fn copy_infos<P: Place>(
    infos: &BTreeMap<P, QueryableInfoType>,
    alloc: Global,
) -> Result<BTreeMap<P, QueryableInfoType>, OutOfMemory>
    ensures { IfOk result (λ i. i.entries ≡ infos.now.entries) }
{
    let mut made = BTreeMap::new(alloc);
    for (place, info) in infos {
        made.insert(*place, *info)?;
    }
    Ok(made)
}

/// Equal ranks.
fn copy_ranks<P: Place>(ranks: &BTreeSet<Rank<P>>) -> Result<BTreeSet<Rank<P>>, OutOfMemory>
    ensures { IfOk result (λ r. r.keys ≡ ranks.now.keys) }
{
    Ok(ranks.clone()?)
}

impl<P: Place> Holders<P> {
    /// Equal declarations.
    fn copy(&self, alloc: Global) -> Result<Holders<P>, OutOfMemory>
        ensures { IfOk result (λ h. h ≡ self.now) }
    {
        Ok(Holders {
            infos: copy_infos(&self.infos, alloc)?,
            ranks: copy_ranks(&self.ranks)?,
        })
    }

    fn new(alloc: Global) -> Holders<P>
        ensures { result ≡ [] }
    {
        Holders {
            infos: BTreeMap::new(alloc),
            ranks: BTreeSet::new(alloc),
        }
    }

    /// The informations by place.
    pub fn infos(&self) -> &BTreeMap<P, QueryableInfoType>
        ensures { result.now.entries ≡ self.now }
    {
        &self.infos
    }

    /// What the declarations say, merged.
    pub fn merged(&self) -> Option<QueryableInfoType>
        ensures { result ≡ fold with_held None self.now }
    {
        match self.ranks.first() {
            Some(rank) => Some(ranked(rank)),
            None => None,
        }
    }

    /// What the declarations would say, merged, without those whose places fail the test. It looks no
    /// further than the first rank that passes.
    pub fn merged_of<T: PlaceTest<P>>(&self, test: &T) -> Option<QueryableInfoType>
        ensures merged { result ≡ fold with_held None (filter (λ h. T.passes test.now h.0) self.now) }
        ensures ordered { IsStrictlySortedBy P.cmp (keys_of self.now) }
    {
        match first_passed(&self.ranks, test) {
            Some(rank) => Some(ranked(rank)),
            None => None,
        }
    }

    /// What the declarations would say, merged, without that of the place.
    pub fn merged_without(&self, place: P) -> Option<QueryableInfoType>
        ensures merged { result ≡ fold with_held None (remove_entry (is_at (P.cmp place)) self.now) }
        ensures ordered { IsStrictlySortedBy P.cmp (keys_of self.now) }
    {
        self.merged_of(&Elsewhere { place })
    }

    /// What the declarations would say, merged, with this one of the place.
    pub fn merged_with(&self, place: P, info: QueryableInfoType) -> QueryableInfoType
        ensures { Some result ≡ fold with_held None (insert_entry P.cmp self.now place info) }
    {
        match self.merged_without(place) {
            Some(others) => merge_qabl_infos(others, info),
            None => info,
        }
    }

    fn put(&mut self, place: P, info: QueryableInfoType) -> Result<(), OutOfMemory>
        ensures ok { OnOk result (self.new ≡ insert_entry P.cmp self.old place info) }
        ensures err { OnErr result (self.new ≡ self.old) }
    {
        self.ranks.insert(rank(place, info))?;
        match self.infos.insert(place, info) {
            Ok(Some(before)) => {
                if !same_info(before, info) {
                    let _ = self.ranks.remove(&rank(place, before));
                }
                Ok(())
            }
            Ok(None) => Ok(()),
            Err(_) => {
                let _ = self.ranks.remove(&rank(place, info));
                Err(OutOfMemory)
            }
        }
    }

    fn take(&mut self, place: P) -> bool
        ensures after { self.new ≡ remove_entry (is_at (P.cmp place)) self.old }
        ensures empty { result ≡ (length self.new == 0) }
    {
        if let Some(gone) = self.infos.remove(&place) {
            let _ = self.ranks.remove(&rank(place, gone));
        }
        self.infos.len() == 0
    }
}

/// The declarations on each key, by the key's text; keys that are not plain are listed, too.
pub struct KeyHolders<P: Place> {
    keys: BTreeMap<String, Holders<P>>,
    lists: KeyLists,
}

impl<P: Place> Drop for KeyHolders<P> {
    fn drop(self) {
        let KeyHolders { keys, lists } = self;
    }
}

impl<P: Place> Model for KeyHolders<P> {
    ghost use Rattle.zq_index.specs.Holders.{AreListed, IndexBy};
    ghost use Rattle.zq_index.specs.Texts.{texts_of};

    ghost Value = { IndexBy P };

    ghost view = { λ k. texts_of k.keys.entries };

    ghost invariant = { λ k. AreListed (texts_of k.keys.entries) k.lists };
}

/// The declaration is added to those on a key that has some.
#[tactic(auto, using(crate::proofs::Texts::text_lookup, crate::proofs::Texts::text_set, std::proofs::lemmas::Map::Steps::set_value_same))]
fn put_beside<P: Place>(
    keys: &mut BTreeMap<String, Holders<P>>,
    key: &str,
    place: P,
    info: QueryableInfoType,
) -> Result<(), OutOfMemory>
    requires { is_some (at_text key.now (texts_of keys.old.entries)) ≡ true }
    ensures ok { OnOk result (texts_of keys.new.entries ≡ with_holding_by P.cmp key.now place info (texts_of keys.old.entries)) }
    ensures err { OnErr result (texts_of keys.new.entries ≡ texts_of keys.old.entries) }
    ensures listed { (lists : Lists) → AreListed (texts_of keys.old.entries) lists → AreListed (texts_of keys.new.entries) lists }
{
    match keys.get_mut(key) {
        Some(holders) => match holders.put(place, info) {
            Ok(()) => Ok(()),
            Err(error) => Err(error),
        },
        None => unreachable!(),
    }
}

/// The first declaration on a key.
#[tactic(auto, using(crate::proofs::Texts::text_lookup, crate::proofs::Texts::text_insert))]
fn put_first<P: Place>(
    keys: &mut BTreeMap<String, Holders<P>>,
    alloc: Global,
    key: &str,
    place: P,
    info: QueryableInfoType,
) -> Result<(), OutOfMemory>
    requires { at_text key.now (texts_of keys.old.entries) ≡ None }
    ensures ok { OnOk result (texts_of keys.new.entries ≡ with_holding_by P.cmp key.now place info (texts_of keys.old.entries)) }
    ensures err { OnErr result (texts_of keys.new.entries ≡ texts_of keys.old.entries) }
{
    let text = String::from_str(alloc, key)?;
    let mut holders = Holders::new(alloc);
    holders.put(place, info)?;
    match keys.insert(text, holders) {
        Ok(_) => Ok(()),
        Err(_) => Err(OutOfMemory),
    }
}

/// The first declaration on a key, which is listed where it has to be. Where memory is lacking a list may
/// have it without a declaration.
fn put_new<P: Place>(
    keys: &mut BTreeMap<String, Holders<P>>,
    lists: &mut KeyLists,
    alloc: Global,
    key: &str,
    place: P,
    info: QueryableInfoType,
) -> Result<(), OutOfMemory>
    requires absent { at_text key.now (texts_of keys.old.entries) ≡ None }
    requires listed { AreListed (texts_of keys.old.entries) lists.old }
    ensures ok { OnOk result (texts_of keys.new.entries ≡ with_holding_by P.cmp key.now place info (texts_of keys.old.entries)) }
    ensures err { OnErr result (texts_of keys.new.entries ≡ texts_of keys.old.entries) }
    ensures listed { AreListed (texts_of keys.new.entries) lists.new }
{
    lists.put(alloc, key)?;
    match put_first(keys, alloc, key, place, info) {
        Ok(()) => Ok(()),
        Err(error) => Err(error),
    }
}

/// The declaration of the place goes; answers whether the key has none left.
#[tactic(auto, using(crate::proofs::Texts::text_lookup, crate::proofs::Texts::text_set))]
fn take_from<P: Place>(keys: &mut BTreeMap<String, Holders<P>>, key: &str, place: P) -> bool
    requires { is_some (at_text key.now (texts_of keys.old.entries)) ≡ true }
    ensures after { (hs : HeldBy P) → at_text key.now (texts_of keys.old.entries) ≡ Some hs → (result ≡ (length (remove_entry (is_at (P.cmp place)) hs) == 0)) × (texts_of keys.new.entries ≡ set_value (is_at (text_cmp key.now)) (texts_of keys.old.entries) (remove_entry (is_at (P.cmp place)) hs)) }
    ensures listed { (lists : Lists) → AreListed (texts_of keys.old.entries) lists → AreListed (texts_of keys.new.entries) lists }
{
    match keys.get_mut(key) {
        Some(holders) => holders.take(place),
        None => unreachable!(),
    }
}

/// The key goes.
#[tactic(auto, using(crate::proofs::Texts::text_remove))]
fn drop_key<P: Place>(keys: &mut BTreeMap<String, Holders<P>>, key: &str)
    ensures after { texts_of keys.new.entries ≡ remove_entry (is_at (text_cmp key.now)) (texts_of keys.old.entries) }
    ensures gone { at_text key.now (texts_of keys.new.entries) ≡ None }
{
    let _ = keys.remove(key);
}

/// The key goes from the lists, too.
fn drop_last<P: Place>(keys: &mut BTreeMap<String, Holders<P>>, lists: &mut KeyLists, key: &str)
    requires { AreListed (texts_of keys.old.entries) lists.old }
    ensures after { texts_of keys.new.entries ≡ remove_entry (is_at (text_cmp key.now)) (texts_of keys.old.entries) }
    ensures listed { AreListed (texts_of keys.new.entries) lists.new }
{
    drop_key(keys, key);
    lists.take(key);
}

/// An equal entry is put in its place.
#[tactic(auto, using(crate::proofs::Texts::text_insert))]
fn put_copy<P: Place>(
    made: &mut BTreeMap<String, Holders<P>>,
    alloc: Global,
    key: &str,
    holders: &Holders<P>,
) -> Result<(), OutOfMemory>
    ensures { OnOk result (texts_of made.new.entries ≡ insert_entry text_cmp (texts_of made.old.entries) key.now holders.now) }
{
    let text = String::from_str(alloc, key)?;
    match made.insert(text, holders.copy(alloc)?) {
        Ok(_) => Ok(()),
        Err(_) => Err(OutOfMemory),
    }
}

/// Equal declarations on each key.
#[tactic(auto, using(crate::proofs::Rebuilt::rebuilt_texts))]
fn copy_keys<P: Place>(
    keys: &BTreeMap<String, Holders<P>>,
    alloc: Global,
) -> Result<BTreeMap<String, Holders<P>>, OutOfMemory>
    ensures { IfOk result (λ k. texts_of k.entries ≡ texts_of keys.now.entries) }
{
    let mut made = BTreeMap::new(alloc);
    for (key, holders) in keys {
        put_copy(&mut made, alloc, key.as_str(), holders)?;
    }
    Ok(made)
}

impl<P: Place> KeyHolders<P> {
    /// Equal declarations on each key.
    pub fn copy(&self, alloc: Global) -> Result<KeyHolders<P>, OutOfMemory>
        ensures { IfOk result (λ k. k ≡ self.now) }
    {
        Ok(KeyHolders {
            keys: copy_keys(&self.keys, alloc)?,
            lists: self.lists.copy()?,
        })
    }

    /// No declarations.
    pub fn new(alloc: Global) -> KeyHolders<P>
        ensures { result ≡ [] }
    {
        KeyHolders {
            keys: BTreeMap::new(alloc),
            lists: KeyLists::new(alloc),
        }
    }

    /// The declarations on each key, by its text.
    pub fn keys(&self) -> &BTreeMap<String, Holders<P>>
        ensures { texts_of result.now.entries ≡ self.now }
    {
        &self.keys
    }

    /// The keys that are listed besides.
    pub fn lists(&self) -> &KeyLists
        ensures { AreListed self.now result.now }
    {
        &self.lists
    }

    /// The declarations on the key.
    #[tactic(auto, using(crate::proofs::Texts::text_lookup))]
    pub fn get(&self, key: &str) -> Option<&Holders<P>>
        ensures { option_copied result ≡ at_text key.now self.now }
    {
        self.keys.get(key)
    }

    #[tactic(auto, using(crate::proofs::Texts::text_lookup))]
    fn has(&self, key: &str) -> bool
        ensures { result ≡ is_some (at_text key.now self.now) }
    {
        self.keys.contains_key(key)
    }

    /// Adds a declaration on the key, or replaces that of the place.
    pub fn put(
        &mut self,
        alloc: Global,
        key: &str,
        place: P,
        info: QueryableInfoType,
    ) -> Result<(), OutOfMemory>
        ensures ok { OnOk result (self.new ≡ with_holding_by P.cmp key.now place info self.old) }
        ensures err { OnErr result (self.new ≡ self.old) }
    {
        if self.has(key) {
            return match put_beside(&mut self.keys, key, place, info) {
                Ok(()) => Ok(()),
                Err(error) => Err(error),
            };
        }
        put_new(&mut self.keys, &mut self.lists, alloc, key, place, info)
    }

    /// Takes out the declaration of the place on the key.
    pub fn take(&mut self, key: &str, place: P)
        ensures { self.new ≡ without_holding_by P.cmp key.now place self.old }
    {
        if !self.has(key) {
            return;
        }
        if take_from(&mut self.keys, key, place) {
            drop_last(&mut self.keys, &mut self.lists, key);
        }
    }
}
