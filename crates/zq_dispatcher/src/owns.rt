//! The keys of faces' aggregating interests that some keys meet: found once for all faces, by the texts of
//! keys, so that no interest is looked at that none of them meets.
ghost use Rattle.std.specs.Prelude.{◌≡◌, ◌&&◌, ◌||◌, [], false, ℕ, List, IfOk, IsTrue, OnOk, fold, map, string_bytes};
ghost use Rattle.std.specs.BTreeSet.{insert_key};
ghost use Rattle.zq_index.specs.Texts.{has_text, text_cmp};
ghost use Rattle.zq_key.specs.Key.{intersects, is_key};
ghost use Rattle.zq_interests.specs.Interests.{own_keys};
ghost use Rattle.zq_dispatcher.specs.Dues.{AreKeys};
ghost use Rattle.zq_dispatcher.specs.Owns.{AllKeys, AreOwns, has_face, owns_of, with_folder, with_key};

use crate::sorted::has_text;
use std::alloc::Global;
use std::collections::{BTreeMap, BTreeSet};
use std::marker::Model;
use zq_index::text_set::put_text;
use zq_interests::interests::Interests;
use zq_interests::types::FaceKey;
use zq_key::memory::OutOfMemory;
use zq_key::text::Text;

/// Keys of a face's aggregating interests, each once.
#[derive(Drop)]
pub(crate) struct OwnKeys {
    keys: BTreeSet<String>,
}

impl Model for OwnKeys {
    ghost use Rattle.std.specs.Prelude.{List, map, string_bytes, ℕ};

    ghost Value = { List (List ℕ) };

    ghost view = { λ o. map string_bytes o.keys.keys };
}

/// Keys of aggregating interests, by the numbers of their faces.
pub(crate) type Owns = BTreeMap<u32, OwnKeys>;

impl OwnKeys {
    // No keys.
    fn new(alloc: Global) -> OwnKeys
        ensures { result ≡ [] }
    {
        OwnKeys {
            keys: BTreeSet::new(alloc),
        }
    }

    // A key joins them.
    fn put(&mut self, alloc: Global, key: &str) -> Result<(), OutOfMemory>
        ensures { OnOk result (self.new ≡ insert_key text_cmp self.old key.now) }
    {
        put_text(&mut self.keys, alloc, key)
    }

    /// Whether the key is among them.
    pub(crate) fn has(&self, key: &str) -> bool
        ensures { result ≡ has_text key.now self.now }
    {
        has_text(&self.keys, key)
    }

    /// They join other texts.
    pub(crate) fn join(
        &self,
        texts: &mut BTreeSet<String>,
        alloc: Global,
    ) -> Result<(), OutOfMemory>
        ensures { OnOk result (map string_bytes texts.new.keys ≡ fold (insert_key text_cmp) (map string_bytes texts.old.keys) self.now) }
    {
        for key in &self.keys {
            put_text(texts, alloc, key.as_str())?;
        }
        Ok(())
    }
}

// A key joins those of a face that has some.
fn put_beside(owns: &mut Owns, alloc: Global, face: u32, key: &str) -> Result<(), OutOfMemory>
    requires { IsTrue (has_face face owns.old.entries) }
    ensures { OnOk result (owns.new.entries ≡ with_key face key.now owns.old.entries) }
{
    match owns.get_mut(&face) {
        Some(own) => own.put(alloc, key),
        None => unreachable!(),
    }
}

// The first key of a face.
fn put_first(owns: &mut Owns, alloc: Global, face: u32, key: &str) -> Result<(), OutOfMemory>
    requires { has_face face owns.old.entries ≡ false }
    ensures { OnOk result (owns.new.entries ≡ with_key face key.now owns.old.entries) }
{
    let mut own = OwnKeys::new(alloc);
    own.put(alloc, key)?;
    match owns.insert(face, own) {
        Ok(_) => Ok(()),
        Err(_) => Err(OutOfMemory),
    }
}

// A key that was found joins those of its face.
fn put_folder(owns: &mut Owns, alloc: Global, folder: &FaceKey) -> Result<(), OutOfMemory>
    ensures { OnOk result (owns.new.entries ≡ with_folder owns.old.entries folder.now) }
{
    let face = folder.face.0;
    let key = folder.key.as_str();
    if owns.contains_key(&face) {
        put_beside(owns, alloc, face, key)
    } else {
        put_first(owns, alloc, face, key)
    }
}

// So do all that were found.
fn put_folders(owns: &mut Owns, alloc: Global, folders: &[FaceKey]) -> Result<(), OutOfMemory>
    ensures { OnOk result (owns.new.entries ≡ fold with_folder owns.old.entries folders.now) }
{
    for folder in folders {
        put_folder(owns, alloc, folder)?;
    }
    Ok(())
}

// Those join them that the key meets.
fn put_met(
    owns: &mut Owns,
    alloc: Global,
    interests: &Interests,
    key: &str,
) -> Result<(), OutOfMemory>
    requires { IsTrue (is_key key.now) }
    ensures met { OnOk result ((face : ℕ) (own : List ℕ) → has_text own (owns_of face owns.new.entries) ≡ ((intersects key.now own && has_text own (own_keys face interests.now)) || has_text own (owns_of face owns.old.entries))) }
    ensures valid { AllKeys owns.old.entries → OnOk result (AllKeys owns.new.entries) }
{
    let folders = interests.folders(alloc, key)?;
    put_folders(owns, alloc, folders.as_slice())
}

/// By face the keys of aggregating interests that one of the keys meets. Refused only where memory is
/// lacking.
pub(crate) fn owns_met(
    alloc: Global,
    interests: &Interests,
    keys: &[Text],
) -> Result<Owns, OutOfMemory>
    requires { AreKeys keys.now }
    ensures met { IfOk result (λ m. AreOwns keys.now interests.now m.entries) }
    ensures valid { IfOk result (λ m. AllKeys m.entries) }
{
    let mut owns = BTreeMap::new(alloc);
    for key in keys {
        put_met(&mut owns, alloc, interests, key.as_str())?;
    }
    Ok(owns)
}
