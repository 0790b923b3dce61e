//! The node of a key is held, and what comes of that is told; or all is taken back.
ghost use Rattle.std.specs.Prelude.{◌≡◌, [], map, true, false, IfOk, OnOk, OnErr, IsErrOf};
ghost use Rattle.std.specs.List.{All};
ghost use Rattle.zq_key.specs.Key.{is_key as key_of};
ghost use Rattle.zq_strategy.specs.Tellings.{in_order};
ghost use Rattle.zq_told.specs.declared.types.Reason.TheVariants.{Update};
ghost use Rattle.zq_told.specs.Rooms.{AreBare, IsReady, ears_of};
ghost use Rattle.zq_told.specs.Telling.{lacks_ids, tell_faces};
ghost use Rattle.zq_machine.specs.Messages.{from_hat};
ghost use Rattle.zq_machine.specs.State.{Core};
ghost use Rattle.zq_machine.specs.Writing.{tell as tell_of};
ghost use Rattle.zq_egress.specs.Holding.{CanHold, held, holds_first, let_go};
ghost use Rattle.zq_egress.specs.Neighbours.{told_with};
ghost use Rattle.zq_egress.specs.Telling.{KeyedAs, behind, untold};

use crate::neighbours::{ToldAll, take_back, tell_all};
use std::alloc::Global;
use std::collections::BTreeMap;
use zq_interests::numbers::WantsKeys;
use zq_key::Key;
use zq_key::items::Items;
use zq_key::memory::OutOfMemory;
use zq_key::message::{FaceId, QueryableInfoType, Region};
use zq_machine::face::OpenFace;
use zq_strategy::types::TellingList;
use zq_tables::naming::Naming;
use zq_told::told_sets::ToldSets;
use zq_told::types::{FaceUpdate, TellRefusal};

/// What holds the node of a key from a call on.
#[derive(Clone, Copy)]
pub enum Hold<'a> {
    /// A queryable of a face.
    Queryable {
        /// The face.
        face: FaceId,
        /// The queryable's id there.
        id: u32,
        /// Its key.
        key: &'a Key,
    },
    /// A router's entry. Those of a region on one key hold its node once.
    Entry {
        /// The region of the router.
        region: Region,
        /// The key of the entry.
        key: &'a Key,
        /// What the router announced; an entry that goes holds nothing.
        info: Option<QueryableInfoType>,
    },
}

/// What a call tells once a node is held, and whether it was not held so before.
#[derive(Drop)]
pub struct HeldAll {
    /// What it tells.
    pub told: ToldAll,
    /// Whether what holds the node held none before.
    pub fresh: bool,
}

// The node of a key is held. Answers whether it was not held so before.
fn take_hold(names: &mut Naming, by: &Hold<'_>) -> Result<bool, OutOfMemory>
    requires { CanHold by.now }
    ensures fresh { IfOk result (λ b. b ≡ holds_first by.now names.old) }
    ensures ok { OnOk result (names.new ≡ held by.now names.old) }
    ensures back { IfOk result (λ b. let_go by.now b (held by.now names.old) ≡ names.old) }
    ensures err { OnErr result (names.new ≡ names.old) }
{
    match *by {
        Hold::Queryable { face, id, key } => match names.hold_queryable(face, id, key) {
            Ok(fresh) => Ok(fresh),
            Err(error) => Err(error),
        },
        Hold::Entry { region, key, info } => match info {
            Some(_) => match names.hold_entry(&region, key) {
                Ok(fresh) => Ok(fresh),
                Err(error) => Err(error),
            },
            None => Ok(false),
        },
    }
}

// A node that was held afresh is let go again. It takes no memory.
fn release(names: &mut Naming, by: &Hold<'_>, fresh: bool)
    requires { CanHold by.now }
    ensures { names.new ≡ let_go by.now fresh names.old }
{
    if !fresh {
        return;
    }
    match *by {
        Hold::Queryable { face, id, key: _ } => names.release_queryable(face, id),
        Hold::Entry {
            region,
            key,
            info: _,
        } => names.release_entry(&region, key.as_str()),
    }
}

/// The node of a key is held, and what comes of it is told. Where it is refused, all is as it was, and
/// the rooms are given back.
pub fn hold_and_tell<K: WantsKeys>(
    alloc: Global,
    faces: &BTreeMap<u32, OpenFace>,
    keyed: &K,
    names: &mut Naming,
    ears: &mut ToldSets,
    by: &Hold<'_>,
    dues: &[FaceUpdate],
    told: TellingList,
) -> Result<HeldAll, TellRefusal>
    requires can { CanHold by.now }
    requires keys { lacks_ids Update (ears_of ears.old) dues.now ≡ false → All (λ t. key_of t.key ≡ true) (told_with (ears_of ears.old) dues.now told) }
    ensures ok { (c : Core) → c.faces ≡ faces.now.entries → KeyedAs (K.keyed keyed.now) c.interests → IfOk result (λ x. behind [] (tell_of c (map from_hat (in_order (told_with (ears_of ears.old) dues.now told))) (held by.now names.old)) ≡ record { handed = x.told.handed; names = names.new }) }
    ensures back { IfOk result (λ x. let_go by.now x.fresh (untold x.told.handed names.new) ≡ names.old) }
    ensures plan { IfOk result (λ x. x.told.plan ≡ (tell_faces Update (ears_of ears.old) dues.now).plan) }
    ensures ready { IfOk result (λ x. IsReady x.told.plan ears.new) }
    ensures ears { ears_of ears.new ≡ ears_of ears.old }
    ensures rooms { AreBare (tell_faces Update (ears_of ears.old) dues.now).plan ears.old → OnErr result (AreBare (tell_faces Update (ears_of ears.old) dues.now).plan ears.new) }
    ensures err { OnErr result (names.new ≡ names.old) }
    ensures free { OnOk result (lacks_ids Update (ears_of ears.old) dues.now ≡ false) }
    ensures no_free { IsErrOf result TellRefusal.NoFreeId → lacks_ids Update (ears_of ears.old) dues.now ≡ true }
{
    let fresh = match take_hold(names, by) {
        Ok(fresh) => fresh,
        Err(_) => return Err(TellRefusal::OutOfMemory),
    };
    let none = Items::new(alloc);
    match tell_all(alloc, faces, keyed, names, ears, dues, told, none) {
        Ok(told) => Ok(HeldAll { told, fresh }),
        Err(refusal) => {
            release(names, by, fresh);
            Err(refusal)
        }
    }
}

/// A node that was held, afresh or not, and what came of it, are taken back, and the rooms are given
/// back. It takes no memory.
pub fn take_back_held(names: &mut Naming, ears: &mut ToldSets, all: &HeldAll, by: &Hold<'_>)
    requires { CanHold by.now }
    ensures names { names.new ≡ let_go by.now all.now.fresh (untold all.now.told.handed names.old) }
    ensures ears { ears_of ears.new ≡ ears_of ears.old }
    ensures rooms { AreBare all.now.told.plan ears.new }
{
    take_back(names, ears, &all.told, 0);
    release(names, by, all.fresh);
}
