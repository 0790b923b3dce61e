//! A face that is opened joins the others, and is told what is due to it.
ghost use Rattle.std.specs.Prelude.{◌≡◌, List, [], map, true, false, None, IfOk, OnOk, OnErr, IsErrOf};
ghost use Rattle.std.specs.BTreeMap.{insert_entry, is_at};
ghost use Rattle.std.specs.List.{All};
ghost use Rattle.std.specs.Map.{remove_entry};
ghost use Rattle.std.specs.Ordering.{nat_cmp};
ghost use Rattle.zq_key.specs.Key.{is_key as key_of};
ghost use Rattle.zq_strategy.specs.Tellings.{in_order};
ghost use Rattle.zq_tables.specs.Naming.{closed_naming, naming_at, opened_naming};
ghost use Rattle.zq_told.specs.declared.types.FacePlan.{FacePlan};
ghost use Rattle.zq_told.specs.declared.types.Reason.TheVariants.{Update};
ghost use Rattle.zq_told.specs.ToldSets.{at_face, closed, opened as heard_opened};
ghost use Rattle.zq_told.specs.Rooms.{AreBare, IsReady, ears_of};
ghost use Rattle.zq_told.specs.Telling.{lacks_ids, tell_faces};
ghost use Rattle.zq_machine.specs.Messages.{from_hat};
ghost use Rattle.zq_machine.specs.State.{Core, at};
ghost use Rattle.zq_machine.specs.Writing.{tell as tell_of};
ghost use Rattle.zq_egress.specs.Neighbours.{told_with};
ghost use Rattle.zq_egress.specs.Telling.{KeyedAs, behind, untold};

use crate::neighbours::{ToldAll, take_back, tell_all};
use std::alloc::Global;
use std::collections::BTreeMap;
use zq_dispatcher::seating::{enter, leave};
use zq_interests::numbers::WantsKeys;
use zq_key::items::Items;
use zq_key::memory::OutOfMemory;
use zq_key::message::FaceId;
use zq_machine::face::OpenFace;
use zq_tables::naming::Naming;
use zq_told::told_sets::ToldSets;
use zq_told::types::{FaceUpdate, TellRefusal};

// The face joins the open ones, those that have numbers, and those of which something is kept. There is no
// more room than before.
fn join(
    alloc: Global,
    faces: &mut BTreeMap<u32, OpenFace>,
    names: &mut Naming,
    ears: &mut ToldSets,
    face: FaceId,
    opened: OpenFace,
    last: u32,
) -> Result<(), OutOfMemory>
    requires named { naming_at face.0 names.old ≡ None }
    requires absent { at face.0 faces.old.entries ≡ None }
    requires unheard { at_face face.0 (ears_of ears.old) ≡ None }
    ensures names { OnOk result (names.new ≡ opened_naming face.0 names.old) }
    ensures faces { OnOk result (faces.new.entries ≡ insert_entry nat_cmp faces.old.entries face.0 opened) }
    ensures ears { OnOk result (ears_of ears.new ≡ heard_opened face.0 last (ears_of ears.old)) }
    ensures no_names { OnErr result (names.new ≡ names.old) }
    ensures no_faces { OnErr result (faces.new.entries ≡ faces.old.entries) }
    ensures no_ears { OnErr result (ears_of ears.new ≡ ears_of ears.old) }
    ensures rooms { (plan : List FacePlan) → AreBare plan ears.old → AreBare plan ears.new }
{
    ears.open(alloc, face, last)?;
    match enter(names, faces, face, opened) {
        Ok(()) => Ok(()),
        Err(error) => {
            ears.close(face);
            Err(error)
        }
    }
}

/// A face joins the open ones, those that have numbers, and those of which something is kept, and is
/// told what is due to it, as `tell_all` tells it. Where it is refused, all is as it was, and the rooms
/// are given back.
pub fn join_and_tell<K: WantsKeys>(
    alloc: Global,
    faces: &mut BTreeMap<u32, OpenFace>,
    keyed: &K,
    names: &mut Naming,
    ears: &mut ToldSets,
    face: FaceId,
    opened: OpenFace,
    last: u32,
    dues: &[FaceUpdate],
) -> Result<ToldAll, TellRefusal>
    requires named { naming_at face.0 names.old ≡ None }
    requires absent { at face.0 faces.old.entries ≡ None }
    requires unheard { at_face face.0 (ears_of ears.old) ≡ None }
    requires keys { lacks_ids Update (heard_opened face.0 last (ears_of ears.old)) dues.now ≡ false → All (λ t. key_of t.key ≡ true) (told_with (heard_opened face.0 last (ears_of ears.old)) dues.now []) }
    ensures faces { OnOk result (faces.new.entries ≡ insert_entry nat_cmp faces.old.entries face.0 opened) }
    ensures ok { (c : Core) → c.faces ≡ insert_entry nat_cmp faces.old.entries face.0 opened → KeyedAs (K.keyed keyed.now) c.interests → IfOk result (λ x. behind [] (tell_of c (map from_hat (in_order (told_with (heard_opened face.0 last (ears_of ears.old)) dues.now []))) (opened_naming face.0 names.old)) ≡ record { handed = x.handed; names = names.new }) }
    ensures taken { IfOk result (λ x. untold x.handed names.new ≡ opened_naming face.0 names.old) }
    ensures plan { IfOk result (λ x. x.plan ≡ (tell_faces Update (heard_opened face.0 last (ears_of ears.old)) dues.now).plan) }
    ensures ready { IfOk result (λ x. IsReady x.plan ears.new) }
    ensures ears { OnOk result (ears_of ears.new ≡ heard_opened face.0 last (ears_of ears.old)) }
    ensures no_names { OnErr result (names.new ≡ names.old) }
    ensures no_faces { OnErr result (faces.new.entries ≡ faces.old.entries) }
    ensures no_ears { OnErr result (ears_of ears.new ≡ ears_of ears.old) }
    ensures rooms { AreBare (tell_faces Update (heard_opened face.0 last (ears_of ears.old)) dues.now).plan ears.old → OnErr result (AreBare (tell_faces Update (heard_opened face.0 last (ears_of ears.old)) dues.now).plan ears.new) }
    ensures free { OnOk result (lacks_ids Update (heard_opened face.0 last (ears_of ears.old)) dues.now ≡ false) }
    ensures no_free { IsErrOf result TellRefusal.NoFreeId → lacks_ids Update (heard_opened face.0 last (ears_of ears.old)) dues.now ≡ true }
{
    match join(alloc, faces, names, ears, face, opened, last) {
        Ok(()) => {}
        Err(_) => return Err(TellRefusal::OutOfMemory),
    }
    let none = Items::new(alloc);
    let told = Items::new(alloc);
    match tell_all(alloc, faces, keyed, names, ears, dues, told, none) {
        Ok(told) => Ok(told),
        Err(refusal) => {
            leave(names, faces, face);
            ears.close(face);
            Err(refusal)
        }
    }
}

/// A face that joined the others and was told leaves them again; what was told is taken back, and the
/// rooms are given back. It takes no memory.
pub fn take_back_joined(
    faces: &mut BTreeMap<u32, OpenFace>,
    names: &mut Naming,
    ears: &mut ToldSets,
    told: &ToldAll,
    face: FaceId,
)
    ensures names { names.new ≡ closed_naming face.0 (untold told.now.handed names.old) }
    ensures faces { faces.new.entries ≡ remove_entry (is_at (nat_cmp face.0)) faces.old.entries }
    ensures ears { ears_of ears.new ≡ closed face.0 (ears_of ears.old) }
    ensures rooms { AreBare told.now.plan ears.new }
{
    ears.close(face);
    take_back(names, ears, told, 0);
    leave(names, faces, face);
}
