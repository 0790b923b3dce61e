//! Interests that are answered, and what their ends leave of the face that asked.
ghost use Rattle.std.specs.Prelude.{◌≡◌, [], map, true, false, IfOk, OnOk, OnErr, IsErrOf};
ghost use Rattle.std.specs.List.{All};
ghost use Rattle.std.specs.Option.{option_copied};
ghost use Rattle.zq_key.specs.Key.{is_key as key_of};
ghost use Rattle.zq_strategy.specs.Tellings.{in_order};
ghost use Rattle.zq_told.specs.declared.types.Reason.TheVariants.{Answer, End};
ghost use Rattle.zq_told.specs.Rooms.{AreBare, IsReady, ears_of};
ghost use Rattle.zq_told.specs.Telling.{lacks_ids, tell_faces};
ghost use Rattle.zq_machine.specs.Messages.{answered_by, from_hat};
ghost use Rattle.zq_machine.specs.State.{Core};
ghost use Rattle.zq_machine.specs.Writing.{tell as tell_of};
ghost use Rattle.zq_egress.specs.Neighbours.{asked_back, asking, is_fresh};
ghost use Rattle.zq_egress.specs.Telling.{KeyedAs, behind, untold};

use crate::neighbours::{ToldAll, take_back, tell_way};
use crate::tell::InterestId;
use std::alloc::Global;
use std::collections::BTreeMap;
use zq_interests::numbers::WantsKeys;
use zq_key::Key;
use zq_key::items::Items;
use zq_key::memory::OutOfMemory;
use zq_key::message::FaceId;
use zq_machine::face::OpenFace;
use zq_tables::naming::Naming;
use zq_told::told_sets::ToldSets;
use zq_told::types::{FaceUpdate, Reason, TellRefusal};

/// An interest of the face is answered: the messages of all that is due on the keys that it asks for,
/// each marked with its id, and last that all was told. Room is made for what it leaves of the face, so
/// that the plan can be put. `NoFreeId` where the face needs an id above those of 32 bits. Where it is
/// refused, all is as it was, and the rooms are given back.
pub fn answer_all<K: WantsKeys>(
    alloc: Global,
    faces: &BTreeMap<u32, OpenFace>,
    keyed: &K,
    names: &mut Naming,
    ears: &mut ToldSets,
    face: FaceId,
    id: u32,
    dues: &[FaceUpdate],
) -> Result<ToldAll, TellRefusal>
    requires { lacks_ids Answer (ears_of ears.old) dues.now ≡ false → All (λ t. key_of t.key ≡ true) (tell_faces Answer (ears_of ears.old) dues.now).tellings }
    ensures ok { (c : Core) → c.faces ≡ faces.now.entries → KeyedAs (K.keyed keyed.now) c.interests → IfOk result (λ x. tell_of c (answered_by face id (map from_hat (in_order (tell_faces Answer (ears_of ears.old) dues.now).tellings))) names.old ≡ record { handed = x.handed; names = names.new }) }
    ensures back { IfOk result (λ x. untold x.handed names.new ≡ names.old) }
    ensures plan { IfOk result (λ x. x.plan ≡ (tell_faces Answer (ears_of ears.old) dues.now).plan) }
    ensures ready { IfOk result (λ x. IsReady x.plan ears.new) }
    ensures ears { ears_of ears.new ≡ ears_of ears.old }
    ensures rooms { AreBare (tell_faces Answer (ears_of ears.old) dues.now).plan ears.old → OnErr result (AreBare (tell_faces Answer (ears_of ears.old) dues.now).plan ears.new) }
    ensures err { OnErr result (names.new ≡ names.old) }
    ensures free { OnOk result (lacks_ids Answer (ears_of ears.old) dues.now ≡ false) }
    ensures no_free { IsErrOf result TellRefusal.NoFreeId → lacks_ids Answer (ears_of ears.old) dues.now ≡ true }
{
    let interest = Some(InterestId { face, id });
    let told = Items::new(alloc);
    let none = Items::new(alloc);
    let way = Reason::Answer;
    match tell_way(
        alloc, faces, keyed, names, ears, way, interest, dues, told, none,
    ) {
        Ok(told) => Ok(told),
        Err(refusal) => Err(refusal),
    }
}

// An interest with a key holds the key's node. Answers whether it held none before.
fn hold(names: &mut Naming, face: FaceId, id: u32, key: Option<&Key>) -> Result<bool, OutOfMemory>
    ensures fresh { IfOk result (λ b. b ≡ is_fresh face.0 id (option_copied key.entry) names.old) }
    ensures ok { OnOk result (names.new ≡ asking face.0 id (option_copied key.entry) names.old) }
    ensures err { OnErr result (names.new ≡ names.old) }
{
    match key {
        Some(key) => match names.hold_interest(face, id, key) {
            Ok(fresh) => Ok(fresh),
            Err(error) => Err(error),
        },
        None => Ok(false),
    }
}

// An interest that holds a node afresh lets it go again.
fn let_go(names: &mut Naming, face: FaceId, id: u32, fresh: bool)
    ensures { names.new ≡ asked_back face.0 id fresh names.old }
{
    if fresh {
        names.release_interest(face, id);
    }
}

/// An interest with a key holds the key's node, one without a key holds none, and the interest is
/// answered as `answer_all` does. Where it is refused, all is as it was, and the rooms are given back.
pub fn hold_and_answer<K: WantsKeys>(
    alloc: Global,
    faces: &BTreeMap<u32, OpenFace>,
    keyed: &K,
    names: &mut Naming,
    ears: &mut ToldSets,
    face: FaceId,
    id: u32,
    key: Option<&Key>,
    dues: &[FaceUpdate],
) -> Result<ToldAll, TellRefusal>
    requires { lacks_ids Answer (ears_of ears.old) dues.now ≡ false → All (λ t. key_of t.key ≡ true) (tell_faces Answer (ears_of ears.old) dues.now).tellings }
    ensures ok { (c : Core) → c.faces ≡ faces.now.entries → KeyedAs (K.keyed keyed.now) c.interests → IfOk result (λ x. tell_of c (answered_by face id (map from_hat (in_order (tell_faces Answer (ears_of ears.old) dues.now).tellings))) (asking face.0 id (option_copied key.entry) names.old) ≡ record { handed = x.handed; names = names.new }) }
    ensures back { IfOk result (λ x. untold x.handed names.new ≡ asking face.0 id (option_copied key.entry) names.old) }
    ensures plan { IfOk result (λ x. x.plan ≡ (tell_faces Answer (ears_of ears.old) dues.now).plan) }
    ensures ready { IfOk result (λ x. IsReady x.plan ears.new) }
    ensures ears { ears_of ears.new ≡ ears_of ears.old }
    ensures rooms { AreBare (tell_faces Answer (ears_of ears.old) dues.now).plan ears.old → OnErr result (AreBare (tell_faces Answer (ears_of ears.old) dues.now).plan ears.new) }
    ensures err { OnErr result (names.new ≡ names.old) }
    ensures free { OnOk result (lacks_ids Answer (ears_of ears.old) dues.now ≡ false) }
    ensures no_free { IsErrOf result TellRefusal.NoFreeId → lacks_ids Answer (ears_of ears.old) dues.now ≡ true }
{
    let fresh = match hold(names, face, id, key) {
        Ok(fresh) => fresh,
        Err(_) => return Err(TellRefusal::OutOfMemory),
    };
    match answer_all(alloc, faces, keyed, names, ears, face, id, dues) {
        Ok(told) => Ok(told),
        Err(refusal) => {
            let_go(names, face, id, fresh);
            Err(refusal)
        }
    }
}

/// The answer to an interest is taken back, and the node that it holds, afresh or not; the rooms are
/// given back. It takes no memory.
pub fn take_back_answered(
    names: &mut Naming,
    ears: &mut ToldSets,
    told: &ToldAll,
    face: FaceId,
    id: u32,
    fresh: bool,
)
    ensures names { names.new ≡ asked_back face.0 id fresh (untold told.now.handed names.old) }
    ensures ears { ears_of ears.new ≡ ears_of ears.old }
    ensures rooms { AreBare told.now.plan ears.new }
{
    take_back(names, ears, told, 0);
    let_go(names, face, id, fresh);
}

/// The end of an interest is told: the messages of what stays due with other information, under the id
/// that it has. Room is made for what it leaves of the face that asked, of whom what is due no more is
/// forgotten, so that the plan can be put; no id lacks. Refused only where memory is lacking; then all is
/// as it was, and the rooms are given back.
pub fn tell_end<K: WantsKeys>(
    alloc: Global,
    faces: &BTreeMap<u32, OpenFace>,
    keyed: &K,
    names: &mut Naming,
    ears: &mut ToldSets,
    dues: &[FaceUpdate],
) -> Result<ToldAll, OutOfMemory>
    requires keys { All (λ t. key_of t.key ≡ true) (tell_faces End (ears_of ears.old) dues.now).tellings }
    requires free { lacks_ids End (ears_of ears.old) dues.now ≡ false }
    ensures ok { (c : Core) → c.faces ≡ faces.now.entries → KeyedAs (K.keyed keyed.now) c.interests → IfOk result (λ x. tell_of c (map from_hat (in_order (tell_faces End (ears_of ears.old) dues.now).tellings)) names.old ≡ record { handed = x.handed; names = names.new }) }
    ensures back { IfOk result (λ x. untold x.handed names.new ≡ names.old) }
    ensures plan { IfOk result (λ x. x.plan ≡ (tell_faces End (ears_of ears.old) dues.now).plan) }
    ensures ready { IfOk result (λ x. IsReady x.plan ears.new) }
    ensures ears { ears_of ears.new ≡ ears_of ears.old }
    ensures rooms { AreBare (tell_faces End (ears_of ears.old) dues.now).plan ears.old → OnErr result (AreBare (tell_faces End (ears_of ears.old) dues.now).plan ears.new) }
    ensures err { OnErr result (names.new ≡ names.old) }
{
    let told = Items::new(alloc);
    let none = Items::new(alloc);
    let way = Reason::End;
    match tell_way(
        alloc, faces, keyed, names, ears, way, None, dues, told, none,
    ) {
        Ok(told) => Ok(told),
        Err(TellRefusal::OutOfMemory) => Err(OutOfMemory),
        Err(TellRefusal::NoFreeId) => unreachable!(),
    }
}
