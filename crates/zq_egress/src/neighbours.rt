//! What a call tells along trees and what it tells neighbours, told at once, with room for what it
//! leaves of neighbours.
ghost use Rattle.std.specs.Prelude.{◌≡◌, ◌≤◌, ◌++◌, [], drop, length, map, true, false, IfOk, OnOk, OnErr, IsErrOf};
ghost use Rattle.std.specs.List.{All};
ghost use Rattle.zq_key.specs.Key.{is_key as key_of};
ghost use Rattle.zq_strategy.specs.Tellings.{in_order};
ghost use Rattle.zq_told.specs.declared.types.Reason.TheVariants.{Update};
ghost use Rattle.zq_told.specs.Rooms.{AreBare, IsReady, ears_of};
ghost use Rattle.zq_told.specs.Telling.{lacks_ids, tell_faces};
ghost use Rattle.zq_machine.specs.Messages.{from_hat};
ghost use Rattle.zq_machine.specs.State.{Core};
ghost use Rattle.zq_machine.specs.Writing.{tell as tell_of};
ghost use Rattle.zq_egress.specs.Neighbours.{told_with};
ghost use Rattle.zq_egress.specs.Telling.{KeyedAs, behind, told_to, untold};

use crate::tell::{InterestId, tell, untell};
use std::alloc::Global;
use std::collections::BTreeMap;
use zq_dispatcher::telling::add_all;
use zq_interests::numbers::WantsKeys;
use zq_machine::face::OpenFace;
use zq_machine::handed::HandedList;
use zq_strategy::types::TellingList;
use zq_tables::naming::Naming;
use zq_told::told_sets::ToldSets;
use zq_told::types::{FaceUpdate, Plan, Planned, Reason, TellRefusal};

/// What a call tells, as messages, and what it leaves of neighbours; there is room for that.
#[derive(Drop)]
pub struct ToldAll {
    /// What the call leaves of neighbours, to be put when nothing can fail any more.
    pub plan: Plan,
    /// The messages that came first, and behind them what is told.
    pub handed: HandedList,
}

// What is told along trees, with what neighbours are told behind it, and what it leaves of them, for
// which room is made.
pub(crate) fn plan_room(
    alloc: Global,
    ears: &mut ToldSets,
    way: Reason,
    dues: &[FaceUpdate],
    told: TellingList,
) -> Result<Planned, TellRefusal>
    ensures ears { ears_of ears.new ≡ ears_of ears.old }
    ensures plan { IfOk result (λ p. p.plan ≡ (tell_faces way (ears_of ears.old) dues.now).plan) }
    ensures told { IfOk result (λ p. p.tellings ≡ told ++ (tell_faces way (ears_of ears.old) dues.now).tellings) }
    ensures ready { IfOk result (λ p. IsReady p.plan ears.new) }
    ensures rooms { AreBare (tell_faces way (ears_of ears.old) dues.now).plan ears.old → OnErr result (AreBare (tell_faces way (ears_of ears.old) dues.now).plan ears.new) }
    ensures free { OnOk result (lacks_ids way (ears_of ears.old) dues.now ≡ false) }
    ensures no_free { IsErrOf result TellRefusal.NoFreeId → lacks_ids way (ears_of ears.old) dues.now ≡ true }
{
    let Planned { plan, tellings } = match ears.plan(alloc, way, dues) {
        Ok(planned) => planned,
        Err(refusal) => return Err(refusal),
    };
    let mut told = told;
    match add_all(&mut told, tellings) {
        Ok(()) => {}
        Err(_) => return Err(TellRefusal::OutOfMemory),
    }
    match ears.make_room(alloc, plan.as_slice()) {
        Ok(()) => Ok(Planned {
            plan,
            tellings: told,
        }),
        Err(_) => Err(TellRefusal::OutOfMemory),
    }
}

// The same told as messages: in answer to the interest, or where there is none as `tell_all` says; of all
// kinds of calls.
pub(crate) fn tell_way<K: WantsKeys>(
    alloc: Global,
    faces: &BTreeMap<u32, OpenFace>,
    keyed: &K,
    names: &mut Naming,
    ears: &mut ToldSets,
    way: Reason,
    interest: Option<InterestId>,
    dues: &[FaceUpdate],
    told: TellingList,
    first: HandedList,
) -> Result<ToldAll, TellRefusal>
    requires { lacks_ids way (ears_of ears.old) dues.now ≡ false → All (λ t. key_of t.key ≡ true) (told ++ (tell_faces way (ears_of ears.old) dues.now).tellings) }
    ensures ok { (c : Core) → c.faces ≡ faces.now.entries → KeyedAs (K.keyed keyed.now) c.interests → IfOk result (λ x. behind first (tell_of c (told_to interest (map from_hat (in_order (told ++ (tell_faces way (ears_of ears.old) dues.now).tellings)))) names.old) ≡ record { handed = x.handed; names = names.new }) }
    ensures longer { IfOk result (λ x. length first ≤ length x.handed) }
    ensures back { IfOk result (λ x. untold (drop (length first) x.handed) names.new ≡ names.old) }
    ensures plan { IfOk result (λ x. x.plan ≡ (tell_faces way (ears_of ears.old) dues.now).plan) }
    ensures ready { IfOk result (λ x. IsReady x.plan ears.new) }
    ensures ears { ears_of ears.new ≡ ears_of ears.old }
    ensures rooms { AreBare (tell_faces way (ears_of ears.old) dues.now).plan ears.old → OnErr result (AreBare (tell_faces way (ears_of ears.old) dues.now).plan ears.new) }
    ensures err { OnErr result (names.new ≡ names.old) }
    ensures free { OnOk result (lacks_ids way (ears_of ears.old) dues.now ≡ false) }
    ensures no_free { IsErrOf result TellRefusal.NoFreeId → lacks_ids way (ears_of ears.old) dues.now ≡ true }
{
    let Planned { plan, tellings } = match plan_room(alloc, ears, way, dues, told) {
        Ok(planned) => planned,
        Err(refusal) => return Err(refusal),
    };
    let told = tellings.as_slice();
    match tell(alloc, faces, keyed, names, told, interest, first) {
        Ok(handed) => Ok(ToldAll { plan, handed }),
        Err(_) => {
            ears.give_back(plan.as_slice());
            Err(TellRefusal::OutOfMemory)
        }
    }
}

/// The messages of what is told along trees and of what neighbours are told of the keys that a call
/// looks at, behind messages that come first, as `tell` gives them in answer to no interest. Room is
/// made for what it leaves of neighbours, so that the plan can be put. `NoFreeId` where a face needs an
/// id above those of 32 bits. Where it is refused, all is as it was, and the rooms are given back.
pub fn tell_all<K: WantsKeys>(
    alloc: Global,
    faces: &BTreeMap<u32, OpenFace>,
    keyed: &K,
    names: &mut Naming,
    ears: &mut ToldSets,
    dues: &[FaceUpdate],
    told: TellingList,
    first: HandedList,
) -> Result<ToldAll, TellRefusal>
    requires { lacks_ids Update (ears_of ears.old) dues.now ≡ false → All (λ t. key_of t.key ≡ true) (told_with (ears_of ears.old) dues.now told) }
    ensures ok { (c : Core) → c.faces ≡ faces.now.entries → KeyedAs (K.keyed keyed.now) c.interests → IfOk result (λ x. behind first (tell_of c (map from_hat (in_order (told_with (ears_of ears.old) dues.now told))) names.old) ≡ record { handed = x.handed; names = names.new }) }
    ensures longer { IfOk result (λ x. length first ≤ length x.handed) }
    ensures back { IfOk result (λ x. untold (drop (length first) x.handed) names.new ≡ names.old) }
    ensures plan { IfOk result (λ x. x.plan ≡ (tell_faces Update (ears_of ears.old) dues.now).plan) }
    ensures ready { IfOk result (λ x. IsReady x.plan ears.new) }
    ensures ears { ears_of ears.new ≡ ears_of ears.old }
    ensures rooms { AreBare (tell_faces Update (ears_of ears.old) dues.now).plan ears.old → OnErr result (AreBare (tell_faces Update (ears_of ears.old) dues.now).plan ears.new) }
    ensures err { OnErr result (names.new ≡ names.old) }
    ensures free { OnOk result (lacks_ids Update (ears_of ears.old) dues.now ≡ false) }
    ensures no_free { IsErrOf result TellRefusal.NoFreeId → lacks_ids Update (ears_of ears.old) dues.now ≡ true }
{
    let way = Reason::Update;
    match tell_way(
        alloc, faces, keyed, names, ears, way, None, dues, told, first,
    ) {
        Ok(told) => Ok(told),
        Err(refusal) => Err(refusal),
    }
}

/// What was told is taken back: the numbers that messages declare behind the first ones, and the rooms.
/// It takes no memory.
pub fn take_back(names: &mut Naming, ears: &mut ToldSets, told: &ToldAll, first: usize)
    requires { first ≤ length told.now.handed }
    ensures names { names.new ≡ untold (drop first told.now.handed) names.old }
    ensures ears { ears_of ears.new ≡ ears_of ears.old }
    ensures rooms { AreBare told.now.plan ears.new }
{
    untell(names, &told.handed.as_slice()[first..]);
    ears.give_back(told.plan.as_slice());
}
