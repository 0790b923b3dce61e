//! The laws of telling, as the contracts of calls.
ghost use Rattle.zq_told.specs.Laws.{CallKeepsUp, CountsIds, HeardIsDue, IdsAreGiven, KeepsUp, LooksUp, TellsDifference, TellsEach, TellsInOrder};
ghost use Rattle.zq_told.specs.Leaving.{AnswersAll, AnswersDue, Closes, EndsChanging, EndsNeedNone, KeepsFaces, LacksExactly, LessDue, Opens, StaySound, StaysInOrder, TellsAimed, TellsMeant, TellsNoOther, ToldAimed};
ghost use Rattle.std.specs.Prelude.{ℕ, List};
ghost use Rattle.zq_told.specs.Moved.{KeepsTexts, TellsAlike};

/// A receiver that keeps what a face was told, and reads what a call tells it by ids alone, keeps afterwards
/// what the face was told then.
#[tactic(auto, using(crate::proofs::Settling::keeps_up))]
pub fn keeps_up()
    ensures { KeepsUp }
{}

/// On each key that a call looks at a receiver keeps exactly what is due, where an interest ended if it kept
/// something there; on any other key it keeps what it kept.
#[tactic(auto, using(crate::proofs::Settling::heard_is_due))]
pub fn heard_is_due()
    ensures { HeardIsDue }
{}

/// A key is told under the id that it has at the receiver, or, where it has none, under the one after the
/// last that the face was given; an id is withdrawn that the receiver has for the key.
#[tactic(auto, using(crate::proofs::Numbers::ids_are_given))]
pub fn ids_are_given()
    ensures { IdsAreGiven }
{}

/// Keys on which nothing differs are told nothing: a call that brings news may look at more keys than it
/// has to.
pub fn tells_difference()
    ensures { TellsDifference }
{}

/// A face is given as many ids as keys are newly due to it.
pub fn counts_ids()
    ensures { CountsIds }
{}

/// Each face is told what it is told by itself, whatever other faces are told.
pub fn tells_each()
    ensures { TellsEach }
{}

/// Where each face has its keys once, in order of the faces, a call leaves of a face what it leaves of it by
/// itself, and of any other what was.
pub fn looks_up()
    ensures { LooksUp }
{}

/// Where each face has its keys once, in order, and the faces stand in order, the tellings stand in order of
/// their faces and keys.
pub fn tells_in_order()
    ensures { TellsInOrder }
{}

/// Over a whole call: a receiver that keeps what its face was told, and reads by ids alone what the call tells
/// that face, keeps afterwards what the face was told then.
pub fn call_keeps_up()
    ensures { CallKeepsUp }
{}

/// After a call a face was told on each key what the call aims at; of what was told of other keys nothing
/// changes.
pub fn told_aimed()
    ensures { ToldAimed }
{}

/// Over a whole call: each face that is there was told on each key what the call aims at, if it looks at the
/// key for the face, and else what it was told before.
pub fn tells_aimed()
    ensures { TellsAimed }
{}

/// What a face was told stays in order of its keys.
pub fn stays_in_order()
    ensures { StaysInOrder }
{}

/// Where an interest ended, a key that was told and stays due is told if its information is another, under
/// the id that it has; nothing else is told, so no key that is not due any more is withdrawn.
pub fn ends_changing()
    ensures { EndsChanging }
{}

/// An interest is answered with all that is due, and with nothing else.
pub fn answers_all()
    ensures { AnswersAll }
{}

/// Keys on which nothing is due are told nothing in answer: an interest may look at more keys than it has to.
pub fn answers_due()
    ensures { AnswersDue }
{}

/// Ids lack exactly where some face that is there would be given one above those of 32 bits for the keys that
/// are newly due to it.
pub fn lacks_exactly()
    ensures { LacksExactly }
{}

/// Where no key is newly due to a face, no ids lack, and each face keeps the id that it was given last.
pub fn less_due()
    ensures { LessDue }
{}

/// The end of an interest lacks no ids.
pub fn ends_need_none()
    ensures { EndsNeedNone }
{}

/// Each telling is to a face that is there, of a key that the call looks at for it, and of no node.
pub fn tells_meant()
    ensures { TellsMeant }
{}

/// A face that is not there is told nothing, nor is one for which the call looks at no key.
pub fn tells_no_other()
    ensures { TellsNoOther }
{}

/// Faces stand in order, each once, and so does what each was told, and the last ids are of 32 bits: from the
/// first on, where a face comes or goes, and after each call that lacks no ids.
pub fn stay_sound()
    ensures { StaySound }
{}

/// A call leaves the same faces there.
pub fn keeps_faces()
    ensures { KeepsFaces }
{}

/// A face comes and was told nothing, so that a receiver that keeps nothing keeps what it was told; all others
/// stay.
pub fn opens()
    ensures { Opens }
{}

/// A face goes, and all others stay; where it was not there before it came, all is as it was.
pub fn closes()
    ensures { Closes }
{}

/// What is told, and what a call leaves, moves with its texts: with all texts moved by a map that keeps
/// their order the same is told of the moved keys, and ids lack there where they lacked.
pub fn tells_alike()
    ensures { (φ : List ℕ → List ℕ) → KeepsTexts φ → TellsAlike φ }
{}
