//! Laws of what faces outside regions of routers are told: after every call it is what is due to them.
ghost use Rattle.std.specs.Prelude.{◌≡◌, ℕ, List, [], Some, true};
ghost use Rattle.std.specs.Option.{option_to_list};
ghost use Rattle.zq_interests.specs.declared.types.InterestEntry.{InterestEntry};
ghost use Rattle.zq_told.specs.ToldSets.{ToldSets};
ghost use Rattle.zq_told.specs.Leaving.{fresh_ear};
ghost use Rattle.zq_told.specs.Receiver.{Heard, heard_on};
ghost use Rattle.zq_machine.specs.declared.call.Call.{Call};
ghost use Rattle.zq_machine.specs.declared.call.Call.TheVariants as call;
ghost use Rattle.zq_machine.specs.declared.call.Opening.{Opening};
ghost use Rattle.zq_machine.specs.Configs.{Settings};
ghost use Rattle.zq_machine.specs.Deciding.{is_accepted};
ghost use Rattle.zq_machine.specs.Due.{due};
ghost use Rattle.zq_interests.specs.Interests.{Interests, interests_of, with_interest, without_interest};
ghost use Rattle.zq_machine.specs.Machine.{after, state_after, step};
ghost use Rattle.zq_machine.specs.Receivers.{AllTold, AskingTold, EndingTold, FaceTold, Hears};
ghost use Rattle.zq_machine.specs.State.{Core, State, at, is_open, opening_state};
ghost use Rattle.zq_machine.specs.TextCalls.{read};

/// On each key a receiver keeps exactly what is due to the face, and once; or nothing, where nothing is.
pub fn told_due()
    ensures { (c : Core) (ints : Interests) (ears : ToldSets) (face : ℕ) (heard : Heard) → Hears c ints ears face heard → (key : List ℕ) → heard_on key heard ≡ option_to_list (due c ints face key) }
{}

/// At every point of every run and for each call: of a face that is open before and after it, a
/// receiver that kept what was due keeps what is due, once it has read what the call tells that face;
/// and what that is, is the difference between what the face was told and what is due, over any keys
/// in order that have all on which there is one.
pub fn call_told()
    ensures { (config : Settings) (calls : List Call) → let s : State = state_after (opening_state config) calls in (c : Call) (ints : Interests) (ears : ToldSets) (face : ℕ) (heard : Heard) → is_open face s.core ≡ true → is_open face (after s c).core ≡ true → (h : Hears s.core ints ears face heard) → FaceTold s.core (after s c).core ints (read s c) ears face h.ear heard }
{}

/// A new face was told nothing, and its receiver kept nothing: by the call that opens it, it is told all
/// that is due to it, and its receiver keeps that.
pub fn opening_told()
    ensures { (config : Settings) (calls : List Call) → let s : State = state_after (opening_state config) calls in (o : Opening) (ints : Interests) (ears : ToldSets) → is_accepted (step s (call.Open o)).outcome ≡ true → FaceTold s.core (after s (call.Open o)).core ints (read s (call.Open o)) ears s.core.next_face (fresh_ear s.core.config.start.told) [] }
{}

/// What a call tells all faces stands in order, and is told to open faces alone; what is kept of faces
/// stays sound, and of open faces alone; each open face has a receiver that keeps what is due to it, if
/// each had before; and ids lack exactly where they lack to some open face: where its last id and the
/// number of all keys newly due to it lead above those of 32 bits, and so never to a call that opens no
/// face and declares nothing.
pub fn all_told()
    ensures { (config : Settings) (calls : List Call) → let s : State = state_after (opening_state config) calls in (c : Call) (ints : Interests) (ears : ToldSets) → AllTold s.core (after s c).core ints (read s c) ears }
{}

/// An interest, in the place of none or of one with the same key, tells its face alone, and that all that is
/// due on the keys for which it asks: a receiver there keeps what is due then, and forgets what is not; those
/// of other faces keep what they kept, which is still due; and ids lack exactly where they lack to that face.
pub fn asking_told()
    ensures { (c : Core) (ints : Interests) (ears : ToldSets) (asker id : ℕ) (asked : InterestEntry) → ((old : InterestEntry) → at id (interests_of asker ints) ≡ Some old → old.key ≡ asked.key) → AskingTold c ints (with_interest asker id asked ints) ears asker asked }
{}

/// The end of an interest tells its face at most of its own key, where that stays due with other information,
/// and no other face anything: a receiver at its face forgets those that are not due any more, and keeps what
/// is due then; those of other faces keep what they kept; and no ids lack.
pub fn ending_told()
    ensures { (c : Core) (ints : Interests) (ears : ToldSets) (asker id : ℕ) (asked : InterestEntry) → at id (interests_of asker ints) ≡ Some asked → EndingTold c ints (without_interest asker id ints) ears asker asked }
{}
