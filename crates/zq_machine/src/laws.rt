//! Laws of what the gateway decides and keeps, as the contracts of calls.
ghost use Rattle.std.specs.Prelude.{◌≡◌, ◌≢◌, ◌==◌, ◌&&◌, ◌||◌, ℕ, List, [], Option, Some, None, false, true, if◌then◌else◌};
ghost use Rattle.std.specs.List.{AllByRecursion, list_any};
ghost use Rattle.std.specs.List.Sorted.{IsStrictlySortedBy};
ghost use Rattle.std.specs.Map.{keys_of};
ghost use Rattle.std.specs.Option.{is_some, option_map_or};
ghost use Rattle.std.specs.Ordering.{nat_cmp};
ghost use Rattle.std.specs.Str.{bytes_eq};
ghost use Rattle.zq_strategy.specs.Moved.{Keeps};
ghost use Rattle.zq_strategy.specs.Regions.{is_north, strategy_at};
ghost use Rattle.zq_strategy.specs.State.{FaceState, HatState};
ghost use Rattle.zq_strategy.specs.Kept.{face_at, info, region_info};
ghost use Rattle.zq_index.specs.Infos.{joined};
ghost use Rattle.zq_key.specs.Key.{intersects};
ghost use Rattle.zq_message.specs.Region.{region_index};
ghost use Rattle.zq_machine.specs.declared.face.OpenFace.{OpenFace};
ghost use Rattle.zq_strategy.specs.declared.types.Declaration.{Declaration};
ghost use Rattle.zq_interests.specs.declared.types.InterestEntry.{InterestEntry};
ghost use Rattle.zq_strategy.specs.declared.types.Strategy.TheVariants as strategy;
ghost use Rattle.zq_machine.specs.declared.call.Call.{Call};
ghost use Rattle.zq_machine.specs.declared.call.Call.TheVariants as call;
ghost use Rattle.zq_machine.specs.declared.call.Opening.{Opening};
ghost use Rattle.zq_machine.specs.Agreeing.{Agrees};
ghost use Rattle.zq_machine.specs.Calls.{declares};
ghost use Rattle.zq_machine.specs.Configs.{Settings};
ghost use Rattle.zq_machine.specs.Due.{KeysRise, due, due_keys, folded, heard, heard_touched, is_due_touched, is_heard_touched, listens, plain_due, redeclared, widened};
ghost use Rattle.std.specs.BTreeMap.{is_at};
ghost use Rattle.zq_index.specs.Texts.{text_cmp};
ghost use Rattle.zq_interests.specs.Interests.{Interests, asked_for, asks_folded, interests_of, meets, with_interest, without_interest};
ghost use Rattle.zq_machine.specs.DueAlike.{DueAlike};
ghost use Rattle.zq_machine.specs.Headline.{RunPromise};
ghost use Rattle.zq_machine.specs.Machine.{after, state_after};
ghost use Rattle.zq_machine.specs.TextCalls.{TextCall, opening, read};
ghost use Rattle.zq_machine.specs.Trees.{is_touched, own_entry};
ghost use Rattle.zq_machine.specs.Moved.{DecidesAlike};
ghost use Rattle.zq_tables.specs.Naming.{NamingState};
ghost use Rattle.zq_message.specs.declared.message.FaceId.{FaceId};
ghost use Rattle.zq_message.specs.declared.message.QueryableInfoType.{QueryableInfoType};
ghost use Rattle.zq_message.specs.declared.message.Request.{Request};
ghost use Rattle.zq_tables.specs.declared.resolved.Resolved.{Resolved};
ghost use Rattle.zq_machine.specs.Selecting.{select};
ghost use Rattle.zq_machine.specs.Standing.{StandAlike};
ghost use Rattle.zq_machine.specs.Hearing.{CanBeTold, hear};
ghost use Rattle.zq_machine.specs.Messages.{Telling};
ghost use Rattle.zq_machine.specs.State.{Core, at, face_region, hat_at, hat_of, is_open, is_routing, opening_state};
ghost use Rattle.zq_machine.specs.Writing.{tell};

/// What is decided moves with its texts, by every map that keeps how they relate.
#[tactic(auto, using(crate::proofs::DecidingMoved::decides_alike))]
pub fn decides_alike()
    ensures { (φ : List ℕ → List ℕ) → Keeps φ → DecidesAlike φ }
{}

/// At every point of every run the open faces, the hats and what stands for keys agree.
pub fn agree_always()
    ensures { (config : Settings) (calls : List Call) → Agrees (state_after (opening_state config) calls) }
{}

/// Every run keeps its promises.
pub fn run_promised()
    ensures { (config : Settings) (calls : List Call) → RunPromise config calls }
{}

/// What a request is handed to is determined by what stands of the faces and of routers and by the
/// lists of gateways, that is (by `stands`, `routed` and `listed` of `run_promised`) by the calls
/// of a run and their answers: two runs of one configuration that leave the same of them select the
/// same.
pub fn select_determined()
    ensures { (config : Settings) (calls others : List Call) → StandAlike (state_after (opening_state config) calls) (state_after (opening_state config) others) → (asker : FaceId) (s : Resolved) (r : Request) → select (state_after (opening_state config) calls).core asker s r ≡ select (state_after (opening_state config) others).core asker s r }
{}

/// What open faces are told is what they hear: each key is read as the text that was told, by the
/// numbers that were declared to the face before.
#[tactic(auto, using(crate::proofs::Hearing::told_heard))]
pub fn told_heard()
    ensures { (c : Core) (ts : List Telling) (names : NamingState) → AllByRecursion (CanBeTold names) ts → hear (tell c ts names).handed names ≡ ts }
{}

/// A call changes the gateway's own entries on the keys that it touches and on no others, so that
/// each change of one is told.
#[tactic(auto, using(crate::proofs::Owning::own_stays))]
pub fn touches_all()
    ensures { (config : Settings) (calls : List Call) (c : Call) (place : ℕ) (key : List ℕ) → is_touched (state_after (opening_state config) calls).core (read (state_after (opening_state config) calls) c) key ≡ false → own_entry place key (after (state_after (opening_state config) calls) c).core.hats ≡ own_entry place key (state_after (opening_state config) calls).core.hats }
{}

/// To a face that is not open nothing is due.
#[tactic(auto, using(crate::proofs::DueWhole::closed_undue))]
pub fn closed_undue()
    ensures { (c : Core) (ints : Interests) (face : ℕ) (key : List ℕ) → is_open face c ≡ false → due c ints face key ≡ None }
{}

/// A call changes what is due to a face on no key but those that it touches there: what is due to
/// a face that is open after the call is on each other key what was due before, which is nothing
/// (by `closed_undue`) if the call opened the face.
pub fn dues_stay()
    ensures { (config : Settings) (calls : List Call) (c : Call) (ints : Interests) (face : ℕ) (key : List ℕ) → is_open face (after (state_after (opening_state config) calls) c).core ≡ true → is_due_touched (state_after (opening_state config) calls).core ints (read (state_after (opening_state config) calls) c) face key ≡ false → due (after (state_after (opening_state config) calls) c).core ints face key ≡ due (state_after (opening_state config) calls).core ints face key }
{}

/// An opening touches each key on which something is due to the new face.
pub fn none_missed()
    ensures { (config : Settings) (calls : List Call) (o : Opening) (ints : Interests) (key : List ℕ) → is_some (due (after (state_after (opening_state config) calls) (call.Open o)).core ints (state_after (opening_state config) calls).core.next_face key) ≡ true → is_due_touched (state_after (opening_state config) calls).core ints (read (state_after (opening_state config) calls) (call.Open o)) (state_after (opening_state config) calls).core.next_face key ≡ true }
{}

/// The keys on which a call may change what a face hears are: of an opening, at the new face all on which
/// regions have information, at others none; of any other call those on which it may change what a region
/// has.
pub fn touched_exactly()
    ensures { (c : Core) (t : TextCall) (face : ℕ) (key : List ℕ) → ((o : Opening) → is_heard_touched c (opening o) face key ≡ ((face == c.next_face) && list_any (λ k. bytes_eq k key) (due_keys c))) × (((o : Opening) → t ≢ opening o) → is_heard_touched c t face key ≡ is_touched c t key) }
{}

/// The keys that it touches at the face are those, and besides those for which the face asks aggregated
/// and that one of them meets.
pub fn touched_widely()
    ensures { (c : Core) (ints : Interests) (t : TextCall) (face : ℕ) (key : List ℕ) → is_due_touched c ints t face key ≡ ((list_any (λ k. intersects k key) (heard_touched c t face) && asks_folded face key ints) || is_heard_touched c t face key) }
{}

/// To a face that asks for no key aggregated is due what it hears on each key in which it is interested.
#[tactic(auto, using(crate::proofs::DueWhole::alone_plain))]
pub fn plainly_due()
    ensures { (c : Core) (ints : Interests) (face : ℕ) (key : List ℕ) → asks_folded face key ints ≡ false → due c ints face key ≡ plain_due c ints face key }
{}

/// What is heard on a key changes the one entry for another only where the two meet: where a face hears the
/// same on all keys that meet it, it is the same.
#[tactic(auto, using(crate::proofs::DueWhole::folded_alike))]
pub fn folded_alike()
    ensures { (c d : Core) (face : ℕ) (key : List ℕ) → ((k : List ℕ) → intersects k key ≡ true → heard d face k ≡ heard c face k) → folded d face key ≡ folded c face key }
{}

/// But by a declaration, nothing becomes due to a face that is open.
pub fn less_due()
    ensures { (config : Settings) (calls : List Call) (c : Call) (ints : Interests) (face : ℕ) (key : List ℕ) → declares c ≡ false → is_open face (state_after (opening_state config) calls).core ≡ true → is_some (due (after (state_after (opening_state config) calls) c).core ints face key) ≡ true → is_some (due (state_after (opening_state config) calls).core ints face key) ≡ true }
{}

/// A call changes nothing of who is interested: a face that is open before and after it is interested in the
/// same keys.
pub fn listens_stay()
    ensures { (config : Settings) (calls : List Call) (c : Call) (ints : Interests) (face : ℕ) (key : List ℕ) → is_open face (state_after (opening_state config) calls).core ≡ true → is_open face (after (state_after (opening_state config) calls) c).core ≡ true → listens (after (state_after (opening_state config) calls) c).core ints face key ≡ listens (state_after (opening_state config) calls).core ints face key }
{}

/// What is due to any face is on a key on which some region has information, or on one for which the face asks
/// aggregated and that such a key meets.
#[tactic(auto, using(crate::proofs::DueWhole::keys_due))]
pub fn keys_due()
    ensures { (c : Core) (ints : Interests) (face : ℕ) (key : List ℕ) → is_some (due c ints face key) ≡ true → list_any (λ k. bytes_eq k key) (widened face ints (due_keys c)) ≡ true }
{}

/// All keys that are looked at stand in order, each once.
pub fn keys_ordered()
    ensures { (c : Core) (ints : Interests) (face : ℕ) → KeysRise c ints face }
{}

/// What other faces ask to hear changes nothing of what is due to a face.
#[tactic(auto, using(crate::proofs::DueWhole::interests_alone))]
pub fn interests_alone()
    ensures { (c : Core) (ints others : Interests) (face : ℕ) (key : List ℕ) → interests_of face ints ≡ interests_of face others → due c ints face key ≡ due c others face key }
{}

/// An interest that comes stands under its id at its face, one that ends stands there no more, and
/// each other stands as it did.
pub fn interests_change()
    ensures { (ints : Interests) (asker id face other : ℕ) → ((asked : InterestEntry) → at other (interests_of face (with_interest asker id asked ints)) ≡ (if (asker == face) && (id == other) then Some asked else at other (interests_of face ints))) × (IsStrictlySortedBy nat_cmp (keys_of (interests_of asker ints)) → at other (interests_of face (without_interest asker id ints)) ≡ (if (asker == face) && (id == other) then None else at other (interests_of face ints))) }
{}

/// What a face comes to ask, in the place of nothing or of what asks for the same key, changes what is due
/// to it alone, and on no key but those that it meets; and on a key for which it does not ask it makes nothing
/// due, and no information another.
pub fn asks_stay()
    ensures met { (c : Core) (ints : Interests) (asker id : ℕ) (asked : InterestEntry) → ((old : InterestEntry) → at id (interests_of asker ints) ≡ Some old → old.key ≡ asked.key) → (face : ℕ) (key : List ℕ) → ((face == asker) && meets asked.key key) ≡ false → due c (with_interest asker id asked ints) face key ≡ due c ints face key }
    ensures asked { (c : Core) (ints : Interests) (asker id : ℕ) (asked : InterestEntry) → ((old : InterestEntry) → at id (interests_of asker ints) ≡ Some old → old.key ≡ asked.key) → (face : ℕ) (key : List ℕ) → asked_for asked key ≡ false → is_some (due c (with_interest asker id asked ints) face key) ≡ true → due c (with_interest asker id asked ints) face key ≡ due c ints face key }
{}

/// The end of an interest changes what is due to its face alone, and on no key but those that it meets; that
/// of none changes nothing.
pub fn ends_stay()
    ensures { (c : Core) (ints : Interests) (asker id : ℕ) (face : ℕ) (key : List ℕ) → ((old : InterestEntry) → at id (interests_of asker ints) ≡ Some old → ((face == asker) && meets old.key key) ≡ false) → due c (without_interest asker id ints) face key ≡ due c ints face key }
{}

/// The end of an interest makes nothing due, and no information another but on its own key.
pub fn ends_less()
    ensures none { (c : Core) (ints : Interests) (asker id : ℕ) (face : ℕ) (key : List ℕ) → is_some (due c (without_interest asker id ints) face key) ≡ true → is_some (due c ints face key) ≡ true }
    ensures same { (c : Core) (ints : Interests) (asker id : ℕ) (face : ℕ) (key : List ℕ) → ((old : InterestEntry) → at id (interests_of asker ints) ≡ Some old → option_map_or (λ k. is_at (text_cmp k) key) old.key false ≡ false) → is_some (due c (without_interest asker id ints) face key) ≡ true → due c (without_interest asker id ints) face key ≡ due c ints face key }
{}

/// Of single keys, by which what is folded is made: a face is not due what it itself declared; whatever that is,
/// the same is due to it.
pub fn own_unheard()
    ensures { (c : Core) (ints : Interests) (face : ℕ) (key : List ℕ) (ds : List (ℕ × Declaration)) → plain_due (redeclared face ds c) ints face key ≡ plain_due c ints face key }
{}

/// But under a broker, a face is not due what faces of its region declared on a key.
pub fn region_unheard()
    ensures { (c : Core) (ints : Interests) (face fellow : ℕ) (key : List ℕ) (ds : List (ℕ × Declaration)) (h : HatState) → hat_of face c ≡ Some h → strategy_at h ≢ strategy.Broker → face_region fellow c ≡ face_region face c → plain_due (redeclared fellow ds c) ints face key ≡ plain_due c ints face key }
{}

/// Under a broker, what is due on a key to a face that is interested has in it what each other face of its region
/// declared.
pub fn fellows_heard()
    ensures { (c : Core) (ints : Interests) (face : ℕ) (key : List ℕ) (o : OpenFace) (h : HatState) → at face c.faces ≡ Some o → hat_at o.region c.hats ≡ Some h → listens c ints face key ≡ true → strategy_at h ≡ strategy.Broker → (fellow : ℕ) (f : FaceState) → fellow ≢ face → face_at fellow h ≡ Some f → joined (plain_due c ints face key) (info key f) ≡ plain_due c ints face key }
{}

/// But in a region of routers, what is due on a key to a face that is interested has in it what each other region
/// has.
pub fn regions_heard()
    ensures { (c : Core) (ints : Interests) (face : ℕ) (key : List ℕ) (o : OpenFace) (h : HatState) → at face c.faces ≡ Some o → hat_at o.region c.hats ≡ Some h → listens c ints face key ≡ true → is_routing h ≡ false → (elsewhere : ℕ) (g : HatState) → elsewhere ≢ region_index o.region → at elsewhere c.hats ≡ Some g → joined (plain_due c ints face key) (region_info key g) ≡ plain_due c ints face key }
{}

/// And nothing else is in it: at every point of every run, what takes in each of these takes in what
/// is due.
pub fn none_added()
    ensures { (config : Settings) (calls : List Call) (ints : Interests) (face : ℕ) (key : List ℕ) (o : OpenFace) (h : HatState) (m : Option QueryableInfoType) → at face (state_after (opening_state config) calls).core.faces ≡ Some o → hat_at o.region (state_after (opening_state config) calls).core.hats ≡ Some h → (strategy_at h ≡ strategy.Broker → (fellow : ℕ) (f : FaceState) → fellow ≢ face → face_at fellow h ≡ Some f → joined m (info key f) ≡ m) → ((elsewhere : ℕ) (g : HatState) → elsewhere ≢ region_index o.region → at elsewhere (state_after (opening_state config) calls).core.hats ≡ Some g → joined m (region_info key g) ≡ m) → joined m (plain_due (state_after (opening_state config) calls).core ints face key) ≡ m }
{}

/// In a region of routers nothing is due.
pub fn routers_undue()
    ensures { (c : Core) (ints : Interests) (face : ℕ) (key : List ℕ) (h : HatState) → hat_of face c ≡ Some h → is_routing h ≡ true → due c ints face key ≡ None }
{}

/// A face that is no router's is interested in a key for which one of its interests asks.
pub fn asking_listens()
    ensures { (c : Core) (ints : Interests) (face : ℕ) (key : List ℕ) (h : HatState) → hat_of face c ≡ Some h → is_routing h ≡ false → (id : ℕ) (asked : InterestEntry) → at id (interests_of face ints) ≡ Some asked → asked_for asked key ≡ true → listens c ints face key ≡ true }
{}

/// A face in North that is no router's is interested in every key.
pub fn north_listens()
    ensures { (c : Core) (ints : Interests) (face : ℕ) (key : List ℕ) (h : HatState) → hat_of face c ≡ Some h → is_north h.region ≡ true → is_routing h ≡ false → listens c ints face key ≡ true }
{}

/// To a face outside North that asks for nothing, nothing is due.
#[tactic(auto, using(crate::proofs::DueWhole::south_unasked))]
pub fn south_unasked()
    ensures { (c : Core) (ints : Interests) (face : ℕ) (key : List ℕ) (h : HatState) → hat_of face c ≡ Some h → is_north h.region ≡ false → interests_of face ints ≡ [] → due c ints face key ≡ None }
{}

/// What is due moves with its texts, by every map that keeps how they relate; and what faces are told
/// of it moves along.
pub fn due_alike()
    ensures { (φ : List ℕ → List ℕ) → Keeps φ → DueAlike φ }
{}
