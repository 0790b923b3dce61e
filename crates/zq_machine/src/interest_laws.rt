//! What an interest adds to what is due, as the contracts of calls.

ghost use Rattle.std.specs.Prelude.{◌≡◌, ◌&&◌, ◌||◌, ℕ, List, Some, false, true};
ghost use Rattle.std.specs.List.{list_any};
ghost use Rattle.std.specs.Option.{is_some, option_to_list};
ghost use Rattle.std.specs.Str.{bytes_eq};
ghost use Rattle.zq_interests.specs.declared.types.InterestEntry.{InterestEntry};
ghost use Rattle.zq_interests.specs.Interests.{Interests, asked_for, asks_folded, interests_of, with_interest};
ghost use Rattle.zq_machine.specs.Due.{asked_keys, due, face_keys, is_looked};
ghost use Rattle.zq_machine.specs.State.{Core, at};

/// An interest takes nothing away, and makes no information another, on a key for which its face asks as one
/// entry neither before nor after, and for which it asks if what it replaces did.
pub fn asks_more()
    ensures { (c : Core) (ints : Interests) (asker id : ℕ) (asked : InterestEntry) (face : ℕ) (key : List ℕ) → ((old : InterestEntry) → at id (interests_of asker ints) ≡ Some old → asked_for old key ≡ true → asked_for asked key ≡ true) → asks_folded face key ints ≡ false → asks_folded face key (with_interest asker id asked ints) ≡ false → is_some (due c ints face key) ≡ true → due c (with_interest asker id asked ints) face key ≡ due c ints face key }
{}

/// The keys that an interest looks at are, of those on which something may be due to its face and of its own,
/// exactly those for which it asks, and those that it meets where nothing is due.
pub fn asked_exactly()
    ensures { (c : Core) (ints : Interests) (asker : ℕ) (asked : InterestEntry) (key : List ℕ) → list_any (λ k. bytes_eq k key) (asked_keys c ints asker asked) ≡ (is_looked c ints asker asked key && (list_any (λ k. bytes_eq k key) (option_to_list asked.key) || list_any (λ k. bytes_eq k key) (face_keys c ints asker))) }
{}
