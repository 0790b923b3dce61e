//! What lists of sources say, key by key.
ghost use Rattle.std.specs.Prelude.{ℕ, List, map};
ghost use Rattle.zq_strategy.specs.State.{HatState};
ghost use Rattle.zq_interests.specs.Interests.{Interests};
ghost use Rattle.zq_hat.specs.declared.sources.Source.{Source};
ghost use Rattle.zq_hat.specs.Joining.{AreJoined};
ghost use Rattle.zq_hat.specs.Listings.{AreListed, Listing, listed};
ghost use Rattle.zq_hat.specs.Sourced.{all_queriers, all_queryables, queriers_part, queryables_part};

/// The keys of a region's list stand in order, each once; they are those on which someone is listed, and
/// each has all who are listed on it, in the order of the listings.
pub fn are_listed()
    ensures { (ls : List Listing) → AreListed ls (listed ls) }
{}

/// The keys that are declared stand in order, each once; they are those that some region has, and each has
/// what each region has there, in the order of their places, and the gateway itself behind what each
/// south-bound one has.
pub fn queryables_joined()
    ensures { (own : Source) (hats : List (ℕ × HatState)) → AreJoined (map (queryables_part own) hats) (all_queryables own hats) }
{}

/// The keys that are asked for stand in order, each once; they are those that some region has, and each has
/// what each region has there, in the order of their places.
pub fn queriers_joined()
    ensures { (ints : Interests) (hats : List (ℕ × HatState)) → AreJoined (map (queriers_part ints) hats) (all_queriers ints hats) }
{}
