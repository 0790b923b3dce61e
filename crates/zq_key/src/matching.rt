//! Matching of lists with wild parts, once for chunks and for keys.

ghost use Rattle.std.specs.Prelude.{◌≡◌, ℕ, Bool, List, length, ◌∷◌, [], ◌≤◌, ◌<◌, ◌&&◌, ◌||◌, true, false, None, Some, Option, MatchOption};
ghost use Rattle.zq_key.specs.Match.{covers_by, meets_by};
ghost use Rattle.zq_key.specs.Walk.{wild_covers, wild_takes, starts_wild, never, after_last, has_none, Stops, Advances, is_nil};

/// What is left of a list of parts.
pub trait Cursor: Copy {
    ghost Part: { Type 0 };

    ghost left: { Self → List Part };

    ghost size: { Self → ℕ };

    ghost wild: { Part → Bool };

    ghost agree: { Part → Part → Bool };

    /// What follows the first part.
    fn after_first(self) -> Option<Self>
        ensures { MatchOption result (left self ≡ []) (λ r. (x : Part) × (left self ≡ x ∷ left r) × (size r < size self)) };

    /// What follows a wild first part.
    fn after_wild(self) -> Option<Self>
        ensures { MatchOption result (starts_wild wild (left self) ≡ false) (λ r. (x : Part) × (wild x ≡ true) × (left self ≡ x ∷ left r) × (size r < size self)) };

    /// What follows two first parts that agree, neither of them wild.
    fn after_agreeing(self, other: Self) -> Option<(Self, Self)>
        ensures { MatchOption result (Stops wild agree (left self) (left other))
            (λ r. Advances wild agree (left self) (left other) (left r.0) (left r.1) × (size r.0 < size self) × (size r.1 < size other)) };
}

/// Goes along both lists while their parts agree, up to a wild part, a difference or an end.
#[tactic(auto, using(crate::proofs::Meet::steps))]
pub fn walk<C: Cursor>(a: C, b: C) -> (C, C)
    ensures meets { meets_by C.wild never C.agree (C.left a) (C.left b) ≡ meets_by C.wild never C.agree (C.left result.0) (C.left result.1) }
    ensures covers { covers_by C.wild never C.agree (C.left a) (C.left b) ≡ covers_by C.wild never C.agree (C.left result.0) (C.left result.1) }
    ensures later { wild_takes C.wild never C.agree (C.left a) (C.left b) ≡ true → wild_takes C.wild never C.agree (C.left result.0) (C.left result.1) ≡ true }
    ensures stops { Stops C.wild C.agree (C.left result.0) (C.left result.1) }
    ensures a_left { C.size result.0 ≤ C.size a }
    ensures b_left { C.size result.1 ≤ C.size b }
{
    let mut p = a;
    let mut q = b;
    while let Some((p_rest, q_rest)) = p.after_agreeing(q) {
        p = p_rest;
        q = q_rest;
    }
    (p, q)
}

/// Whether both lists are used up.
fn both_end<C: Cursor>(a: C, b: C) -> bool
    ensures { result ≡ (is_nil (C.left a) && is_nil (C.left b)) }
{
    a.after_first().is_none() && b.after_first().is_none()
}

/// Whether a wild part followed by the pattern covers the list.
fn covers_after_wild<C: Cursor>(pattern: C, list: C) -> bool
    ensures { result ≡ wild_covers C.wild never C.agree (C.left pattern) (C.left list) }
{
    let mut p = pattern;
    let mut q = list;
    loop {
        let (p_left, q_left) = walk(p, q);
        match p_left.after_wild() {
            Some(p_rest) => {
                p = p_rest;
                q = q_left;
            }
            None => {
                if both_end(p_left, q_left) {
                    return true;
                }
                match q.after_first() {
                    Some(q_rest) => q = q_rest,
                    None => return false,
                }
            }
        }
    }
}

/// Whether the pattern covers the list, in which a wild part is covered by wild parts alone.
#[tactic(auto, using(crate::proofs::Meet::covering))]
pub fn covers<C: Cursor>(pattern: C, list: C) -> bool
    ensures { result ≡ covers_by C.wild never C.agree (C.left pattern) (C.left list) }
{
    let (p, q) = walk(pattern, list);
    match p.after_wild() {
        Some(p_rest) => covers_after_wild(p_rest, q),
        None => both_end(p, q),
    }
}

/// What follows the last wild part of a list.
#[tactic(auto, using(crate::proofs::Meet::last_wild))]
fn after_last_wild<C: Cursor + Drop>(list: C) -> Option<C>
    ensures { MatchOption result (after_last C.wild None (C.left list) ≡ None) (λ r. after_last C.wild None (C.left list) ≡ Some (C.left r)) }
{
    let mut last: Option<C> = None;
    let mut rest = list;
    loop {
        match rest.after_wild() {
            Some(after) => {
                last = Some(after);
                rest = after;
            }
            None => match rest.after_first() {
                Some(after) => rest = after,
                None => return last,
            },
        }
    }
}

/// Whether one of two lists begins with a wild part.
fn one_starts_wild<C: Cursor>(a: C, b: C) -> bool
    ensures { result ≡ (starts_wild C.wild (C.left a) || starts_wild C.wild (C.left b)) }
{
    match a.after_wild() {
        Some(_) => true,
        None => match b.after_wild() {
            Some(_) => true,
            None => false,
        },
    }
}

/// Whether two lists meet once each has a wild part before it.
fn tails_meet<C: Cursor>(a: C, b: C) -> bool
    ensures { result ≡ (wild_covers C.wild never C.agree (C.left a) (C.left b) || wild_covers C.wild never C.agree (C.left b) (C.left a)) }
{
    covers_after_wild(a, b) || covers_after_wild(b, a)
}

/// Whether two lists meet, where agreeing goes both ways.
pub fn meets<C: Cursor + Drop>(a: C, b: C) -> bool
    requires { (x y : C.Part) → C.agree x y ≡ C.agree y x }
    ensures { result ≡ meets_by C.wild never C.agree (C.left a) (C.left b) }
{
    let (p, q) = walk(a, b);
    match after_last_wild(p) {
        None => covers(q, p),
        Some(p_tail) => match after_last_wild(q) {
            None => covers(p, q),
            Some(q_tail) => one_starts_wild(p, q) && tails_meet(p_tail, q_tail),
        },
    }
}
