//! Laws of keys, each as the contract of a call.
ghost use Rattle.std.specs.Prelude.{◌≡◌, true, IsTrue};
ghost use Rattle.zq_key.specs.Key.{is_key as key_of, intersects as intersects_of, includes as includes_of};
ghost use Rattle.zq_key.specs.Space.{PlainIsTransparent};

use crate::{includes, intersects};

/// Two keys intersect whichever stands first.
#[tactic(auto, using(crate::proofs::Lawful::both_ways))]
pub fn intersect_alike(a: &str, b: &str) -> bool
    requires first { IsTrue (key_of a.now) }
    requires second { IsTrue (key_of b.now) }
    ensures holds { result ≡ true }
    ensures law { intersects_of a.now b.now ≡ intersects_of b.now a.now }
{
    intersects(a, b) == intersects(b, a)
}

/// A key intersects itself.
#[tactic(auto, using(crate::proofs::Lawful::itself))]
pub fn intersects_itself(key: &str) -> bool
    requires { IsTrue (key_of key.now) }
    ensures holds { result ≡ true }
    ensures law { intersects_of key.now key.now ≡ true }
{
    intersects(key, key)
}

/// A key includes itself.
#[tactic(auto, using(crate::proofs::Lawful::itself))]
pub fn includes_itself(key: &str) -> bool
    requires { IsTrue (key_of key.now) }
    ensures holds { result ≡ true }
    ensures law { includes_of key.now key.now ≡ true }
{
    includes(key, key)
}

/// What a key includes, it intersects.
#[tactic(auto, using(crate::proofs::Lawful::inclusion))]
pub fn intersects_what_it_includes(a: &str, b: &str) -> bool
    requires first { IsTrue (key_of a.now) }
    requires second { IsTrue (key_of b.now) }
    ensures holds { result ≡ true }
    ensures law { includes_of a.now b.now ≡ true → intersects_of a.now b.now ≡ true }
{
    if includes(a, b) {
        return intersects(a, b);
    }
    true
}

/// Behind a plain prefix keys are keys, intersect and include each other, and stand in order, as they do
/// without it.
pub fn plain_is_transparent()
    ensures { PlainIsTransparent }
{}
