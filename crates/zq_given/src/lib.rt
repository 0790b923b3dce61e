//! What the tests of several crates are given: keys and whom they meet, a script, a region, expressions, lists.
#![tactic(auto)]

ghost use Rattle.std.specs.Prelude.{◌≡◌, IfOk};

use std::alloc::Global;
use zq_message::items::Items;
use zq_message::memory::OutOfMemory;
use zq_message::message::{Mapping, Mode, QueryableInfoType, Region, WireExpr};
use zq_message::text::Text;

/// Keys, with an `x` in the place of each key that they meet.
pub const KEYS: [(&str, &str); 13] = [
    ("**", "xxxxxxxxxxxxx"),
    ("a", "xx.x........."),
    ("a/b", "x.x.xx......."),
    ("*", "xx.x..xxxxx.."),
    ("a/*", "x.x.xx......."),
    ("a/b$*", "x.x.xx......."),
    ("abc", "x..x..x.x...."),
    ("xx", "x..x...x....."),
    ("ab$*", "x..x..x.xxx.."),
    ("abcd", "x..x....xxx.."),
    ("ab$*cd", "x..x....xxx.."),
    ("a/*/c", "x..........xx"),
    ("a/b/c", "x..........xx"),
];

/// A script: a query is asked, and in a second part replied to and ended.
pub const ASKED: &str = "config 1 10000 north:client local\n\
    open local 10 client north -\n\
    open local 11 client north -\n\
    queryable 0 1 0:s:k c 0 0\n\
    ask 1 7 0:s:k all - 0 0 hi 0\n\
    worker\n\
    reply 0 1 0:s:k ok yo\n\
    final 0 1\n";

/// Clients below the gateway.
pub const CLIENTS: Region = Region::South {
    id: 0,
    mode: Mode::Client,
};

/// What a queryable says of itself.
pub fn information(complete: bool, distance: u16) -> QueryableInfoType
    ensures { result ≡ record { complete = complete; distance = distance } }
{
    QueryableInfoType { complete, distance }
}

/// An expression under a number of its sender's; 0 is none.
pub fn wire(alloc: Global, scope: u16, suffix: &str) -> Result<WireExpr, OutOfMemory>
    ensures { IfOk result (λ w. w ≡ record { scope = scope; mapping = Mapping.Sender; suffix = suffix.now }) }
{
    Ok(WireExpr {
        scope,
        mapping: Mapping::Sender,
        suffix: Text::new(alloc, suffix)?,
    })
}

/// A list of these.
pub fn list<T: Copy>(alloc: Global, items: &[T]) -> Result<Items<T>, OutOfMemory>
    ensures { IfOk result (λ l. l ≡ items.now) }
{
    Ok(Items::from_vec(Vec::from_slice(alloc, items)?))
}
