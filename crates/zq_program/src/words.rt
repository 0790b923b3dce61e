//! What the words ask for.
ghost use Rattle.std.specs.Prelude.{◌≡◌, ◌<◌, ◌≤◌, IfSome};
ghost use Rattle.zq_program.specs.Words.{IsSharing, sharing_of, some_of};

use zq_io::words::number;
use zq_key::text::Text;

/// The most workers of a shared run.
const WORKERS: u64 = 16;

/// The most slots of a shared gateway.
const SLOTS: u64 = 1024;

/// What `share W SLOTS` asks for.
#[derive(Clone, Copy, Debug, PartialEq, Eq)]
pub struct Sharing {
    /// How many lines `worker` a script may have.
    pub workers: u8,
    /// How many slots the gateway has.
    pub slots: u16,
}

/// A number from 1 to the most, in digits alone, without a leading zero.
#[tactic(auto, unfolding(crate::specs::Words::some_of))]
fn some_of(most: u64, word: &[u8]) -> Option<u64>
    ensures value { result ≡ some_of most word.now }
    ensures bound { IfSome result (λ n. (0 < n) × (n ≤ most)) }
{
    match number(most, word)? {
        0 => None,
        some => Some(some),
    }
}

/// What the words ask to share, if they are `share W SLOTS`: from 1 to 16 workers, each with one of so many links, on 1 to 1024 slots.
pub fn sharing_of(words: &[Text], links: usize) -> Option<Sharing>
    ensures value { result ≡ sharing_of links words.now }
    ensures bound { IfSome result (IsSharing links) }
{
    match words {
        [name, workers, slots] if name.as_str() == "share" => {
            let workers = some_of(WORKERS.min(links as u64), workers.as_str().as_bytes())?;
            let slots = some_of(SLOTS, slots.as_str().as_bytes())?;
            Some(Sharing {
                workers: workers as u8,
                slots: slots as u16,
            })
        }
        _ => None,
    }
}
