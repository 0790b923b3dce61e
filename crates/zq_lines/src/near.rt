//! A name that was meant.
ghost use Rattle.std.specs.Prelude.{◌≡◌, IfOk};
ghost use Rattle.std.specs.Option.{option_map};
ghost use Rattle.zq_lines.specs.Near.{is_near, nearest};

use std::alloc::{AllocError, Global};
use strsim::generic_levenshtein;

/// The first words that a line can have, the more usual ones first.
pub const NAMES: &[&str] = &[
    "ask",
    "reply",
    "final",
    "sent",
    "poll",
    "open",
    "close",
    "key",
    "unkey",
    "queryable",
    "unqueryable",
    "interest",
    "uninterest",
    "finalize",
    "gateways",
    "network",
    "nodes",
    "worker",
];

/// No name is longer.
pub const LONGEST: usize = 16;

/// Whether at most two letters of this, and at most half of them, have to change for the name to stand there.
#[tactic(auto, unfolding(crate::specs::Near::is_near))]
fn is_near(alloc: Global, word: &[u8], name: &str) -> Result<bool, AllocError>
    ensures { IfOk result (λ b. b ≡ is_near word.now name.now) }
{
    if word.len() > LONGEST {
        return Ok(false);
    }
    let changes = generic_levenshtein(alloc, word, name.as_bytes())?;
    Ok(changes <= 2 && 2 * changes <= word.len())
}

/// The first name that is near, if one is.
#[tactic(auto, using(crate::proofs::Names::passed_over, crate::proofs::Names::found))]
pub fn nearest(alloc: Global, word: &[u8]) -> Result<Option<&'static str>, AllocError>
    ensures { IfOk result (λ o. option_map (λ t. t.now) o ≡ nearest word.now) }
{
    'names: for name in NAMES {
        if is_near(alloc, word, name)? {
            return Ok(Some(*name));
        }
    }
    Ok(None)
}
