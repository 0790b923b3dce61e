//! What fits into a list of a page, and what is left out of it.
ghost use Rattle.std.specs.Prelude.{◌≡◌, ◌++◌, IfOk, OnOk};
ghost use Rattle.zq_show.specs.Fit.{fit_after, fit_words, left_out_words, left_words, room_of};

use std::alloc::AllocError;
use zq_io::words::{push_number, push_text};

/// How much of a list still fits.
#[derive(Clone, Copy)]
pub struct Fit {
    /// The bytes that there is room for.
    pub room: usize,
    /// How many items were left out.
    pub skipped: u64,
}

/// A list with room for so many bytes.
pub fn room_of(room: usize) -> Fit
    ensures { result ≡ room_of room }
{
    Fit { room, skipped: 0 }
}

/// Writes an item where it fits, and else leaves it out.
pub fn push_fit(out: &mut Vec<u8>, fit: Fit, item: &[u8]) -> Result<Fit, AllocError>
    ensures item { OnOk result (out.new.items ≡ out.old.items ++ fit_words fit item.now) }
    ensures fit { IfOk result (λ f. f ≡ fit_after fit item.now) }
{
    if item.len() <= fit.room {
        out.extend_from_slice(item)?;
        return Ok(Fit {
            room: fit.room - item.len(),
            skipped: fit.skipped,
        });
    }
    Ok(Fit {
        room: fit.room,
        skipped: fit.skipped.saturating_add(1),
    })
}

/// Writes how many items were left out, and how to see them.
#[tactic(auto, unfolding(crate::specs::Fit::left_words))]
fn push_left(out: &mut Vec<u8>, skipped: u64) -> Result<(), AllocError>
    ensures { OnOk result (out.new.items ≡ out.old.items ++ left_words skipped) }
{
    push_text(out, "<li class='no'>left out here: ")?;
    push_number(out, skipped)?;
    push_text(out, "; <code>zq show --text</code> prints all</li>")
}

/// Writes how many items were left out, if any was.
pub fn push_left_out(out: &mut Vec<u8>, fit: Fit) -> Result<(), AllocError>
    ensures { OnOk result (out.new.items ≡ out.old.items ++ left_out_words fit) }
{
    if fit.skipped == 0 {
        return Ok(());
    }
    push_left(out, fit.skipped)
}
