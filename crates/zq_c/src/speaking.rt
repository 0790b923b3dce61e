//! What a line is answered.
ghost use Rattle.std.specs.Prelude.{◌≡◌, ◌≤◌, ◌<◌, ◌++◌, ◌⊎◌, length, drop, true, false};
ghost use Rattle.zq_spoken.specs.Speaker.{Answers, IsNoLine, IsSpentBus, IsUnprinted, Tells, print_of, printed};

use crate::status::{BAD_LINE, NO_MEMORY, OK, SHORT, SPENT, UNPRINTED};
use std::alloc::Global;
use zq_spoken::refusal::LineRefusal;
use zq_spoken::speaker::Speaker;

/// Does what a line says, and prints what comes of it.
#[tactic(auto, using(crate::proofs::Telling::tells_of, crate::proofs::Telling::answers_kept))]
pub fn speak(alloc: Global, speaker: &mut Speaker, line: &[u8]) -> u32
    ensures ok { result ≡ 0 → Tells speaker.old speaker.new line.now }
    ensures bad { result ≡ 1 → IsNoLine speaker.old line.now }
    ensures kept { (result ≡ 1) ⊎ (result ≡ 2) → speaker.new ≡ speaker.old }
    ensures unprinted { result ≡ 3 → Answers speaker.old speaker.new line.now }
    ensures spent { result ≡ 9 → IsSpentBus speaker.old speaker.new }
    ensures range { (result ≤ 3) ⊎ (result ≡ 9) }
{
    match speaker.call(alloc, line) {
        Ok(()) => match speaker.write() {
            Ok(()) => OK,
            Err(_) => UNPRINTED,
        },
        Err(LineRefusal::Bad) => BAD_LINE,
        Err(LineRefusal::OutOfMemory) => NO_MEMORY,
        Err(LineRefusal::Spent) => SPENT,
    }
}

/// Prints what came of the last line, where it is not printed yet.
pub fn print_again(speaker: &mut Speaker) -> u32
    ensures ok { result ≡ 0 → speaker.new ≡ printed speaker.old }
    ensures kept { result ≡ 2 → IsUnprinted speaker.old speaker.new }
    ensures range { (result ≡ 0) ⊎ (result ≡ 2) }
{
    match speaker.write() {
        Ok(()) => OK,
        Err(_) => NO_MEMORY,
    }
}

/// Copies bytes to the front of others, where these are enough.
fn copy(bytes: &[u8], out: &mut [u8]) -> bool
    ensures copied { result ≡ true → out.new ≡ bytes.now ++ drop (length bytes.now) out.old }
    ensures kept { result ≡ false → out.new ≡ out.old }
    ensures short { result ≡ false → length out.old < length bytes.now }
{
    let len = bytes.len();
    if len > out.len() {
        return false;
    }
    out[..len].copy_from_slice(bytes);
    true
}

/// Gives what was printed last, where there is room for it, and says how long it is.
pub fn give(speaker: &Speaker, out: &mut [u8], len: &mut usize) -> u32
    ensures len { len.new ≡ length (print_of speaker.now) }
    ensures copied { result ≡ 0 → out.new ≡ print_of speaker.now ++ drop (length (print_of speaker.now)) out.old }
    ensures kept { result ≡ 4 → out.new ≡ out.old }
    ensures short { result ≡ 4 → length out.old < len.new }
    ensures range { (result ≡ 0) ⊎ (result ≡ 4) }
{
    let print = speaker.print();
    *len = print.len();
    if copy(print, out) { OK } else { SHORT }
}
