//! What is spoken to by lines, for programs in C and in whatever calls C. `bindings/c/zq.h` declares
//! what stands here, with a look at each pointer before it: here a reference is never null.
//!
//! - `parts`, `owned_box`: a box by its pointer
//! - `grip`: what C holds
//! - `status`: what C is answered
//! - `speaking`: what a line is answered
#![tactic(auto)]

mod grip;
mod owned_box;
mod parts;
mod speaking;
mod status;

ghost use Rattle.std.specs.Prelude.{◌≡◌, ◌≢◌, ◌≤◌, ◌↔◌, ◌⊎◌, List, Some, None, Ok, Err, IfOk, IsSome, IsSomeAnd};
ghost use Rattle.zq_c.specs.Told.{Becomes, IsAsked, IsGiven, IsOpeningStatus, IsShort};
ghost use Rattle.zq_machine.specs.declared.call.Call.{Call};
ghost use Rattle.zq_machine.specs.Headline.{RunPromise};
ghost use Rattle.zq_trace.specs.Machine.{RunHeadline, RunTold};
ghost use Rattle.zq_spoken.specs.Keys.{including, meeting};
ghost use Rattle.zq_spoken.specs.Opening.{config_of};
ghost use Rattle.zq_spoken.specs.Speaker.{Answers, IsNext, IsNoLine, IsSpentBus, IsUnprinted, Tells, opens_bus, opens_gateway, printed};

use grip::Handle;
use speaking::{give, print_again, speak};
use status::{BAD_KEY, BAD_LINE, CLOSED, IN_USE, NO_FREE_ID, NO_LOCAL, NO_MEMORY, NOTHING, OK};
use std::alloc::Global;
use zq_spoken::keys::{key_includes, keys_meet};
use zq_spoken::refusal::OpenRefusal;
use zq_spoken::speaker::Speaker;

/// Puts what was opened into a handle that has nothing, or says why nothing was.
fn put_opened(
    alloc: Global,
    opened: Result<Speaker, OpenRefusal>,
    handle: &mut Handle,
    bad_line: &mut u64,
) -> u32
    requires { handle.old.owned.value ≡ None }
    ensures ok { result ≡ 0 → IsSomeAnd handle.new.owned.value (λ s. opened ≡ Ok s) }
    ensures bad { result ≡ 1 → opened ≡ Err (OpenRefusal.BadLine bad_line.new) }
    ensures no_local { result ≡ 10 → opened ≡ Err OpenRefusal.NoLocal }
    ensures no_free_id { result ≡ 11 → opened ≡ Err OpenRefusal.NoFreeId }
    ensures kept { result ≢ 0 → handle.new.owned.value ≡ None }
    ensures range { IsOpeningStatus result }
{
    match opened {
        Ok(speaker) => match Box::new(alloc, speaker) {
            Ok(speaker) => {
                handle.put(speaker);
                OK
            }
            Err(_) => NO_MEMORY,
        },
        Err(OpenRefusal::BadLine(number)) => {
            *bad_line = number;
            BAD_LINE
        }
        Err(OpenRefusal::NoLocal) => NO_LOCAL,
        Err(OpenRefusal::NoFreeId) => NO_FREE_ID,
        Err(OpenRefusal::OutOfMemory) => NO_MEMORY,
    }
}

/// Makes a gateway of the lines before a script's calls, and puts it into a handle that has nothing.
/// `bad_line` is the number of the first bad line, where there is one.
#[unsafe(no_mangle)]
pub extern "C" fn zq_proved_open(
    alloc: Global,
    head: &[u8],
    handle: &mut Handle,
    bad_line: &mut u64,
) -> u32
    ensures ok { result ≡ 0 → IsSomeAnd handle.new.owned.value (λ s. opens_gateway head.now ≡ Ok s) }
    ensures headline { result ≡ 0 → IfOk (config_of head.now) (λ c. (calls : List Call) → RunHeadline c calls) }
    ensures told { result ≡ 0 → IfOk (config_of head.now) (λ c. (calls : List Call) → RunTold c calls) }
    ensures promise { result ≡ 0 → IfOk (config_of head.now) (λ c. (calls : List Call) → RunPromise c calls) }
    ensures bad { result ≡ 1 → opens_gateway head.now ≡ Err (OpenRefusal.BadLine bad_line.new) }
    ensures in_use { (result ≡ 6) ↔ IsSome handle.old.owned.value }
    ensures kept { result ≢ 0 → handle.new.owned.value ≡ handle.old.owned.value }
    ensures range { IsOpeningStatus result ⊎ (result ≡ 6) }
{
    if handle.is_live() {
        return IN_USE;
    }
    put_opened(alloc, Speaker::open_gateway(alloc, head), handle, bad_line)
}

/// Makes a bus without storages of such lines, and puts it into a handle that has nothing.
#[unsafe(no_mangle)]
pub extern "C" fn zq_proved_open_bus(
    alloc: Global,
    head: &[u8],
    handle: &mut Handle,
    bad_line: &mut u64,
) -> u32
    ensures ok { result ≡ 0 → IsSomeAnd handle.new.owned.value (λ s. opens_bus head.now ≡ Ok s) }
    ensures bad { result ≡ 1 → opens_bus head.now ≡ Err (OpenRefusal.BadLine bad_line.new) }
    ensures no_local { result ≡ 10 → opens_bus head.now ≡ Err OpenRefusal.NoLocal }
    ensures no_free_id { result ≡ 11 → opens_bus head.now ≡ Err OpenRefusal.NoFreeId }
    ensures in_use { (result ≡ 6) ↔ IsSome handle.old.owned.value }
    ensures kept { result ≢ 0 → handle.new.owned.value ≡ handle.old.owned.value }
    ensures range { IsOpeningStatus result ⊎ (result ≡ 6) }
{
    if handle.is_live() {
        return IN_USE;
    }
    put_opened(alloc, Speaker::open_bus(alloc, head), handle, bad_line)
}

/// Does what a line says, and copies the print of what comes of it to `out`, where there is room for
/// it; `len` is how long the print is.
#[unsafe(no_mangle)]
pub extern "C" fn zq_proved_call(
    alloc: Global,
    handle: &mut Handle,
    line: &[u8],
    out: &mut [u8],
    len: &mut usize,
) -> u32
    ensures ok { result ≡ 0 → Becomes handle.old.owned.value handle.new.owned.value (λ s t. Tells s t line.now) }
    ensures print { result ≡ 0 → IsGiven handle.new.owned.value len.new out.old out.new }
    ensures bad { result ≡ 1 → IsSomeAnd handle.old.owned.value (λ s. IsNoLine s line.now) }
    ensures unprinted { result ≡ 3 → Becomes handle.old.owned.value handle.new.owned.value (λ s t. Answers s t line.now) }
    ensures short { result ≡ 4 → Becomes handle.old.owned.value handle.new.owned.value (λ s t. Tells s t line.now) }
    ensures room { result ≡ 4 → IsShort handle.new.owned.value len.new out.old out.new }
    ensures closed { (result ≡ 5) ↔ (handle.old.owned.value ≡ None) }
    ensures spent { result ≡ 9 → Becomes handle.old.owned.value handle.new.owned.value IsSpentBus }
    ensures kept { (result ≡ 1) ⊎ ((result ≡ 2) ⊎ (result ≡ 5)) → handle.new.owned.value ≡ handle.old.owned.value }
    ensures range { (result ≤ 5) ⊎ (result ≡ 9) }
{
    let Some(mut speaker) = handle.take(alloc) else {
        return CLOSED;
    };
    let mut status = speak(alloc, speaker.as_mut(), line);
    if status == OK {
        status = give(speaker.as_ref(), out, len);
    }
    handle.put(speaker);
    status
}

/// Copies the print of what came of the last line to `out`, as `zq_proved_call` does. It does nothing
/// else.
#[unsafe(no_mangle)]
pub extern "C" fn zq_proved_print(
    alloc: Global,
    handle: &mut Handle,
    out: &mut [u8],
    len: &mut usize,
) -> u32
    ensures ok { result ≡ 0 → Becomes handle.old.owned.value handle.new.owned.value (λ s t. t ≡ printed s) }
    ensures print { result ≡ 0 → IsGiven handle.new.owned.value len.new out.old out.new }
    ensures memory { result ≡ 2 → Becomes handle.old.owned.value handle.new.owned.value IsUnprinted }
    ensures short { result ≡ 4 → Becomes handle.old.owned.value handle.new.owned.value (λ s t. t ≡ printed s) }
    ensures room { result ≡ 4 → IsShort handle.new.owned.value len.new out.old out.new }
    ensures closed { (result ≡ 5) ↔ (handle.old.owned.value ≡ None) }
    ensures nothing { result ≡ 5 → handle.new.owned.value ≡ None }
    ensures range { (result ≡ 0) ⊎ ((result ≡ 2) ⊎ ((result ≡ 4) ⊎ (result ≡ 5))) }
{
    let Some(mut speaker) = handle.take(alloc) else {
        return CLOSED;
    };
    let mut status = print_again(speaker.as_mut());
    if status == OK {
        status = give(speaker.as_ref(), out, len);
    }
    handle.put(speaker);
    status
}

/// Lets go what is there, if there is something.
#[unsafe(no_mangle)]
pub extern "C" fn zq_proved_close(alloc: Global, handle: &mut Handle)
    ensures { handle.new.owned.value ≡ None }
{
    let _ = handle.take(alloc);
}

/// When a gateway is to be told next that a moment has come, in milliseconds: the least deadline of all
/// that its open requests wait for.
#[unsafe(no_mangle)]
pub extern "C" fn zq_proved_next_deadline(
    alloc: Global,
    handle: &mut Handle,
    deadline: &mut u64,
) -> u32
    ensures ok { result ≡ 0 → IsSomeAnd handle.old.owned.value (λ s. IsNext s (Some deadline.new)) }
    ensures nothing { result ≡ 7 → IsSomeAnd handle.old.owned.value (λ s. IsNext s None) }
    ensures closed { (result ≡ 5) ↔ (handle.old.owned.value ≡ None) }
    ensures kept { handle.new.owned.value ≡ handle.old.owned.value }
    ensures range { (result ≡ 0) ⊎ ((result ≡ 5) ⊎ (result ≡ 7)) }
{
    let Some(speaker) = handle.take(alloc) else {
        return CLOSED;
    };
    let next = speaker.as_ref().next_deadline();
    handle.put(speaker);
    match next {
        Some(moment) => {
            *deadline = moment;
            OK
        }
        None => NOTHING,
    }
}

/// An answer on two texts, if both are keys.
fn answer(found: Option<bool>, yes: &mut bool) -> u32
    ensures { IsAsked found yes.new result }
{
    match found {
        Some(is) => {
            *yes = is;
            OK
        }
        None => BAD_KEY,
    }
}

/// Whether two keys intersect. It takes no memory.
#[unsafe(no_mangle)]
pub extern "C" fn zq_proved_keys_meet(a: &[u8], b: &[u8], meet: &mut bool) -> u32
    ensures { IsAsked (meeting a.now b.now) meet.new result }
{
    answer(keys_meet(a, b), meet)
}

/// Whether key a includes key b. It takes no memory.
#[unsafe(no_mangle)]
pub extern "C" fn zq_proved_key_includes(a: &[u8], b: &[u8], includes: &mut bool) -> u32
    ensures { IsAsked (including a.now b.now) includes.new result }
{
    answer(key_includes(a, b), includes)
}
