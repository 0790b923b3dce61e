//! What is printed for the lines of a script for storages, while they are done.
ghost use Rattle.std.specs.Prelude.{◌≡◌, ◌++◌, ◌∷◌, [], IfOk, OnOk, codes};
ghost use Rattle.std.specs.Fmt.{decimal};
ghost use Rattle.std.specs.List.{flat_map};
ghost use Rattle.zq_script.specs.Load.{load_config};
ghost use Rattle.zq_store.specs.Bus.{new_bus};
ghost use Rattle.zq_store.specs.Outcomes.{line_after};
ghost use Rattle.zq_store.specs.Printing.{got_words, line_print, lines_print, old_words, outcome_words, put_name, refusal_name, refused_words, reply_words, script_print};

use crate::bus::{Bus, BusRefusal};
use crate::got::{GotReply, StoreId};
use crate::lines::Line;
use crate::outcome::{LineOutcome, do_line};
use crate::stores::PutRefusal;
use std::alloc::Global;
use zq_io::show::push_field;
use zq_io::words::{push_number, push_text, push_word};
use zq_key::memory::OutOfMemory;
use zq_key::text::Bytes;
use zq_script::load_config;

fn refusal_name(refusal: BusRefusal) -> &'static str
    ensures { result.now ≡ refusal_name refusal }
{
    match refusal {
        BusRefusal::Spent => "Spent",
        BusRefusal::NoLocal => "NoLocal",
        BusRefusal::NoFreeId => "NoFreeId",
        BusRefusal::OutOfMemory => "OutOfMemory",
    }
}

fn put_name(refusal: PutRefusal) -> &'static str
    ensures { result.now ≡ put_name refusal }
{
    match refusal {
        PutRefusal::UnknownStore => "UnknownStore",
        PutRefusal::NotPlain => "NotPlain",
        PutRefusal::Outside => "Outside",
        PutRefusal::OutOfMemory => "OutOfMemory",
    }
}

/// Writes that a line is refused.
fn push_refused(out: &mut Vec<u8>, name: &str) -> Result<(), OutOfMemory>
    ensures { OnOk result (out.new.items ≡ out.old.items ++ refused_words name.now) }
{
    push_text(out, "refused ")?;
    push_text(out, name)?;
    push_text(out, "\n")?;
    Ok(())
}

/// Writes the number of a storage that joined.
fn push_store(out: &mut Vec<u8>, store: StoreId) -> Result<(), OutOfMemory>
    ensures { OnOk result (out.new.items ≡ out.old.items ++ codes "storage " ++ decimal store.0 ++ 10 ∷ []) }
{
    push_text(out, "storage ")?;
    push_number(out, store.0)?;
    push_text(out, "\n")?;
    Ok(())
}

/// Writes a value that was there before.
fn push_old(out: &mut Vec<u8>, before: &Option<Bytes>) -> Result<(), OutOfMemory>
    ensures { OnOk result (out.new.items ≡ out.old.items ++ old_words before.now) }
{
    match before {
        None => push_text(out, "done\n")?,
        Some(value) => {
            push_text(out, "old")?;
            push_field(out, value)?;
            push_text(out, "\n")?;
        }
    }
    Ok(())
}

/// Writes a reply.
fn push_reply(out: &mut Vec<u8>, reply: &GotReply) -> Result<(), OutOfMemory>
    ensures { OnOk result (out.new.items ≡ out.old.items ++ reply_words reply.now) }
{
    push_word(out, reply.key.as_str().as_bytes())?;
    push_field(out, &reply.value)?;
    push_text(out, "\n")?;
    Ok(())
}

/// Writes the replies of a get, and its end.
fn push_got(out: &mut Vec<u8>, replies: &[GotReply]) -> Result<(), OutOfMemory>
    ensures { OnOk result (out.new.items ≡ out.old.items ++ got_words replies.now) }
{
    for reply in replies {
        push_reply(out, reply)?;
    }
    push_text(out, "end\n")?;
    Ok(())
}

/// Writes what comes of a line.
pub fn push_outcome(out: &mut Vec<u8>, outcome: &LineOutcome) -> Result<(), OutOfMemory>
    ensures { OnOk result (out.new.items ≡ out.old.items ++ outcome_words outcome.now) }
{
    match outcome {
        LineOutcome::Joined(store) => push_store(out, *store),
        LineOutcome::Changed(before) => push_old(out, before),
        LineOutcome::Got(replies) => push_got(out, replies.as_slice()),
        LineOutcome::Refused(refusal) => push_refused(out, refusal_name(*refusal)),
        LineOutcome::PutRefused(refusal) => push_refused(out, put_name(*refusal)),
    }
}

/// Does what a line asks for, and writes what it prints.
fn print_line(bus: &mut Bus, out: &mut Vec<u8>, line: &Line) -> Result<(), OutOfMemory>
    ensures print { OnOk result (out.new.items ≡ out.old.items ++ line_print bus.old line.now) }
    ensures after { OnOk result (bus.new ≡ line_after bus.old line.now) }
{
    match do_line(bus, line) {
        Ok(outcome) => push_outcome(out, &outcome),
        Err(_) => Err(OutOfMemory),
    }
}

/// The print of lines, which are done one after another.
fn print_lines(alloc: Global, bus: &mut Bus, lines: &[Line]) -> Result<Bytes, OutOfMemory>
    ensures { IfOk result (λ b. b ≡ lines_print bus.old lines.now) }
{
    let mut out = Vec::new(alloc);
    for line in lines {
        print_line(bus, &mut out, line)?;
    }
    Ok(Bytes::from_vec(out))
}

/// A bus of the load's configuration.
fn load_bus(alloc: Global) -> Result<Bus, OutOfMemory>
    ensures { IfOk result (λ b. b ≡ new_bus load_config) }
{
    let config = load_config(alloc)?;
    match Bus::new(alloc, &config) {
        Ok(bus) => Ok(bus),
        Err(_) => Err(OutOfMemory),
    }
}

/// The print of a script.
pub fn print_script(alloc: Global, lines: &[Line]) -> Result<Bytes, OutOfMemory>
    ensures { IfOk result (λ b. b ≡ script_print lines.now) }
{
    let mut bus = load_bus(alloc)?;
    print_lines(alloc, &mut bus, lines)
}
