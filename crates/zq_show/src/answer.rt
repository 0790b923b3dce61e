//! What a call was answered, as a text.
ghost use Rattle.std.specs.Prelude.{◌≡◌, ◌++◌, IfOk, OnOk};
ghost use Rattle.zq_show.specs.Answer.{answer_words, cause_words, gone_words, handed_text, is_refused, named, number_tag, other_words, replied_words, reply_tag, tag_words};
ghost use Rattle.std.specs.Option.{option_copied};

use std::alloc::{AllocError, Global};
use zq_io::words::{push_number, push_text};
use zq_key::memory::OutOfMemory;
use zq_key::message::Message;
use zq_key::text::Bytes;
use zq_lines::steps::print_message;
use zq_machine::call::{Outcome, Refusal};
use zq_machine::handed::Handed;

/// The name of a refusal, and what it means.
pub fn cause(refusal: Refusal) -> &'static str
    ensures { result.now ≡ cause_words refusal }
{
    match refusal {
        Refusal::UnknownFace => "UnknownFace: the face was never opened, or is closed",
        Refusal::UnknownRegion => "UnknownRegion: the configuration lacks the region",
        Refusal::UpstreamInUse => "UpstreamInUse: the region has its one face already",
        Refusal::UnknownScope => "UnknownScope: the number stands for no key at the face",
        Refusal::InvalidKeyExpr => "InvalidKeyExpr: the full text is no key",
        Refusal::QueryNotFound => "QueryNotFound: the id is not pending at the face",
        Refusal::NotInFlight => "NotInFlight: no such reply is in flight",
        Refusal::Remapped => "Remapped: the number is 0, or stands for another text",
        Refusal::UnknownId => "UnknownId: the id stands for nothing",
        Refusal::IdInUse => "IdInUse: the id stands for another key",
        Refusal::UnknownRouter => "UnknownRouter: the node number stands for no other router",
        Refusal::NoFreeId => "NoFreeId: no number is left",
    }
}

/// Whether the call was refused.
pub fn is_refused(outcome: Outcome) -> bool
    ensures { result ≡ is_refused outcome }
{
    matches!(outcome, Outcome::Refused(_))
}

/// Writes a name and a number.
pub fn push_named(out: &mut Vec<u8>, name: &str, number: u64) -> Result<(), AllocError>
    ensures { OnOk result (out.new.items ≡ out.old.items ++ named name.now number) }
{
    push_text(out, name)?;
    push_number(out, number)
}

/// Writes which reply it became, if one went on.
fn push_replied(out: &mut Vec<u8>, reply: Option<u64>) -> Result<(), AllocError>
    ensures { OnOk result (out.new.items ≡ out.old.items ++ replied_words reply) }
{
    match reply {
        Some(number) => push_named(out, "replied: reply ", number),
        None => push_text(out, "replied: the asker is closed"),
    }
}

fn push_answer(out: &mut Vec<u8>, outcome: Outcome) -> Result<(), AllocError>
    ensures { OnOk result (out.new.items ≡ out.old.items ++ answer_words outcome) }
{
    match outcome {
        Outcome::Opened(face) => push_named(out, "opened: face ", u64::from(face.0)),
        Outcome::Asked(number) => push_named(out, "asked: request #", number),
        Outcome::Replied(reply) => push_replied(out, reply),
        Outcome::Done => push_text(out, "done"),
        Outcome::Refused(refusal) => {
            push_text(out, "refused: ")?;
            push_text(out, cause(refusal))
        }
    }
}

/// What a call was answered; of a refusal with its cause.
pub fn answer(alloc: Global, outcome: Outcome) -> Result<Bytes, OutOfMemory>
    ensures { IfOk result (λ b. b ≡ answer_words outcome) }
{
    let mut out = Vec::new(alloc);
    push_answer(&mut out, outcome)?;
    Ok(Bytes::from_vec(out))
}

/// Writes a text, and bytes behind it.
fn push_with(out: &mut Vec<u8>, text: &str, bytes: &[u8]) -> Result<(), AllocError>
    ensures { OnOk result (out.new.items ≡ out.old.items ++ text.now ++ bytes.now) }
{
    push_text(out, text)?;
    out.extend_from_slice(bytes)
}

/// Writes the words of what leaves, where they are not those of what was handed.
fn push_other(out: &mut Vec<u8>, words: &[u8], leaving: &[u8]) -> Result<(), AllocError>
    ensures { OnOk result (out.new.items ≡ out.old.items ++ other_words words.now leaving.now) }
{
    if leaving == words {
        return Ok(());
    }
    push_with(out, ", which leaves as ", leaving)
}

/// Writes what leaves of a message, where it is not what was handed.
fn push_gone(
    alloc: Global,
    out: &mut Vec<u8>,
    leaves: Option<&Message>,
    words: &[u8],
) -> Result<(), OutOfMemory>
    ensures { OnOk result (out.new.items ≡ out.old.items ++ gone_words words.now (option_copied leaves.entry)) }
{
    match leaves {
        Some(message) => {
            let leaving = print_message(alloc, message)?;
            push_other(out, words, leaving.as_slice())?;
        }
        None => push_text(out, ", of which nothing leaves")?,
    }
    Ok(())
}

/// Writes the number of a request, if there is one.
pub fn push_number_tag(out: &mut Vec<u8>, number: Option<u64>) -> Result<(), AllocError>
    ensures { OnOk result (out.new.items ≡ out.old.items ++ number_tag number) }
{
    if let Some(number) = number {
        push_named(out, "#", number)?;
        push_text(out, " ")?;
    }
    Ok(())
}

/// Writes the number of a reply, if there is one.
fn push_reply_tag(out: &mut Vec<u8>, reply: Option<u64>) -> Result<(), AllocError>
    ensures { OnOk result (out.new.items ≡ out.old.items ++ reply_tag reply) }
{
    if let Some(number) = reply {
        push_named(out, "reply ", number)?;
        push_text(out, ": ")?;
    }
    Ok(())
}

/// Writes the numbers of the request and of the reply that a message is of.
pub fn push_tag(out: &mut Vec<u8>, handed: &Handed) -> Result<(), AllocError>
    ensures { OnOk result (out.new.items ≡ out.old.items ++ tag_words handed.now) }
{
    push_number_tag(out, handed.number())?;
    push_reply_tag(out, handed.reply())
}

/// A message that is handed: to whom, of which request and as which reply, its words, and what
/// leaves of it where that is not the same.
pub fn handed_text(alloc: Global, handed: &Handed) -> Result<Bytes, OutOfMemory>
    ensures { IfOk result (λ b. b ≡ handed_text handed.now) }
{
    let mut out = Vec::new(alloc);
    push_named(&mut out, "to face ", u64::from(handed.to().0))?;
    push_text(&mut out, ": ")?;
    push_tag(&mut out, handed)?;
    let words = print_message(alloc, handed.message())?;
    out.extend_from_slice(words.as_slice())?;
    push_gone(alloc, &mut out, handed.leaves(), words.as_slice())?;
    Ok(Bytes::from_vec(out))
}
