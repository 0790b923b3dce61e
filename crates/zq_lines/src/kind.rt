//! What can stand at a place of a line.
ghost use Rattle.std.specs.Prelude.{◌≡◌, IfOk, is_some};
ghost use Rattle.zq_lines.specs.Kinds.{expected, is_entry, is_flag, is_item, is_kind, is_named};

use std::alloc::Global;
use zq_io::stop::Stop;
use zq_io::values::flag_of;
use zq_io::words::{Word, cut, is};
use zq_message::items::Items;
use zq_message::memory::OutOfMemory;
use zq_message::message::{Bound, Mode, QueryTarget, Region, WireExpr, Zid};
use zq_message::text::Text;

/// What stands at a place of a line.
#[derive(Clone, Copy)]
pub enum Kind {
    /// A number below 2^8.
    Byte,
    /// A number below 2^16.
    Short,
    /// A number below 2^32: a face, or an id that a face gives.
    Int,
    /// A number below 2^64.
    Long,
    /// A number below 2^64, or none.
    OptionLong,
    /// The id of a node.
    Id,
    /// Ids of nodes.
    Ids,
    /// A region: `north`, `local` or `south:NUM:MODE`.
    Region,
    /// What a node is: `router`, `peer` or `client`.
    Mode,
    /// A side: `north` or `south`.
    Bound,
    /// Whom a request asks for: `all`, `complete` or `best`.
    Target,
    /// An expression.
    Wire,
    /// An expression, or none.
    OptionWire,
    /// A text, or none.
    OptionText,
    /// Whether a queryable answers completely.
    Completeness,
    /// What an interest asks for.
    Keys,
    /// That an interest is aggregating.
    Aggregate,
    /// Whether a reply is an error.
    Body,
    /// Which mark a face is given.
    Mark,
    /// An item of a deny list: `in:TEXT` or `out:TEXT`.
    Item,
    /// The responder of a reply: `by:` and an id.
    Responder,
    /// Where the best offer is looked for: `region` or `overall`.
    Choice,
    /// An entry of the configuration: `north:MODE`, `local` or `south:NUM:MODE`.
    Entry,
    /// Any word.
    Any,
}

/// Whether the word stands for a value of the type.
fn reads<T: Word>(alloc: Global, word: &[u8]) -> Result<bool, OutOfMemory>
    ensures { IfOk result (λ b. b ≡ is_some (T.of word.now)) }
{
    match T::read(alloc, word) {
        Ok(_) => Ok(true),
        Err(Stop::Bad) => Ok(false),
        Err(Stop::OutOfMemory) => Err(OutOfMemory),
    }
}

/// Whether the word is one of two.
fn is_flag(first: &str, other: &str, word: &[u8]) -> bool
    ensures { result ≡ is_flag first.now other.now word.now }
{
    flag_of(first, other, word).is_some()
}

/// Whether the word is a name, a colon, and what stands for a value of the type.
fn is_named<T: Word>(alloc: Global, name: &str, word: &[u8]) -> Result<bool, OutOfMemory>
    ensures { IfOk result (λ b. b ≡ is_named T.of name.now word.now) }
{
    match cut(b':', word) {
        Some((front, back)) if is(front, name) => reads::<T>(alloc, back),
        _ => Ok(false),
    }
}

/// Whether the word is `in:TEXT` or `out:TEXT`.
fn is_item(alloc: Global, word: &[u8]) -> Result<bool, OutOfMemory>
    ensures { IfOk result (λ b. b ≡ is_item word.now) }
{
    if is_named::<Text>(alloc, "in", word)? {
        return Ok(true);
    }
    is_named::<Text>(alloc, "out", word)
}

/// Whether the word is a region, or `north` and a mode.
fn is_entry(alloc: Global, word: &[u8]) -> Result<bool, OutOfMemory>
    ensures { IfOk result (λ b. b ≡ is_entry word.now) }
{
    if is_named::<Mode>(alloc, "north", word)? {
        return Ok(true);
    }
    reads::<Region>(alloc, word)
}

/// Whether the word can stand where this is expected.
pub fn is_kind(alloc: Global, kind: Kind, word: &[u8]) -> Result<bool, OutOfMemory>
    ensures { IfOk result (λ b. b ≡ is_kind kind word.now) }
{
    match kind {
        Kind::Byte => reads::<u8>(alloc, word),
        Kind::Short => reads::<u16>(alloc, word),
        Kind::Int => reads::<u32>(alloc, word),
        Kind::Long => reads::<u64>(alloc, word),
        Kind::OptionLong => reads::<Option<u64>>(alloc, word),
        Kind::Id => reads::<Zid>(alloc, word),
        Kind::Ids => reads::<Items<Zid>>(alloc, word),
        Kind::Region => reads::<Region>(alloc, word),
        Kind::Mode => reads::<Mode>(alloc, word),
        Kind::Bound => reads::<Bound>(alloc, word),
        Kind::Target => reads::<QueryTarget>(alloc, word),
        Kind::Wire => reads::<WireExpr>(alloc, word),
        Kind::OptionWire => reads::<Option<WireExpr>>(alloc, word),
        Kind::OptionText => reads::<Option<Text>>(alloc, word),
        Kind::Completeness => Ok(is_flag("c", "p", word)),
        Kind::Keys => Ok(is_flag("k", "n", word)),
        Kind::Aggregate => Ok(is(word, "a")),
        Kind::Body => Ok(is_flag("ok", "err", word)),
        Kind::Mark => Ok(is_flag("initial", "key", word)),
        Kind::Item => is_item(alloc, word),
        Kind::Responder => is_named::<Zid>(alloc, "by", word),
        Kind::Choice => Ok(is_flag("region", "overall", word)),
        Kind::Entry => is_entry(alloc, word),
        Kind::Any => Ok(true),
    }
}

/// What is expected, and how it is written.
pub fn expected(kind: Kind) -> &'static str
    ensures { result.now ≡ expected kind }
{
    match kind {
        Kind::Byte => "no number below 2^8",
        Kind::Short => "no number below 2^16",
        Kind::Int => "no number below 2^32",
        Kind::Long => "no number below 2^64",
        Kind::OptionLong => "neither a number below 2^64 nor `-`",
        Kind::Id => "no id: a number below 2^128",
        Kind::Ids => "no list of ids: joined by `,`, or `-`",
        Kind::Region => "no region: `north`, `local` or `south:NUM:MODE`",
        Kind::Mode => "no mode: `router`, `peer` or `client`",
        Kind::Bound => "no bound: `north` or `south`",
        Kind::Target => "no target: `all`, `complete` or `best`",
        Kind::Wire => "no expression: `NUM:s:TEXT` or `NUM:r:TEXT`",
        Kind::OptionWire => "no expression: `NUM:s:TEXT`, `NUM:r:TEXT` or `-`",
        Kind::OptionText => "no text in UTF-8",
        Kind::Completeness => "neither `c` nor `p`",
        Kind::Keys => "neither `k` nor `n`",
        Kind::Aggregate => "not `a`",
        Kind::Body => "neither `ok` nor `err`",
        Kind::Mark => "no mark: `initial` or `key`",
        Kind::Item => "no item of a deny list: `in:TEXT` or `out:TEXT`",
        Kind::Responder => "no responder: `by:` and an id below 2^128",
        Kind::Choice => "neither `region` nor `overall`",
        Kind::Entry => "no region of a gateway: `north:MODE`, `local` or `south:NUM:MODE`",
        Kind::Any => "no word",
    }
}
