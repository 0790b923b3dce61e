//! The words of each call, behind its name.
ghost use Rattle.std.specs.Prelude.{◌≡◌};
ghost use Rattle.std.specs.Option.{option_map};
ghost use Rattle.zq_lines.specs.Forms.{declaring_form, form_at, form_of, other_form, span_of, tail_of};

use crate::kind::Kind;
use zq_io::words::is;

/// The words of `config` up to its regions.
pub const CONFIG: &[Kind] = &[Kind::Id, Kind::Long];
/// The words of `start`, the counters.
pub const START: &[Kind] = &[Kind::Int, Kind::Long, Kind::Long, Kind::Int, Kind::Int];
/// The word of `best`, the choice.
pub const BEST: &[Kind] = &[Kind::Choice];
/// The words of `open`; deny lists may follow.
pub const OPEN: &[Kind] = &[
    Kind::Region,
    Kind::Id,
    Kind::Mode,
    Kind::Bound,
    Kind::OptionText,
];
/// A face alone.
pub const FACE: &[Kind] = &[Kind::Int];
/// A face, and an id that it gives.
pub const IDS: &[Kind] = &[Kind::Int, Kind::Int];
/// The words of `key`.
pub const KEY: &[Kind] = &[Kind::Int, Kind::Short, Kind::Wire];
/// The words of `unkey`.
pub const UNKEY: &[Kind] = &[Kind::Int, Kind::Short];
/// The words of `queryable`.
pub const QUERYABLE: &[Kind] = &[
    Kind::Int,
    Kind::Int,
    Kind::Wire,
    Kind::Completeness,
    Kind::Short,
    Kind::Short,
];
/// The words of `unqueryable`.
pub const UNQUERYABLE: &[Kind] = &[Kind::Int, Kind::Int, Kind::OptionWire, Kind::Short];
/// The words of `interest`; the last may be missing.
pub const INTEREST: &[Kind] = &[
    Kind::Int,
    Kind::Int,
    Kind::OptionWire,
    Kind::Keys,
    Kind::Aggregate,
];
/// The words of `finalize` up to its mark; one word or two follow.
pub const FINALIZE: &[Kind] = &[Kind::Int, Kind::Mark, Kind::Any];
/// The words of `ask`.
pub const ASK: &[Kind] = &[
    Kind::Int,
    Kind::Int,
    Kind::Wire,
    Kind::Target,
    Kind::OptionLong,
    Kind::Short,
    Kind::Byte,
    Kind::Any,
    Kind::Long,
];
/// The words of `reply`; a responder may follow.
pub const REPLY: &[Kind] = &[Kind::Int, Kind::Int, Kind::Wire, Kind::Body, Kind::Any];
/// A number alone.
pub const LONG: &[Kind] = &[Kind::Long];
/// The words of `gateways`.
pub const GATEWAYS: &[Kind] = &[Kind::Region, Kind::Any, Kind::Any];
/// The words of `network`.
pub const NETWORK: &[Kind] = &[Kind::Region, Kind::Ids, Kind::Any, Kind::Any];
/// The words of `nodes`.
pub const NODES: &[Kind] = &[Kind::Int, Kind::Ids];

/// The words of a call that speaks of keys and queryables.
fn declaring_form(name: &[u8]) -> Option<&'static [Kind]>
    ensures { option_map (λ k. k.now) result ≡ declaring_form name.now }
{
    if is(name, "key") {
        Some(KEY)
    } else if is(name, "unkey") {
        Some(UNKEY)
    } else if is(name, "queryable") {
        Some(QUERYABLE)
    } else if is(name, "unqueryable") {
        Some(UNQUERYABLE)
    } else if is(name, "interest") {
        Some(INTEREST)
    } else if is(name, "uninterest") {
        Some(IDS)
    } else {
        None
    }
}

/// The words of a call that is of no key and no query.
fn other_form(name: &[u8]) -> Option<&'static [Kind]>
    ensures { option_map (λ k. k.now) result ≡ other_form name.now }
{
    if is(name, "open") {
        Some(OPEN)
    } else if is(name, "close") {
        Some(FACE)
    } else if is(name, "finalize") {
        Some(FINALIZE)
    } else if is(name, "gateways") {
        Some(GATEWAYS)
    } else if is(name, "network") {
        Some(NETWORK)
    } else if is(name, "nodes") {
        Some(NODES)
    } else {
        declaring_form(name)
    }
}

/// The words of the call of a name, if there is one: all, those that it has at least, or those that it has
/// at most.
fn form_of(name: &[u8]) -> Option<&'static [Kind]>
    ensures { option_map (λ k. k.now) result ≡ form_of name.now }
{
    if is(name, "ask") {
        Some(ASK)
    } else if is(name, "reply") {
        Some(REPLY)
    } else if is(name, "final") {
        Some(IDS)
    } else if is(name, "sent") || is(name, "poll") {
        Some(LONG)
    } else {
        other_form(name)
    }
}

/// The words of a line of a number and a name, if there are such: of a call, of the configuration, which
/// stands first, of the counters or of the choice.
pub fn form_at(number: u64, name: &[u8]) -> Option<&'static [Kind]>
    ensures { option_map (λ k. k.now) result ≡ form_at number name.now }
{
    if number == 1 && is(name, "config") {
        return Some(CONFIG);
    }
    if is(name, "start") {
        return Some(START);
    }
    if is(name, "best") {
        return Some(BEST);
    }
    form_of(name)
}

/// How many words a call may have.
#[derive(Clone, Copy)]
pub enum Span {
    /// Just its own.
    Exact,
    /// The last may be missing.
    Less,
    /// Further words may follow.
    More,
}

/// How many words the call of a name may have.
pub fn span_of(name: &[u8]) -> Span
    ensures { result ≡ span_of name.now }
{
    if is(name, "open") || is(name, "reply") || is(name, "finalize") || is(name, "config") {
        Span::More
    } else if is(name, "interest") {
        Span::Less
    } else {
        Span::Exact
    }
}

/// What each further word of the call of a name is.
pub fn tail_of(name: &[u8]) -> Kind
    ensures { result ≡ tail_of name.now }
{
    if is(name, "open") {
        Kind::Item
    } else if is(name, "reply") {
        Kind::Responder
    } else if is(name, "config") {
        Kind::Entry
    } else {
        Kind::Any
    }
}
