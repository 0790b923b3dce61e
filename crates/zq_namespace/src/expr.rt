//! What the exit of a namespace lets out of an expression.
ghost use Rattle.std.specs.Prelude.{◌≡◌, true, IfOk, Some};
ghost use Rattle.zq_key.specs.Key.{is_plain as plain_of};
ghost use Rattle.zq_namespace.specs.Exit.{headed_out as headed_out_of, option_out as option_out_of, text_out as text_out_of, wire_out as wire_out_of};
ghost use Rattle.zq_namespace.specs.Out.{left};

use crate::out::Out;
use std::alloc::Global;
use std::collections::BTreeMap;
use zq_key::is_key;
use zq_key::space::strip;
use zq_message::memory::OutOfMemory;
use zq_message::message::{Mapping, WireExpr};
use zq_message::text::Text;

/// The heads that are kept: texts of key declarations that did not leave, by their numbers.
pub(crate) type HeadMap = BTreeMap<u16, Text>;

/// What leaves in place of an expression that says a whole text.
fn text_out(
    alloc: Global,
    ns: &str,
    wire: &WireExpr,
    text: &str,
) -> Result<Out<WireExpr>, OutOfMemory>
    requires { plain_of ns.now ≡ true }
    ensures { IfOk result (λ o. left wire.now o ≡ text_out_of ns.now wire.now text.now) }
{
    if !is_key(text) {
        return Ok(Out::Nothing);
    }
    match strip(ns, text) {
        None => Ok(Out::Nothing),
        Some(rest) => Ok(Out::Other(WireExpr {
            scope: 0,
            mapping: wire.mapping,
            suffix: Text::new(alloc, rest)?,
        })),
    }
}

/// What leaves in place of an expression whose number has a head.
fn headed_out(
    alloc: Global,
    ns: &str,
    wire: &WireExpr,
    head: &Text,
) -> Result<Out<WireExpr>, OutOfMemory>
    requires { plain_of ns.now ≡ true }
    ensures { IfOk result (λ o. left wire.now o ≡ headed_out_of ns.now wire.now (Some head.now)) }
{
    if wire.suffix.as_str().is_empty() {
        return Ok(Out::Nothing);
    }
    let text = Text::joined(alloc, head.as_str(), wire.suffix.as_str(), "")?;
    text_out(alloc, ns, wire, text.as_str())
}

/// What leaves in place of an expression (upstream's `handle_namespace_ingress`).
#[tactic(auto, unfolding(crate::specs::Exit::wire_out))]
pub(crate) fn wire_out(
    alloc: Global,
    ns: &str,
    heads: &HeadMap,
    wire: &WireExpr,
) -> Result<Out<WireExpr>, OutOfMemory>
    requires { plain_of ns.now ≡ true }
    ensures { IfOk result (λ o. left wire.now o ≡ wire_out_of ns.now heads.now.entries wire.now) }
{
    if wire.scope == 0 {
        return text_out(alloc, ns, wire, wire.suffix.as_str());
    }
    if wire.mapping == Mapping::Receiver {
        return Ok(Out::Same);
    }
    match heads.get(&wire.scope) {
        Some(head) => headed_out(alloc, ns, wire, head),
        None => Ok(Out::Same),
    }
}

/// What leaves in place of an expression that need not be there.
pub(crate) fn option_out(
    alloc: Global,
    ns: &str,
    heads: &HeadMap,
    wire: &Option<WireExpr>,
) -> Result<Out<Option<WireExpr>>, OutOfMemory>
    requires { plain_of ns.now ≡ true }
    ensures { IfOk result (λ o. left wire.now o ≡ option_out_of ns.now heads.now.entries wire.now) }
{
    let Some(wire) = wire else {
        return Ok(Out::Same);
    };
    match wire_out(alloc, ns, heads, wire)? {
        Out::Same => Ok(Out::Same),
        Out::Other(wire) => Ok(Out::Other(Some(wire))),
        Out::Nothing => Ok(Out::Nothing),
    }
}
