use std::alloc::Global;
use zq_given::wire;
use zq_key::memory::OutOfMemory;
use zq_key::message::{Message, QueryTarget, Request, WireExpr};
use zq_key::text::Bytes;
use zq_key::{Key, is_key, is_plain};
use zq_namespace::{ENamespace, KeyList, Mux, Namespace};

// Whether an expression on the text enters as the other.
fn enters(
    entry: &Namespace,
    alloc: Global,
    text: &str,
    entered: &str,
) -> Result<bool, OutOfMemory> {
    let wire = wire(alloc, 0, text)?;
    Ok(entry.enter(&wire)?.suffix.as_str() == entered)
}

#[test]
fn a_key_enters(rt: HostRuntime) {
    let ns = Key::new(rt.alloc(), "acme/x").ok().expect(&rt, "a key");
    assert!(rt; is_plain(ns.as_str()));
    let entry = Namespace::new(rt.alloc(), ns);
    assert_eq!(rt; enters(&entry, rt.alloc(), "a/*", "acme/x/a/*"), Ok(true));
}

// A request on an expression.
fn asking(alloc: Global, wire: WireExpr) -> Message {
    Message::Request(Request {
        id: 1,
        wire,
        target: QueryTarget::All,
        timeout: None,
        node: 0,
        qos: 0,
        payload: Bytes::from_vec(Vec::new(alloc)),
    })
}

// Whether a request on the text is what left; where there is no text, whether nothing left.
fn is_left(left: &Option<Message>, text: Option<&str>) -> bool {
    match left {
        Some(Message::Request(request)) => text == Some(request.wire.suffix.as_str()),
        Some(_) => false,
        None => text.is_none(),
    }
}

// Whether a request on the text leaves like that.
fn leaves(
    exit: &mut ENamespace,
    alloc: Global,
    text: &str,
    left: Option<&str>,
) -> Result<bool, OutOfMemory> {
    let request = asking(alloc, wire(alloc, 0, text)?);
    Ok(is_left(&exit.leave(&request)?, left))
}

// Whether of two requests the one within the namespace leaves.
fn leaves_within(exit: &mut ENamespace, alloc: Global) -> Result<[bool; 2], OutOfMemory> {
    Ok([
        leaves(exit, alloc, "acme/*/b", Some("b"))?,
        leaves(exit, alloc, "acme/y/b", None)?,
    ])
}

#[test]
fn a_key_leaves(rt: HostRuntime) {
    let ns = Key::new(rt.alloc(), "acme/x").ok().expect(&rt, "a key");
    assert!(rt; is_plain(ns.as_str()));
    let mut exit = ENamespace::new(rt.alloc(), ns);
    assert_eq!(rt; leaves_within(&mut exit, rt.alloc()), Ok([true, true]));
}

// Whether of three requests the exit of a face lets out the one within its namespace that is not denied.
fn leaves_not_denied(exit: &mut Mux, alloc: Global) -> Result<[bool; 3], OutOfMemory> {
    Ok([
        passes(exit, alloc, "acme/x/b", Some("b"))?,
        passes(exit, alloc, "acme/x/no/b", None)?,
        passes(exit, alloc, "acme/y/b", None)?,
    ])
}

// Whether a request on the text passes the exit of a face like that.
fn passes(
    exit: &mut Mux,
    alloc: Global,
    text: &str,
    left: Option<&str>,
) -> Result<bool, OutOfMemory> {
    if !is_key(text) {
        return Ok(false);
    }
    let request = asking(alloc, wire(alloc, 0, text)?);
    Ok(is_left(&exit.leave(text, &request)?, left))
}

#[test]
fn a_key_passes_an_exit(rt: HostRuntime) {
    let ns = Key::new(rt.alloc(), "acme/x").ok().expect(&rt, "a key");
    assert!(rt; is_plain(ns.as_str()));
    let mut denied = KeyList::new(rt.alloc());
    let no = Key::new(rt.alloc(), "acme/x/no/**")
        .ok()
        .expect(&rt, "a key");
    denied.push(no).ok().expect(&rt, "memory");
    let mut exit = Mux::new(rt.alloc(), Some(ns), denied);
    assert_eq!(rt;
        leaves_not_denied(&mut exit, rt.alloc()),
        Ok([true, true, true])
    );
}
