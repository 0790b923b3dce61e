use crate::given::{Trial, found};
use std::alloc::{AllocError, Global};
use zq_gateway::gateway::Gateway;
use zq_key::memory::OutOfMemory;
use zq_key::message::Region;
use zq_lines::lines::call_of;
use zq_lines::steps::push_step;

/// An application declares twice on a key, and another asks for it before each of both is withdrawn, and
/// once more.
const CALLS: &str = "open local 10 client north -
open local 11 client north -
open local 12 client north -
queryable 0 1 0:s:k c 0 0
queryable 0 2 0:s:k c 0 0
ask 2 7 0:s:k all - 0 0 - 0
unqueryable 0 1 - 0
ask 2 8 0:s:k all - 0 0 - 0
unqueryable 0 2 - 0
ask 2 9 0:s:k all - 0 0 - 0
";

/// What each call is answered, and what is kept behind it on the key and on another.
const ANSWERS: &str = "= opened 0
k none, m none
= opened 1
k none, m none
= opened 2
k none, m none
= done
k none, m none
= done
k none, m none
= asked 0
> 0 0 - request 1 0:s:k all - 0 0 -
k one, m none
= done
k none, m none
= asked 1
> 0 1 - request 2 0:s:k all - 0 0 -
k one, m none
= done
k none, m none
= asked 2
> 2 2 - final 9 0
k none, m none
";

// How many offers are kept on a key of what Local offers to those of Local; none where there is no list.
fn kept(gateway: &Gateway, key: &str) -> &'static str {
    match gateway.cached(&Region::Local, &Region::Local, 0, key) {
        Some(offers) => match offers.len() {
            1 => "one",
            _ => "some",
        },
        None => "none",
    }
}

fn push_kept(out: &mut Vec<u8>, gateway: &Gateway) -> Result<(), AllocError> {
    out.extend_from_slice(b"k ".as_slice())?;
    out.extend_from_slice(kept(gateway, "k").as_bytes())?;
    out.extend_from_slice(b", m ".as_slice())?;
    out.extend_from_slice(kept(gateway, "m").as_bytes())?;
    out.push(b'\n')?;
    Ok(())
}

// Makes the call of a line.
fn makes(
    gateway: &mut Gateway,
    alloc: Global,
    out: &mut Vec<u8>,
    line: &str,
) -> Result<(), OutOfMemory> {
    let Ok(call) = call_of(alloc, line.as_bytes()) else {
        return Err(OutOfMemory);
    };
    let step = gateway.call(&call)?;
    push_step(out, &step)?;
    push_kept(out, gateway)?;
    Ok(())
}

// What the calls are answered.
fn answers(gateway: &mut Gateway, alloc: Global) -> Result<Vec<u8>, OutOfMemory> {
    let mut out = Vec::new(alloc);
    for line in CALLS.lines() {
        makes(gateway, alloc, &mut out, line)?;
    }
    Ok(out)
}

// Whether the calls are answered so.
struct Answered;

impl Trial for Answered {
    type Found = bool;

    fn found(gateway: &mut Gateway, alloc: Global) -> bool {
        match answers(gateway, alloc) {
            Ok(out) => out.as_slice() == ANSWERS.as_bytes(),
            Err(_) => false,
        }
    }
}

#[test]
fn offers_are_kept_until_they_change(rt: HostRuntime) {
    assert_eq!(rt; found::<Answered>(rt.alloc()), Ok(true));
}
