use std::alloc::Global;
use zq_io::stop::Stop;
use zq_key::memory::OutOfMemory;
use zq_lines::calls::print_call;
use zq_lines::lines::call_of;
use zq_machine::call::Call;

/// One line of each call, in the form in which it is printed.
const LINES: [&str; 20] = [
    "open local 10 client north -",
    "open south:256:router 11 peer south a/b in:k in:%25 out:-",
    "close 4294967295",
    "key 0 65535 0:s:%C8%B2/a",
    "unkey 0 5",
    "queryable 0 1 5:r:- c 65535 0",
    "unqueryable 0 1 - 0",
    "interest 1 5 0:s:a/* n",
    "uninterest 1 5",
    "finalize 0 initial 1",
    "finalize 0 key %2D 0",
    "ask 1 7 0:s:k best 18446744073709551615 9 255 %FF 3",
    "reply 0 1 0:s:k ok yo by:340282366920938463463374607431768211455",
    "reply 0 1 0:s:- err -",
    "final 0 1",
    "sent 18446744073709551615",
    "poll 0",
    "gateways south:3:client 1=2,3;4=- none",
    "network north 1,2 1/x,1;-/x,x 0,10",
    "nodes 0 2,3",
];

// Whether the call is printed as that line.
fn is_printed(alloc: Global, call: &Call, line: &str) -> Result<bool, OutOfMemory> {
    Ok(print_call(alloc, call)?.as_slice() == line.as_bytes())
}

// Whether the line is read, and the call printed as that line.
fn comes_back(alloc: Global, line: &str) -> bool {
    match call_of(alloc, line.as_bytes()) {
        Ok(call) => is_printed(alloc, &call, line) == Ok(true),
        Err(_) => false,
    }
}

#[test]
fn calls_come_back(rt: HostRuntime) {
    for line in &LINES {
        assert!(rt; comes_back(rt.alloc(), line), "{line}");
    }
}

fn is_bad(alloc: Global, line: &str) -> bool {
    matches!(call_of(alloc, line.as_bytes()), Err(Stop::Bad))
}

#[test]
fn bad_lines(rt: HostRuntime) {
    for line in [
        "",
        "close",
        "close 01",
        "close 4294967296",
        "close  1",
        "close 1 ",
        "poll +1",
        "ask 1 7 0:s:k some - 0 0 - 0",
        "open local 10 client north - in",
        "key 0 1 0:s",
        "queryable 0 1 0:s:%C8 c 0 0",
    ] {
        assert!(rt; is_bad(rt.alloc(), line), "{line}");
    }
}
