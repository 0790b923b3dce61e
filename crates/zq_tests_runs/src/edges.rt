//! Scripts with repeats, late messages, odd tables and last values, each with the print that is wanted.
use crate::given::{NONE, ends_as};
use std::alloc::Global;
use zq_key::memory::OutOfMemory;
use zq_script::running::Status;

/// Two faces, of which the first has what the second asks for.
const ASKED: &str = "config 1 10000 north:client local\n\
    open local 10 client north -\n\
    open local 11 client north -\n\
    queryable 0 1 0:s:k c 0 0\n\
    ask 1 7 0:s:k all - 0 0 hi 0\n";

const ASKED_PRINT: &str = "= opened 0\n\
    = opened 1\n\
    = done\n\
    = asked 0\n\
    > 0 0 - request 1 0:s:k all - 0 0 hi\n";

/// The lines behind these, and what they print: a final and a reply that come late, a report for one that is gone, a face that closes twice.
const AFTER_ASKING: &str = "\
    final 0 1|reply 0 1 0:s:k ok -|final 0 1\
    #= done|> 1 0 - final 7 0|= refused QueryNotFound|= refused QueryNotFound\n\
    reply 0 1 0:s:k ok yo|close 1|sent 0|final 0 1|sent 0\
    #= replied 0|> 1 0 0 response 7 0:s:k 0 ok yo -|= done|= done|= done|= refused NotInFlight\n\
    close 0|close 0|reply 0 1 0:s:k ok -\
    #= done|> 1 0 - final 7 0|= refused UnknownFace|= refused UnknownFace\n";

/// Two faces.
const OPENED: &str = "config 1 10000 north:client local\n\
    open local 10 client north -\n\
    open local 11 client north -\n";

const OPENED_PRINT: &str = "= opened 0\n= opened 1\n";

/// The lines behind these: one of two targets closes; tables of regions that have none; a moment that came before; openings and
/// declarations that are refused, and what an upstream is told.
const AFTER_OPENING: &str = "\
    open local 12 client north -|queryable 0 1 0:s:k p 0 0|queryable 1 1 0:s:k p 0 0|ask 2 7 0:s:k all - 0 0 - 0|close 0|final 1 1\
    #= opened 2|= done|= done|= asked 0|> 0 0 - request 1 0:s:k all - 0 0 -|> 1 0 - request 1 0:s:k all - 0 0 -|= done|= done|> 2 0 - final 7 0\n\
    gateways local - none|nodes 0 -|network local - - -|queryable 0 1 0:s:k c 0 0|ask 1 7 0:s:k all - 0 0 hi 0\
    #= done|= done|= done|= done|= asked 0|> 0 0 - request 1 0:s:k all - 0 0 hi\n\
    queryable 0 1 0:s:k c 0 0|ask 1 7 0:s:k all 5 0 0 - 10|poll 14|poll 15|poll 99|poll 9\
    #= done|= asked 0|> 0 0 - request 1 0:s:k all 5 0 0 -|= done|= done|> 1 0 0 response 7 0:s:- 0 err Timeout 10|= done|= done\n\
    close 5|open south:3:peer 5 peer north -|open local 5 client north a/*|open north 99 router south -|open north 98 router south -|\
    queryable 0 1 0:s:k c 0 0|queryable 0 1 0:s:m c 0 0|sent 0\
    #= refused UnknownFace|= refused UnknownRegion|= refused InvalidKeyExpr|= opened 2|= refused UpstreamInUse|\
    = done|> 2 - - key 1 0:s:k|> 2 - - queryable 1 1:s:- c 0 0 -|= refused IdInUse|= refused NotInFlight\n";

/// Whole scripts: no number of a request, of a reply and of an interest's answer is left; what an upstream is told of two regions; and
/// whom requests of each target are handed below an upstream.
const WHOLE: &str = "\
    config 1 10000 north:client local|start 0 18446744073709551615 0 0 0|open local 10 client north -|open local 11 client north -|ask 1 7 0:s:k all - 0 0 hi 0\
    #= opened 0|= opened 1|= refused NoFreeId\n\
    config 1 10000 north:client local|start 0 0 18446744073709551615 0 0|open local 10 client north -|open local 11 client north -|\
    queryable 0 1 0:s:k c 0 0|ask 1 7 0:s:k all 5 0 0 hi 0|reply 0 1 0:s:k ok yo|poll 5|final 0 1\
    #= opened 0|= opened 1|= done|= asked 0|> 0 0 - request 1 0:s:k all 5 0 0 hi|= refused NoFreeId|= refused NoFreeId|= done|> 1 0 - final 7 0\n\
    config 1 10000 north:client local|start 0 0 0 4294967295 0|open local 10 client north -|open local 11 client north -|\
    queryable 0 1 0:s:k c 0 0|interest 1 5 0:s:k n|open north 99 router south -|interest 1 5 0:s:m n\
    #= opened 0|= opened 1|= done|= refused NoFreeId|= refused NoFreeId|= done|> 1 - - declfinal 5\n\
    config 1 10000 north:client south:0:client south:1:client|open south:0:client 20 client north -|open south:1:client 21 client north -|\
    open north 99 router south -|queryable 0 1 0:s:k c 0 0|queryable 1 1 0:s:k p 3 0|unqueryable 0 1 - 0|unqueryable 1 1 - 0\
    #= opened 0|= opened 1|= opened 2|= done|> 2 - - key 1 0:s:k|> 2 - - queryable 1 1:s:- c 0 0 -|= done|\
    = done|> 2 - - queryable 1 1:s:- p 3 0 -|= done|> 2 - - unqueryable 1 - 0\n\
    config 1 10000 north:client local|open north 99 router south -|open local 10 client north -|open local 11 client north -|open local 12 client north -|\
    queryable 1 1 0:s:demo/** c 0 0|queryable 2 1 0:s:demo/a p 0 0|ask 3 1 0:s:demo/a best - 0 0 - 0|finalize 0 key demo/a 1|\
    ask 3 2 0:s:demo/a best - 0 0 - 0|ask 3 3 0:s:demo/a all - 0 0 - 0|ask 3 4 0:s:demo/a complete - 0 0 - 0|\
    ask 3 5 0:s:demo/* complete - 0 0 - 0|reply 1 2 0:s:demo/a ok v1|final 1 2|sent 0\
    #= opened 0|= opened 1|= opened 2|= opened 3|= done|> 0 - - key 1 0:s:demo|> 0 - - queryable 1 1:s:/** c 0 0 -|\
    = done|> 0 - - key 2 0:s:demo/a|> 0 - - queryable 2 2:s:- p 0 0 -|\
    = asked 0|> 0 0 - request 1 2:s:- best - 0 0 -|> 1 0 - request 1 0:s:demo/a best - 0 0 -|= done|\
    = asked 1|> 1 1 - request 2 0:s:demo/a best - 0 0 -|\
    = asked 2|> 1 2 - request 3 0:s:demo/a all - 0 0 -|> 2 2 - request 1 0:s:demo/a all - 0 0 -|\
    = asked 3|> 1 3 - request 4 0:s:demo/a complete - 0 0 -|\
    = asked 4|> 0 4 - request 2 1:s:/* complete - 0 0 -|> 1 4 - request 5 0:s:demo/* complete - 0 0 -|\
    = replied 0|> 3 1 0 response 2 0:s:demo/a 0 ok v1 -|= done|= done|> 3 1 - final 2 0\n";

/// A text, with lines behind it that stand between bars.
fn with_lines(alloc: Global, head: &str, lines: &str) -> Result<String, OutOfMemory> {
    let mut text = String::from_str(alloc, head)?;
    for line in lines.split('|') {
        text.push_str(line)?;
        text.push('\n')?;
    }
    Ok(text)
}

/// Whether the calls of a row behind these lines print what stands in the row, behind what these print.
fn prints(alloc: Global, head: &str, print: &str, row: &str) -> Result<bool, OutOfMemory> {
    let Some((calls, answers)) = row.split_once('#') else {
        return Ok(false);
    };
    let script = with_lines(alloc, head, calls)?;
    let print = with_lines(alloc, print, answers)?;
    let wanted = (Status::Done, print.as_str());
    ends_as(alloc, &["replay"], script.as_str().as_bytes(), NONE, wanted)
}

#[test]
fn rows(rt: HostRuntime) {
    for (head, print, table) in [
        (ASKED, ASKED_PRINT, AFTER_ASKING),
        (OPENED, OPENED_PRINT, AFTER_OPENING),
        ("", "", WHOLE),
    ] {
        for row in table.lines() {
            assert_eq!(rt; prints(rt.alloc(), head, print, row), Ok(true), "{row}");
        }
    }
}

/// A network of 65537 routers, where the last is the child of the first in its tree, and a queryable below the gateway.
fn wide_network(alloc: Global) -> Result<String, OutOfMemory> {
    let head = "config 1 10000 north:router local\n\
        open north 65537 router north -\n\
        open local 10 client north -\n\
        network north 1";
    let mut text = String::from_str(alloc, head)?;
    for id in 2..65538u32 {
        let item = format!(in alloc; ",{id}")?;
        text.push_str(item.as_str())?;
    }
    text.push_str(" 65536/x -\nqueryable 1 1 0:s:m p 0 0\n")?;
    Ok(text)
}

/// Whether a child above index 65535 is handed nothing.
fn hands_nothing_above(alloc: Global) -> Result<bool, OutOfMemory> {
    let script = wide_network(alloc)?;
    let wanted = (Status::Done, "= opened 0\n= opened 1\n= done\n= done\n");
    ends_as(alloc, &["replay"], script.as_str().as_bytes(), NONE, wanted)
}

#[test]
fn nothing_above_the_last_index(rt: HostRuntime) {
    assert_eq!(rt; hands_nothing_above(rt.alloc()), Ok(true));
}
