use std::test::Fail;
use zq_lines::why::{CONFIG, why};

#[test]
fn bad_lines_have_a_reason(rt: HostRuntime) -> Result<(), Fail> {
    for (line, sentence) in [
        (
            "ask 1 7 0:s:k all - 0 0 hi",
            "`ask` has 10 words, this has 9",
        ),
        (
            "ask 1 7 0:s:k al - 0 0 hi 0",
            "`al` is no target: `all`, `complete` or `best`",
        ),
        ("close", "`close` has 2 words, this has 1"),
        ("interest 0 1 -", "`interest` has 5 or 6 words, this has 4"),
        ("interest 0 1 - k b", "`b` is not `a`"),
        ("reply 0 1 0:s:k", "`reply` has 6 or more words, this has 4"),
        (
            "open local 10 server north -",
            "`server` is no mode: `router`, `peer` or `client`",
        ),
        ("key 0 70000 0:s:k", "`70000` is no number below 2^16"),
        ("answer 1", "`answer` is no call"),
        ("opn 1", "`opn` is no call; is `open` meant?"),
        ("as\u{e9} 1", "`as%C3%A9` is no call; is `ask` meant?"),
        ("", "blank lines are no part of the format"),
        ("# a run", "comments are no part of the format"),
        (
            "close 0\r",
            "the line ends with a carriage return: lines end with a newline alone (LF, not CRLF)",
        ),
        ("close 0 ", "the line ends with a space"),
        ("close  0", "`close` has 2 words, this has 3"),
        (
            "key 1  0:s:k",
            "a word is empty: one space stands between two words",
        ),
        (
            "reply 0 1 0:s:k ok yo by:x",
            "`by:x` is no responder: `by:` and an id below 2^128",
        ),
        (
            "open local 10 client north - in:a off:b",
            "`off:b` is no item of a deny list: `in:TEXT` or `out:TEXT`",
        ),
        (
            "worker",
            "`worker` is a line for `share W SLOTS` alone, at most W times, and no word follows it",
        ),
        (
            "sent 0",
            "`sent` stands in no script for `share`: the gateway itself reports what was sent",
        ),
        ("start 1 2 3", "`start` has 6 words, this has 4"),
        ("best all", "`all` is neither `region` nor `overall`"),
        (
            "best overall",
            "`best` stands once, directly behind `start`, or behind `config` where no `start` stands",
        ),
    ] {
        let said = why(rt.alloc(), 2, line.as_bytes())?;
        assert_eq!(rt; said.as_slice(), sentence.as_bytes());
    }
    Ok(())
}

#[test]
fn bad_heads_have_a_reason(rt: HostRuntime) -> Result<(), Fail> {
    for (line, sentence) in [
        (
            "\u{feff}config 1 10000 north:client",
            "the line begins with a byte order mark, which is no part of the format",
        ),
        (
            "config 1 99999999999999999999 north:client",
            "`99999999999999999999` is no number below 2^64",
        ),
        (
            "config 1 10000 north:client west",
            "`west` is no region of a gateway: `north:MODE`, `local` or `south:NUM:MODE`",
        ),
        ("config 1", "`config` has 3 or more words, this has 2"),
        ("close 0", CONFIG),
        ("config 1 10000 local", CONFIG),
    ] {
        let said = why(rt.alloc(), 1, line.as_bytes())?;
        assert_eq!(rt; said.as_slice(), sentence.as_bytes());
    }
    Ok(())
}
