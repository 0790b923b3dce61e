use crate::given::{Fails, NONE, ends_as};
use std::alloc::Global;
use zq_key::memory::OutOfMemory;
use zq_script::LIMIT;
use zq_script::refusal::ScriptRefusal;
use zq_script::running::Status;
use zq_script::script::read_script;

const HEAD: &str = "config 1 10000 north:client local\n";

fn refusal(alloc: Global, text: &str, workers: u8) -> Option<ScriptRefusal> {
    read_script(alloc, text.as_bytes(), workers).err()
}

#[test]
fn first_bad_lines(rt: HostRuntime) {
    for (text, workers, bad) in [
        ("", 0, 1),
        ("config 1 10000 local\n", 0, 1),
        ("config 1 10000 north:client south:256:peer\n", 0, 1),
        ("config 1 10000 north:client\n\n", 0, 2),
        (
            "config 1 10000 north:client\nstart 0 0 0 0 0\nstart 0 0 0 0 0\n",
            0,
            3,
        ),
        ("config 1 10000 north:client\nsent 0\nworker\n", 0, 3),
        ("config 1 10000 north:client\nworker\nsent 0\n", 1, 3),
        ("config 1 10000 north:client\nworker\nworker", 1, 3),
    ] {
        let bad = Some(ScriptRefusal::BadLine(bad));
        assert_eq!(rt; refusal(rt.alloc(), text, workers), bad, "{text}");
    }
}

// Whether a script has this head, and so many parts.
fn has_parts(alloc: Global, text: &[u8], head: &[u8], parts: usize) -> Result<bool, ScriptRefusal> {
    let script = read_script(alloc, text, 1)?;
    Ok(script.head.as_slice() == head && script.parts.len() == parts)
}

#[test]
fn parts_of_a_script(rt: HostRuntime) {
    let text = b"config 1 10000 north:client local\nstart 1 2 3 4 5\nworker\npoll 0";
    let parted = has_parts(rt.alloc(), text.as_slice(), &text[..50], 2);
    assert_eq!(rt; parted, Ok(true));
}

/// The read and the write of the same number fail.
fn both(number: u64) -> Fails {
    Fails {
        read: number,
        write: number,
    }
}

#[test]
fn replays_end(rt: HostRuntime) {
    let late = "config 1 10000 north:client local\npoll 0\npoll 0\npoll";
    for (script, number, status, print) in [
        ("", 9, Status::Script, "bad line 1\n"),
        (late, 9, Status::Script, "bad line 4\n"),
        (HEAD, 1, Status::ReadFault, ""),
        ("", 1, Status::WriteFault, "bad line"),
    ] {
        let wanted = (status, print);
        let fails = both(number);
        let ended = ends_as(rt.alloc(), &["replay"], script.as_bytes(), fails, wanted);
        assert_eq!(rt; ended, Ok(true), "{script}");
    }
}

#[test]
fn other_words_are_refused(rt: HostRuntime) {
    for words in [
        ["play"].as_slice(),
        &["load"],
        &["load", "0"],
        &["load", "10001"],
        &["load", "01"],
        &["load", "+1"],
    ] {
        let wanted = (Status::Words, "");
        let ended = ends_as(rt.alloc(), words, HEAD.as_bytes(), NONE, wanted);
        assert_eq!(rt; ended, Ok(true));
    }
}

#[test]
fn loads_end(rt: HostRuntime) {
    let counts = "calls 24 handed 9 requests 3 responses 3 finals 3\n";
    let most = "calls 40012 handed 30000 requests 10000 responses 10000 finals 10000\n";
    for (count, number, status, print) in [
        ("3", 9, Status::Done, counts),
        ("10000", 9, Status::Done, most),
        ("1", 0, Status::WriteFault, ""),
    ] {
        let words = ["load", count];
        let wanted = (status, print);
        let fails = both(number);
        let ended = ends_as(rt.alloc(), &words, HEAD.as_bytes(), fails, wanted);
        assert_eq!(rt; ended, Ok(true), "{count}");
    }
}

#[test]
fn codes(rt: HostRuntime) {
    for (status, code) in [
        (Status::Done, 0),
        (Status::Words, 1),
        (Status::Script, 2),
        (Status::ReadFault, 3),
        (Status::WriteFault, 4),
        (Status::TooLong, 6),
    ] {
        assert_eq!(rt; status.code(), code);
    }
}

// Whether a script of one byte more than the limit is refused.
fn is_too_long(alloc: Global) -> Result<bool, OutOfMemory> {
    let bytes = vec![in alloc; b'\n'; LIMIT + 1]?;
    ends_as(
        alloc,
        &["replay"],
        bytes.as_slice(),
        NONE,
        (Status::TooLong, ""),
    )
}

#[test]
fn long_scripts_are_refused(rt: HostRuntime) {
    assert_eq!(rt; is_too_long(rt.alloc()), Ok(true));
}
