use std::alloc::Global;
use zq_spoken::refusal::{LineRefusal, OpenRefusal};
use zq_spoken::{Speaker, key_includes, keys_meet};

const HEAD: &str = "config 1 10000 north:client local\nstart 0 0 0 0 0\n";

/// Lines up to a request that waits, each with its print; None is a bad line.
const ASKED: [(&str, Option<&str>); 6] = [
    ("open local 10 client north -", Some("= opened 0\n")),
    ("open local 11 client north -", Some("= opened 1\n")),
    ("queryable 0 1 0:s:k c 0 0", Some("= done\n")),
    ("queryable 0 1 0:s:k c 0 0\n", None),
    ("opn local 12 client north -", None),
    (
        "ask 1 7 0:s:k all - 0 0 hi 5",
        Some("= asked 0\n> 0 0 - request 1 0:s:k all - 0 0 hi\n"),
    ),
];

/// Lines from there to the request's end.
const ENDED: [(&str, Option<&str>); 4] = [
    (
        "reply 0 1 0:s:k ok yo",
        Some("= replied 0\n> 1 0 0 response 7 0:s:k 0 ok yo -\n"),
    ),
    ("final 0 2", Some("= refused QueryNotFound\n")),
    ("final 0 1", Some("= done\n")),
    ("sent 0", Some("= done\n> 1 0 - final 7 0\n")),
];

/// Whether the line has the print, given twice, or is bad and changes no print.
fn has_print(alloc: Global, speaker: &mut Speaker, line: &str, print: Option<&str>) -> bool {
    match speaker.call(alloc, line.as_bytes()) {
        Ok(()) => {
            let written = speaker.write().is_ok() && speaker.write().is_ok();
            written && print.is_some_and(|it| speaker.print() == it.as_bytes())
        }
        Err(refusal) => print.is_none() && refusal == LineRefusal::Bad,
    }
}

#[test]
fn what_lines_print(rt: HostRuntime) -> Result<(), OpenRefusal> {
    let alloc = rt.alloc();
    let mut speaker = Speaker::open_gateway(alloc, HEAD.as_bytes())?;
    assert_eq!(rt; speaker.next_deadline(), None);
    for (line, print) in ASKED {
        assert!(rt; has_print(alloc, &mut speaker, line, print), "{line}");
    }
    assert_eq!(rt; speaker.next_deadline(), Some(10005));
    for (line, print) in ENDED {
        assert!(rt; has_print(alloc, &mut speaker, line, print), "{line}");
    }
    assert_eq!(rt; speaker.next_deadline(), None);
    Ok(())
}

/// Lines for storages, each with its print; None is a bad line.
const STORED: [(&str, Option<&str>); 9] = [
    ("storage demo/** c", Some("storage 0\n")),
    ("put 0 demo/a v1", Some("done\n")),
    ("put 0 demo/a -", Some("old v1\n")),
    ("put 0 demo/b v2", Some("done\n")),
    ("put 1 demo/a v1", Some("refused UnknownStore\n")),
    ("put 0 demo//a v1", None),
    ("get demo/* all", Some("demo/a -\ndemo/b v2\nend\n")),
    ("delete 0 demo/b", Some("old v2\n")),
    ("get demo/* all\n", None),
];

#[test]
fn what_lines_for_storages_print(rt: HostRuntime) -> Result<(), OpenRefusal> {
    let alloc = rt.alloc();
    let mut speaker = Speaker::open_bus(alloc, HEAD.as_bytes())?;
    for (line, print) in STORED {
        assert!(rt; has_print(alloc, &mut speaker, line, print), "{line}");
    }
    assert_eq!(rt; speaker.next_deadline(), None);
    Ok(())
}

#[test]
fn which_heads_open_no_bus(rt: HostRuntime) {
    let alloc = rt.alloc();
    for (head, refusal) in [
        ("config 1 10000 north:client", OpenRefusal::NoLocal),
        (
            "config 1 10000 north:client local\nstart 4294967295 0 0 0 0",
            OpenRefusal::NoFreeId,
        ),
        (
            "config 1 10000 north:client local\nstorage demo/** c",
            OpenRefusal::BadLine(2),
        ),
    ] {
        let opened = Speaker::open_bus(alloc, head.as_bytes());
        assert_eq!(rt; opened.err(), Some(refusal), "{head}");
    }
}

#[test]
fn which_heads_open(rt: HostRuntime) {
    let alloc = rt.alloc();
    for (head, number) in [
        ("", 1),
        ("open local 10 client north -\n", 1),
        ("config 1 10000 local\n", 1),
        ("config 1 10000 north:client\npoll 0\n", 2),
        (
            "config 1 10000 north:client\nbest overall\nstart 0 0 0 0 0",
            3,
        ),
    ] {
        let opened = Speaker::open_gateway(alloc, head.as_bytes());
        assert_eq!(rt; opened.err(), Some(OpenRefusal::BadLine(number)), "{head}");
    }
}

#[test]
fn how_keys_relate(rt: HostRuntime) {
    for (a, b, meet, includes) in [
        ("demo/**", "demo/a/b", Some(true), Some(true)),
        ("demo/a/b", "demo/**", Some(true), Some(false)),
        ("demo/*", "demo/a/b", Some(false), Some(false)),
        ("demo//a", "demo/**", None, None),
        ("demo/**", "", None, None),
    ] {
        assert_eq!(rt; keys_meet(a.as_bytes(), b.as_bytes()), meet);
        assert_eq!(rt; key_includes(a.as_bytes(), b.as_bytes()), includes);
    }
    assert_eq!(rt; keys_meet(b"\xff", b"**"), None);
}
