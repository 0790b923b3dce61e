//! One read or write of a run fails, or its script is cut off: what is written is a beginning of the print, or nothing.
use crate::given::{Fails, NONE, ends_as, run_on};
use std::alloc::Global;
use std::test::Fail;
use zq_key::memory::OutOfMemory;
use zq_script::MemorySink;
use zq_script::running::Status;

const SCRIPT: &str = "config 1 10000 north:client local\n\
    open local 10 client north -\n\
    open local 11 client north -\n\
    queryable 0 1 0:s:k c 0 0\n\
    ask 1 7 0:s:k all - 0 0 hi 0\n\
    reply 0 1 0:s:k ok yo\n\
    final 0 1\n\
    sent 0\n";

const PRINT: &str = "= opened 0\n\
    = opened 1\n\
    = done\n\
    = asked 0\n\
    > 0 0 - request 1 0:s:k all - 0 0 hi\n\
    = replied 0\n\
    > 1 0 0 response 7 0:s:k 0 ok yo -\n\
    = done\n\
    = done\n\
    > 1 0 - final 7 0\n";

/// Whether a run whose write of that number fails took what was written before it, in pieces of 8 bytes.
fn takes_front(alloc: Global, number: u64) -> Result<bool, OutOfMemory> {
    let fails = Fails {
        read: u64::MAX,
        write: number,
    };
    let (ended, sink) = run_on(alloc, &["replay"], SCRIPT.as_bytes(), fails)?;
    let taken = sink.taken();
    Ok(
        ended == Status::WriteFault
            && taken.len() as u64 == number.saturating_mul(8)
            && PRINT.as_bytes().starts_with(taken),
    )
}

/// The print's 155 bytes are written by 20 writes, the last one of 3 bytes.
#[test]
fn each_write_fails(rt: HostRuntime) {
    for number in 0..20u64 {
        assert_eq!(rt; takes_front(rt.alloc(), number), Ok(true), "{number}");
    }
}

/// The script's 186 bytes are read in pieces of 16, and then the end.
#[test]
fn each_read_fails(rt: HostRuntime) {
    for number in 0..13u64 {
        let fails = Fails {
            read: number,
            write: u64::MAX,
        };
        let wanted = (Status::ReadFault, "");
        let ended = ends_as(rt.alloc(), &["replay"], SCRIPT.as_bytes(), fails, wanted);
        assert_eq!(rt; ended, Ok(true), "{number}");
    }
}

/// The last newline may lack, and a last line that is cut off is named.
#[test]
fn last_lines(rt: HostRuntime) {
    let whole = SCRIPT.len();
    for (cut, status, print) in [
        (0, Status::Done, PRINT),
        (1, Status::Done, PRINT),
        (3, Status::Script, "bad line 8\n"),
    ] {
        let script = &SCRIPT.as_bytes()[..whole - cut];
        let wanted = (status, print);
        let ended = ends_as(rt.alloc(), &["replay"], script, NONE, wanted);
        assert_eq!(rt; ended, Ok(true), "{cut}");
    }
}

/// The number of the line that the end of the bytes is in.
fn last_line(bytes: &[u8]) -> u64 {
    let mut number: u64 = 1;
    for byte in bytes {
        if *byte == b'\n' {
            number = number.saturating_add(1);
        }
    }
    number
}

/// Whether a run was done, or wrote that the line is bad.
fn is_done_or_bad(alloc: Global, ended: &(Status, MemorySink), line: u64) -> Result<bool, Fail> {
    if ended.0 == Status::Done {
        return Ok(true);
    }
    let bad = format!(in alloc; "bad line {line}\n")?;
    Ok(ended.0 == Status::Script && ended.1.taken() == bad.as_str().as_bytes())
}

/// Whether a script that is cut off is a shorter one, or its last line is bad.
fn is_cut(alloc: Global, script: &[u8]) -> Result<bool, Fail> {
    match run_on(alloc, &["replay"], script, NONE) {
        Ok(ended) => is_done_or_bad(alloc, &ended, last_line(script)),
        Err(OutOfMemory) => Err(Fail::from("memory")),
    }
}

#[test]
fn cut_off_anywhere(rt: HostRuntime) -> Result<(), Fail> {
    for end in 0..SCRIPT.len() {
        let is_so = is_cut(rt.alloc(), &SCRIPT.as_bytes()[..end])?;
        assert!(rt; is_so, "{end}");
    }
    Ok(())
}
