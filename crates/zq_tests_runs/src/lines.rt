use crate::given::{Fails, NONE, checks_as, lives_as};
use zq_script::running::Status;

const HEAD: &str = "config 1 10000 north:client local\n";

const LINES: &str = "open local 10 client north -\n\
    config 1 10000 north:client local\n\
    \n\
    start 5 0 0 0 0\n\
    opn local 10 client north -\n\
    open local 10 client north -\n\
    start 7 0 0 0 0\n\
    close 5 \n\
    close 5";

const ANSWERS: &str = "bad line 1: the first line is `config`, an id, a timeout and the regions: \
    one is north, none stands twice, and the ids of the South are at most 255\n\
    bad line 3: blank lines are no part of the format\n\
    bad line 5: `opn` is no call; is `open` meant?\n\
    = opened 5\n\
    bad line 7: `start` stands directly behind `config`, and nowhere else\n\
    bad line 8: the line ends with a space\n\
    = done\n";

// Lines after the first call of a script, and which read and write of them fails.
const OPENINGS: &str = "config 1 10000 north:client local\n\
    open local 10 client north -\n\
    open local 11 client north -\n";

#[test]
fn lines_are_answered(rt: HostRuntime) {
    let read = Fails { read: 70, ..NONE };
    let write = Fails { write: 3, ..NONE };
    for (lines, fails, status, answers) in [
        (LINES, NONE, Status::Done, ANSWERS),
        ("", NONE, Status::Done, ""),
        (OPENINGS, read, Status::ReadFault, "= opened 0\n"),
        (OPENINGS, write, Status::WriteFault, "= opened 0\n= opened"),
    ] {
        let ended = lives_as(rt.alloc(), lines, fails, (status, answers));
        assert_eq!(rt; ended, Ok(true), "{lines}");
    }
}

const BAD: &str = "open local 10 client north -\n\
    start 5 0 0 0 0\n\
    worker\n\
    sent 0\n\
    close 4294967296\n\
    close 0 0\n";

const REASONS: &str = "bad line 1: the first line is `config`, an id, a timeout and the regions: \
    one is north, none stands twice, and the ids of the South are at most 255\n\
    bad line 3: `worker` is a line for `share W SLOTS` alone, at most W times, and no word follows it\n\
    bad line 5: `4294967296` is no number below 2^32\n\
    bad line 6: `close` has 2 words, this has 3\n";

const SHARED: &str = "bad line 1: the first line is `config`, an id, a timeout and the regions: \
    one is north, none stands twice, and the ids of the South are at most 255\n\
    bad line 4: `sent` stands in no script for `share`: the gateway itself reports what was sent\n\
    bad line 5: `4294967296` is no number below 2^32\n\
    bad line 6: `close` has 2 words, this has 3\n";

const EMPTY: &str =
    "bad line 1: the script is empty: its first line is `config`, an id, a timeout and the regions\n";

#[test]
fn bad_lines_are_listed(rt: HostRuntime) {
    let read = Fails { read: 1, ..NONE };
    let write = Fails { write: 1, ..NONE };
    for (workers, script, fails, status, words) in [
        (0, HEAD, NONE, Status::Done, ""),
        (0, "", NONE, Status::Script, EMPTY),
        (0, BAD, NONE, Status::Script, REASONS),
        (1, BAD, NONE, Status::Script, SHARED),
        (0, BAD, read, Status::ReadFault, ""),
        (0, BAD, write, Status::WriteFault, "bad line"),
    ] {
        let ended = checks_as(rt.alloc(), workers, script, fails, (status, words));
        assert_eq!(rt; ended, Ok(true), "{workers} {script}");
    }
}
