use crate::given::show_on;
use std::alloc::Global;
use zq_key::memory::OutOfMemory;
use zq_script::running::Status;
use zq_show::words::Form;

const SCRIPT: &str = "config 1 10000 north:client local\n\
    open local 10 client north -\n\
    open local 11 client north -\n\
    queryable 1 1 0:s:k c 0 0\n\
    ask 0 3 0:s:k best - 0 0 - 0\n\
    sent 0\n";

const TEXT: &str = "1  config 1 10000 north:client local\n\
    2  open local 10 client north -\n    = opened: face 0\n\
    3  open local 11 client north -\n    = opened: face 1\n\
    4  queryable 1 1 0:s:k c 0 0\n    = done\n\
    5  ask 0 3 0:s:k best - 0 0 - 0\n    = asked: request #0\n      \
    `best` asks in each region the nearest complete one, or all if none is; asked faces: 1\n    \
    > to face 1: #0 request 1 0:s:k best - 0 0 -\n\
    6  sent 0\n    = refused: NotInFlight: no such reply is in flight\n";

/// Whether a run of the script is shown in a form, from this on to that.
fn shows(alloc: Global, form: Form, from: &str, to: &str) -> Result<bool, OutOfMemory> {
    let (status, sink) = show_on(alloc, SCRIPT, form)?;
    let print = sink.taken();
    Ok(
        status == Status::Done
            && print.starts_with(from.as_bytes())
            && print.ends_with(to.as_bytes()),
    )
}

#[test]
fn a_run_is_shown(rt: HostRuntime) {
    for (form, from, to) in [
        (Form::Plain(false), TEXT, TEXT),
        (Form::Page(None), "<!doctype html>\n", "</html>"),
    ] {
        assert_eq!(rt; shows(rt.alloc(), form, from, to), Ok(true));
    }
}
