//! Runs the script on standard input, and prints who declared which key and who asks for it.
#![tactic(auto)]

use std::alloc::Global;
use std::process::ExitCode;
use std::rt::Env;
use std::{env, io};
use zq_admin::{ReadSource, Status, WriteSink, admin_run};
use zq_message::text::Text;

const USAGE: &str = "usage: zq admin KEY < SCRIPT

It reads a script from standard input, makes its calls, and prints a line for
each entry of the administration view whose key meets KEY:
  @/ZID/MODE/querier/K routers IDS peers IDS clients IDS    who asks for K
  @/ZID/MODE/queryable/K routers IDS peers IDS clients IDS  who declared K
ZID is the gateway's own id, and MODE the mode of North.";

fn words(rt: &(impl Env + Alloc), alloc: Global) -> Result<Vec<Text>, Status> {
    let args = match env::args(rt) {
        Ok(args) => args,
        Err(error) if error.kind() == io::ErrorKind::OutOfMemory => return Err(Status::Memory),
        Err(_) => return Err(Status::Words),
    };
    let mut words = Vec::new(alloc);
    for arg in args.skip(1) {
        let Ok(text) = Text::new(alloc, arg.as_str()) else {
            return Err(Status::Memory);
        };
        if words.push(text).is_err() {
            return Err(Status::Memory);
        }
    }
    Ok(words)
}

fn run(rt: &HostRuntime, alloc: Global) -> Status {
    match words(rt, alloc) {
        Ok(words) => {
            let mut source = ReadSource::new(rt.stdin());
            let mut sink = WriteSink::new(rt.stdout());
            admin_run(alloc, words.as_slice(), &mut source, &mut sink)
        }
        Err(status) => status,
    }
}

fn main(rt: HostRuntime) -> ExitCode {
    let status = run(&rt, rt.alloc());
    if matches!(status, Status::Words) {
        let _ = eprintln!(rt; "{USAGE}");
    }
    ExitCode::from(status.code())
}
