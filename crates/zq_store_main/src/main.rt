//! Runs the script for storages on standard input, and prints what its lines are answered.
#![tactic(auto)]

use std::alloc::Global;
use std::process::ExitCode;
use std::rt::Env;
use std::{env, io};
use zq_message::text::Text;
use zq_store::{ReadSource, Status, WriteSink, store_run};

const USAGE: &str = "usage: zq store < SCRIPT

It reads a script for storages from standard input, does what its lines ask for,
and prints what each is answered:
  storage KEY c          a storage joins; p: it is not complete
  put STORE KEY PAYLOAD  it has a value at a key
  delete STORE KEY       it has none there any more
  get KEY TARGET         asks on the key; all, complete or best";

fn words(rt: &(impl Env + Alloc), alloc: Global) -> Result<Vec<Text>, Status> {
    let args = match env::args(rt) {
        Ok(args) => args,
        Err(error) if error.kind() == io::ErrorKind::OutOfMemory => return Err(Status::Memory),
        Err(_) => return Err(Status::Words),
    };
    let mut words = Vec::new(alloc);
    for arg in args.skip(1) {
        let Ok(text) = Text::new(alloc, arg.as_str()) else {
            return Err(Status::Memory);
        };
        if words.push(text).is_err() {
            return Err(Status::Memory);
        }
    }
    Ok(words)
}

fn run(rt: &HostRuntime, alloc: Global) -> Status {
    match words(rt, alloc) {
        Ok(words) => {
            let mut source = ReadSource::new(rt.stdin());
            let mut sink = WriteSink::new(rt.stdout());
            store_run(alloc, words.as_slice(), &mut source, &mut sink)
        }
        Err(status) => status,
    }
}

fn main(rt: HostRuntime) -> ExitCode {
    let status = run(&rt, rt.alloc());
    if matches!(status, Status::Words) {
        let _ = eprintln!(rt; "{USAGE}");
    }
    ExitCode::from(status.code())
}
