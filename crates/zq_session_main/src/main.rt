//! Runs the script on standard input with all faces in a namespace, and prints what each of them received.
#![tactic(auto)]

use std::alloc::Global;
use std::process::ExitCode;
use std::rt::Env;
use std::{env, io};
use zq_message::text::Text;
use zq_session::{ReadSource, Status, WriteSink, session_run};

const USAGE: &str = "usage: zq inside NS < SCRIPT

It reads a script from standard input, makes its calls with all faces in the
namespace NS, a plain key, and prints for each face a line `face F` and the
messages that it received.";

fn words(rt: &(impl Env + Alloc), alloc: Global) -> Result<Vec<Text>, Status> {
    let args = match env::args(rt) {
        Ok(args) => args,
        Err(error) if error.kind() == io::ErrorKind::OutOfMemory => return Err(Status::Memory),
        Err(_) => return Err(Status::Words),
    };
    let mut words = Vec::new(alloc);
    for arg in args.skip(1) {
        let Ok(text) = Text::new(alloc, arg.as_str()) else {
            return Err(Status::Memory);
        };
        if words.push(text).is_err() {
            return Err(Status::Memory);
        }
    }
    Ok(words)
}

fn run(rt: &HostRuntime, alloc: Global) -> Status {
    match words(rt, alloc) {
        Ok(words) => {
            let mut source = ReadSource::new(rt.stdin());
            let mut sink = WriteSink::new(rt.stdout());
            session_run(alloc, words.as_slice(), &mut source, &mut sink)
        }
        Err(status) => status,
    }
}

fn main(rt: HostRuntime) -> ExitCode {
    let status = run(&rt, rt.alloc());
    if matches!(status, Status::Words) {
        let _ = eprintln!(rt; "{USAGE}");
    }
    ExitCode::from(status.code())
}
