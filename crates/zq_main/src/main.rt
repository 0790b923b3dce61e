//! The command: replays a script from standard input to standard output, answers its lines one by one, looks for its bad lines, lets workers share it, makes a load, or shows a run.
#![tactic(auto)]

ghost use Rattle.std.specs.Prelude.{◌≡◌};
ghost use Rattle.zq_main.specs.Words.{asked_of, asked_two};

use std::alloc::Global;
use std::io::BufReader;
use std::process::ExitCode;
use std::rt::Env;
use std::sync::Wait;
use std::thread::Threads;
use std::{env, io};
use zq_io::streams::{ReadSource, Sink, Source, WriteSink};
use zq_io::words::number;
use zq_message::text::Text;
use zq_program::{SureLink, program_outcome};
use zq_script::bad::BadLine;
use zq_script::check;
use zq_script::live::live;
use zq_script::running::{RunOutcome, Status};
use zq_show::shown::show;
use zq_show::words::{Asked as Shown, Form, read_words as read_show_words};

const VERSION: &str = "zq 0.1.0, a port of zenoh 1.10.2's query gateway";

const USAGE: &str = "usage: zq replay < SCRIPT
       zq live < LINES
       zq check-script [W] < SCRIPT
       zq share W SLOTS < SCRIPT
       zq load N
       zq show [--request N] < SCRIPT
       zq show --text [--color] < SCRIPT
       zq show --mermaid [--request N] < SCRIPT

zq replay reads a script from standard input, one call a line, and prints what
a gateway answers to each call and the messages that it hands out.
zq live reads such lines, too, and answers each at once.
zq check-script prints all bad lines of a script, and why they are bad; with W
of one for zq share.
zq share W SLOTS reads a script with up to W lines `worker`, 1 to 16. The calls
behind each are made by a worker in a thread of its own, all on one gateway
with SLOTS slots, 1 to 1024, one for each open request. It prints the calls in
the order in which they were made, a line `--`, and what replay prints of them.
zq load N makes the calls of N queries, 1 to 10000, and prints how many
messages they hand out.
zq show prints a page of a script's run, for a browser, or its lines as text,
or its picture as a sequence diagram.

  zq --help       prints this text
  zq --version    prints the version

status: 0 done, 1 other words, 2 a bad line, 3 the input failed, 4 the output
failed, 5 no memory, 6 more than 16,777,216 bytes, 7 a link failed";

const SHOW_VERSION: &str = "zq show 0.1.0";

/// How many links there are: one for each worker.
const LINKS: usize = 16;

/// The most workers of a shared script.
const WORKERS: u64 = 16;

/// What the words ask for.
enum Asked {
    Help,
    Version,
    Show,
    Live,
    Check(u8),
    Run,
}

fn read_two(word: &Text, other: &Text) -> Asked
    ensures { result ≡ asked_two word.now other.now }
{
    match word.as_str() {
        "check-script" => match number(WORKERS, other.as_str().as_bytes()) {
            Some(workers) => Asked::Check(workers as u8),
            None => Asked::Run,
        },
        "show" => Asked::Show,
        _ => Asked::Run,
    }
}

fn read_words(words: &[Text]) -> Asked
    ensures { result ≡ asked_of words.now }
{
    match words {
        [word] => match word.as_str() {
            "--help" => Asked::Help,
            "--version" => Asked::Version,
            "live" => Asked::Live,
            "check-script" => Asked::Check(0),
            "show" => Asked::Show,
            _ => Asked::Run,
        },
        [word, other] => read_two(word, other),
        [word, _, _, ..] if word.as_str() == "show" => Asked::Show,
        _ => Asked::Run,
    }
}

fn words(rt: &(impl Env + Alloc), alloc: Global) -> Result<Vec<Text>, Status> {
    let args = match env::args(rt) {
        Ok(args) => args,
        Err(error) if error.kind() == io::ErrorKind::OutOfMemory => return Err(Status::Memory),
        Err(_) => return Err(Status::Words),
    };
    let mut words = Vec::new(alloc);
    for arg in args.skip(1) {
        let Ok(text) = Text::new(alloc, arg.as_str()) else {
            return Err(Status::Memory);
        };
        if words.push(text).is_err() {
            return Err(Status::Memory);
        }
    }
    Ok(words)
}

/// One sentence for a person, where a run did not end well.
fn sentence(status: Status) -> &'static str {
    match status {
        Status::Done => "",
        Status::Words => "zq: these words are no command; zq --help says which are.",
        Status::Script => "zq: the script has a bad line.",
        Status::ReadFault => "zq: standard input could not be read.",
        Status::WriteFault => "zq: standard output could not be written.",
        Status::Memory => "zq: no memory was found.",
        Status::TooLong => "zq: more than 16,777,216 bytes were given.",
        Status::LinkFault => "zq: a link failed.",
    }
}

fn ended(rt: &HostRuntime, status: Status) -> ExitCode {
    if !matches!(status, Status::Done) {
        let _ = eprintln!(rt; "{}", sentence(status));
    }
    ExitCode::from(status.code())
}

/// Says of a bad line why it is bad.
fn ended_at(rt: &HostRuntime, bad: &BadLine) -> ExitCode {
    let number = bad.number;
    match str::from_utf8(bad.reason.as_slice()) {
        Ok(reason) => {
            let _ = eprintln!(rt; "zq: bad line {number}: {reason}");
            ExitCode::from(Status::Script.code())
        }
        Err(_) => ended(rt, Status::Script),
    }
}

/// Runs the words on the source and the sink, with links that never fail.
fn run_words<R: Threads + Wait + Sync, S: Source, K: Sink>(
    rt: &R,
    alloc: Global,
    words: &[Text],
    source: &mut S,
    sink: &mut K,
) -> RunOutcome {
    let mut links = [SureLink::new(); LINKS];
    program_outcome(rt, alloc, words, source, sink, &mut links)
}

/// How a run ended, and which line is bad, where one is.
fn ended_run(rt: &HostRuntime, outcome: &RunOutcome) -> ExitCode {
    match &outcome.bad_line {
        Some(bad) => ended_at(rt, bad),
        None => ended(rt, outcome.status),
    }
}

/// Answers the lines of standard input, which is read ahead where it gives more than a line.
fn live_process(rt: &HostRuntime, alloc: Global) -> ExitCode {
    let Ok(input) = BufReader::new(alloc, rt.stdin()) else {
        return ended(rt, Status::Memory);
    };
    let mut source = ReadSource::new(input);
    let mut sink = WriteSink::new(rt.stdout());
    ended(rt, live(alloc, &mut source, &mut sink))
}

/// Prints the bad lines of the script on standard input; its status says whether there are any.
fn check_process(rt: &HostRuntime, alloc: Global, workers: u8) -> ExitCode {
    let mut source = ReadSource::new(rt.stdin());
    let mut sink = WriteSink::new(rt.stdout());
    match check(alloc, workers, &mut source, &mut sink) {
        Status::Script => ExitCode::from(Status::Script.code()),
        status => ended(rt, status),
    }
}

fn say(rt: &HostRuntime, text: &str) -> ExitCode {
    match println!(rt; "{text}") {
        Ok(()) => ExitCode::from(0),
        Err(_) => ExitCode::from(Status::WriteFault.code()),
    }
}

/// Shows the run of the script on standard input in a form.
fn show_process(rt: &HostRuntime, alloc: Global, form: Form) -> ExitCode {
    let mut source = ReadSource::new(rt.stdin());
    let mut sink = WriteSink::new(rt.stdout());
    match show(alloc, form, &mut source, &mut sink) {
        Status::Script => {
            let _ = eprintln!(rt;
                "zq: the script has a bad line; what was expected there is shown."
            );
            ExitCode::from(Status::Script.code())
        }
        Status::Words => {
            let _ = eprintln!(rt; "zq: no call of this script made a request of that number.");
            ExitCode::from(Status::Words.code())
        }
        status => ended(rt, status),
    }
}

/// Does what the words behind `show` ask for.
fn show_words(rt: &HostRuntime, alloc: Global, words: &[Text]) -> ExitCode {
    match read_show_words(words) {
        Some(Shown::Version) => say(rt, SHOW_VERSION),
        Some(Shown::Run(form)) => show_process(rt, alloc, form),
        None => ended(rt, Status::Words),
    }
}

fn main(rt: HostRuntime) -> ExitCode {
    let alloc = rt.alloc();
    let words = match words(&rt, alloc) {
        Ok(words) => words,
        Err(status) => return ended(&rt, status),
    };
    match read_words(words.as_slice()) {
        Asked::Help => say(&rt, USAGE),
        Asked::Version => say(&rt, VERSION),
        Asked::Show => match words.as_slice().split_first() {
            Some((_, rest)) => show_words(&rt, alloc, rest),
            None => ended(&rt, Status::Words),
        },
        Asked::Live => live_process(&rt, alloc),
        Asked::Check(workers) => check_process(&rt, alloc, workers),
        Asked::Run => {
            let mut source = ReadSource::new(rt.stdin());
            let mut sink = WriteSink::new(rt.stdout());
            let outcome = run_words(&rt, alloc, words.as_slice(), &mut source, &mut sink);
            ended_run(&rt, &outcome)
        }
    }
}
