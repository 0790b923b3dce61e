//! The lines before the calls: the configuration, the counters, and where the best offer is looked for.
ghost use Rattle.std.specs.Prelude.{◌≡◌, ◌≤◌, ◌+◌, ◌++◌, IfOk, IfSome, MatchResult, OnOk, Ok, length};
ghost use Rattle.zq_machine.specs.declared.config.Counters.{Counters};
ghost use Rattle.std.specs.Option.{option_map};
ghost use Rattle.std.specs.Result.{result_map_both};
ghost use Rattle.zq_io.specs.Words.{Reads};
ghost use Rattle.zq_lines.specs.Split.{lines_of};
ghost use Rattle.zq_script.specs.Script.{Gives, Refuses};
ghost use Rattle.zq_script.specs.Head.{ended, entry_of, north_of, south_entry, entries_of, counters_of, best_by, choice_of, after_name, start_of, best_of, config_of, start_at, best_at, with_best, with_start, configured, head_of};

use crate::refusal::{ScriptRefusal, at_line};
use std::alloc::Global;
use zq_io::stop::Stop;
use zq_io::values::flag_at;
use zq_io::words::{Word, at_end, cut, is, len_to, read_at, read_each};
use zq_key::memory::OutOfMemory;
use zq_key::message::{Mode, Region, Zid};
use zq_key::text::Bytes;
use zq_lines::split::next_line;
use zq_machine::config::{Config, ConfigRefusal, Counters, Entry, EntryList};
use zq_route::selection::Best;

/// The counters where no line `start` stands.
pub(crate) const NO_COUNTS: Counters = Counters {
    faces: 0,
    requests: 0,
    replies: 0,
    told: 0,
    request_ids: 0,
};

/// Where the best offer is looked for where no line `best` stands.
pub(crate) const USUAL_BEST: Best = Best::ByRegion;

/// What a line `config` says: the own id, the default timeout and the entries.
pub(crate) type Said = (Zid, u64, EntryList);

/// What the lines between `config` and the calls say, and what stands behind them.
#[derive(Clone, Copy)]
struct Behind<'a> {
    start: Counters,
    best: Best,
    /// The number of the next line.
    number: u64,
    rest: &'a [u8],
}

/// The word of an entry of the configuration.
pub struct EntryOf;

impl Word for EntryOf {
    type Value = Entry;

    ghost of = { entry_of };

    #[tactic(auto, unfolding(crate::specs::Head::entry_of))]
    fn read(alloc: Global, word: &[u8]) -> Result<Entry, Stop> {
        if is(word, "local") {
            return Ok(Entry::Local);
        }
        match north_of(alloc, word) {
            Ok(mode) => Ok(Entry::North(mode)),
            Err(Stop::Bad) => south_entry(alloc, word),
            Err(Stop::OutOfMemory) => Err(Stop::OutOfMemory),
        }
    }
}

#[tactic(auto, unfolding(crate::specs::Head::north_of))]
fn north_of(alloc: Global, word: &[u8]) -> Result<Mode, Stop>
    ensures { Reads result (north_of word.now) }
{
    let (front, mode) = cut(b':', word).ok_or(Stop::Bad)?;
    if !is(front, "north") {
        return Err(Stop::Bad);
    }
    Mode::read(alloc, mode)
}

fn south_entry(alloc: Global, word: &[u8]) -> Result<Entry, Stop>
    ensures { Reads result (south_entry word.now) }
{
    match Region::read(alloc, word)? {
        Region::South { id, mode } => Ok(Entry::South { id, mode }),
        _ => Err(Stop::Bad),
    }
}

/// One or more entries up to the end of the line.
fn entries_of(alloc: Global, bytes: &[u8]) -> Result<EntryList, Stop>
    ensures { Reads result (entries_of bytes.now) }
{
    let [b' ', rest @ ..] = bytes else {
        return Err(Stop::Bad);
    };
    read_each::<EntryOf>(alloc, b' ', rest)
}

#[tactic(auto, unfolding(crate::specs::Head::counters_of))]
fn counters_of(alloc: Global, bytes: &[u8]) -> Result<Counters, Stop>
    ensures { Reads result (counters_of bytes.now) }
{
    let (faces, rest) = read_at::<u32>(alloc, bytes)?;
    let (requests, rest) = read_at::<u64>(alloc, rest)?;
    let (replies, rest) = read_at::<u64>(alloc, rest)?;
    let (told, rest) = read_at::<u32>(alloc, rest)?;
    let (request_ids, rest) = read_at::<u32>(alloc, rest)?;
    at_end(
        rest,
        Counters {
            faces,
            requests,
            replies,
            told,
            request_ids,
        },
    )
}

/// The choice that one of the words `region` and `overall` says.
fn best_by(region: bool) -> Best
    ensures { result ≡ best_by region }
{
    if region {
        Best::ByRegion
    } else {
        Best::Overall
    }
}

/// The choice up to the end of the line.
#[tactic(auto, unfolding(crate::specs::Head::choice_of))]
fn choice_of(bytes: &[u8]) -> Option<Best>
    ensures { result ≡ choice_of bytes.now }
{
    let (region, rest) = flag_at("region", "overall", bytes)?;
    if rest.is_empty() {
        Some(best_by(region))
    } else {
        None
    }
}

/// What follows the first word, where it is this one.
fn after_name<'a>(name: &str, line: &'a [u8]) -> Option<&'a [u8]>
    ensures { option_map (λ t. t.now) result ≡ after_name name.now line.now }
{
    let (head, rest) = line.split_at(len_to(b' ', line));
    if is(head, name) { Some(rest) } else { None }
}

#[tactic(auto, unfolding(crate::specs::Head::start_of))]
pub(crate) fn start_of(alloc: Global, line: &[u8]) -> Result<Counters, Stop>
    ensures { Reads result (start_of line.now) }
{
    counters_of(alloc, after_name("start", line).ok_or(Stop::Bad)?)
}

/// The line `best`.
#[tactic(auto, unfolding(crate::specs::Head::best_of))]
pub(crate) fn best_of(line: &[u8]) -> Option<Best>
    ensures { result ≡ best_of line.now }
{
    choice_of(after_name("best", line)?)
}

/// The line `config`.
#[tactic(auto, unfolding(crate::specs::Head::config_of))]
pub(crate) fn config_of(alloc: Global, line: &[u8]) -> Result<Said, Stop>
    ensures { Reads result (config_of line.now) }
{
    let rest = after_name("config", line).ok_or(Stop::Bad)?;
    let (zid, rest) = read_at::<Zid>(alloc, rest)?;
    let (timeout, rest) = read_at::<u64>(alloc, rest)?;
    Ok((zid, timeout, entries_of(alloc, rest)?))
}

/// The counters of the next line, where it is a line `start`, with the line and what follows.
pub(crate) fn start_at(alloc: Global, bytes: &[u8]) -> Result<(Counters, &[u8], &[u8]), Stop>
    ensures value { Reads (result_map_both (λ t. (t.0, t.1.now, lines_of t.2.now)) (λ e. e) result) (start_at (lines_of bytes.now)) }
    ensures shorter { IfOk result (λ t. length t.2.now ≤ length bytes.now) }
{
    let (line, rest) = next_line(bytes).ok_or(Stop::Bad)?;
    Ok((start_of(alloc, line)?, line, rest))
}

/// The choice of the next line, where it is a line `best`, with the line and what follows.
pub(crate) fn best_at(bytes: &[u8]) -> Option<(Best, &[u8], &[u8])>
    ensures value { option_map (λ t. (t.0, t.1.now, lines_of t.2.now)) result ≡ best_at (lines_of bytes.now) }
    ensures shorter { IfSome result (λ t. length t.2.now ≤ length bytes.now) }
{
    let (line, rest) = next_line(bytes)?;
    let best = best_of(line)?;
    Some((best, line, rest))
}

/// The configuration; the first line is bad where something is wrong with its entries.
pub(crate) fn configured(
    alloc: Global,
    said: &Said,
    start: Counters,
    best: Best,
) -> Result<Config, ScriptRefusal>
    ensures { Gives result (configured said.now start best) }
{
    let (zid, timeout, entries) = said;
    match Config::new(alloc, *zid, entries.as_slice(), *timeout, start, best) {
        Ok(config) => Ok(config),
        Err(ConfigRefusal::BadConfig(_)) => Err(ScriptRefusal::BadLine(1)),
        Err(ConfigRefusal::OutOfMemory) => Err(ScriptRefusal::OutOfMemory),
    }
}

/// Appends a line as it was given, and a newline.
fn push_ended(text: &mut Vec<u8>, line: &[u8]) -> Result<(), OutOfMemory>
    ensures { OnOk result (text.new.items ≡ text.old.items ++ ended line.now) }
{
    text.extend_from_slice(line)?;
    text.push(b'\n')?;
    Ok(())
}

/// A line `best`, where one stands next, at this number; it is appended.
fn with_best<'a>(
    text: &mut Vec<u8>,
    start: Counters,
    number: u64,
    bytes: &'a [u8],
) -> Result<Behind<'a>, OutOfMemory>
    requires { number ≤ 3 }
    ensures value { IfOk result (λ b. with_best start text.old.items number (lines_of bytes.now) (best_at (lines_of bytes.now)) ≡ record { start = b.start; best = b.best; text = text.new.items; number = b.number; lines = lines_of b.rest.now }) }
    ensures small { IfOk result (λ b. b.number ≤ number + 1) }
    ensures shorter { IfOk result (λ b. length b.rest.now ≤ length bytes.now) }
{
    let Some((best, choice, rest)) = best_at(bytes) else {
        return Ok(Behind {
            start,
            best: USUAL_BEST,
            number,
            rest: bytes,
        });
    };
    push_ended(text, choice)?;
    Ok(Behind {
        start,
        best,
        number: number + 1,
        rest,
    })
}

/// The lines between `config` and the calls; those that stand are appended.
fn with_start<'a>(
    alloc: Global,
    text: &mut Vec<u8>,
    bytes: &'a [u8],
) -> Result<Behind<'a>, OutOfMemory>
    ensures value { IfOk result (λ b. with_start text.old.items (lines_of bytes.now) (start_at (lines_of bytes.now)) ≡ record { start = b.start; best = b.best; text = text.new.items; number = b.number; lines = lines_of b.rest.now }) }
    ensures small { IfOk result (λ b. b.number ≤ 4) }
    ensures shorter { IfOk result (λ b. length b.rest.now ≤ length bytes.now) }
{
    match start_at(alloc, bytes) {
        Err(Stop::OutOfMemory) => Err(OutOfMemory),
        Err(Stop::Bad) => with_best(text, NO_COUNTS, 2, bytes),
        Ok((start, line, rest)) => {
            push_ended(text, line)?;
            with_best(text, start, 3, rest)
        }
    }
}

/// The configuration, the lines before the calls, each ended by a newline, the number of the next
/// line, and what stands from there on.
pub fn head_of(alloc: Global, bytes: &[u8]) -> Result<(Config, Bytes, u64, &[u8]), ScriptRefusal>
    ensures value { MatchResult result (λ t. head_of (lines_of bytes.now) ≡ Ok (t.0, t.1, t.2, lines_of t.3.now)) (λ e. Refuses e (head_of (lines_of bytes.now))) }
    ensures small { IfOk result (λ t. t.2 ≤ 4) }
    ensures shorter { IfOk result (λ t. length t.3.now ≤ length bytes.now) }
{
    let (line, rest) = next_line(bytes).ok_or(ScriptRefusal::BadLine(1))?;
    let said = at_line(1, config_of(alloc, line))?;
    let mut text = Vec::new(alloc);
    push_ended(&mut text, line)?;
    let behind = with_start(alloc, &mut text, rest)?;
    let config = configured(alloc, &said, behind.start, behind.best)?;
    Ok((config, Bytes::from_vec(text), behind.number, behind.rest))
}
