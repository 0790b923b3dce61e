//! What a gateway is made with.
ghost use Rattle.std.specs.Prelude.{◌≡◌, Some, None, IfOk, IfErr, MatchResult};
ghost use Rattle.zq_message.specs.Region.{mode_offset, region_index};
ghost use Rattle.zq_machine.specs.declared.config.Entry.TheVariants as entry;
ghost use Rattle.zq_machine.specs.Configs.{IsRefusal, bad_config, bad_entry, bad_from, entry_index, has_local, has_region, is_among, is_entry_of, is_local_entry, is_number, north_of, region_of};

use std::alloc::{AllocError, Global};
use std::marker::Model;
use zq_key::items::Items;
use zq_key::memory::OutOfMemory;
use zq_key::message::{Mode, Region, Zid};
use zq_route::selection::Best;

/// The greatest id of a South region.
pub const SOUTH_IDS: u32 = 255;

/// The numbers that a gateway begins with: the next face, request and reply, and the id last told
/// and last given to each new face. All are 0 by default.
#[derive(Clone, Copy, Default)]
pub struct Counters {
    /// The number of the next face; 2^32 - 1 is given to none.
    pub faces: u32,
    /// The number of the next request; 2^64 - 1 is given to none.
    pub requests: u64,
    /// The number of the next reply; 2^64 - 1 is given to none.
    pub replies: u64,
    /// The id before the first under which a new face is told of a key.
    pub told: u32,
    /// The id before the first under which a new face is handed a request.
    pub request_ids: u32,
}

/// A region of the configuration.
#[derive(Clone, Copy, Debug, PartialEq, Eq)]
pub enum Entry {
    /// The side of the rest of the network, in which the gateway is of this mode.
    North(Mode),
    /// The applications on this machine.
    Local,
    /// Nodes of a mode behind the gateway; the id is at most `SOUTH_IDS`.
    South { id: u32, mode: Mode },
}

/// Entries, in the order in which they were given.
pub type EntryList = Items<Entry>;

/// What is wrong with a list of entries: the first bad one, its id before its repetition.
#[derive(Clone, Copy, Debug, PartialEq, Eq)]
pub enum BadConfig {
    /// This id of a South region is above `SOUTH_IDS`.
    IdAbove(u32),
    /// This region stands twice.
    Twice(Region),
    /// No entry is North.
    NoNorth,
}

/// Why entries gave no configuration.
#[derive(Clone, Copy, Debug, PartialEq, Eq)]
pub enum ConfigRefusal {
    /// The entries are not valid.
    BadConfig(BadConfig),
    /// No memory was found.
    OutOfMemory,
}

/// A valid configuration: the gateway's id, its regions, the timeout in milliseconds of a request
/// that gives none, the counters to begin with, and where the best offer is looked for.
pub struct Config {
    zid: Zid,
    entries: EntryList,
    timeout: u64,
    start: Counters,
    best: Best,
}

impl Drop for Config {
    fn drop(self) {
        let Config {
            zid,
            entries,
            timeout,
            start,
            best,
        } = self;
    }
}

impl Model for Config {
    ghost use Rattle.std.specs.Prelude.{◌≡◌, None};
    ghost use Rattle.zq_machine.specs.Configs.{Settings, bad_config};

    ghost Value = { Settings };

    ghost view = { λ c. record { zid = c.zid; entries = c.entries; timeout = c.timeout; start = c.start; best = c.best } };

    ghost invariant = { λ c. bad_config c.entries ≡ None };
}

impl Entry {
    /// The region of the entry.
    pub fn region(self) -> Region
        ensures { result ≡ region_of self }
    {
        match self {
            Entry::North(_) => Region::North,
            Entry::Local => Region::Local,
            Entry::South { id, mode } => Region::South { id, mode },
        }
    }
}

fn mode_offset(mode: Mode) -> u64
    ensures { result ≡ mode_offset mode }
{
    match mode {
        Mode::Router => 0,
        Mode::Peer => 1,
        Mode::Client => 2,
    }
}

fn place_of(region: Region) -> u64
    ensures { result ≡ region_index region }
{
    match region {
        Region::North => 0,
        Region::Local => 1,
        Region::South { id, mode } => 2 + 3 * u64::from(id) + mode_offset(mode),
    }
}

fn is_among(index: u64, seen: &[u64]) -> bool
    ensures { result ≡ is_among index seen.now }
{
    seen.iter().any(|n| *n == index)
}

fn bad_south(seen: &[u64], id: u32, mode: Mode) -> Option<BadConfig>
    ensures { result ≡ bad_entry seen.now (entry.South id mode) }
{
    if SOUTH_IDS < id {
        return Some(BadConfig::IdAbove(id));
    }
    let region = Region::South { id, mode };
    if is_among(place_of(region), seen) {
        return Some(BadConfig::Twice(region));
    }
    None
}

fn bad_entry(seen: &[u64], entry: Entry) -> Option<BadConfig>
    ensures { result ≡ bad_entry seen.now entry }
{
    match entry {
        Entry::South { id, mode } => bad_south(seen, id, mode),
        Entry::North(_) => {
            if is_among(0, seen) {
                return Some(BadConfig::Twice(Region::North));
            }
            None
        }
        Entry::Local => {
            if is_among(1, seen) {
                return Some(BadConfig::Twice(Region::Local));
            }
            None
        }
    }
}

/// What is wrong with the entries.
fn bad_config(alloc: Global, entries: &[Entry]) -> Result<Option<BadConfig>, AllocError>
    ensures { IfOk result (λ b. b ≡ bad_config entries.now) }
{
    let mut seen: Vec<u64> = Vec::new(alloc);
    for entry in entries {
        match bad_entry(seen.as_slice(), *entry) {
            Some(bad) => return Ok(Some(bad)),
            None => {}
        }
        seen.push(place_of(entry.region()))?;
    }
    if is_among(0, seen.as_slice()) {
        return Ok(None);
    }
    Ok(Some(BadConfig::NoNorth))
}

fn copy_entries(alloc: Global, entries: &[Entry]) -> Result<EntryList, OutOfMemory>
    ensures { IfOk result (λ l. l ≡ entries.now) }
{
    Ok(Items::from_vec(Vec::from_slice(alloc, entries)?))
}

impl Config {
    /// A configuration of these regions. Refused are an id above 255, a region that stands twice,
    /// and a missing North, in this order: the first bad entry decides, and the missing North
    /// comes last.
    pub fn new(
        alloc: Global,
        zid: Zid,
        entries: &[Entry],
        timeout: u64,
        start: Counters,
        best: Best,
    ) -> Result<Config, ConfigRefusal>
        ensures ok { IfOk result (λ c. (c.zid ≡ zid) × (c.entries ≡ entries.now) × (c.timeout ≡ timeout) × (c.start ≡ start) × (c.best ≡ best)) }
        ensures valid { IfOk result (λ c. bad_config c.entries ≡ None) }
        ensures refused { IfErr result (λ e. IsRefusal e entries.now) }
    {
        match bad_config(alloc, entries) {
            Err(_) => Err(ConfigRefusal::OutOfMemory),
            Ok(Some(bad)) => Err(ConfigRefusal::BadConfig(bad)),
            Ok(None) => match copy_entries(alloc, entries) {
                Err(_) => Err(ConfigRefusal::OutOfMemory),
                Ok(entries) => Ok(Config {
                    zid,
                    entries,
                    timeout,
                    start,
                    best,
                }),
            },
        }
    }

    /// An equal configuration.
    pub fn copy(&self, alloc: Global) -> Result<Config, OutOfMemory>
        ensures { IfOk result (λ c. c ≡ self.now) }
    {
        Ok(Config {
            zid: self.zid,
            entries: copy_entries(alloc, self.entries.as_slice())?,
            timeout: self.timeout,
            start: self.start,
            best: self.best,
        })
    }

    /// The gateway's own id.
    pub fn zid(&self) -> Zid
        ensures { result ≡ self.now.zid }
    {
        self.zid
    }

    /// The mode of the entry North.
    pub fn north(&self) -> Mode
        ensures { result ≡ north_of self.now.entries }
    {
        north_mode(self.entries.as_slice())
    }

    /// Whether Local is an entry.
    pub fn has_local(&self) -> bool
        ensures { result ≡ has_local self.now.entries }
    {
        any_local(self.entries.as_slice())
    }

    /// Whether the region is an entry.
    pub fn has_region(&self, region: Region) -> bool
        ensures { result ≡ has_region self.now.entries region }
    {
        any_of(self.entries.as_slice(), region)
    }

    /// The counters that it was made with.
    pub fn counters(&self) -> &Counters
        ensures { result.now ≡ self.now.start }
    {
        &self.start
    }

    /// Where the best offer is looked for.
    pub fn best(&self) -> Best
        ensures { result ≡ self.now.best }
    {
        self.best
    }

    /// The timeout in milliseconds of a request that gives none.
    pub fn timeout(&self) -> u64
        ensures { result ≡ self.now.timeout }
    {
        self.timeout
    }

    /// Its entries, in the order in which they were given.
    pub fn entries(&self) -> &[Entry]
        ensures entries { result.now ≡ self.now.entries }
        ensures valid { bad_config result.now ≡ None }
    {
        self.entries.as_slice()
    }
}

fn any_local(entries: &[Entry]) -> bool
    ensures { result ≡ has_local entries.now }
{
    entries.iter().any(|e| matches!(e, Entry::Local))
}

fn any_of(entries: &[Entry], region: Region) -> bool
    ensures { result ≡ has_region entries.now region }
{
    let place = place_of(region);
    entries.iter().any(|e| place_of(e.region()) == place)
}

fn north_mode(entries: &[Entry]) -> Mode
    ensures { result ≡ north_of entries.now }
{
    for entry in entries {
        match entry {
            Entry::North(mode) => return *mode,
            Entry::Local => {}
            Entry::South { .. } => {}
        }
    }
    Mode::Client
}
