use crate::given::{FIRST, Trial, config, found};
use std::alloc::Global;
use zq_gateway::gateway::Gateway;
use zq_key::message::{Mode, Region, Zid};
use zq_machine::config::{BadConfig, Config, ConfigRefusal, Counters, Entry};
use zq_route::selection::Best;

fn refusal(alloc: Global, entries: &[Entry]) -> Option<BadConfig> {
    match Config::new(alloc, Zid(1), entries, 10_000, FIRST, Best::ByRegion).err() {
        Some(ConfigRefusal::BadConfig(found)) => Some(found),
        _ => None,
    }
}

// The first bad entry decides, its id before its repetition; a missing North comes last.
#[test]
fn bad_configurations(rt: HostRuntime) {
    let north = Entry::North(Mode::Client);
    let south = Entry::South {
        id: 256,
        mode: Mode::Peer,
    };
    for (entries, bad) in [
        ([north, north].as_slice(), BadConfig::Twice(Region::North)),
        (
            &[Entry::Local, Entry::Local],
            BadConfig::Twice(Region::Local),
        ),
        (&[south, south], BadConfig::IdAbove(256)),
        (&[Entry::Local], BadConfig::NoNorth),
    ] {
        assert!(rt; refusal(rt.alloc(), entries) == Some(bad));
    }
}

// Whether no number was given yet.
fn are_first(counters: &Counters) -> bool {
    counters.faces == 0
        && counters.requests == 0
        && counters.replies == 0
        && counters.told == 0
        && counters.request_ids == 0
}

// Whether the configuration has what it was made of.
fn is_as_made(config: &Config) -> bool {
    config.zid() == Zid(1)
        && config.north() == Mode::Client
        && config.has_local()
        && config.has_region(Region::North)
        && config.timeout() == 10_000
        && are_first(config.counters())
}

// Whether a configuration has what it was made of.
fn has_all(alloc: Global) -> bool {
    match config(alloc) {
        Ok(config) => is_as_made(&config),
        Err(_) => false,
    }
}

// The id of a gateway, and its mode in North.
struct Named;

impl Trial for Named {
    type Found = (Zid, Mode);

    fn found(gateway: &mut Gateway, _: Global) -> (Zid, Mode) {
        (gateway.zid(), gateway.north())
    }
}

#[test]
fn configurations(rt: HostRuntime) {
    assert!(rt; has_all(rt.alloc()));
    assert!(rt; found::<Named>(rt.alloc()) == Ok((Zid(1), Mode::Client)));
}
