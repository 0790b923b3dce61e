//! What tests of calls are given: counters, a configuration, what is done with a gateway, what is seen of
//! a step, an application.
use std::alloc::Global;
use zq_gateway::gateway::Gateway;
use zq_key::items::Items;
use zq_key::memory::OutOfMemory;
use zq_key::message::{Bound, Mode, Region, Zid};
use zq_machine::call::{Opening, Outcome, Step};
use zq_machine::config::{Config, ConfigRefusal, Counters, Entry};
use zq_route::selection::Best;

/// Counters that begin at 0.
pub const FIRST: Counters = Counters {
    faces: 0,
    requests: 0,
    replies: 0,
    told: 0,
    request_ids: 0,
};

/// The gateway 1 with an upstream and a region of applications.
pub(crate) fn config(alloc: Global) -> Result<Config, ConfigRefusal> {
    let entries = [Entry::North(Mode::Client), Entry::Local];
    Config::new(
        alloc,
        Zid(1),
        entries.as_slice(),
        10_000,
        FIRST,
        Best::ByRegion,
    )
}

/// What is done with a gateway, and what is found of it.
pub(crate) trait Trial {
    type Found;

    fn found(gateway: &mut Gateway, alloc: Global) -> Self::Found;
}

// What a trial finds of a new gateway of the configuration. It is the one place where a gateway is dropped.
fn found_of<T: Trial>(alloc: Global, config: &Config) -> Result<T::Found, OutOfMemory> {
    match Gateway::new(alloc, config) {
        Ok(mut gateway) => Ok(T::found(&mut gateway, alloc)),
        Err(_) => Err(OutOfMemory),
    }
}

/// What a trial finds of a new gateway.
pub(crate) fn found<T: Trial>(alloc: Global) -> Result<T::Found, OutOfMemory> {
    match config(alloc) {
        Ok(config) => found_of::<T>(alloc, &config),
        Err(_) => Err(OutOfMemory),
    }
}

/// The outcome of a step, and how many messages it hands; none where it found no memory.
pub(crate) type Seen = Option<(Outcome, usize)>;

/// What is seen of a step.
pub(crate) fn seen(step: Result<Step, OutOfMemory>) -> Seen {
    match step {
        Ok(step) => Some((step.outcome, step.handed.len())),
        Err(_) => None,
    }
}

fn application(alloc: Global, zid: u128) -> Opening {
    Opening {
        region: Region::Local,
        zid: Zid(zid),
        mode: Mode::Client,
        remote_bound: Bound::North,
        namespace: None,
        entry_deny: Items::new(alloc),
        exit_deny: Items::new(alloc),
    }
}

/// An application is opened.
pub(crate) fn opens(gateway: &mut Gateway, alloc: Global, zid: u128) -> Seen {
    let opening = application(alloc, zid);
    seen(gateway.open_face(&opening))
}
