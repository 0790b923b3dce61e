use std::alloc::Global;
use zq_key::memory::OutOfMemory;
use zq_key::message::Region;
use zq_route::routes::{Routes, get_or_set_route};

/// Routes of Local's nodes 5 and 2, stored under version 1.
fn stored(alloc: Global) -> Result<Routes<char>, OutOfMemory> {
    let mut routes = Routes::new(alloc);
    routes.set_route(1, &Region::Local, 5, 'a')?;
    routes.set_route(1, &Region::Local, 2, 'b')?;
    Ok(routes)
}

#[test]
fn finds_what_was_stored_under_the_version(rt: HostRuntime) {
    let Ok(routes) = stored(rt.alloc()) else {
        panic!(rt; "no memory");
    };
    let found = |version: u64, node: u16| match routes.get_route(version, &Region::Local, node) {
        Some(letter) => *letter,
        None => '-',
    };
    assert!(rt;
        [
            found(1, 5),
            found(1, 2),
            found(1, 3),
            found(2, 5),
            found(2, 2)
        ] == ['a', 'b', '-', '-', '-']
    );
}

#[test]
fn another_version_empties(rt: HostRuntime) {
    let Ok(mut routes) = stored(rt.alloc()) else {
        panic!(rt; "no memory");
    };
    let put = routes.set_route(2, &Region::Local, 5, 'c');
    assert!(rt; put == Ok(()) && routes.version() == 2);
    assert!(rt; routes.get_route(2, &Region::Local, 5) == Some(&'c'));
    assert!(rt; routes.get_route(2, &Region::Local, 2) == None);
    routes.clear();
    assert!(rt; routes.get_route(2, &Region::Local, 5) == None);
}

#[test]
fn computes_what_is_not_stored(rt: HostRuntime) {
    let Ok(mut routes) = stored(rt.alloc()) else {
        panic!(rt; "no memory");
    };
    assert!(rt; get_or_set_route(&mut routes, 1, &Region::Local, 5, || Ok('z')) == Ok(&'a'));
    assert!(rt; get_or_set_route(&mut routes, 1, &Region::Local, 7, || Ok('z')) == Ok(&'z'));
    assert!(rt; routes.get_route(1, &Region::Local, 7) == Some(&'z'));
    assert!(rt;
        get_or_set_route(&mut routes, 1, &Region::North, 7, || Err(OutOfMemory)) == Err(OutOfMemory)
    );
}
