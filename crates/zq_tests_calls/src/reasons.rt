use std::alloc::Global;
use std::test::Fail;
use zq_message::memory::OutOfMemory;
use zq_show::notes::notes_of;
use zq_show::replay::run_of;

/// Scripts, and what is said of their last request. A line of a script ends with `|`, and so does each
/// note.
const ROWS: &[(&str, &str)] = &[
    (
        "config 1 9 north:client local|open local 10 client north -|queryable 0 7 0:s:k c 0 0|\
         ask 0 1 0:s:k all - 0 0 - 0|",
        "`all` asks each; asked faces: none|\
         not asked: queryable 7 of face 0 on k: its face is the asker's own|",
    ),
    (
        "config 1 9 north:peer local|open north 10 peer north -|open north 11 peer north -|\
         queryable 0 7 0:s:k c 0 0|queryable 1 8 0:s:k c 0 0|ask 0 1 0:s:k all - 0 0 - 0|",
        "`all` asks each; asked faces: none|\
         not asked: queryable 7 of face 0 on k: its face is the asker's own|\
         not asked: queryable 8 of face 1 on k: its region offers nothing to its own faces|",
    ),
    (
        "config 1 9 north:client local|open local 10 client north - in:k/**|\
         open local 11 client north -|queryable 1 7 0:s:** c 0 0|ask 0 1 0:s:k/1 all - 0 0 - 0|",
        "`all` asks each; asked faces: none|\
         not asked: queryable 7 of face 1 on **: the asker may not ask for this key (entry deny list)|",
    ),
    (
        "config 2 9 north:client local south:0:client|open south:0:client 21 client north -|\
         open north 99 router south -|queryable 1 7 0:s:m c 0 0|\
         gateways south:0:client 21=2,3 none|ask 0 1 0:s:m all - 0 0 - 0|",
        "`all` asks each; asked faces: none|\
         not asked: queryable 7 of face 1 on m: by the list of gateways it is carried by gateway 3|",
    ),
    (
        "config 2 9 north:client local south:0:client|open south:0:client 21 client north -|\
         open north 99 router south -|queryable 1 7 0:s:m c 0 0|\
         gateways south:0:client 21=2,21 none|ask 0 1 0:s:m all - 0 0 - 0|",
        "`all` asks each; asked faces: none|\
         not asked: queryable 7 of face 1 on m: who asks is itself in the list of gateways|",
    ),
    (
        "config 1 9 north:client local|open local 10 client north -|open local 11 client north -|\
         queryable 1 7 0:s:k p 0 0|ask 0 1 0:s:k complete - 0 0 - 0|",
        "`complete` asks those that are complete, or not known to be; asked faces: none|\
         not asked: queryable 7 of face 1 on k: it is not complete on the key|",
    ),
    (
        "config 1 9 north:client local|open local 10 client north -|open local 11 client north -|\
         open local 12 client north -|queryable 1 7 0:s:k c 0 0|queryable 2 8 0:s:k c 0 0|\
         ask 0 1 0:s:k best - 0 0 - 0|",
        "`best` asks in each region the nearest complete one, or all if none is; asked faces: 1|\
         not asked: queryable 8 of face 2 on k: another is the nearest complete one|",
    ),
    (
        "config 1 9 north:client local|open local 10 client north -|open local 11 client north -|\
         queryable 1 7 0:s:k c 0 0|queryable 1 8 0:s:k p 0 0|queryable 1 9 0:s:** c 0 0|\
         ask 0 1 0:s:k all - 0 0 - 0|",
        "`all` asks each; asked faces: 1|\
         not asked: queryable 7 8 of face 1 on k: its face is asked by an earlier offer|",
    ),
    (
        "config 1 9 north:client local|open local 10 client north -|\
         open local 11 client north - out:k/**|open local 12 client north -|\
         queryable 1 7 0:s:** c 0 0|queryable 2 8 0:s:** c 0 0|ask 0 1 0:s:k/1 all - 0 0 - 0|",
        "`all` asks each; asked faces: 2; stopped at the exit: 1|",
    ),
    (
        "config 1 9 north:client local|open local 10 client north acme|\
         open local 11 client north -|key 0 3 0:s:room|queryable 1 7 0:s:acme/room/1 c 0 0|\
         queryable 1 8 0:s:room/1 c 0 0|ask 0 1 3:s:/1 best - 0 0 - 0|",
        "`best` asks in each region the nearest complete one, or all if none is; asked faces: 1|",
    ),
    (
        "config 1 9 north:router local|open north 2 router north -|open north 3 router north -|\
         nodes 0 2,3|nodes 1 3,2|network north 1,2,3 1,2/x,1,2;2/x,x,2;1/x,1,x 0,10,20|\
         queryable 1 0 0:s:k c 0 0|ask 1 1 0:s:k all - 1 0 - 0|",
        "`all` asks each; asked faces: none|\
         not asked: a router behind face 1 on k: its face is the asker's own|",
    ),
];

/// The bytes of a row, with a line for each that it has.
fn lines(alloc: Global, row: &str) -> Result<Vec<u8>, OutOfMemory> {
    let mut bytes = Vec::new(alloc);
    for line in row.split('|') {
        if !line.is_empty() {
            bytes.extend_from_slice(line.as_bytes())?;
            bytes.extend_from_slice(b"\n")?;
        }
    }
    Ok(bytes)
}

/// What is said of the last call of a script, each note on a line.
fn said_last(alloc: Global, script: &[u8]) -> Result<Vec<u8>, OutOfMemory> {
    let run = run_of(alloc, script)?;
    let mut said = Vec::new(alloc);
    if let Some(last) = run.entries.as_slice().last() {
        for note in notes_of(alloc, last)?.as_slice() {
            said.extend_from_slice(note.as_slice())?;
            said.extend_from_slice(b"\n")?;
        }
    }
    Ok(said)
}

#[test]
fn each_stage_of_the_selection_is_said(rt: HostRuntime) -> Result<(), Fail> {
    let alloc = rt.alloc();
    for (script, notes) in ROWS {
        let said = said_last(alloc, lines(alloc, script)?.as_slice())?;
        assert_eq!(rt;
            said.as_slice(),
            lines(alloc, notes)?.as_slice(),
            "{script}"
        );
    }
    Ok(())
}
