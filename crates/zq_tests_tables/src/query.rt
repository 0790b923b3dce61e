use zq_message::memory::OutOfMemory;
use zq_message::message::FaceId;
use zq_query::queries::Queries;
use zq_query::records::{AskRefusal, Final, NotInFlight, PollRefusal, QueryNotFound, ReplyRefusal};

const ASKER: FaceId = FaceId(7);

const NEAR: FaceId = FaceId(1);

const FAR: FaceId = FaceId(2);

fn last_of(number: u64) -> Option<Final> {
    Some(Final {
        number,
        asker: ASKER,
        id: 40,
        qos: 3,
    })
}

// The number of a request to one target, and its id there.
fn ask(
    queries: &mut Queries,
    asker: FaceId,
    target: FaceId,
    deadline: u64,
) -> Result<(u64, Option<u32>), AskRefusal> {
    let asked = queries.ask(asker, 40, 3, [target].as_slice(), deadline)?;
    Ok((asked.number, asked.ids.get(0).copied()))
}

// The ids of a request to both targets.
fn ask_both(queries: &mut Queries) -> Result<(Option<u32>, Option<u32>), AskRefusal> {
    let asked = queries.ask(ASKER, 40, 3, [FAR, NEAR].as_slice(), 100)?;
    Ok((asked.ids.get(0).copied(), asked.ids.get(1).copied()))
}

fn reply(queries: &mut Queries, face: FaceId) -> Result<Option<u64>, ReplyRefusal> {
    Ok(queries.reply(face, 1)?.reply)
}

fn would_poll(queries: &Queries) -> Result<usize, PollRefusal> {
    Ok(queries.would_poll(100)?.len())
}

fn poll(queries: &mut Queries, now: u64) -> Result<usize, PollRefusal> {
    Ok(queries.poll(now)?.len())
}

fn would_close(queries: &Queries, face: FaceId) -> Result<usize, OutOfMemory> {
    Ok(queries.would_close(face)?.len())
}

// How many finals a closing hands, and the first of them.
fn close(queries: &mut Queries, face: FaceId) -> Result<(usize, Option<Final>), OutOfMemory> {
    let finals = queries.close(face)?;
    Ok((finals.len(), finals.get(0).copied()))
}

fn ask_each(queries: &mut Queries, count: u64) -> Result<(), AskRefusal> {
    for step in 0..count {
        ask(queries, ASKER, NEAR, step + 1)?;
    }
    Ok(())
}

// Whether the request is the next to be due, then, and ends once its error reply was sent.
fn ends_at(queries: &mut Queries, due: u64, number: u64) -> Result<bool, PollRefusal> {
    if queries.next_deadline() != Some(due) {
        return Ok(false);
    }
    if poll(queries, due)? != 1 {
        return Ok(false);
    }
    Ok(queries.sent(number) == Ok(last_of(number)))
}

fn each_ends(queries: &mut Queries, count: u64) -> Result<bool, PollRefusal> {
    for step in 0..count {
        if !ends_at(queries, step + 1, step)? {
            return Ok(false);
        }
    }
    Ok(true)
}

// The number that a reply would have.
fn would_reply(queries: &Queries, face: FaceId) -> Result<Option<u64>, ReplyRefusal> {
    Ok(queries.would_reply(face, 1)?.reply)
}

fn deny(queries: &mut Queries, face: FaceId, id: u32) -> Option<Final> {
    if !queries.is_pending(face, id) {
        return None;
    }
    queries.deny(face, id)
}

fn is_answered(queries: &mut Queries) -> bool {
    ask_both(queries) == Ok((Some(1), Some(1)))
        && queries.next_number() == 6
        && would_reply(queries, FAR) == Ok(Some(9))
        && reply(queries, FAR) == Ok(Some(9))
        && queries.first_in_flight(5) == Some(9)
}

#[test]
fn a_query_is_answered(rt: HostRuntime) {
    let mut queries = Queries::new(rt.alloc(), 5, 9, 0);
    assert!(rt; is_answered(&mut queries));
}

fn ends_once(queries: &mut Queries) -> bool {
    ask(queries, ASKER, FAR, 100) == Ok((5, Some(1)))
        && reply(queries, FAR) == Ok(Some(9))
        && queries.last(FAR, 1) == Ok(None)
        && queries.last(FAR, 1) == Err(QueryNotFound)
        && queries.first_in_flight(5) == Some(9)
        && queries.sent(9) == Ok(last_of(5))
        && queries.sent(9) == Err(NotInFlight)
}

#[test]
fn a_query_ends_with_its_last_report(rt: HostRuntime) {
    let mut queries = Queries::new(rt.alloc(), 5, 9, 0);
    assert!(rt; ends_once(&mut queries));
}

fn go_round(queries: &mut Queries) -> bool {
    queries.start_at(NEAR, u32::MAX).is_ok()
        && ask(queries, ASKER, NEAR, 100) == Ok((0, Some(0)))
        && queries.start_at(NEAR, u32::MAX).is_ok()
        && deny(queries, NEAR, 0) == last_of(0)
}

#[test]
fn ids_go_round(rt: HostRuntime) {
    let mut queries = Queries::new(rt.alloc(), 0, 0, 0);
    assert!(rt; go_round(&mut queries));
}

// The next id is pending.
fn passes_over_one(queries: &mut Queries) -> bool {
    queries.start_at(NEAR, u32::MAX).is_ok()
        && ask(queries, ASKER, NEAR, 100) == Ok((0, Some(0)))
        && queries.start_at(NEAR, u32::MAX).is_ok()
        && ask(queries, ASKER, NEAR, 100) == Ok((1, Some(1)))
}

// The last six ids and the first are pending.
fn passes_over_seven(queries: &mut Queries) -> bool {
    queries.start_at(NEAR, u32::MAX - 6).is_ok()
        && ask_each(queries, 7).is_ok()
        && queries.is_pending(NEAR, 0)
        && queries.start_at(NEAR, u32::MAX - 6).is_ok()
        && ask(queries, ASKER, NEAR, 100) == Ok((7, Some(1)))
}

#[test]
fn one_pending_id_is_passed_over(rt: HostRuntime) {
    let mut queries = Queries::new(rt.alloc(), 0, 0, 0);
    assert!(rt; passes_over_one(&mut queries));
}

#[test]
fn seven_pending_ids_are_passed_over(rt: HostRuntime) {
    let mut queries = Queries::new(rt.alloc(), 0, 0, 0);
    assert!(rt; passes_over_seven(&mut queries));
}

fn takes_the_last(queries: &mut Queries) -> bool {
    ask(queries, ASKER, NEAR, 100) == Ok((u64::MAX - 1, Some(1)))
        && ask(queries, ASKER, FAR, 100) == Err(AskRefusal::NoFreeId)
        && reply(queries, NEAR) == Err(ReplyRefusal::NoFreeId)
        && would_poll(queries) == Err(PollRefusal::NoFreeId)
}

#[test]
fn no_number_is_left(rt: HostRuntime) {
    let mut queries = Queries::new(rt.alloc(), u64::MAX - 1, u64::MAX, 0);
    assert!(rt; takes_the_last(&mut queries));
}

fn target_closes(queries: &mut Queries) -> bool {
    ask(queries, ASKER, NEAR, 100).is_ok()
        && ask_both(queries).is_ok()
        && ask(queries, NEAR, NEAR, 100).is_ok()
        && would_close(queries, NEAR) == Ok(1)
        && close(queries, NEAR) == Ok((1, last_of(0)))
        && queries.pending_of(1) == 1
}

#[test]
fn a_target_closes(rt: HostRuntime) {
    let mut queries = Queries::new(rt.alloc(), 0, 0, 0);
    assert!(rt; target_closes(&mut queries));
}

fn asker_closes(queries: &mut Queries) -> bool {
    ask_both(queries).is_ok()
        && close(queries, ASKER) == Ok((0, None))
        && reply(queries, NEAR) == Ok(None)
        && queries.last(NEAR, 1) == Ok(None)
        && poll(queries, 100) == Ok(1)
        && queries.first_in_flight(0).is_none()
}

#[test]
fn the_asker_closes(rt: HostRuntime) {
    let mut queries = Queries::new(rt.alloc(), 0, 0, 0);
    assert!(rt; asker_closes(&mut queries));
}

fn all_end(queries: &mut Queries, count: u64) -> bool {
    ask_each(queries, count).is_ok()
        && each_ends(queries, count) == Ok(true)
        && queries.next_deadline().is_none()
}

#[test]
fn two_thousand_deadlines(rt: HostRuntime) {
    let mut queries = Queries::new(rt.alloc(), 0, 0, 0);
    assert!(rt; all_end(&mut queries, 2000));
}
