//! Whom a request asked, and why it did not ask others.
ghost use Rattle.std.specs.Prelude.{◌≡◌, ◌++◌, IfOk, OnOk, map};
ghost use Rattle.zq_show.specs.Notes.{asked_note, best_words, faces_words, far_words, is_request, missed_note, mode_words, nearest_words, notes_of, numbers_words, owner_words, ids_words, picked, reason_words, stopped_words, carried_words, carrier_words, stop_words, place_words, unreached_note, won_words};

use crate::answer::push_named;
use crate::entry::{Entry, FaceList};
use crate::reasons::{Missed, Reason};
use std::alloc::{AllocError, Global};
use zq_hat::RouterEntry;
use zq_io::show::push_field;
use zq_io::words::{push_number, push_text};
use zq_key::items::Items;
use zq_key::memory::OutOfMemory;
use zq_key::message::{FaceId, Message, QueryTarget, QueryableInfoType, Zid};
use zq_key::text::Bytes;
use zq_machine::call::{Call, Outcome};
use zq_machine::handed::Handed;
use zq_route::selection::Best;
use zq_strategy::QueryTargetQabl;

/// Whether the message is a request, and whether it leaves or not.
fn is_request(leaves: bool, handed: &Handed) -> bool
    ensures { result ≡ is_request leaves handed.now }
{
    match handed.message() {
        Message::Request(_) => {
            if leaves {
                handed.leaves().is_some()
            } else {
                handed.leaves().is_none()
            }
        }
        _ => false,
    }
}

/// The faces that are handed a request that leaves, or one that does not, in order.
fn picked(alloc: Global, leaves: bool, handed: &[Handed]) -> Result<FaceList, OutOfMemory>
    ensures { IfOk result (λ l. l ≡ picked leaves handed.now) }
{
    let mut faces = Items::new(alloc);
    for message in handed {
        if is_request(leaves, message) {
            faces.push(message.to())?;
        }
    }
    Ok(faces)
}

/// Writes the numbers of faces.
fn push_numbers(out: &mut Vec<u8>, faces: &[FaceId]) -> Result<(), AllocError>
    ensures { OnOk result (out.new.items ≡ out.old.items ++ numbers_words faces.now) }
{
    for face in faces {
        push_field(out, face)?;
    }
    Ok(())
}

/// Writes faces by their numbers, or that there is none.
fn push_faces(out: &mut Vec<u8>, faces: &[FaceId]) -> Result<(), AllocError>
    ensures { OnOk result (out.new.items ≡ out.old.items ++ faces_words faces.now) }
{
    if faces.is_empty() {
        return push_text(out, " none");
    }
    push_numbers(out, faces)
}

/// Writes the faces whose exits let nothing out.
#[tactic(auto, unfolding(crate::specs::Notes::stop_words))]
fn push_stops(out: &mut Vec<u8>, faces: &[FaceId]) -> Result<(), AllocError>
    ensures { OnOk result (out.new.items ≡ out.old.items ++ stop_words faces.now) }
{
    push_text(out, "; stopped at the exit:")?;
    push_numbers(out, faces)
}

/// Writes the faces whose exits let nothing out, if there are any.
#[tactic(auto, unfolding(crate::specs::Notes::stopped_words))]
fn push_stopped(out: &mut Vec<u8>, faces: &[FaceId]) -> Result<(), AllocError>
    ensures { OnOk result (out.new.items ≡ out.old.items ++ stopped_words faces.now) }
{
    if faces.is_empty() {
        return Ok(());
    }
    push_stops(out, faces)
}

/// What the target `best` asks.
fn best_mode(best: Best) -> &'static str
    ensures { result.now ≡ best_words best }
{
    match best {
        Best::ByRegion => {
            "`best` asks in each region the nearest complete one, or all if none is; asked faces:"
        }
        Best::Overall => {
            "`best` asks over all regions the nearest complete one, or all if none is; asked faces:"
        }
    }
}

/// What a target asks.
fn mode(best: Best, target: QueryTarget) -> &'static str
    ensures { result.now ≡ mode_words best target }
{
    match target {
        QueryTarget::All => "`all` asks each; asked faces:",
        QueryTarget::AllComplete => {
            "`complete` asks those that are complete, or not known to be; asked faces:"
        }
        QueryTarget::BestMatching => best_mode(best),
    }
}

/// Writes how far what gives an information is.
fn push_far(out: &mut Vec<u8>, info: Option<QueryableInfoType>) -> Result<(), AllocError>
    ensures { OnOk result (out.new.items ≡ out.old.items ++ far_words info) }
{
    match info {
        Some(info) => push_named(out, ", at distance ", u64::from(info.distance)),
        None => Ok(()),
    }
}

/// Writes on which key and how far an offer is.
#[tactic(auto, unfolding(crate::specs::Notes::place_words))]
fn push_place(out: &mut Vec<u8>, offer: &QueryTargetQabl) -> Result<(), AllocError>
    ensures { OnOk result (out.new.items ≡ out.old.items ++ place_words offer.now) }
{
    push_text(out, " on ")?;
    push_text(out, offer.key.as_str())?;
    push_far(out, offer.info)
}

/// Writes an offer as the nearest complete one.
#[tactic(auto, unfolding(crate::specs::Notes::won_words))]
fn push_won(out: &mut Vec<u8>, offer: &QueryTargetQabl) -> Result<(), AllocError>
    ensures { OnOk result (out.new.items ≡ out.old.items ++ won_words offer.now) }
{
    push_named(out, "; the nearest: face ", u64::from(offer.face.0))?;
    push_place(out, offer)
}

/// Writes the nearest complete offer of all regions, where the choice fell on it.
fn push_nearest(out: &mut Vec<u8>, nearest: &Option<QueryTargetQabl>) -> Result<(), AllocError>
    ensures { OnOk result (out.new.items ≡ out.old.items ++ nearest_words nearest.now) }
{
    match nearest {
        Some(offer) => push_won(out, offer),
        None => Ok(()),
    }
}

/// Whom the target asked, and whom it would have but for the exit.
fn asked_note(
    alloc: Global,
    best: Best,
    target: QueryTarget,
    nearest: &Option<QueryTargetQabl>,
    handed: &[Handed],
) -> Result<Bytes, OutOfMemory>
    ensures { IfOk result (λ b. b ≡ asked_note best target nearest.now handed.now) }
{
    let mut out = Vec::new(alloc);
    push_text(&mut out, mode(best, target))?;
    let asked = picked(alloc, true, handed)?;
    push_faces(&mut out, asked.as_slice())?;
    let stopped = picked(alloc, false, handed)?;
    push_stopped(&mut out, stopped.as_slice())?;
    push_nearest(&mut out, nearest)?;
    Ok(Bytes::from_vec(out))
}

/// Writes the gateway that carries a request between two regions.
#[tactic(auto, unfolding(crate::specs::Notes::carrier_words))]
fn push_carrier(out: &mut Vec<u8>, zid: Zid) -> Result<(), AllocError>
    ensures { OnOk result (out.new.items ≡ out.old.items ++ carrier_words zid) }
{
    push_text(out, "by the list of gateways it is carried by gateway ")?;
    push_number(out, zid.0)
}

/// Writes which gateway carries a request between two regions, or that none does.
fn push_carried(out: &mut Vec<u8>, carrier: Option<Zid>) -> Result<(), AllocError>
    ensures { OnOk result (out.new.items ≡ out.old.items ++ carried_words carrier) }
{
    match carrier {
        Some(zid) => push_carrier(out, zid),
        None => push_text(out, "who asks is itself in the list of gateways"),
    }
}

/// Writes why a queryable was not asked.
fn push_reason(out: &mut Vec<u8>, reason: Reason) -> Result<(), AllocError>
    ensures { OnOk result (out.new.items ≡ out.old.items ++ reason_words reason) }
{
    match reason {
        Reason::Denied => push_text(out, "the asker may not ask for this key (entry deny list)"),
        Reason::Own => push_text(out, "its face is the asker's own"),
        Reason::Region => push_text(out, "its region offers nothing to its own faces"),
        Reason::Carried(carrier) => push_carried(out, carrier),
        Reason::Incomplete => push_text(out, "it is not complete on the key"),
        Reason::Farther => push_text(out, "another is the nearest complete one"),
        Reason::Earlier => push_text(out, "its face is asked by an earlier offer"),
    }
}

/// Writes ids.
fn push_ids(out: &mut Vec<u8>, ids: &[u128]) -> Result<(), AllocError>
    ensures { OnOk result (out.new.items ≡ out.old.items ++ ids_words ids.now) }
{
    for id in ids {
        push_text(out, " ")?;
        push_number(out, *id)?;
    }
    Ok(())
}

/// Writes who declared a key: a face under ids, or a router behind it.
#[tactic(auto, unfolding(crate::specs::Notes::owner_words))]
fn push_owner(out: &mut Vec<u8>, ids: &[u128]) -> Result<(), AllocError>
    ensures { OnOk result (out.new.items ≡ out.old.items ++ owner_words ids.now) }
{
    if ids.is_empty() {
        return push_text(out, "a router behind");
    }
    push_text(out, "queryable")?;
    push_ids(out, ids)?;
    push_text(out, " of")
}

/// What was not asked, and why.
#[tactic(auto, unfolding(crate::specs::Notes::missed_note))]
fn missed_note(alloc: Global, missed: &Missed) -> Result<Bytes, OutOfMemory>
    ensures { IfOk result (λ b. b ≡ missed_note missed.now) }
{
    let mut out = Vec::new(alloc);
    push_text(&mut out, "not asked: ")?;
    push_owner(&mut out, missed.ids.as_slice())?;
    push_text(&mut out, " face ")?;
    push_number(&mut out, missed.face.0)?;
    push_text(&mut out, " on ")?;
    push_text(&mut out, missed.key.as_str())?;
    push_text(&mut out, ": ")?;
    push_reason(&mut out, missed.reason)?;
    Ok(Bytes::from_vec(out))
}

/// Adds what was not asked, each with its reason.
fn push_missed(
    alloc: Global,
    notes: &mut Items<Bytes>,
    missed: &[Missed],
) -> Result<(), OutOfMemory>
    ensures { OnOk result (notes.new ≡ notes.old ++ map missed_note missed.now) }
{
    for one in missed {
        notes.push(missed_note(alloc, one)?)?;
    }
    Ok(())
}

/// An entry of a router to which no way leads.
#[tactic(auto, unfolding(crate::specs::Notes::unreached_note))]
fn unreached_note(alloc: Global, entry: &RouterEntry) -> Result<Bytes, OutOfMemory>
    ensures { IfOk result (λ b. b ≡ unreached_note entry.now) }
{
    let mut out = Vec::new(alloc);
    push_text(&mut out, "not asked: queryable of router ")?;
    push_number(&mut out, entry.router.0)?;
    push_text(&mut out, " on ")?;
    push_text(&mut out, entry.key.as_str())?;
    push_text(&mut out, ": no way leads to it")?;
    Ok(Bytes::from_vec(out))
}

/// Adds the entries of routers to which no way leads.
fn push_unreached(
    alloc: Global,
    notes: &mut Items<Bytes>,
    unreached: &[RouterEntry],
) -> Result<(), OutOfMemory>
    ensures { OnOk result (notes.new ≡ notes.old ++ map unreached_note unreached.now) }
{
    for entry in unreached {
        notes.push(unreached_note(alloc, entry)?)?;
    }
    Ok(())
}

/// The notes of a call: of a request that was accepted whom it asked, and what it did not ask and why;
/// of others none.
pub fn notes_of(alloc: Global, entry: &Entry) -> Result<Items<Bytes>, OutOfMemory>
    ensures { IfOk result (λ l. l ≡ notes_of entry.now) }
{
    let mut notes = Items::new(alloc);
    if let (Call::Request { request, .. }, Outcome::Asked(_)) = (&entry.call, entry.step.outcome) {
        let handed = entry.step.handed.as_slice();
        let judgement = &entry.judgement;
        notes.push(asked_note(
            alloc,
            entry.best,
            request.target,
            &judgement.nearest,
            handed,
        )?)?;
        push_missed(alloc, &mut notes, judgement.missed.as_slice())?;
        push_unreached(alloc, &mut notes, entry.unreached.as_slice())?;
    }
    Ok(notes)
}
