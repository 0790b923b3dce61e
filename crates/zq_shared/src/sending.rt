//! Messages that go on where others were sent. No function here may wait, so none takes a lock.
ghost use Rattle.std.specs.Prelude.{[], ◌∷◌};
ghost use Rattle.std.specs.List.{cons_option};
ghost use Rattle.zq_shared.specs.Sending.{Delivers};

use crate::{Link, send_all};
use zq_machine::handed::Handed;

/// Sends the messages that leave, unless there was a fault. It answers how many were sent with those before.
pub fn send_on<L: Link>(
    link: &mut L,
    sent: Result<u64, u64>,
    messages: &[Handed],
) -> Result<u64, u64>
    ensures { Delivers messages.now (record { taken = L.taken link.old; faults = L.faults link.old; sent = sent }) (record { taken = L.taken link.new; faults = L.faults link.new; sent = result }) }
{
    let before = sent?;
    match send_all(link, messages) {
        Ok(more) => Ok(before.saturating_add(more)),
        Err(more) => Err(before.saturating_add(more)),
    }
}

/// Sends a message, if it leaves and there was no fault.
fn send_one<L: Link>(link: &mut L, sent: Result<u64, u64>, message: &Handed) -> Result<u64, u64>
    ensures { Delivers (message.now ∷ []) (record { taken = L.taken link.old; faults = L.faults link.old; sent = sent }) (record { taken = L.taken link.new; faults = L.faults link.new; sent = result }) }
{
    let before = sent?;
    if message.leaves().is_none() {
        return Ok(before);
    }
    match link.send(message) {
        Ok(()) => Ok(before.saturating_add(1)),
        Err(_) => Err(before),
    }
}

/// Sends a final, if there is one and there was no fault.
pub fn send_final<L: Link>(
    link: &mut L,
    sent: Result<u64, u64>,
    end: Option<Handed>,
) -> Result<u64, u64>
    ensures { Delivers (cons_option end []) (record { taken = L.taken link.old; faults = L.faults link.old; sent = sent }) (record { taken = L.taken link.new; faults = L.faults link.new; sent = result }) }
{
    match end {
        Some(end) => send_one(link, sent, &end),
        None => sent,
    }
}
