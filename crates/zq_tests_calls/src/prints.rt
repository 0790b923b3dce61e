use std::alloc::Global;
use zq_key::items::Items;
use zq_key::memory::OutOfMemory;
use zq_key::message::{FaceId, Message, ResponseFinal};
use zq_lines::steps::{print_message, print_steps};
use zq_machine::call::{Outcome, Step};
use zq_machine::handed::{Handed, Leaves};

/// A final of which this leaves.
fn handed(rid: u32, leaves: Leaves) -> Handed {
    let message = Message::ResponseFinal(ResponseFinal { rid, qos: 0 });
    Handed::through(FaceId(1), Some(0), None, message, leaves)
}

/// A final that leaves in the place of another.
fn other(alloc: Global, rid: u32) -> Result<Leaves, OutOfMemory> {
    let message = Message::ResponseFinal(ResponseFinal { rid, qos: 0 });
    Ok(Leaves::Other(Box::new(alloc, message)?))
}

/// A step that hands a final of each kind.
fn step(alloc: Global) -> Result<Step, OutOfMemory> {
    let mut list = Items::new(alloc);
    list.push(handed(7, Leaves::Same))?;
    list.push(handed(7, other(alloc, 7)?))?;
    list.push(handed(7, other(alloc, 8)?))?;
    list.push(handed(7, Leaves::Nothing))?;
    Ok(Step {
        outcome: Outcome::Replied(None),
        handed: list,
    })
}

/// Whether the step is printed so.
fn step_is_printed(alloc: Global, want: &[u8]) -> Result<bool, OutOfMemory> {
    let steps = vec![in alloc; step(alloc)?]?;
    Ok(print_steps(alloc, steps.as_slice())?.as_slice() == want)
}

#[test]
fn steps_are_printed(rt: HostRuntime) {
    let want =
        b"= replied -\n> 1 0 - final 7 0\n> 1 0 - final 7 0\n> 1 0 - final 7 0\n< final 8 0\n> 1 0 - final 7 0\n< -\n";
    assert_eq!(rt; step_is_printed(rt.alloc(), want.as_slice()), Ok(true));
}

/// Whether the message is printed so.
fn is_printed(alloc: Global, message: &Message, want: &[u8]) -> Result<bool, OutOfMemory> {
    Ok(print_message(alloc, message)?.as_slice() == want)
}

/// Whether a final is printed so.
fn final_is_printed(alloc: Global, want: &[u8]) -> Result<bool, OutOfMemory> {
    is_printed(alloc, handed(7, Leaves::Same).message(), want)
}

#[test]
fn messages_are_printed(rt: HostRuntime) {
    assert_eq!(rt;
        final_is_printed(rt.alloc(), b"final 7 0".as_slice()),
        Ok(true)
    );
}
