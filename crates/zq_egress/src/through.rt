//! Messages go through the gates of their faces, in their order, and back.
ghost use Rattle.std.specs.Prelude.{◌≡◌, ◌≤◌, [], length, fold, slice_get, vec_capacity, IfOk, OnOk, OnErr};
ghost use Rattle.std.specs.List.{All};
ghost use Rattle.zq_machine.specs.Gates.{gate_at, leaves_by, let_out, through, with_given, without_ended};
ghost use Rattle.zq_machine.specs.Handing.{left as left_of};
ghost use Rattle.zq_namespace.specs.Out.{left};
ghost use Rattle.zq_namespace.specs.Undone.{mux_ended, mux_given, mux_undone};
ghost use Rattle.zq_egress.specs.Exits.{left_by, put_exit, undone_at, undone_by, HasText};
ghost use Rattle.zq_egress.specs.Steps.{left_at, undone_if};

use crate::exits::Exit;
use crate::face_mux::FaceMux;
use std::alloc::Global;
use std::collections::BTreeMap;
use zq_machine::handed::{Handed, Leaves};
use zq_message::memory::OutOfMemory;
use zq_message::message::Message;
use zq_namespace::{Kept, Out};

/// The gates of faces, by number.
pub(crate) type GateMap = BTreeMap<u32, FaceMux>;

/// What leaves of a message by the gate of its face, and all of it without one.
fn leave_at(gates: &GateMap, text: &str, handed: &Handed) -> Result<Out<Message>, OutOfMemory>
    requires { HasText text.now handed.now }
    ensures { IfOk result (λ o. left handed.now.message o ≡ leaves_by (gate_at handed.now.to.0 gates.now.entries) text.now handed.now.message) }
{
    match gates.get(&handed.to().0) {
        Some(gate) => gate.lets_out(text, handed.message()),
        None => Ok(Out::Same),
    }
}

/// What a message gives is kept at the gate of its face.
fn keep_at(gates: &mut GateMap, handed: &Handed) -> Result<Kept, OutOfMemory>
    ensures ok { OnOk result (gates.new.entries ≡ put_exit handed.now.to.0 (λ s. mux_given s handed.now.message) gates.old.entries (gate_at handed.now.to.0 gates.old.entries)) }
    ensures back { IfOk result (λ k. put_exit handed.now.to.0 (mux_undone k handed.now.message) gates.new.entries (gate_at handed.now.to.0 gates.new.entries) ≡ gates.old.entries) }
    ensures err { OnErr result (gates.new.entries ≡ gates.old.entries) }
{
    match gates.get_mut(&handed.to().0) {
        Some(gate) => gate.keep(handed.message()),
        None => Ok(Kept::Already),
    }
}

/// What was kept of a message is undone at the gate of its face.
fn undo_at(gates: &mut GateMap, handed: &Handed, exit: Exit)
    ensures { gates.new.entries ≡ undone_at exit handed.now gates.old.entries }
{
    match gates.get_mut(&handed.to().0) {
        Some(gate) => gate.undo(handed.message(), exit.kept),
        None => {}
    }
}

/// What a message ends is dropped at the gate of its face.
fn end_at(gates: &mut GateMap, handed: &Handed)
    ensures { gates.new.entries ≡ put_exit handed.now.to.0 (λ s. mux_ended s handed.now.message) gates.old.entries (gate_at handed.now.to.0 gates.old.entries) }
{
    match gates.get_mut(&handed.to().0) {
        Some(gate) => gate.end(handed.message()),
        None => {}
    }
}

/// A message goes through the gate of its face.
fn let_one(
    gates: &mut GateMap,
    alloc: Global,
    text: &str,
    handed: &Handed,
) -> Result<Exit, OutOfMemory>
    requires { HasText text.now handed.now }
    ensures out { IfOk result (λ e. record handed.now { leaves = left_of handed.now.message e.leaves } ≡ through text.now gates.old.entries handed.now) }
    ensures gates { OnOk result (gates.new.entries ≡ with_given (through text.now gates.old.entries handed.now) gates.old.entries) }
    ensures back { IfOk result (λ e. undone_at e handed.now gates.new.entries ≡ gates.old.entries) }
    ensures err { OnErr result (gates.new.entries ≡ gates.old.entries) }
{
    match leave_at(gates, text, handed)? {
        Out::Same => Ok(Exit {
            leaves: Leaves::Same,
            kept: Kept::Already,
        }),
        Out::Other(other) => Ok(Exit {
            leaves: Leaves::Other(Box::new(alloc, other)?),
            kept: Kept::Already,
        }),
        Out::Nothing => Ok(Exit {
            leaves: Leaves::Nothing,
            kept: keep_at(gates, handed)?,
        }),
    }
}

/// Messages go through, one after another, as far as there is memory; there is room for what is
/// known of each.
pub(crate) fn let_each(
    gates: &mut GateMap,
    alloc: Global,
    text: &str,
    handed: &[Handed],
    exits: &mut Vec<Exit>,
) -> Result<(), OutOfMemory>
    requires keys { All (HasText text.now) handed.now }
    requires first { exits.old.items ≡ [] }
    requires room { length handed.now ≤ vec_capacity exits.old }
    ensures out { OnOk result (let_out text.now handed.now gates.old.entries ≡ record { handed = left_by exits.new.items handed.now; gates = gates.new.entries }) }
    ensures back { undone_by exits.new.items handed.now gates.new.entries ≡ gates.old.entries }
{
    for message in handed {
        exits.push_reserved(let_one(gates, alloc, text, message)?);
    }
    Ok(())
}

/// What was kept of the message at a place is undone, if there is one.
fn undo_if(gates: &mut GateMap, handed: &[Handed], at: usize, exit: Exit)
    ensures { gates.new.entries ≡ undone_if exit (slice_get handed.now at) gates.old.entries }
{
    match handed.get(at) {
        Some(handed) => undo_at(gates, handed, exit),
        None => {}
    }
}

/// What was kept of messages is undone, the last first.
pub(crate) fn undo_each(gates: &mut GateMap, handed: &[Handed], mut exits: Vec<Exit>)
    ensures { gates.new.entries ≡ undone_by exits.items handed.now gates.old.entries }
{
    while let Some(exit) = exits.pop() {
        undo_if(gates, handed, exits.len(), exit);
    }
}

/// This leaves of the message at a place, if there is one.
fn put_at(handed: &mut Vec<Handed>, at: usize, exit: Exit)
    ensures { handed.new.items ≡ left_at exit.leaves at (slice_get handed.old.items at) handed.old.items }
{
    match handed.get_mut(at) {
        Some(message) => message.set_leaves(exit.leaves),
        None => {}
    }
}

/// Messages with what leaves of them.
pub(crate) fn put_each(mut handed: Vec<Handed>, mut exits: Vec<Exit>) -> Vec<Handed>
    ensures { result.items ≡ left_by exits.items handed.items }
{
    while let Some(exit) = exits.pop() {
        put_at(&mut handed, exits.len(), exit);
    }
    handed
}

/// What a message that did not leave ends is dropped.
fn end_unless_left(gates: &mut GateMap, handed: &Handed)
    ensures { gates.new.entries ≡ without_ended gates.old.entries handed.now }
{
    if handed.leaves().is_none() {
        end_at(gates, handed);
    }
}

/// What messages that did not leave end is dropped.
pub(crate) fn end_each(gates: &mut GateMap, handed: &[Handed])
    ensures { gates.new.entries ≡ fold without_ended gates.old.entries handed.now }
{
    for message in handed {
        end_unless_left(gates, message);
    }
}
