//! The gates of the faces that have one.
ghost use Rattle.std.specs.Prelude.{◌≡◌, ◌&&◌, [], None, unwrap_or, fold, option_copied, IfOk, OnOk, OnErr};
ghost use Rattle.std.specs.List.{All, AllByRecursion};
ghost use Rattle.zq_key.specs.Key.{is_key as key_of};
ghost use Rattle.zq_namespace.specs.Denied.{is_denied};
ghost use Rattle.zq_machine.specs.Gates.{denied_by, entered_by, gate_at, let_out as let_out_of, reply_by, space_of, with_gate, without_ended, IsWhole};
ghost use Rattle.zq_egress.specs.Exits.{left_by, undone_by, without_gate, HasText};

use crate::exits::Exit;
use crate::face_mux::FaceMux;
use crate::through::{GateMap, end_each, let_each, put_each, undo_each};
use std::alloc::Global;
use std::collections::BTreeMap;
use std::marker::Model;
use zq_machine::handed::{Handed, HandedList};
use zq_message::items::Items;
use zq_message::memory::OutOfMemory;
use zq_message::message::{FaceId, Response, WireExpr};
use zq_namespace::entry::{reply_behind, wire_behind};

/// The gates of the open faces that have one.
pub struct FaceMuxes {
    gates: GateMap,
    alloc: Global,
}

impl Drop for FaceMuxes {
    fn drop(self) {
        let FaceMuxes { gates, alloc } = self;
    }
}

impl Model for FaceMuxes {
    ghost use Rattle.zq_machine.specs.Gates.{Gates};

    ghost Value = { Gates };

    ghost view = { λ s. s.gates.entries };
}

impl FaceMuxes {
    /// No face has one.
    pub fn new(alloc: Global) -> FaceMuxes
        ensures { result ≡ [] }
    {
        FaceMuxes {
            gates: BTreeMap::new(alloc),
            alloc,
        }
    }

    /// A face joins those with a gate, if it has one.
    pub fn open(&mut self, face: FaceId, gate: Option<FaceMux>) -> Result<(), OutOfMemory>
        ensures ok { OnOk result (self.new ≡ with_gate face.0 gate self.old) }
        ensures back { gate_at face.0 self.old ≡ None → OnOk result (without_gate face.0 self.new ≡ self.old) }
        ensures err { OnErr result (self.new ≡ self.old) }
    {
        let Some(gate) = gate else {
            return Ok(());
        };
        match self.gates.insert(face.0, gate) {
            Ok(_) => Ok(()),
            Err(_) => Err(OutOfMemory),
        }
    }

    /// A face leaves them. It takes no memory.
    pub fn close(&mut self, face: FaceId)
        ensures { self.new ≡ without_gate face.0 self.old }
    {
        let _ = self.gates.remove(&face.0);
    }

    /// The namespace of a face, if it has one.
    fn space(&self, face: FaceId) -> Option<&str>
        ensures { option_copied result ≡ space_of (gate_at face.0 self.now) }
    {
        match self.gates.get(&face.0) {
            Some(gate) => gate.namespace(),
            None => None,
        }
    }

    /// An expression of a face as it is read, behind its namespace; None where it is read as it is.
    pub fn enter(&self, face: FaceId, wire: &WireExpr) -> Result<Option<WireExpr>, OutOfMemory>
        ensures { IfOk result (λ o. unwrap_or o wire.now ≡ entered_by (space_of (gate_at face.0 self.now)) wire.now) }
    {
        match self.space(face) {
            Some(ns) => wire_behind(self.alloc, ns, wire),
            None => Ok(None),
        }
    }

    /// The expression of a face's reply as it is read; None where it is read as it is.
    pub fn enter_reply(
        &self,
        face: FaceId,
        response: &Response,
    ) -> Result<Option<WireExpr>, OutOfMemory>
        ensures { IfOk result (λ o. unwrap_or o response.now.wire ≡ reply_by (space_of (gate_at face.0 self.now)) response.now) }
    {
        match self.space(face) {
            Some(ns) => reply_behind(self.alloc, ns, response),
            None => Ok(None),
        }
    }

    /// Whether a text is a key that a face may not ask for.
    #[tactic(auto, using(crate::proofs::Denied::none_denied))]
    pub fn denies(&self, face: FaceId, key: &str) -> bool
        ensures { result ≡ (key_of key.now && is_denied (denied_by (gate_at face.0 self.now)) key.now) }
    {
        match self.gates.get(&face.0) {
            Some(gate) => gate.denies(key),
            None => false,
        }
    }

    /// Messages go through the gates of their faces one after another. Of each it is answered what
    /// leaves; what it gives is kept where it does not leave. Nothing is answered, and nothing need be
    /// asked, where no face has a gate.
    pub fn let_out(&mut self, text: &str, handed: &[Handed]) -> Result<Vec<Exit>, OutOfMemory>
        requires keys { All (HasText text.now) handed.now }
        requires whole { AllByRecursion IsWhole handed.now }
        ensures out { IfOk result (λ es. let_out_of text.now handed.now self.old ≡ record { handed = left_by es.items handed.now; gates = self.new }) }
        ensures back { IfOk result (λ es. undone_by es.items handed.now self.new ≡ self.old) }
        ensures err { OnErr result (self.new ≡ self.old) }
    {
        if self.gates.is_empty() {
            return Ok(Vec::new(self.alloc));
        }
        let mut exits = Vec::with_capacity(self.alloc, handed.len())?;
        match let_each(&mut self.gates, self.alloc, text, handed, &mut exits) {
            Ok(()) => Ok(exits),
            Err(error) => {
                undo_each(&mut self.gates, handed, exits);
                Err(error)
            }
        }
    }

    /// Undoes what `let_out` kept of messages, by what it answered. It takes no memory.
    pub fn take_back(&mut self, handed: &[Handed], exits: Vec<Exit>)
        ensures { self.new ≡ undone_by exits.items handed.now self.old }
    {
        undo_each(&mut self.gates, handed, exits);
    }

    /// The messages with what leaves of them; what they end is kept no more. It takes no memory.
    pub fn pass(&mut self, handed: HandedList, exits: Vec<Exit>) -> HandedList
        ensures handed { result ≡ left_by exits.items handed }
        ensures gates { self.new ≡ fold without_ended self.old (left_by exits.items handed) }
    {
        let handed = Items::from_vec(put_each(handed.into_vec(), exits));
        if !self.gates.is_empty() {
            end_each(&mut self.gates, handed.as_slice());
        }
        handed
    }
}
