//! What takes the messages of faces: a gateway, or what answers all alike.
ghost use Rattle.std.specs.Prelude.{◌≡◌, [], Option, Result, Some, IfOk};
ghost use Rattle.zq_message.specs.declared.memory.OutOfMemory.{OutOfMemory as NoMemory};
ghost use Rattle.zq_message.specs.declared.message.Message.TheVariants as message;
ghost use Rattle.zq_machine.specs.declared.call.Call.{Call};
ghost use Rattle.zq_machine.specs.declared.call.Call.TheVariants as call;
ghost use Rattle.zq_machine.specs.declared.call.Step.{Step as Answer};
ghost use Rattle.zq_machine.specs.Calls.{message_call};
ghost use Rattle.zq_machine.specs.Machine.{done};

use crate::gateway::Gateway;
use std::alloc::Global;
use std::marker::Model;
use zq_key::items::Items;
use zq_key::memory::OutOfMemory;
use zq_key::message::{Declare, FaceId, Interest, Request, Response};
use zq_machine::call::{Call as Event, Outcome, Step};

/// What takes the messages of faces (upstream's `Primitives`, of one face there). Each method makes at most
/// one call.
pub trait Primitives {
    /// What is answered where a call, if there is one, is made, and what is left.
    ghost answers: { Self → Self → Option Call → Result Answer NoMemory → Type 0 };

    /// A face asks to hear.
    fn send_interest(&mut self, face: FaceId, msg: &Interest) -> Result<Step, OutOfMemory>
        ensures { answers self.old self.new (message_call face (message.Interest msg.now) 0) result };

    /// A declaration of a face. The end of declarations makes a call where it answers the interest 0.
    fn send_declare(&mut self, face: FaceId, msg: &Declare) -> Result<Step, OutOfMemory>
        ensures { answers self.old self.new (message_call face (message.Declare msg.now) 0) result };

    /// A request of a face, at a moment in milliseconds.
    fn send_request(&mut self, face: FaceId, msg: &Request, now: u64) -> Result<Step, OutOfMemory>
        ensures { answers self.old self.new (message_call face (message.Request msg.now) now) result };

    /// A reply of a target.
    fn send_response(&mut self, face: FaceId, msg: &Response) -> Result<Step, OutOfMemory>
        ensures { answers self.old self.new (message_call face (message.Response msg.now) 0) result };

    /// A target ends a query.
    fn send_response_final(&mut self, face: FaceId, rid: u32) -> Result<Step, OutOfMemory>
        ensures { answers self.old self.new (Some (call.ResponseFinal face rid)) result };

    /// A face is closed.
    fn send_close(&mut self, face: FaceId) -> Result<Step, OutOfMemory>
        ensures { answers self.old self.new (Some (call.Close face)) result };
}

impl Primitives for Gateway {
    ghost use Rattle.zq_gateway.specs.Making.{MayPerform};

    ghost answers = { MayPerform };

    fn send_interest(&mut self, face: FaceId, msg: &Interest) -> Result<Step, OutOfMemory> {
        Gateway::send_interest(self, face, msg)
    }

    fn send_declare(&mut self, face: FaceId, msg: &Declare) -> Result<Step, OutOfMemory> {
        Gateway::send_declare(self, face, msg)
    }

    fn send_request(&mut self, face: FaceId, msg: &Request, now: u64) -> Result<Step, OutOfMemory> {
        Gateway::send_request(self, face, msg, now)
    }

    fn send_response(&mut self, face: FaceId, msg: &Response) -> Result<Step, OutOfMemory> {
        Gateway::send_response(self, face, msg)
    }

    fn send_response_final(&mut self, face: FaceId, rid: u32) -> Result<Step, OutOfMemory> {
        self.call(&Event::ResponseFinal { face, rid })
    }

    fn send_close(&mut self, face: FaceId) -> Result<Step, OutOfMemory> {
        Gateway::send_close(self, face)
    }
}

/// Answers `Done` to each message, and hands nothing (upstream's `DummyPrimitives`).
#[derive(Drop)]
pub struct DummyPrimitives {
    alloc: Global,
}

impl DummyPrimitives {
    /// The allocator is that of the lists that it answers, which are empty.
    pub fn new(alloc: Global) -> DummyPrimitives {
        DummyPrimitives { alloc }
    }

    fn done(&self) -> Result<Step, OutOfMemory>
        ensures { IfOk result (λ t. t ≡ done []) }
    {
        Ok(Step {
            outcome: Outcome::Done,
            handed: Items::new(self.alloc),
        })
    }
}

impl Primitives for DummyPrimitives {
    ghost use Rattle.std.specs.Prelude.{◌≡◌, [], IfOk};
    ghost use Rattle.zq_machine.specs.Machine.{done};

    ghost answers = { λ old new c r. IfOk r (λ t. t ≡ done []) };

    fn send_interest(&mut self, _: FaceId, _: &Interest) -> Result<Step, OutOfMemory> {
        self.done()
    }

    fn send_declare(&mut self, _: FaceId, _: &Declare) -> Result<Step, OutOfMemory> {
        self.done()
    }

    fn send_request(&mut self, _: FaceId, _: &Request, _: u64) -> Result<Step, OutOfMemory> {
        self.done()
    }

    fn send_response(&mut self, _: FaceId, _: &Response) -> Result<Step, OutOfMemory> {
        self.done()
    }

    fn send_response_final(&mut self, _: FaceId, _: u32) -> Result<Step, OutOfMemory> {
        self.done()
    }

    fn send_close(&mut self, _: FaceId) -> Result<Step, OutOfMemory> {
        self.done()
    }
}
