//! Where workers make their calls.
ghost use Rattle.zq_program.specs.Faults.{HasFaults};

use std::sync::Wait;
use zq_shared::Link;

/// Where workers make their calls.
pub trait Works<W> {
    ghost use Rattle.std.specs.Prelude.{Bool};

    /// The worker may begin.
    ghost ready: { W → Type 0 };

    /// The worker made its calls.
    ghost worked: { W → W → Type 0 };

    /// All that the worker had to send was sent.
    ghost sent: { W → Bool };

    /// The worker makes its calls over the link.
    fn run<L: Link, R: Wait>(&self, rt: &R, worker: &mut W, link: &mut L)
        requires { ready worker.old }
        ensures worked { worked worker.old worker.new }
        ensures faults { HasFaults (sent worker.new) (L.faults link.old) (L.faults link.new) };
}
