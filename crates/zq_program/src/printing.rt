//! The print of a shared run.
ghost use Rattle.std.specs.Prelude.{◌≡◌, ◌++◌, IfOk, OnOk};
ghost use Rattle.zq_lines.specs.CallLines.{call_words};
ghost use Rattle.zq_machine.specs.Machine.{after, step, steps, steps_from};
ghost use Rattle.zq_lines.specs.Steps.{step_words, steps_words};
ghost use Rattle.zq_script.specs.Head.{ended};
ghost use Rattle.zq_program.specs.Printing.{calls_words, shared_print};

use std::alloc::{AllocError, Global};
use zq_gateway::gateway::Gateway;
use zq_io::words::{push_byte, push_text};
use zq_key::memory::OutOfMemory;
use zq_key::text::Bytes;
use zq_lines::calls::push_call;
use zq_lines::steps::push_step;
use zq_machine::call::Call;
use zq_machine::config::Config;

/// Writes a call as a line.
fn push_line(out: &mut Vec<u8>, call: &Call) -> Result<(), AllocError>
    ensures { OnOk result (out.new.items ≡ out.old.items ++ ended (call_words call.now)) }
{
    push_call(out, call)?;
    push_byte(out, b'\n')
}

/// Writes calls, each as a line.
fn push_calls(out: &mut Vec<u8>, calls: &[Call]) -> Result<(), AllocError>
    ensures { OnOk result (out.new.items ≡ out.old.items ++ calls_words calls.now) }
{
    for call in calls {
        push_line(out, call)?;
    }
    Ok(())
}

/// Makes a call, and writes its step.
fn push_answer(out: &mut Vec<u8>, gateway: &mut Gateway, call: &Call) -> Result<(), OutOfMemory>
    ensures print { OnOk result (out.new.items ≡ out.old.items ++ step_words (step gateway.old.state call.now)) }
    ensures after { OnOk result (gateway.new.state ≡ after gateway.old.state call.now) }
{
    let step = gateway.call(call)?;
    push_step(out, &step)?;
    Ok(())
}

/// Writes the steps that the gateway answers to calls, one after another. No step is kept once it is written.
fn push_answers(out: &mut Vec<u8>, gateway: &mut Gateway, calls: &[Call]) -> Result<(), OutOfMemory>
    ensures { OnOk result (out.new.items ≡ out.old.items ++ steps_words (steps_from gateway.old.state calls.now)) }
{
    for call in calls {
        push_answer(out, gateway, call)?;
    }
    Ok(())
}

/// Writes the steps that a new gateway answers to calls.
fn push_replay(
    alloc: Global,
    out: &mut Vec<u8>,
    config: &Config,
    calls: &[Call],
) -> Result<(), OutOfMemory>
    ensures { OnOk result (out.new.items ≡ out.old.items ++ steps_words (steps config.now calls.now)) }
{
    match Gateway::new(alloc, config) {
        Ok(mut gateway) => {
            let written = push_answers(out, &mut gateway, calls);
            drop(gateway);
            written
        }
        Err(error) => Err(error),
    }
}

/// The print of a shared run: the lines before the calls, the stored calls as lines, a line `--`, and the steps of their replay.
pub fn print_shared(
    alloc: Global,
    head: &[u8],
    config: &Config,
    calls: &[Call],
) -> Result<Bytes, OutOfMemory>
    ensures { IfOk result (λ b. b ≡ shared_print head.now config.now calls.now) }
{
    let mut out = Vec::from_slice(alloc, head)?;
    push_calls(&mut out, calls)?;
    push_text(&mut out, "--\n")?;
    push_replay(alloc, &mut out, config, calls)?;
    Ok(Bytes::from_vec(out))
}
