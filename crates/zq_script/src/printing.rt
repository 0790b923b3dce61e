//! The print of a script, made while its lines are read: no call is kept once it is answered, and
//! no step once it is printed.
ghost use Rattle.std.specs.Prelude.{◌≡◌, ◌<◌, ◌+◌, ◌^◌, ◌++◌, IfOk, OnOk, Ok, None, length, true, false};
ghost use Rattle.zq_machine.specs.Machine.{after, step};
ghost use Rattle.zq_machine.specs.State.{opening_state};
ghost use Rattle.zq_script.specs.Printing.{FitsRun, Prints, printed, printed_by};
ghost use Rattle.zq_script.specs.Running.{ReadsBack};
ghost use Rattle.zq_lines.specs.Split.{lines_of};
ghost use Rattle.zq_script.specs.Script.{parts_from, script_call, script_of, Gives};
ghost use Rattle.zq_lines.specs.Steps.{step_words};
ghost use Rattle.zq_lines.specs.StepsFit.{FitsStep};

use crate::head::head_of;
use crate::refusal::ScriptRefusal;
use crate::script::script_call;
use std::alloc::Global;
use zq_gateway::gateway::Gateway;
use zq_io::stop::Stop;
use zq_key::memory::OutOfMemory;
use zq_key::text::Bytes;
use zq_lines::fit::step_fits;
use zq_lines::split::next_line;
use zq_lines::steps::push_step;
use zq_machine::call::Call;
use zq_machine::config::Config;

/// Makes a call, and prints its step.
#[tactic(auto, using(zq_lines::proofs::Shown::step_shows))]
fn print_step(gateway: &mut Gateway, print: &mut Vec<u8>, call: &Call) -> Result<(), OutOfMemory>
    ensures print { OnOk result (print.new.items ≡ print.old.items ++ step_words (step gateway.old.state call.now)) }
    ensures fits { OnOk result (FitsStep (step gateway.old.state call.now)) }
    ensures after { OnOk result (gateway.new.state ≡ after gateway.old.state call.now) }
{
    let step = gateway.call(call)?;
    step_fits(&step);
    push_step(print, &step)?;
    Ok(())
}

/// Reads a line, makes its call and prints its step; false where the line is no call.
#[tactic(auto, using(crate::proofs::Printed::call_prints))]
fn print_line(
    alloc: Global,
    gateway: &mut Gateway,
    print: &mut Vec<u8>,
    line: &[u8],
) -> Result<bool, OutOfMemory>
    ensures called { result ≡ Ok true → Prints (script_call false line.now) gateway.old.state print.old.items gateway.new.state print.new.items }
    ensures bad { result ≡ Ok false → script_call false line.now ≡ None }
{
    match script_call(alloc, false, line) {
        Ok(call) => {
            print_step(gateway, print, &call)?;
            Ok(true)
        }
        Err(Stop::Bad) => Ok(false),
        Err(Stop::OutOfMemory) => Err(OutOfMemory),
    }
}

/// The print of the steps that the gateway answers to the lines' calls, the lines numbered from `first` on.
#[tactic(auto, using(crate::proofs::Printed::next_told, crate::proofs::Printed::next_fits, crate::proofs::Printed::line_bad))]
fn print_lines(
    alloc: Global,
    gateway: &mut Gateway,
    first: u64,
    bytes: &[u8],
) -> Result<Bytes, ScriptRefusal>
    requires { first + length bytes.now < 2 ^ 64 }
    ensures print { Gives result (printed_by gateway.old.state (parts_from first false 0 (lines_of bytes.now))) }
    ensures fits { IfOk result (λ _. FitsRun gateway.old.state (parts_from first false 0 (lines_of bytes.now))) }
{
    let mut print = Vec::new(alloc);
    let mut number = first;
    let mut rest = bytes;
    'lines: while let Some((line, after)) = next_line(rest) {
        if !print_line(alloc, gateway, &mut print, line)? {
            return Err(ScriptRefusal::BadLine(number));
        }
        number += 1;
        rest = after;
    }
    Ok(Bytes::from_vec(print))
}

/// The print of the steps that a new gateway answers to the lines' calls.
fn print_calls(
    alloc: Global,
    config: &Config,
    first: u64,
    bytes: &[u8],
) -> Result<Bytes, ScriptRefusal>
    requires { first + length bytes.now < 2 ^ 64 }
    ensures print { Gives result (printed_by (opening_state config.now) (parts_from first false 0 (lines_of bytes.now))) }
    ensures fits { IfOk result (λ _. FitsRun (opening_state config.now) (parts_from first false 0 (lines_of bytes.now))) }
{
    match Gateway::new(alloc, config) {
        Ok(mut gateway) => {
            let printed = print_lines(alloc, &mut gateway, first, bytes);
            drop(gateway);
            printed
        }
        Err(OutOfMemory) => Err(ScriptRefusal::OutOfMemory),
    }
}

/// The print of the steps of a script, which is read back as those steps. Refused is the first bad
/// line, wherever it stands.
#[tactic(auto, using(crate::proofs::Printed::script_printed, crate::proofs::Printed::script_back))]
pub fn print_script(alloc: Global, bytes: &[u8]) -> Result<Bytes, ScriptRefusal>
    ensures print { Gives result (printed (script_of 0 (lines_of bytes.now))) }
    ensures back { IfOk result (λ _. IfOk (script_of 0 (lines_of bytes.now)) ReadsBack) }
{
    let (config, _, first, rest) = head_of(alloc, bytes)?;
    print_calls(alloc, &config, first, rest)
}
