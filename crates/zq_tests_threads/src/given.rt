//! What the tests are given: scripts, and what is printed of calls and messages.
use std::alloc::Global;
use std::test::Fail;
use zq_lines::calls::print_call;
use zq_lines::steps::print_message;
use zq_machine::call::Call;
use zq_machine::config::Config;
use zq_machine::handed::Handed;
use zq_message::items::Items;
use zq_script::script::{Script, read_script};

/// The configuration and the parts of a script.
pub(crate) fn parts_of(alloc: Global, text: &str) -> Result<(Config, Vec<Items<Call>>), Fail> {
    match read_script(alloc, text.as_bytes(), 2) {
        Ok(
            Script {
                head: _,
                config,
                parts,
            },
        ) => Ok((config, parts.into_vec())),
        Err(_) => Err(Fail::from("a script")),
    }
}

/// The last part of a script.
pub(crate) fn last_part(parts: &mut Vec<Items<Call>>) -> Result<Vec<Call>, Fail> {
    Ok(parts.pop().ok_or("a part")?.into_vec())
}

/// What leaves of messages, one a line.
pub(crate) fn print_leaving(alloc: Global, taken: &[Handed]) -> Result<Vec<u8>, Fail> {
    let mut print = Vec::new(alloc);
    for handed in taken {
        let Some(message) = handed.leaves() else {
            return Err(Fail::from("it leaves"));
        };
        print.extend_from_slice(print_message(alloc, message)?.as_slice())?;
        print.push(b'\n')?;
    }
    Ok(print)
}

/// Calls, one a line.
pub(crate) fn print_calls(alloc: Global, calls: &[Call]) -> Result<Vec<u8>, Fail> {
    let mut print = Vec::new(alloc);
    for call in calls {
        print.extend_from_slice(print_call(alloc, call)?.as_slice())?;
        print.push(b'\n')?;
    }
    Ok(print)
}
