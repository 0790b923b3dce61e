//! Callers, each with its pass and its part of the ledger.
ghost use Rattle.std.specs.Prelude.{◌≡◌, ◌+◌, ◌<◌, [], IfSome};
ghost use Rattle.zq_pass.specs.Passes.{unused_pass, unused_passes};
ghost use Rattle.zq_tests_threads.specs.Passing.{MayPass};

use std::alloc::Global;
use std::sync::Wait;
use std::sync::ledger::{Ledger, Share};
use std::test::Fail;
use zq_machine::call::Call;
use zq_machine::config::Config;
use zq_machine::handed::Handed;
use zq_message::message::Message;
use zq_pass::{CallRefusal, Finished, Pass, PassHome, PassList, PassLock};
use zq_script::script::{Script, read_script};
use zq_shared::MemoryLink;

/// A caller: its pass, and its part of the ledger.
#[derive(Drop)]
pub(crate) struct Caller<M: Ledger> {
    pub(crate) alloc: Global,
    pub(crate) pass: Pass,
    pub(crate) made: Share<M>,
    /// How many finals were sent over its links.
    pub(crate) finals: usize,
}

/// The configuration and the calls of a script.
pub(crate) fn calls_of(alloc: Global, text: &str) -> Result<(Config, Vec<Call>), Fail> {
    match read_script(alloc, text.as_bytes(), 0) {
        Ok(
            Script {
                head: _,
                config,
                parts,
            },
        ) => Ok((config, parts.into_vec().pop().ok_or("a part")?.into_vec())),
        Err(_) => Err(Fail::from("a script")),
    }
}

/// How many of the messages are finals.
fn finals_in(messages: &[Handed]) -> usize {
    let mut count = 0usize;
    for message in messages {
        if matches!(message.message(), Message::ResponseFinal(_)) {
            count = count.saturating_add(1);
        }
    }
    count
}

/// Makes a call that is no report, over a link in memory. It answers its place, or whether every slot is allotted.
pub(crate) fn place_of<H: PassHome, M: Ledger, R: Wait>(
    rt: &R,
    lock: &PassLock<H, M>,
    caller: &mut Caller<M>,
    call: Call,
) -> Result<u64, bool>
    requires { MayPass H.home caller.old.pass caller.old.made.parts }
    ensures { MayPass H.home caller.new.pass caller.new.made.parts }
{
    if call.is_sent() {
        return Err(false);
    }
    let mut link = MemoryLink::new(caller.alloc, Vec::new(caller.alloc));
    let answer = lock.call(rt, &mut caller.pass, &mut caller.made, &mut link, call);
    caller.finals = caller.finals.saturating_add(finals_in(link.taken()));
    match answer {
        Ok(passed) => Ok(passed.place),
        Err(CallRefusal::Full(_)) => Err(true),
        Err(_) => Err(false),
    }
}

/// The two passes of a list.
pub(crate) fn take_both<H: PassHome>(list: &mut PassList) -> Option<(Pass, Pass)>
    requires { list.old ≡ record { home = H.home; passes = unused_passes H.home 2; most = 2 } }
    ensures passes { IfSome result (λ r. (r.0 ≡ unused_pass H.home 0) × (r.1 ≡ unused_pass H.home 1)) }
    ensures list { IfSome result (λ r. list.new ≡ record { home = H.home; passes = []; most = 2 }) }
{
    let zero = list.take()?;
    let one = list.take()?;
    Some((zero, one))
}

/// Both passes are given back, and the lock is taken away.
pub(crate) fn end_both<H: PassHome, M: Ledger>(
    lock: PassLock<H, M>,
    mut list: PassList,
    zero: Caller<M>,
    one: Caller<M>,
) -> Finished
    requires list { list ≡ record { home = H.home; passes = []; most = 2 } }
    requires zero { zero.pass.home ≡ H.home }
    requires one { one.pass.home ≡ H.home }
    requires parts { zero.made.parts + one.made.parts ≡ M.parts }
{
    let Caller {
        alloc: _,
        pass,
        mut made,
        finals: _,
    } = zero;
    list.put(pass);
    let Caller {
        alloc: _,
        pass,
        made: more,
        finals: _,
    } = one;
    list.put(pass);
    made.merge(more);
    lock.finish(list, made)
}
