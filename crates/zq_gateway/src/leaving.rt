//! Messages go out through the gates of their faces: those of requests, replies and finals, and what
//! a call tells.
ghost use Rattle.std.specs.Prelude.{◌≡◌, ◌++◌, ◌∷◌, [], IfOk, fold, if◌then◌else◌, map};
ghost use Rattle.std.specs.List.{All};
ghost use Rattle.zq_told.specs.Rooms.{IsReady, ears_of};
ghost use Rattle.zq_told.specs.Telling.{put_plan};
ghost use Rattle.zq_machine.specs.Gates.{through, without_ended};
ghost use Rattle.zq_machine.specs.Headline.{none_leaves};
ghost use Rattle.zq_machine.specs.Machine.{done};
ghost use Rattle.zq_machine.specs.Writing.{sent_final, write};
ghost use Rattle.zq_egress.specs.Exits.{HasText, left_by};

use zq_egress::neighbours::ToldAll;
use zq_egress::write::written_final;
use zq_egress::{Exit, FaceMuxes, none_leaves};
use zq_key::memory::OutOfMemory;
use zq_machine::call::{Outcome, Step};
use zq_machine::handed::HandedList;
use zq_query::records::Final;
use zq_told::told_sets::ToldSets;

/// The messages with what leaves of each. They neither give nor end a number or an id, so that the
/// gates stay as they are. The text is the whole one that a request is on, a key.
pub(crate) fn let_out(
    gates: &mut FaceMuxes,
    text: &str,
    handed: HandedList,
) -> Result<HandedList, OutOfMemory>
    requires keys { All (HasText text.now) handed }
    requires written { (names : _) × (messages : _) × (handed ≡ write names messages) }
    ensures out { IfOk result (λ l. l ≡ map (through text.now gates.old) handed) }
    ensures same { gates.new ≡ gates.old }
{
    let exits = gates.let_out(text, handed.as_slice())?;
    Ok(gates.pass(handed, exits))
}

/// Requests, and behind them the final of theirs where none of them leaves.
pub(crate) fn with_final(mut handed: HandedList, last: Final) -> Result<HandedList, OutOfMemory>
    ensures { IfOk result (λ l. l ≡ handed ++ (if none_leaves handed then sent_final last ∷ [] else [])) }
{
    if none_leaves(handed.as_slice()) {
        handed.push(written_final(last))?;
    }
    Ok(handed)
}

/// A call is done: what it told neighbours is kept of them, and of its messages what leaves is handed.
/// It takes no memory.
pub(crate) fn done_telling(
    ears: &mut ToldSets,
    gates: &mut FaceMuxes,
    all: ToldAll,
    exits: Vec<Exit>,
) -> Step
    requires { IsReady all.plan ears.old }
    ensures step { result ≡ done (left_by exits.items all.handed) }
    ensures ears { ears_of ears.new ≡ put_plan all.plan (ears_of ears.old) }
    ensures gates { gates.new ≡ fold without_ended gates.old (left_by exits.items all.handed) }
{
    ears.put(all.plan.as_slice());
    let handed = gates.pass(all.handed, exits);
    Step {
        outcome: Outcome::Done,
        handed,
    }
}
