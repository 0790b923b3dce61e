//! The replies of a request are reported.
ghost use Rattle.std.specs.Prelude.{◌≡◌, ℕ, List, false};
ghost use Rattle.zq_shared.specs.Stored.{in_flight, waiting};
ghost use Rattle.zq_shared.specs.Keeping.{KeepsOthers, KeepsTies};
ghost use Rattle.zq_shared.specs.Sharing.{Reports};

use crate::journal::Journal;
use zq_machine::handed::Handed;

/// Reports all replies in flight of the request, of which no entry is pending, in order of number; the final to the asker comes of the last of them, or none. It takes no memory.
pub(crate) fn report_all(journal: &mut Journal, number: u64) -> Option<Handed>
    requires { waiting journal.old number ≡ 0 }
    ensures reports { (ks : List ℕ) × Reports journal.old number result journal.new ks }
    ensures keeps { KeepsTies journal.old number journal.new }
    ensures others { KeepsOthers journal.old number journal.new }
    ensures quiet { waiting journal.new number ≡ 0 }
    ensures none { (k : ℕ) → in_flight journal.new number k ≡ false }
{
    let mut last = None;
    'replies: while let Some(reply) = journal.first_in_flight(number) {
        let Ok(handed) = journal.sent(reply) else {
            return last;
        };
        last = handed;
    }
    last
}
