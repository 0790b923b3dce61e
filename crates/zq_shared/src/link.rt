//! Where messages go.
ghost use Rattle.std.specs.Prelude.{◌≡◌, ◌≤◌, ℕ, [], ◌∷◌, length, take, Option, List, IfOk, IfErr, OnErr, OnOk};
ghost use Rattle.zq_machine.specs.Handing.{Handed};
ghost use Rattle.zq_io.specs.Streams.{HasCause, Rose};
ghost use Rattle.zq_shared.specs.Links.{Takes, leaving, with_taken};

use zq_io::streams::Failed;
use zq_machine::handed::Handed;

/// Where messages go.
pub trait Link {
    /// The messages that were taken, where the link tells them.
    ghost taken: { Self → Option (List Handed) };

    /// How often it has failed; the count never falls.
    ghost faults: { Self → ℕ };

    /// Takes what leaves of a message.
    fn send(&mut self, handed: &Handed) -> Result<(), Failed>
        ensures kept { Takes (taken self.old) (taken self.new) handed.now result }
        ensures cause { HasCause (faults self.old) (faults self.new) result };
}

/// Sends those of the messages that leave, in order, up to the first fault. It answers how many were taken.
pub fn send_all<L: Link>(link: &mut L, handed: &[Handed]) -> Result<u64, u64>
    ensures ok { IfOk result (λ n. n ≡ length (leaving handed.now)) }
    ensures all { OnOk result (L.taken link.new ≡ with_taken (L.taken link.old) (leaving handed.now)) }
    ensures quiet { OnOk result (L.faults link.new ≡ L.faults link.old) }
    ensures few { IfErr result (λ n. n ≤ length (leaving handed.now)) }
    ensures front { IfErr result (λ n. L.taken link.new ≡ with_taken (L.taken link.old) (take n (leaving handed.now))) }
    ensures fault { OnErr result (Rose (L.faults link.old) (L.faults link.new)) }
    ensures later { L.faults link.old ≤ L.faults link.new }
{
    let mut sent: u64 = 0;
    'messages: for message in handed {
        if message.leaves().is_some() {
            let Ok(()) = link.send(message) else {
                return Err(sent);
            };
            sent += 1;
        }
    }
    Ok(sent)
}
