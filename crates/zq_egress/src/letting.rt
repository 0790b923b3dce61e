//! Requests of which nothing leaves are released.
ghost use Rattle.std.specs.Prelude.{◌≡◌, ◌∷◌, [], false, is_none};
ghost use Rattle.zq_query.specs.Records.{any_over, letting_go_all};
ghost use Rattle.zq_machine.specs.Headline.{none_leaves};
ghost use Rattle.zq_machine.specs.Writing.{unsent};

use zq_key::message::Message;
use zq_machine::handed::{Handed, Leaves};
use zq_query::queries::Queries;

/// Whether nothing leaves of a message.
fn is_unsent(message: &Handed) -> bool
    ensures { result ≡ is_none message.now.leaves }
{
    matches!(message.leaving(), Leaves::Nothing)
}

/// Whether nothing leaves of any of the messages.
pub fn none_leaves(handed: &[Handed]) -> bool
    ensures { result ≡ none_leaves handed.now }
{
    handed.iter().all(|message| is_unsent(message))
}

/// The entry of a request is released, if the message is one of which nothing leaves.
fn let_go(queries: &mut Queries, message: &Handed)
    ensures { any_over queries.old.records ≡ false → queries.new ≡ record queries.old { records = letting_go_all queries.old.records (unsent (message.now ∷ [])) } }
{
    if !is_unsent(message) {
        return;
    }
    if let Message::Request(request) = message.message() {
        let _ = queries.last(message.to(), request.id);
    }
}

/// The entries of the requests of which nothing leaves are released. It takes no memory.
pub fn let_go_unsent(queries: &mut Queries, handed: &[Handed])
    ensures { any_over queries.old.records ≡ false → queries.new ≡ record queries.old { records = letting_go_all queries.old.records (unsent handed.now) } }
{
    for message in handed {
        let_go(queries, message);
    }
}
