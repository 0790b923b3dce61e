//! When a gateway is to be told next that a moment has come.
ghost use Rattle.zq_gateway.specs.Deadline.{IsNextDeadline};

use crate::gateway::Gateway;
use crate::tables::Tables;

impl Tables {
    /// The least deadline of all that open requests wait for.
    #[tactic(auto, using(crate::proofs::Deadlines::next_of))]
    fn next_deadline(&self) -> Option<u64>
        ensures { IsNextDeadline self.now.core.queries.records result }
    {
        self.queries.next_deadline()
    }
}

impl Gateway {
    /// The least deadline of all that open requests wait for, in milliseconds, and None exactly where they
    /// wait for nothing: before it a `poll` releases nothing, and at it some entry. It looks at the first
    /// of the deadlines in order, and at nothing else, and takes no memory.
    pub fn next_deadline(&self) -> Option<u64>
        ensures { IsNextDeadline self.now.state.core.queries.records result }
    {
        self.tables.next_deadline()
    }
}
