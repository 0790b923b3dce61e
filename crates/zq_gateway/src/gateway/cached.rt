//! What a gateway keeps of what its regions offer.
ghost use Rattle.std.specs.Prelude.{◌≡◌, true, false, IfSome, None, Some, option_copied};
ghost use Rattle.zq_kept.specs.Table.{route_of};
ghost use Rattle.zq_machine.specs.State.{hat_at};
ghost use Rattle.zq_message.specs.Region.{HasIndex};
ghost use Rattle.zq_strategy.specs.Offers.{offers_of};
ghost use Rattle.zq_strategy.specs.State.{HatState};
ghost use Rattle.zq_tables.specs.Naming.{has_context};

use crate::gateway::Gateway;
use zq_key::message::{NodeId, Region};
use zq_strategy::types::OfferList;

impl Gateway {
    /// What is kept of what a region offers on a key to what a region's node asks: what it offers now. The
    /// node is the number that the asker's region maps a request's node to, and 0 where the asker is of
    /// another region. None where the table of texts has no node for the key. It takes no memory.
    pub fn cached(
        &self,
        destination: &Region,
        asker: &Region,
        node: NodeId,
        key: &str,
    ) -> Option<&OfferList>
        ensures value { IfSome result (λ os. (h : HatState) → hat_at destination.now self.now.state.core.hats ≡ Some h → os.now ≡ offers_of h asker.now key.now (Some node)) }
        ensures there { has_context key.now self.now.state.names ≡ true → HasIndex destination.now → HasIndex asker.now → option_copied result ≡ route_of destination.now key.now asker.now node self.now.routes }
        ensures unnamed { has_context key.now self.now.state.names ≡ false → result ≡ None }
    {
        if !self.tables.has_context(key) {
            return None;
        }
        self.routes.get(destination, asker, node, key)
    }
}
