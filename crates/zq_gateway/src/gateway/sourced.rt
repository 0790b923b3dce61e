//! Who declared the keys that meet one that is asked for, and who asks for them.
ghost use Rattle.std.specs.Prelude.{◌≡◌, IfOk, IsTrue};
ghost use Rattle.zq_key.specs.Key.{is_key};
ghost use Rattle.zq_hat.specs.Sourced.{queriers_on, queryables_on};
ghost use Rattle.zq_machine.specs.Configs.{north_of};

use crate::gateway::Gateway;
use zq_hat::asked::{queriers_on, queryables_on};
use zq_hat::sources::{Source, SourceList};
use zq_key::memory::OutOfMemory;

impl Gateway {
    /// Of `sourced_queryables` what is on the keys that meet the one that is asked for. Keys of which the
    /// first bytes show that they do not meet it are passed over by one search.
    pub fn sourced_queryables_on(&self, key: &str) -> Result<SourceList, OutOfMemory>
        requires { IsTrue (is_key key.now) }
        ensures { IfOk result (λ l. l ≡ queryables_on key.now (record { zid = self.now.state.core.config.zid; mode = north_of self.now.state.core.config.entries }) self.now.state.core.hats) }
    {
        let own = Source {
            zid: self.zid(),
            mode: self.north(),
        };
        queryables_on(self.tables.alloc(), self.tables.hats(), own, key)
    }

    /// Of `sourced_queriers` what is on the keys that meet the one that is asked for.
    pub fn sourced_queriers_on(&self, key: &str) -> Result<SourceList, OutOfMemory>
        requires { IsTrue (is_key key.now) }
        ensures { IfOk result (λ l. l ≡ queriers_on key.now self.now.state.core.interests self.now.state.core.hats) }
    {
        queriers_on(
            self.tables.alloc(),
            self.tables.hats(),
            self.tables.interests(),
            key,
        )
    }
}
