//! Which shared gateway a lock is of.
use std::marker::Brand;

/// A name for a shared gateway. It means a configuration, the holds of one `Shared::new`, and a list of calls or none; with a list,
/// each stored call that reports no reply is one of it.
pub trait Home {
    ghost use Rattle.std.specs.Prelude.{List, Option};
    ghost use Rattle.atomic_table.specs.Seated.{TableId};
    ghost use Rattle.zq_machine.specs.declared.call.Call.{Call};
    ghost use Rattle.zq_machine.specs.Configs.{Settings};

    ghost config: { Settings };

    ghost holds: { TableId };

    ghost list: { Option (List Call) };
}

impl Home for Brand {
    ghost use Rattle.std.specs.Prelude.{[], None};
    ghost use Rattle.zq_shared.specs.Homes.{no_config, no_holds};

    ghost config = { no_config };

    ghost holds = { no_holds };

    ghost list = { None };
}
