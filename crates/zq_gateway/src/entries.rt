//! The keys of routers' entries are let go with the last entry of a region on them.
ghost use Rattle.std.specs.Prelude.{◌≡◌, fold, true};
ghost use Rattle.std.specs.Option.{is_some};
ghost use Rattle.zq_machine.specs.State.{hat_at};
ghost use Rattle.zq_gateway.specs.Entries.{without_gone};

use zq_dispatcher::routers::has_entries;
use zq_hat::hat::Hat;
use zq_key::message::Region;
use zq_key::text::Text;
use zq_tables::RegionMap;
use zq_tables::naming::Naming;

/// The node of the key is let go where no router of the region has an entry on the key. It takes no
/// memory.
#[tactic(auto, using(zq_dispatcher::proofs::Seats::hat_region))]
pub(crate) fn release_gone(names: &mut Naming, hats: &RegionMap<Hat>, region: Region, key: &str)
    requires { is_some (hat_at region hats.now) ≡ true }
    ensures { names.new ≡ without_gone region hats.now names.old key.now }
{
    if !has_entries(hats, region, key) {
        names.release_entry(&region, key);
    }
}

/// The same of each of these keys.
pub(crate) fn release_each(names: &mut Naming, hats: &RegionMap<Hat>, region: Region, keys: &[Text])
    requires { is_some (hat_at region hats.now) ≡ true }
    ensures { names.new ≡ fold (without_gone region hats.now) names.old keys.now }
{
    for key in keys {
        release_gone(names, hats, region, key.as_str());
    }
}
