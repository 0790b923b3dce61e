//! Whether a key is matched.
ghost use Rattle.std.specs.Prelude.{◌≡◌, ◌||◌, IsTrue, true};
ghost use Rattle.std.specs.List.{AllByRecursion, list_any};
ghost use Rattle.zq_key.specs.Key.{is_key};
ghost use Rattle.zq_strategy.specs.Regions.{strategy_at};
ghost use Rattle.zq_hat.specs.Status.{face_matches, is_match, is_matched, is_other_match, matches, own_matches, remote_matches};

use crate::face::HatFace;
use crate::hat::Hat;
use crate::infos::InfoList;
use std::collections::BTreeMap;
use zq_key::includes;
use zq_key::message::{FaceId, QueryableInfoType};
use zq_key::text::Text;
use zq_strategy::types::{Declaration, Strategy};

/// Where a match may stand, as its face sees it. (`Locality`)
#[derive(Clone, Copy, Debug, PartialEq, Eq)]
pub enum Locality {
    /// At the face itself.
    SessionLocal,
    /// At another face, or in another region.
    Remote,
    /// At either.
    Any,
}

/// Whether the declared key includes the key, and is complete if that is asked.
fn matches(declared: &str, info: QueryableInfoType, key: &str, complete: bool) -> bool
    requires declared { IsTrue (is_key declared.now) }
    requires key { IsTrue (is_key key.now) }
    ensures { result ≡ matches key.now complete (declared.now, info) }
{
    includes(declared, key) && (!complete || info.complete)
}

/// Whether one of the declarations matches.
fn any_matches(declared: &BTreeMap<u32, Declaration>, key: &str, complete: bool) -> bool
    requires { IsTrue (is_key key.now) }
    ensures { result ≡ list_any (is_match key.now complete) declared.now.entries }
{
    for (_, declaration) in declared {
        if matches(declaration.key.as_str(), declaration.info, key, complete) {
            return true;
        }
    }
    false
}

/// Whether the face itself declared a match.
fn own_matches(hat: &Hat, face: FaceId, key: &str, complete: bool) -> bool
    requires { IsTrue (is_key key.now) }
    ensures { result ≡ own_matches face.0 key.now complete hat.now }
{
    match hat.faces().get(&face.0) {
        Some(own) => any_matches(own.declared(), key, complete),
        None => false,
    }
}

/// Whether another of the faces declared a match.
fn others_match(faces: &BTreeMap<u32, HatFace>, face: FaceId, key: &str, complete: bool) -> bool
    requires { IsTrue (is_key key.now) }
    ensures { result ≡ list_any (is_other_match face.0 key.now complete) faces.now.entries }
{
    for (number, other) in faces {
        if *number != face.0 && any_matches(other.declared(), key, complete) {
            return true;
        }
    }
    false
}

/// Whether another region has a match.
fn regions_match(others: &[(Text, QueryableInfoType)], key: &str, complete: bool) -> bool
    requires key { IsTrue (is_key key.now) }
    requires others { AllByRecursion (λ e. is_key e.0 ≡ true) others.now }
    ensures { result ≡ list_any (matches key.now complete) others.now }
{
    for (declared, info) in others {
        if matches(declared.as_str(), *info, key, complete) {
            return true;
        }
    }
    false
}

/// Whether another face, or another region, has a match.
fn remote_matches(hat: &Hat, face: FaceId, key: &str, complete: bool, others: &InfoList) -> bool
    requires key { IsTrue (is_key key.now) }
    requires others { AllByRecursion (λ e. is_key e.0 ≡ true) others.now }
    ensures { result ≡ remote_matches face.0 key.now complete others.now hat.now }
{
    others_match(hat.faces(), face, key, complete)
        || regions_match(others.as_slice(), key, complete)
}

/// Whether a declared key includes the key, complete if that is asked, and has the asked locality: at
/// the face itself, or at another face of the region or in another region, whose informations are
/// given. It is asked of regions of brokers. (`HatQueriesTrait::remote_queryable_matching_status`)
pub fn remote_queryable_matching_status(
    hat: &Hat,
    face: FaceId,
    locality: Locality,
    key: &str,
    complete: bool,
    others: &InfoList,
) -> bool
    requires broker { strategy_at hat.now ≡ Strategy.Broker }
    requires key { IsTrue (is_key key.now) }
    requires others { AllByRecursion (λ e. is_key e.0 ≡ true) others.now }
    ensures { result ≡ is_matched face.0 locality key.now complete others.now hat.now }
{
    match locality {
        Locality::SessionLocal => own_matches(hat, face, key, complete),
        Locality::Remote => remote_matches(hat, face, key, complete, others),
        Locality::Any => {
            own_matches(hat, face, key, complete)
                || remote_matches(hat, face, key, complete, others)
        }
    }
}
