//! Informations on queryables, and their merge.
ghost use Rattle.std.specs.Prelude.{◌≡◌};
ghost use Rattle.zq_index.specs.Infos.{merge, joined, same_info};

use zq_key::message::QueryableInfoType;

/// The merge of two informations (upstream's `merge_qabl_infos`): a complete one goes before an
/// incomplete one; of equal completeness the smaller distance stands.
#[tactic(auto, using(crate::proofs::Laws::merge_swap, crate::proofs::Laws::merge_regroup, crate::proofs::Laws::merge_self))]
pub fn merge_qabl_infos(this: QueryableInfoType, info: QueryableInfoType) -> QueryableInfoType
    ensures value { result ≡ merge this info }
    ensures swapped { result ≡ merge info this }
    ensures same { merge this this ≡ this }
    ensures regrouped { (other : QueryableInfoType) → merge result other ≡ merge this (merge info other) }
{
    if this.complete == info.complete {
        QueryableInfoType {
            complete: this.complete,
            distance: this.distance.min(info.distance),
        }
    } else if this.complete {
        this
    } else {
        info
    }
}

/// The merge of what there is.
pub fn joined(
    this: Option<QueryableInfoType>,
    info: Option<QueryableInfoType>,
) -> Option<QueryableInfoType>
    ensures { result ≡ joined this info }
{
    match (this, info) {
        (Some(a), Some(b)) => Some(merge_qabl_infos(a, b)),
        (Some(a), None) => Some(a),
        (None, b) => b,
    }
}

/// Whether two informations are the same.
pub fn same_info(a: QueryableInfoType, b: QueryableInfoType) -> bool
    ensures { result ≡ same_info a b }
{
    a.complete == b.complete && a.distance == b.distance
}
