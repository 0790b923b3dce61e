//! What holds nodes of the names at a face.
use zq_key::message::Mapping;

// The numbers of the side that a mapping names in what the face sends, or the face's queryables, or
// its interests with a key.
#[derive(Clone, Copy)]
pub(crate) enum Holder {
    Number(Mapping),
    Queryable,
    Interest,
}
