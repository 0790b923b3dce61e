//! A storage.
use crate::held::Held;
use std::marker::Model;
use zq_key::Key;
use zq_key::message::FaceId;

/// A storage: the key that it answers for, its face, whether it is complete, and what it holds.
pub struct Storage {
    pub(crate) key: Key,
    pub(crate) face: FaceId,
    pub(crate) complete: bool,
    pub(crate) held: Held,
}

impl Drop for Storage {
    fn drop(self) {
        let Storage {
            key,
            face,
            complete,
            held,
        } = self;
    }
}

impl Model for Storage {
    ghost use Rattle.zq_store.specs.Stores.{Stored};

    ghost Value = { Stored };

    ghost view = { λ s. record { key = s.key; face = s.face; complete = s.complete; held = s.held } };
}
