//! What a hat shows of what it has.
ghost use Rattle.std.specs.Prelude.{◌≡◌};
ghost use Rattle.zq_hat.specs.Tied.{IsTied};

use crate::face::HatFace;
use crate::hat::Hat;
use std::collections::BTreeMap;
use zq_index::holders::{FacePlace, KeyHolders};
use zq_key::message::Zid;
use zq_routers::entries::Entries;

impl Hat {
    /// The gateway's own id.
    pub fn own(&self) -> Zid
        ensures { result ≡ self.now.own }
    {
        self.own
    }

    /// The faces with what they declared, by number.
    pub fn faces(&self) -> &BTreeMap<u32, HatFace>
        ensures { result.now.entries ≡ self.now.faces }
    {
        &self.faces
    }

    /// What the faces declared, by key.
    pub(crate) fn declared_by_key(&self) -> &KeyHolders<FacePlace>
        ensures { IsTied self.now.faces result.now }
    {
        &self.index
    }

    /// What routers announced.
    pub fn entries(&self) -> &Entries
        ensures { result.now ≡ self.now.entries }
    {
        &self.entries
    }
}
