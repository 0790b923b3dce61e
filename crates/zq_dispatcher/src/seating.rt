//! A face that is opened enters the open ones, and those that have numbers.
#![tactic(auto)]

ghost use Rattle.std.specs.Prelude.{◌≡◌, None, OnOk, OnErr};
ghost use Rattle.std.specs.BTreeMap.{insert_entry, is_at};
ghost use Rattle.std.specs.Map.{remove_entry};
ghost use Rattle.std.specs.Ordering.{nat_cmp};
ghost use Rattle.zq_machine.specs.Deciding.{opened, seat};
ghost use Rattle.zq_machine.specs.State.{at};
ghost use Rattle.zq_tables.specs.Naming.{closed_naming, naming_at, opened_naming};

use std::collections::BTreeMap;
use zq_key::memory::OutOfMemory;
use zq_key::message::FaceId;
use zq_machine::call::Opening;
use zq_machine::face::OpenFace;
use zq_strategy::types::FaceRecord;
use zq_tables::naming::Naming;

/// An open face as the gateway keeps it.
pub fn opened(opening: &Opening) -> OpenFace
    ensures { result ≡ opened opening.now }
{
    OpenFace {
        region: opening.region,
        zid: opening.zid,
        mode: opening.mode,
        remote_bound: opening.remote_bound,
    }
}

/// A new face as its region's hat keeps it.
pub fn seat(face: FaceId, opening: &Opening) -> FaceRecord
    ensures { result ≡ seat face.0 opening.now }
{
    FaceRecord {
        face,
        zid: opening.zid,
        mode: opening.mode,
        remote_bound: opening.remote_bound,
    }
}

/// A face joins the open ones and those that have numbers. Each of them is as before where no memory is
/// found.
pub fn enter(
    names: &mut Naming,
    faces: &mut BTreeMap<u32, OpenFace>,
    face: FaceId,
    place: OpenFace,
) -> Result<(), OutOfMemory>
    requires named { naming_at face.0 names.old ≡ None }
    requires absent { at face.0 faces.old.entries ≡ None }
    ensures names { OnOk result (names.new ≡ opened_naming face.0 names.old) }
    ensures faces { OnOk result (faces.new.entries ≡ insert_entry nat_cmp faces.old.entries face.0 place) }
    ensures no_names { OnErr result (names.new ≡ names.old) }
    ensures no_faces { OnErr result (faces.new.entries ≡ faces.old.entries) }
{
    names.open(face)?;
    match faces.insert(face.0, place) {
        Ok(_) => Ok(()),
        Err(_) => {
            names.close(face);
            Err(OutOfMemory)
        }
    }
}

/// A face leaves them. It takes no memory.
pub fn leave(names: &mut Naming, faces: &mut BTreeMap<u32, OpenFace>, face: FaceId)
    ensures names { names.new ≡ closed_naming face.0 names.old }
    ensures faces { faces.new.entries ≡ remove_entry (is_at (nat_cmp face.0)) faces.old.entries }
{
    let _ = faces.remove(&face.0);
    names.close(face);
}
