//! The lanes of a picture: the faces that its rows name, as they were opened.
ghost use Rattle.std.specs.Prelude.{◌≡◌, IfOk, OnOk, map};
ghost use Rattle.zq_show.specs.Lanes.{about_of, abouts, lane_for, lanes_shown, with_about};

use crate::choice::lanes_of;
use crate::entry::Entry;
use crate::row::Row;
use std::alloc::Global;
use std::collections::BTreeMap;
use zq_key::items::Items;
use zq_key::memory::OutOfMemory;
use zq_key::message::{Mode, Region, Zid};
use zq_machine::call::{Call, Opening, Outcome};

/// How a face was opened.
#[derive(Clone, Copy)]
pub struct About {
    /// Its region.
    pub region: Region,
    /// What the node at its other end is in its network.
    pub mode: Mode,
    /// The id of that node.
    pub zid: Zid,
}

/// A face in a picture.
#[derive(Clone, Copy)]
pub struct Lane {
    /// The number of the face.
    pub face: u32,
    /// How it was opened, if it was.
    pub about: Option<About>,
}

/// Lanes, from the left.
pub type LaneList = Items<Lane>;

fn about_of(opening: &Opening) -> About
    ensures { result ≡ about_of opening.now }
{
    About {
        region: opening.region,
        mode: opening.mode,
        zid: opening.zid,
    }
}

/// Adds the face that a call opened, if it opened one.
fn add_about(abouts: &mut BTreeMap<u32, About>, entry: &Entry) -> Result<(), OutOfMemory>
    ensures { OnOk result (abouts.new.entries ≡ with_about abouts.old.entries entry.now) }
{
    if let (Call::Open(opening), Outcome::Opened(face)) = (&entry.call, entry.step.outcome) {
        let _ = abouts.insert(face.0, about_of(opening))?;
    }
    Ok(())
}

/// The faces that calls opened, by number.
fn abouts(alloc: Global, entries: &[Entry]) -> Result<BTreeMap<u32, About>, OutOfMemory>
    ensures { IfOk result (λ m. m.entries ≡ abouts entries.now) }
{
    let mut abouts = BTreeMap::new(alloc);
    for entry in entries {
        add_about(&mut abouts, entry)?;
    }
    Ok(abouts)
}

/// The lanes of faces.
fn lanes_for(
    alloc: Global,
    abouts: &BTreeMap<u32, About>,
    faces: &[u32],
) -> Result<LaneList, OutOfMemory>
    ensures { IfOk result (λ l. l ≡ map (lane_for abouts.now.entries) faces.now) }
{
    let mut lanes = Items::new(alloc);
    for face in faces {
        lanes.push(Lane {
            face: *face,
            about: abouts.get(face).copied(),
        })?;
    }
    Ok(lanes)
}

/// The faces that rows name, each once, in the order in which they first come.
pub fn lanes_shown(alloc: Global, entries: &[Entry], rows: &[Row]) -> Result<LaneList, OutOfMemory>
    ensures { IfOk result (λ l. l ≡ lanes_shown entries.now rows.now) }
{
    let abouts = abouts(alloc, entries)?;
    let faces = lanes_of(alloc, rows)?;
    lanes_for(alloc, &abouts, faces.as_slice())
}
