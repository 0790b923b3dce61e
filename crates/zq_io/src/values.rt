//! What the words of a line stand for.
ghost use Rattle.std.specs.Prelude.{◌≡◌, IfOk, OnOk, ◌++◌, string_bytes, List, Option, ℕ};
ghost use Rattle.std.specs.Option.{option_map};
ghost use Rattle.std.specs.Fmt.{decimal};
ghost use Rattle.zq_io.specs.Words.{Reads, cut, number, text_of, bytes_of, read_at, option_of, list_of, payload_word};
ghost use Rattle.zq_io.specs.Values.{most_8, most_16, most_32, most_64, most_128, flag_of, face_of, zid_of, mode_of, bound_of, target_of, behind, south_of, region_of, mapping_of, wire_of, zids_of, all_of, direction_of};

use crate::stop::Stop;
use crate::words::{Word, cut, is, list_of, number, read_word, text_of, wide_number, word_at};
use std::alloc::Global;
use zq_message::items::Items;
use zq_message::message::{Bound, FaceId, Mapping, Mode, QueryTarget, Region, WireExpr, Zid};
use zq_message::text::{Bytes, Text};

impl Word for u8 {
    type Value = u8;

    ghost of = { number most_8 };

    fn read(_alloc: Global, word: &[u8]) -> Result<u8, Stop> {
        Ok(number(255, word).ok_or(Stop::Bad)? as u8)
    }
}

impl Word for u16 {
    type Value = u16;

    ghost of = { number most_16 };

    fn read(_alloc: Global, word: &[u8]) -> Result<u16, Stop> {
        Ok(number(65_535, word).ok_or(Stop::Bad)? as u16)
    }
}

impl Word for u32 {
    type Value = u32;

    ghost of = { number most_32 };

    fn read(_alloc: Global, word: &[u8]) -> Result<u32, Stop> {
        Ok(number(4_294_967_295, word).ok_or(Stop::Bad)? as u32)
    }
}

impl Word for u64 {
    type Value = u64;

    ghost of = { number most_64 };

    fn read(_alloc: Global, word: &[u8]) -> Result<u64, Stop> {
        number(u64::MAX, word).ok_or(Stop::Bad)
    }
}

impl Word for FaceId {
    type Value = FaceId;

    ghost of = { face_of };

    fn read(alloc: Global, word: &[u8]) -> Result<FaceId, Stop> {
        Ok(FaceId(u32::read(alloc, word)?))
    }
}

impl Word for Zid {
    type Value = Zid;

    ghost of = { zid_of };

    fn read(_alloc: Global, word: &[u8]) -> Result<Zid, Stop> {
        Ok(Zid(wide_number(word).ok_or(Stop::Bad)?))
    }
}

impl Word for Text {
    type Value = Text;

    ghost of = { text_of };

    fn read(alloc: Global, word: &[u8]) -> Result<Text, Stop> {
        text_of(alloc, word)
    }
}

impl Word for Bytes {
    type Value = Bytes;

    ghost of = { bytes_of };

    fn read(alloc: Global, word: &[u8]) -> Result<Bytes, Stop> {
        Ok(read_word(alloc, word)?)
    }
}

fn mode_of(word: &[u8]) -> Option<Mode>
    ensures { result ≡ mode_of word.now }
{
    if is(word, "router") {
        Some(Mode::Router)
    } else if is(word, "peer") {
        Some(Mode::Peer)
    } else if is(word, "client") {
        Some(Mode::Client)
    } else {
        None
    }
}

impl Word for Mode {
    type Value = Mode;

    ghost of = { mode_of };

    fn read(_alloc: Global, word: &[u8]) -> Result<Mode, Stop> {
        mode_of(word).ok_or(Stop::Bad)
    }
}

#[tactic(auto, unfolding(crate::specs::Values::south_of))]
fn south_of(word: &[u8]) -> Option<Region>
    ensures { result ≡ south_of word.now }
{
    let (front, back) = cut(b':', word)?;
    if !is(front, "south") {
        return None;
    }
    let (id, mode) = cut(b':', back)?;
    let id = number(4_294_967_295, id)?;
    let mode = mode_of(mode)?;
    Some(Region::South {
        id: id as u32,
        mode,
    })
}

impl Word for Region {
    type Value = Region;

    ghost of = { region_of };

    fn read(_alloc: Global, word: &[u8]) -> Result<Region, Stop> {
        if is(word, "north") {
            Ok(Region::North)
        } else if is(word, "local") {
            Ok(Region::Local)
        } else {
            south_of(word).ok_or(Stop::Bad)
        }
    }
}

fn mapping_of(word: &[u8]) -> Option<Mapping>
    ensures { result ≡ mapping_of word.now }
{
    if is(word, "s") {
        Some(Mapping::Sender)
    } else if is(word, "r") {
        Some(Mapping::Receiver)
    } else {
        None
    }
}

/// The scope and the mapping of an expression, and its suffix as a word.
impl Word for WireExpr {
    type Value = WireExpr;

    ghost of = { wire_of };

    #[tactic(auto, unfolding(crate::specs::Values::wire_of))]
    fn read(alloc: Global, word: &[u8]) -> Result<WireExpr, Stop> {
        let (scope, back) = cut(b':', word).ok_or(Stop::Bad)?;
        let scope = u16::read(alloc, scope)?;
        let (mapping, suffix) = cut(b':', back).ok_or(Stop::Bad)?;
        let mapping = mapping_of(mapping).ok_or(Stop::Bad)?;
        let suffix = text_of(alloc, suffix)?;
        Ok(WireExpr {
            scope,
            mapping,
            suffix,
        })
    }
}

impl Word for QueryTarget {
    type Value = QueryTarget;

    ghost of = { target_of };

    fn read(_alloc: Global, word: &[u8]) -> Result<QueryTarget, Stop> {
        if is(word, "all") {
            Ok(QueryTarget::All)
        } else if is(word, "complete") {
            Ok(QueryTarget::AllComplete)
        } else if is(word, "best") {
            Ok(QueryTarget::BestMatching)
        } else {
            Err(Stop::Bad)
        }
    }
}

impl Word for Bound {
    type Value = Bound;

    ghost of = { bound_of };

    fn read(_alloc: Global, word: &[u8]) -> Result<Bound, Stop> {
        if is(word, "north") {
            Ok(Bound::North)
        } else if is(word, "south") {
            Ok(Bound::South)
        } else {
            Err(Stop::Bad)
        }
    }
}

/// Whether the word is the first of two, or the other.
pub fn flag_of(first: &str, other: &str, word: &[u8]) -> Option<bool>
    ensures { result ≡ flag_of first.now other.now word.now }
{
    if is(word, first) {
        Some(true)
    } else if is(word, other) {
        Some(false)
    } else {
        None
    }
}

/// One of two words, behind a space.
#[tactic(auto, unfolding(crate::specs::Words::read_at))]
pub fn flag_at<'a>(first: &str, other: &str, bytes: &'a [u8]) -> Option<(bool, &'a [u8])>
    ensures { option_map (λ t. (t.0, t.1.now)) result ≡ read_at (flag_of first.now other.now) bytes.now }
{
    let (word, rest) = word_at(bytes)?;
    let flag = flag_of(first, other, word)?;
    Some((flag, rest))
}

impl Word for Option<u64> {
    type Value = Option<u64>;

    ghost of = { option_of (number most_64) };

    fn read(alloc: Global, word: &[u8]) -> Result<Option<u64>, Stop> {
        if is(word, "-") {
            return Ok(None);
        }
        Ok(Some(u64::read(alloc, word)?))
    }
}

impl Word for Option<WireExpr> {
    type Value = Option<WireExpr>;

    ghost of = { option_of wire_of };

    fn read(alloc: Global, word: &[u8]) -> Result<Option<WireExpr>, Stop> {
        if is(word, "-") {
            return Ok(None);
        }
        Ok(Some(WireExpr::read(alloc, word)?))
    }
}

impl Word for Option<Text> {
    type Value = Option<Text>;

    ghost of = { option_of text_of };

    fn read(alloc: Global, word: &[u8]) -> Result<Option<Text>, Stop> {
        if is(word, "-") {
            return Ok(None);
        }
        Ok(Some(text_of(alloc, word)?))
    }
}

/// A direction of a tree.
impl Word for Option<u32> {
    type Value = Option<u32>;

    ghost of = { direction_of };

    fn read(alloc: Global, word: &[u8]) -> Result<Option<u32>, Stop> {
        if is(word, "x") {
            return Ok(None);
        }
        Ok(Some(u32::read(alloc, word)?))
    }
}

impl Word for Items<Zid> {
    type Value = Items<Zid>;

    ghost of = { zids_of };

    fn read(alloc: Global, word: &[u8]) -> Result<Items<Zid>, Stop> {
        list_of::<Zid>(alloc, b',', word)
    }
}

impl Word for Items<u16> {
    type Value = Items<u16>;

    ghost of = { list_of 44 (number most_16) };

    fn read(alloc: Global, word: &[u8]) -> Result<Items<u16>, Stop> {
        list_of::<u16>(alloc, b',', word)
    }
}

impl Word for Option<Items<Zid>> {
    type Value = Option<Items<Zid>>;

    ghost of = { all_of };

    fn read(alloc: Global, word: &[u8]) -> Result<Option<Items<Zid>>, Stop> {
        if is(word, "none") {
            return Ok(None);
        }
        Ok(Some(list_of::<Zid>(alloc, b',', word)?))
    }
}
