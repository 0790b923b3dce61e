//! How values are written, each as one word.
ghost use Rattle.std.specs.Prelude.{◌≡◌, ℕ, List, ◌++◌, OnOk};
ghost use Rattle.std.specs.Fmt.{decimal};
ghost use Rattle.zq_io.specs.Words.{payload_word, list_word, rest_word, list_words, option_word, field};
ghost use Rattle.zq_io.specs.Values.{face_word, zid_word, mode_word, bound_word, target_word, region_word, mapping_word, wire_word, zids_word, all_word, direction_word, flag_word};

use crate::words::{push_byte, push_decimal, push_number, push_text, push_word};
use std::alloc::AllocError;
use zq_message::items::Items;
use zq_message::message::{Bound, FaceId, Mapping, Mode, QueryTarget, Region, WireExpr, Zid};
use zq_message::text::{Bytes, Text};

/// What is written as one word.
pub trait Shown {
    /// The word.
    ghost word: { Self → List ℕ };

    /// Appends the word.
    fn show(&self, out: &mut Vec<u8>) -> Result<(), AllocError>
        ensures { OnOk result (out.new.items ≡ out.old.items ++ word self.now) };
}

/// Writes a space and a word.
pub fn push_field<T: Shown>(out: &mut Vec<u8>, x: &T) -> Result<(), AllocError>
    ensures { OnOk result (out.new.items ≡ out.old.items ++ field (T.word x.now)) }
{
    push_byte(out, b' ')?;
    x.show(out)
}

impl Shown for u8 {
    ghost word = { decimal };

    fn show(&self, out: &mut Vec<u8>) -> Result<(), AllocError> {
        push_decimal(out, u64::from(*self))
    }
}

impl Shown for u16 {
    ghost word = { decimal };

    fn show(&self, out: &mut Vec<u8>) -> Result<(), AllocError> {
        push_decimal(out, u64::from(*self))
    }
}

impl Shown for u32 {
    ghost word = { decimal };

    fn show(&self, out: &mut Vec<u8>) -> Result<(), AllocError> {
        push_decimal(out, u64::from(*self))
    }
}

impl Shown for u64 {
    ghost word = { decimal };

    fn show(&self, out: &mut Vec<u8>) -> Result<(), AllocError> {
        push_decimal(out, *self)
    }
}

impl Shown for FaceId {
    ghost word = { face_word };

    fn show(&self, out: &mut Vec<u8>) -> Result<(), AllocError> {
        self.0.show(out)
    }
}

impl Shown for Zid {
    ghost word = { zid_word };

    fn show(&self, out: &mut Vec<u8>) -> Result<(), AllocError> {
        push_number(out, self.0)
    }
}

impl Shown for Text {
    ghost word = { payload_word };

    fn show(&self, out: &mut Vec<u8>) -> Result<(), AllocError> {
        push_word(out, self.as_str().as_bytes())
    }
}

impl Shown for Bytes {
    ghost word = { payload_word };

    fn show(&self, out: &mut Vec<u8>) -> Result<(), AllocError> {
        push_word(out, self.as_slice())
    }
}

impl Shown for Mode {
    ghost word = { mode_word };

    fn show(&self, out: &mut Vec<u8>) -> Result<(), AllocError> {
        match self {
            Mode::Router => push_text(out, "router"),
            Mode::Peer => push_text(out, "peer"),
            Mode::Client => push_text(out, "client"),
        }
    }
}

impl Shown for Bound {
    ghost word = { bound_word };

    fn show(&self, out: &mut Vec<u8>) -> Result<(), AllocError> {
        match self {
            Bound::North => push_text(out, "north"),
            Bound::South => push_text(out, "south"),
        }
    }
}

impl Shown for QueryTarget {
    ghost word = { target_word };

    fn show(&self, out: &mut Vec<u8>) -> Result<(), AllocError> {
        match self {
            QueryTarget::All => push_text(out, "all"),
            QueryTarget::AllComplete => push_text(out, "complete"),
            QueryTarget::BestMatching => push_text(out, "best"),
        }
    }
}

impl Shown for Mapping {
    ghost word = { mapping_word };

    fn show(&self, out: &mut Vec<u8>) -> Result<(), AllocError> {
        match self {
            Mapping::Sender => push_byte(out, b's'),
            Mapping::Receiver => push_byte(out, b'r'),
        }
    }
}

impl Shown for Region {
    ghost word = { region_word };

    fn show(&self, out: &mut Vec<u8>) -> Result<(), AllocError> {
        match self {
            Region::North => push_text(out, "north"),
            Region::Local => push_text(out, "local"),
            Region::South { id, mode } => {
                push_text(out, "south:")?;
                id.show(out)?;
                push_byte(out, b':')?;
                mode.show(out)
            }
        }
    }
}

impl Shown for WireExpr {
    ghost word = { wire_word };

    fn show(&self, out: &mut Vec<u8>) -> Result<(), AllocError> {
        self.scope.show(out)?;
        push_byte(out, b':')?;
        self.mapping.show(out)?;
        push_byte(out, b':')?;
        self.suffix.show(out)
    }
}

impl Shown for Option<u64> {
    ghost word = { option_word decimal };

    fn show(&self, out: &mut Vec<u8>) -> Result<(), AllocError> {
        match self {
            Some(x) => x.show(out),
            None => push_byte(out, b'-'),
        }
    }
}

impl Shown for Option<WireExpr> {
    ghost word = { option_word wire_word };

    fn show(&self, out: &mut Vec<u8>) -> Result<(), AllocError> {
        match self {
            Some(x) => x.show(out),
            None => push_byte(out, b'-'),
        }
    }
}

impl Shown for Option<Zid> {
    ghost word = { option_word zid_word };

    fn show(&self, out: &mut Vec<u8>) -> Result<(), AllocError> {
        match self {
            Some(x) => x.show(out),
            None => push_byte(out, b'-'),
        }
    }
}

impl Shown for Option<Text> {
    ghost word = { option_word payload_word };

    fn show(&self, out: &mut Vec<u8>) -> Result<(), AllocError> {
        match self {
            Some(x) => x.show(out),
            None => push_byte(out, b'-'),
        }
    }
}

impl Shown for Option<u32> {
    ghost word = { direction_word };

    fn show(&self, out: &mut Vec<u8>) -> Result<(), AllocError> {
        match self {
            Some(x) => x.show(out),
            None => push_byte(out, b'x'),
        }
    }
}

/// Writes what follows the first item of a list.
fn push_rest<T: Shown>(out: &mut Vec<u8>, byte: &str, items: &[T]) -> Result<(), AllocError>
    ensures { OnOk result (out.new.items ≡ out.old.items ++ rest_word byte.now T.word items.now) }
{
    for item in items {
        push_text(out, byte)?;
        item.show(out)?;
    }
    Ok(())
}

/// Writes a list joined by a byte, or a dash for the empty one.
fn push_list<T: Shown>(out: &mut Vec<u8>, byte: &str, items: &[T]) -> Result<(), AllocError>
    ensures { OnOk result (out.new.items ≡ out.old.items ++ list_words byte.now T.word items.now) }
{
    match items.split_first() {
        Some((first, rest)) => {
            first.show(out)?;
            push_rest(out, byte, rest)
        }
        None => push_byte(out, b'-'),
    }
}

impl Shown for Items<Zid> {
    ghost word = { zids_word };

    fn show(&self, out: &mut Vec<u8>) -> Result<(), AllocError> {
        push_list(out, ",", self.as_slice())
    }
}

impl Shown for Items<u16> {
    ghost word = { list_word 44 decimal };

    fn show(&self, out: &mut Vec<u8>) -> Result<(), AllocError> {
        push_list(out, ",", self.as_slice())
    }
}

impl Shown for Items<u32> {
    ghost word = { list_word 44 decimal };

    fn show(&self, out: &mut Vec<u8>) -> Result<(), AllocError> {
        push_list(out, ",", self.as_slice())
    }
}

impl Shown for Items<Option<u32>> {
    ghost word = { list_word 44 direction_word };

    fn show(&self, out: &mut Vec<u8>) -> Result<(), AllocError> {
        push_list(out, ",", self.as_slice())
    }
}

impl Shown for Option<Items<Zid>> {
    ghost word = { all_word };

    fn show(&self, out: &mut Vec<u8>) -> Result<(), AllocError> {
        match self {
            Some(x) => x.show(out),
            None => push_text(out, "none"),
        }
    }
}

/// Writes a space and one of two words.
pub fn push_flag(out: &mut Vec<u8>, first: &str, other: &str, flag: bool) -> Result<(), AllocError>
    ensures { OnOk result (out.new.items ≡ out.old.items ++ field (flag_word first.now other.now flag)) }
{
    push_byte(out, b' ')?;
    if flag {
        push_text(out, first)
    } else {
        push_text(out, other)
    }
}
