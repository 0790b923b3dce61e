//! Bytes as text: control bytes and bytes above 126 become `%` and two digits, and in a page the
//! bytes that markup is made of become entities.
ghost use Rattle.std.specs.Prelude.{◌≡◌, ◌++◌, OnOk, IfOk, true};
ghost use Rattle.std.specs.List.{list_all};
ghost use Rattle.zq_show.specs.Escape.{cut_words, entity, escaped, is_plain, is_printed, shown, shown_in_page, shown_short};

use percent_encoding::{CONTROLS, percent_encode};
use std::alloc::{AllocError, Global};
use zq_io::words::{push_byte, push_text};

/// The bytes that a label in a picture has at most.
pub const LABEL: usize = 40;

/// Writes a byte, or the entity in its place.
fn push_entity(out: &mut Vec<u8>, byte: u8) -> Result<(), AllocError>
    ensures { OnOk result (out.new.items ≡ out.old.items ++ entity byte) }
{
    match byte {
        b'&' => push_text(out, "&amp;"),
        b'<' => push_text(out, "&lt;"),
        b'>' => push_text(out, "&gt;"),
        b'"' => push_text(out, "&#34;"),
        b'\'' => push_text(out, "&#39;"),
        _ => push_byte(out, byte),
    }
}

/// Writes bytes, each that markup is made of as an entity.
pub fn push_escaped(out: &mut Vec<u8>, bytes: &[u8]) -> Result<(), AllocError>
    ensures { OnOk result (out.new.items ≡ out.old.items ++ escaped bytes.now) }
{
    for byte in bytes {
        push_entity(out, *byte)?;
    }
    Ok(())
}

/// Writes bytes as printed text on one line: control bytes and those above 126 as `%` and two
/// hexadecimal digits.
pub fn push_shown(out: &mut Vec<u8>, bytes: &[u8]) -> Result<(), AllocError>
    ensures { OnOk result (out.new.items ≡ out.old.items ++ shown bytes.now) }
{
    'pieces: for piece in percent_encode(bytes, CONTROLS) {
        push_text(out, piece)?;
    }
    Ok(())
}

/// Bytes as printed text on one line.
fn shown_of(alloc: Global, bytes: &[u8]) -> Result<Vec<u8>, AllocError>
    ensures { IfOk result (λ v. v.items ≡ shown bytes.now) }
{
    let mut text = Vec::new(alloc);
    push_shown(&mut text, bytes)?;
    Ok(text)
}

/// Writes bytes into a page, as printed text in which no markup is left.
pub fn push_in_page(alloc: Global, out: &mut Vec<u8>, bytes: &[u8]) -> Result<(), AllocError>
    ensures { OnOk result (out.new.items ≡ out.old.items ++ shown_in_page bytes.now) }
{
    let text = shown_of(alloc, bytes)?;
    push_escaped(out, text.as_slice())
}

/// Writes a text with its markup escaped, cut off behind so many bytes where it is longer.
fn push_cut(out: &mut Vec<u8>, most: usize, text: &[u8]) -> Result<(), AllocError>
    ensures { OnOk result (out.new.items ≡ out.old.items ++ cut_words most text.now) }
{
    if text.len() <= most {
        return push_escaped(out, text);
    }
    let (front, _) = text.split_at(most);
    push_escaped(out, front)?;
    push_text(out, "&#8230;")
}

/// Writes bytes into a picture, of which no more than so many are shown.
pub fn push_short(
    alloc: Global,
    out: &mut Vec<u8>,
    most: usize,
    bytes: &[u8],
) -> Result<(), AllocError>
    ensures { OnOk result (out.new.items ≡ out.old.items ++ shown_short most bytes.now) }
{
    let text = shown_of(alloc, bytes)?;
    push_cut(out, most, text.as_slice())
}

/// Bytes as they stand in a page: no byte of them ends or begins markup, and none is a control byte.
#[tactic(auto, using(crate::proofs::Escaped::shown_is_plain, crate::proofs::Escaped::shown_is_printed))]
pub fn in_page(alloc: Global, bytes: &[u8]) -> Result<Vec<u8>, AllocError>
    ensures value { IfOk result (λ v. v.items ≡ shown_in_page bytes.now) }
    ensures plain { IfOk result (λ v. list_all is_plain v.items ≡ true) }
    ensures printed { IfOk result (λ v. list_all is_printed v.items ≡ true) }
{
    let mut out = Vec::new(alloc);
    push_in_page(alloc, &mut out, bytes)?;
    Ok(out)
}

/// Bytes as they stand in a picture: no byte of them ends or begins markup.
#[tactic(auto, using(crate::proofs::Escaped::label_is_plain))]
pub fn in_picture(alloc: Global, bytes: &[u8]) -> Result<Vec<u8>, AllocError>
    ensures value { IfOk result (λ v. v.items ≡ shown_short LABEL bytes.now) }
    ensures plain { IfOk result (λ v. list_all is_plain v.items ≡ true) }
{
    let mut out = Vec::new(alloc);
    push_short(alloc, &mut out, LABEL, bytes)?;
    Ok(out)
}

/// Bytes as they stand in a text: none is a control byte, so they stay on their line.
#[tactic(auto, using(crate::proofs::Escaped::line_is_printed))]
pub fn in_text(alloc: Global, bytes: &[u8]) -> Result<Vec<u8>, AllocError>
    ensures value { IfOk result (λ v. v.items ≡ shown bytes.now) }
    ensures printed { IfOk result (λ v. list_all is_printed v.items ≡ true) }
{
    shown_of(alloc, bytes)
}
