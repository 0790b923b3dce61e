//! The rows of a picture as a list, for a page that is too narrow for the picture.
ghost use Rattle.std.specs.Prelude.{◌≡◌, ◌++◌, OnOk};
ghost use Rattle.zq_show.specs.Narrow.{faced_words, link_words, narrow_words, refused_mark, row_item, row_items, way_words};

use crate::escape::{LABEL, push_short};
use crate::row::Row;
use std::alloc::{AllocError, Global};
use zq_io::words::{push_number, push_text};

/// Writes a link to a line.
#[tactic(auto, unfolding(crate::specs::Narrow::link_words))]
fn push_link(out: &mut Vec<u8>, line: u64) -> Result<(), AllocError>
    ensures { OnOk result (out.new.items ≡ out.old.items ++ link_words line) }
{
    push_text(out, "<a href='#l")?;
    push_number(out, line)?;
    push_text(out, "'>")?;
    push_number(out, line)?;
    push_text(out, "</a> ")
}

/// Writes which face speaks, or is spoken to.
#[tactic(auto, unfolding(crate::specs::Narrow::faced_words))]
fn push_faced(out: &mut Vec<u8>, handed: bool, face: u32) -> Result<(), AllocError>
    ensures { OnOk result (out.new.items ≡ out.old.items ++ faced_words handed face) }
{
    if handed {
        push_text(out, "to ")?;
    }
    push_text(out, "face ")?;
    push_number(out, face)?;
    push_text(out, ": ")
}

/// Writes which face speaks, or is spoken to, if one is.
fn push_way(out: &mut Vec<u8>, handed: bool, face: Option<u32>) -> Result<(), AllocError>
    ensures { OnOk result (out.new.items ≡ out.old.items ++ way_words handed face) }
{
    match face {
        Some(face) => push_faced(out, handed, face),
        None => Ok(()),
    }
}

fn refused_mark(refused: bool) -> &'static str
    ensures { result.now ≡ refused_mark refused }
{
    if refused {
        "<b class='no'>refused</b> "
    } else {
        ""
    }
}

/// Writes a row.
#[tactic(auto, unfolding(crate::specs::Narrow::row_item))]
fn push_item(alloc: Global, out: &mut Vec<u8>, row: &Row) -> Result<(), AllocError>
    ensures { OnOk result (out.new.items ≡ out.old.items ++ row_item row.now) }
{
    push_text(out, "<li>")?;
    push_link(out, row.line)?;
    push_text(out, refused_mark(row.refused))?;
    push_way(out, row.handed, row.face)?;
    push_short(alloc, out, LABEL, row.label.as_slice())?;
    push_text(out, "</li>")
}

/// Writes the rows, from above.
fn push_items(alloc: Global, out: &mut Vec<u8>, rows: &[Row]) -> Result<(), AllocError>
    ensures { OnOk result (out.new.items ≡ out.old.items ++ row_items rows.now) }
{
    for row in rows {
        push_item(alloc, out, row)?;
    }
    Ok(())
}

/// Writes the rows as a list.
#[tactic(auto, unfolding(crate::specs::Narrow::narrow_words))]
pub fn push_narrow(alloc: Global, out: &mut Vec<u8>, rows: &[Row]) -> Result<(), AllocError>
    ensures { OnOk result (out.new.items ≡ out.old.items ++ narrow_words rows.now) }
{
    push_text(out, "<ul class='rows'>")?;
    push_items(alloc, out, rows)?;
    push_text(out, "</ul>")
}
