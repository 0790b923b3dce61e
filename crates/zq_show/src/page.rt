//! The page of a run: the head, the faces, the picture, and the lines with what came of each.
ghost use Rattle.std.specs.Prelude.{◌≡◌, ◌++◌, IfOk, OnOk};
ghost use Rattle.zq_show.specs.Fit.{fitted_by, room_of};
ghost use Rattle.zq_show.specs.Page.{item_words, long_list_words, answer_open, bad_line_words, bad_text_words, bad_words, begin_words, came_words, end_words, head_words, items_words, legend_words, line_number_words, line_words, lines_words, link_words, linked, list_words, notes_words, page_words, rest_of_bad, said_words, scene_words, short_words};

use crate::choice::{RowList, has_line};
use crate::escape::{push_in_page, push_short};
use crate::fit::{push_fit, push_left_out, room_of};
use crate::lanes::LaneList;
use crate::narrow::push_narrow;
use crate::picture::push_picture;
use crate::row::Row;
use std::alloc::{AllocError, Global};
use zq_io::words::{push_number, push_text};
use zq_message::items::Items;
use zq_message::memory::OutOfMemory;
use zq_message::text::Bytes;

/// Texts, in order.
pub type BytesList = Items<Bytes>;

/// A line of a script that is a call, and what came of it.
#[derive(Drop)]
pub struct Line {
    /// Its number in the script, from 1.
    pub number: u64,
    /// Its bytes, as they stand in the script.
    pub text: Bytes,
    /// What it was answered.
    pub answer: Bytes,
    /// Whether it was refused.
    pub refused: bool,
    /// What there is to say of the answer.
    pub notes: BytesList,
    /// The messages that it handed, each as a text, in order.
    pub messages: BytesList,
}

/// Lines, in order.
pub type LineList = Items<Line>;

/// The line that could not be read, and why.
#[derive(Drop)]
pub struct BadLine {
    /// Its number in the script, from 1.
    pub number: u64,
    /// Its bytes, as they stand in the script.
    pub text: Bytes,
    /// What was expected there.
    pub reason: Bytes,
}

/// What is shown of a run.
#[derive(Drop)]
pub struct Shown {
    /// The lines before the calls, as they stand in the script.
    pub head: BytesList,
    /// The faces that were opened, each as a text.
    pub faces: BytesList,
    /// The lines of the calls.
    pub lines: LineList,
    /// The line at which the script ends because it could not be read, if there is one.
    pub bad: Option<BadLine>,
    /// Who declared each key and who asks to hear of it once the calls are made, each key as a line.
    pub stands: BytesList,
    /// What the picture shows of the run, as a text.
    pub scope: Bytes,
    /// The lanes of the picture.
    pub lanes: LaneList,
    /// The rows of the picture.
    pub rows: RowList,
}

/// The bytes for which there is room in the list of the lines before the calls, and in that of the
/// faces.
pub const LIST_ROOM: usize = 300_000;

/// The bytes for which there is room in the list of the lines.
pub const LINES_ROOM: usize = 3_000_000;

/// The bytes that are shown of a line that could not be read, and of what was expected there.
pub const BAD_ROOM: usize = 10_000;

/// What is said of a line that could not be read and is longer than what is shown of it.
pub const BAD_REST: &str =
    "<p class='no'>cut off here; <code>zq show --text</code> prints all of it</p>";

/// What stands before the lists of a page: the title, and how its parts look.
pub const BEGIN: &str = "<!doctype html>
<html lang='en'><head><meta charset='utf-8'>
<meta name='viewport' content='width=device-width, initial-scale=1'>
<title>A run of the gateway</title>
<style>
:root{color-scheme:light dark;--ink:#1c2330;--soft:#5c6675;--page:#fff;--card:#f5f7fa;--rule:#c9d1dc;--link:#0b57b8;--bad:#b3261e;--mark:#fff3c4}
@media (prefers-color-scheme:dark){:root{--ink:#e6eaf0;--soft:#a0aab8;--page:#12161d;--card:#1b212b;--rule:#3a4453;--link:#8ab8ff;--bad:#ff8a80;--mark:#4a4010}}
body{margin:0 auto;max-width:72rem;padding:1rem;background:var(--page);color:var(--ink);font:16px/1.5 system-ui,sans-serif}
h1{font-size:1.5rem;margin:.5rem 0}h2{font-size:1.15rem;margin:1.5rem 0 .5rem}
a{color:var(--link)}code{font:14px/1.45 ui-monospace,monospace;overflow-wrap:anywhere}
ul,ol{padding-left:1.25rem;margin:.25rem 0}p{margin:.25rem 0}
.lines{list-style:none;padding:0}.lines>li{border-top:1px solid var(--rule);padding:.5rem 0 .5rem 3.25rem;position:relative;scroll-margin-top:1rem}
.lines>li:target{background:var(--mark)}.n{position:absolute;left:0;width:2.5rem;text-align:right;font-variant-numeric:tabular-nums}
.lines code{display:block;max-height:9rem;overflow:auto}.no{color:var(--bad);font-weight:600}.said{color:var(--soft)}
.picture{overflow:auto;max-height:85vh;background:var(--card);border:1px solid var(--rule);border-radius:6px}
svg{display:block}svg text{font:12px ui-monospace,monospace;fill:var(--ink);paint-order:stroke;stroke:var(--card);stroke-width:4px}
svg .name{font-weight:600;text-anchor:middle}svg .number{fill:var(--link)}svg a:target text{font-weight:700}p code{font-size:inherit}
path{fill:none;stroke:var(--ink);stroke-width:1.5}.lane{stroke:var(--rule)}.ask{stroke-width:2.5}.reply{stroke-dasharray:9 4}.final{stroke-dasharray:2 4}
.tell{stroke:var(--soft);stroke-width:1}.time{stroke:var(--soft);stroke-dasharray:14 4 2 4}.head{fill:var(--ink);stroke:none}.cross{stroke:var(--bad);stroke-width:2.5}
.dot{stroke-width:8;stroke-linecap:round}.rows{display:none;list-style:none;padding:0}@media (max-width:40rem){.picture,.legend{display:none}.rows{display:block}}
.pending{fill:var(--soft)}.flight{fill:var(--card);stroke:var(--ink)}
</style></head><body>
<h1>A run of the gateway</h1>
<h2>Configuration</h2>
";

/// How the picture is read.
pub const LEGEND: &str =
    "<p class='said legend'>Time goes down. A thick arrow is a request, a dashed one a reply, a dotted one a final, a thin one a declaration. A cross at the gateway is a refusal, and one before a face what its exit did not let out. A filled bar beside a face is a request that is pending there, a hollow one a reply in flight. A rule across is a moment that came. There are at most 400 rows. At the left are the numbers of the script's lines, linked with their words below; <code>#N</code> is the number of a request in this run.</p>
<div class='picture'>
";

/// What stands between the lines and what stands at the end of the run.
pub const STANDS: &str = "</ol><h2>What stands at the end</h2>
<p class='said'>Who asks to hear of each key and who declared it, by id, as <code>zq admin '@/**' FILE</code> lists it.</p>
";

/// Writes a text of an element.
#[tactic(auto, unfolding(crate::specs::Page::said_words))]
fn push_said(
    alloc: Global,
    out: &mut Vec<u8>,
    before: &str,
    text: &Bytes,
    after: &str,
) -> Result<(), AllocError>
    ensures { OnOk result (out.new.items ≡ out.old.items ++ said_words before.now text.now after.now) }
{
    push_text(out, before)?;
    push_in_page(alloc, out, text.as_slice())?;
    push_text(out, after)
}

/// Writes the items of a list.
fn push_items(alloc: Global, out: &mut Vec<u8>, texts: &[Bytes]) -> Result<(), AllocError>
    ensures { OnOk result (out.new.items ≡ out.old.items ++ items_words texts.now) }
{
    for text in texts {
        push_said(alloc, out, "<li><code>", text, "</code></li>")?;
    }
    Ok(())
}

/// An item of a list.
fn item_of(alloc: Global, text: &Bytes) -> Result<Vec<u8>, AllocError>
    ensures { IfOk result (λ v. v.items ≡ item_words text.now) }
{
    let mut item = Vec::new(alloc);
    push_said(alloc, &mut item, "<li><code>", text, "</code></li>")?;
    Ok(item)
}

/// Writes the items of a list that has room for so many bytes.
fn push_fitted(
    alloc: Global,
    out: &mut Vec<u8>,
    room: usize,
    texts: &[Bytes],
) -> Result<(), AllocError>
    ensures { OnOk result (out.new.items ≡ out.old.items ++ fitted_by item_words (room_of room) texts.now) }
{
    let mut fit = room_of(room);
    for text in texts {
        let item = item_of(alloc, text)?;
        fit = push_fit(out, fit, item.as_slice())?;
    }
    push_left_out(out, fit)
}

/// Writes a list that has room for so many bytes.
#[tactic(auto, unfolding(crate::specs::Page::long_list_words))]
fn push_long_list(
    alloc: Global,
    out: &mut Vec<u8>,
    room: usize,
    texts: &[Bytes],
) -> Result<(), AllocError>
    ensures { OnOk result (out.new.items ≡ out.old.items ++ long_list_words room texts.now) }
{
    push_text(out, "<ul>")?;
    push_fitted(alloc, out, room, texts)?;
    push_text(out, "</ul>")
}

/// Writes a list, and nothing where it is empty.
#[tactic(auto, unfolding(crate::specs::Page::list_words))]
fn push_list(alloc: Global, out: &mut Vec<u8>, texts: &[Bytes]) -> Result<(), AllocError>
    ensures { OnOk result (out.new.items ≡ out.old.items ++ list_words texts.now) }
{
    if texts.is_empty() {
        return Ok(());
    }
    push_text(out, "<ul>")?;
    push_items(alloc, out, texts)?;
    push_text(out, "</ul>")
}

/// Writes what there is to say of an answer, each as a paragraph.
fn push_notes(alloc: Global, out: &mut Vec<u8>, notes: &[Bytes]) -> Result<(), AllocError>
    ensures { OnOk result (out.new.items ≡ out.old.items ++ notes_words notes.now) }
{
    for note in notes {
        push_said(alloc, out, "<p class='said'>", note, "</p>")?;
    }
    Ok(())
}

/// Writes the beginning of a link to a row.
#[tactic(auto, unfolding(crate::specs::Page::link_words))]
fn push_link(out: &mut Vec<u8>, number: u64) -> Result<(), AllocError>
    ensures { OnOk result (out.new.items ≡ out.old.items ++ link_words number) }
{
    push_text(out, "<a href='#p")?;
    push_number(out, number)?;
    push_text(out, "'>")
}

/// Writes the number of a line, as a link to its row where the picture has one.
#[tactic(auto, unfolding(crate::specs::Page::linked))]
fn push_linked(out: &mut Vec<u8>, number: u64, drawn: bool) -> Result<(), AllocError>
    ensures { OnOk result (out.new.items ≡ out.old.items ++ linked number drawn) }
{
    if drawn {
        push_link(out, number)?;
        push_number(out, number)?;
        push_text(out, "</a></span>")
    } else {
        push_number(out, number)?;
        push_text(out, "</span>")
    }
}

/// Writes the beginning of a line.
#[tactic(auto, unfolding(crate::specs::Page::line_number_words))]
fn push_line_number(out: &mut Vec<u8>, number: u64, drawn: bool) -> Result<(), AllocError>
    ensures { OnOk result (out.new.items ≡ out.old.items ++ line_number_words number drawn) }
{
    push_text(out, "<li id='l")?;
    push_number(out, number)?;
    push_text(out, "'><span class='n'>")?;
    push_linked(out, number, drawn)
}

fn answer_open(refused: bool) -> &'static str
    ensures { result.now ≡ answer_open refused }
{
    if refused { "<p class='no'>" } else { "<p>" }
}

/// Writes what came of a line: its answer, what there is to say of it, and the messages that it
/// handed.
#[tactic(auto, unfolding(crate::specs::Page::came_words))]
fn push_came(alloc: Global, out: &mut Vec<u8>, line: &Line) -> Result<(), AllocError>
    ensures { OnOk result (out.new.items ≡ out.old.items ++ came_words line.now) }
{
    push_said(alloc, out, answer_open(line.refused), &line.answer, "</p>")?;
    push_notes(alloc, out, line.notes.as_slice())?;
    push_list(alloc, out, line.messages.as_slice())
}

/// Writes a line, with what it was answered and the messages that it handed.
#[tactic(auto, unfolding(crate::specs::Page::line_words))]
fn push_line(alloc: Global, out: &mut Vec<u8>, rows: &[Row], line: &Line) -> Result<(), AllocError>
    ensures { OnOk result (out.new.items ≡ out.old.items ++ line_words rows.now line.now) }
{
    push_line_number(out, line.number, has_line(rows, line.number))?;
    push_said(alloc, out, "<code>", &line.text, "</code>")?;
    push_came(alloc, out, line)?;
    push_text(out, "</li>")?;
    push_text(out, "\n")
}

/// A line, by itself.
fn line_item(alloc: Global, rows: &[Row], line: &Line) -> Result<Vec<u8>, AllocError>
    ensures { IfOk result (λ v. v.items ≡ line_words rows.now line.now) }
{
    let mut item = Vec::new(alloc);
    push_line(alloc, &mut item, rows, line)?;
    Ok(item)
}

/// Writes the lines, in order, each where it fits.
fn push_lines(
    alloc: Global,
    out: &mut Vec<u8>,
    rows: &[Row],
    lines: &[Line],
) -> Result<(), AllocError>
    ensures { OnOk result (out.new.items ≡ out.old.items ++ lines_words rows.now lines.now) }
{
    let mut fit = room_of(LINES_ROOM);
    for line in lines {
        let item = line_item(alloc, rows, line)?;
        fit = push_fit(out, fit, item.as_slice())?;
    }
    push_left_out(out, fit)
}

/// Writes a text of which no more than `BAD_ROOM` bytes are shown.
#[tactic(auto, unfolding(crate::specs::Page::short_words))]
fn push_short_said(
    alloc: Global,
    out: &mut Vec<u8>,
    before: &str,
    text: &Bytes,
    after: &str,
) -> Result<(), AllocError>
    ensures { OnOk result (out.new.items ≡ out.old.items ++ short_words before.now text.now after.now) }
{
    push_text(out, before)?;
    push_short(alloc, out, BAD_ROOM, text.as_slice())?;
    push_text(out, after)
}

/// Writes that the line that could not be read is not shown whole, where it is longer than that.
#[tactic(auto, unfolding(crate::specs::Page::rest_of_bad))]
fn push_rest_of_bad(out: &mut Vec<u8>, bad: &BadLine) -> Result<(), AllocError>
    ensures { OnOk result (out.new.items ≡ out.old.items ++ rest_of_bad bad.now) }
{
    if bad.text.as_slice().len() <= BAD_ROOM {
        return Ok(());
    }
    push_text(out, BAD_REST)
}

/// Writes the text of the line that could not be read.
#[tactic(auto, unfolding(crate::specs::Page::bad_text_words))]
fn push_bad_text(alloc: Global, out: &mut Vec<u8>, bad: &BadLine) -> Result<(), AllocError>
    ensures { OnOk result (out.new.items ≡ out.old.items ++ bad_text_words bad.now) }
{
    push_short_said(alloc, out, "<code>", &bad.text, "</code>")?;
    push_rest_of_bad(out, bad)
}

/// Writes the line that could not be read.
#[tactic(auto, unfolding(crate::specs::Page::bad_line_words))]
fn push_bad_line(alloc: Global, out: &mut Vec<u8>, bad: &BadLine) -> Result<(), AllocError>
    ensures { OnOk result (out.new.items ≡ out.old.items ++ bad_line_words bad.now) }
{
    push_line_number(out, bad.number, false)?;
    push_bad_text(alloc, out, bad)?;
    push_short_said(
        alloc,
        out,
        "<p class='no'>bad line: ",
        &bad.reason,
        "</p></li>",
    )
}

/// Writes the line that could not be read, if there is one.
fn push_bad(alloc: Global, out: &mut Vec<u8>, bad: &Option<BadLine>) -> Result<(), AllocError>
    ensures { OnOk result (out.new.items ≡ out.old.items ++ bad_words bad.now) }
{
    match bad {
        Some(bad) => push_bad_line(alloc, out, bad),
        None => Ok(()),
    }
}

/// Writes what stands before the lists of a page.
#[tactic(auto, unfolding(crate::specs::Page::begin_words))]
fn push_begin(out: &mut Vec<u8>) -> Result<(), AllocError>
    ensures { OnOk result (out.new.items ≡ out.old.items ++ begin_words) }
{
    push_text(out, BEGIN)
}

/// Writes how the picture is read.
#[tactic(auto, unfolding(crate::specs::Page::legend_words))]
fn push_legend(out: &mut Vec<u8>) -> Result<(), AllocError>
    ensures { OnOk result (out.new.items ≡ out.old.items ++ legend_words) }
{
    push_text(out, LEGEND)
}

/// Writes the title, the configuration and the faces.
#[tactic(auto, unfolding(crate::specs::Page::head_words))]
fn push_head(alloc: Global, out: &mut Vec<u8>, shown: &Shown) -> Result<(), AllocError>
    ensures { OnOk result (out.new.items ≡ out.old.items ++ head_words shown.now) }
{
    push_begin(out)?;
    push_long_list(alloc, out, LIST_ROOM, shown.head.as_slice())?;
    push_text(out, "<h2>Faces</h2>")?;
    push_long_list(alloc, out, LIST_ROOM, shown.faces.as_slice())
}

/// Writes the picture, with what it shows of the run.
#[tactic(auto, unfolding(crate::specs::Page::scene_words))]
fn push_scene(alloc: Global, out: &mut Vec<u8>, shown: &Shown) -> Result<(), AllocError>
    ensures { OnOk result (out.new.items ≡ out.old.items ++ scene_words shown.now) }
{
    push_said(alloc, out, "<h2>Picture</h2><p>", &shown.scope, "</p>")?;
    push_legend(out)?;
    push_picture(alloc, out, shown.lanes.as_slice(), shown.rows.as_slice())?;
    push_text(out, "</div>")?;
    push_narrow(alloc, out, shown.rows.as_slice())?;
    push_text(out, "<h2>Lines</h2><ol class='lines'>")?;
    Ok(())
}

/// Writes what stands at the end of the run, and ends the page.
#[tactic(auto, unfolding(crate::specs::Page::end_words))]
fn push_end(alloc: Global, out: &mut Vec<u8>, stands: &[Bytes]) -> Result<(), AllocError>
    ensures { OnOk result (out.new.items ≡ out.old.items ++ end_words stands.now) }
{
    push_text(out, STANDS)?;
    push_long_list(alloc, out, LIST_ROOM, stands)?;
    push_text(out, "</body></html>")
}

/// The page of a run. It is whole by itself: it has no script, and loads nothing.
pub fn page(alloc: Global, shown: &Shown) -> Result<Bytes, OutOfMemory>
    ensures { IfOk result (λ b. b ≡ page_words shown.now) }
{
    let mut out = Vec::new(alloc);
    push_head(alloc, &mut out, shown)?;
    push_scene(alloc, &mut out, shown)?;
    push_lines(
        alloc,
        &mut out,
        shown.rows.as_slice(),
        shown.lines.as_slice(),
    )?;
    push_bad(alloc, &mut out, &shown.bad)?;
    push_end(alloc, &mut out, shown.stands.as_slice())?;
    Ok(Bytes::from_vec(out))
}
