//! The picture of rows: a lane for the gateway and one for each face, an arrow for each row, and a
//! bar for what lasts until another row ends it.
ghost use Rattle.std.specs.Prelude.{◌≡◌, ◌<◌, ◌≤◌, ◌^◌, ◌++◌, OnOk};
ghost use Rattle.std.specs.Fmt.{decimal};
ghost use Rattle.zq_show.specs.Escape.{shown_short};
ghost use Rattle.zq_show.specs.Picture.{about_words, arrow_words, attribute, bar_class, bar_words, bar_x, bars_words, class_of, cross_words, end_of, face_words, faceless_words, group_words, head_words, label_words, lane_of, lane_words, lane_x, lanes_words, mark_words, name_words, named_words, number_words, size_words, view_words, open_words, opened_words, path_words, picture_words, place_of, rect_class, rect_words, row_words, row_y, rows_words, span, stop_words, stop_x, stroke_words};

use crate::escape::{LABEL, push_short};
use crate::lanes::{About, Lane};
use crate::row::{Event, Kind, Row};
use std::alloc::{AllocError, Global};
use zq_io::show::Shown;
use zq_io::words::{push_number, push_text};
use zq_message::message::Zid;

/// The digits that the id of a lane has at most.
pub const ID: usize = 14;

/// How far down a row stands.
fn row_y(row: usize) -> u128
    ensures { result ≡ row_y row }
{
    90 + 26 * row as u128
}

/// How far to the right a lane stands; the gateway's is lane 0.
fn lane_x(lane: u128) -> u128
    requires { lane < 2 ^ 65 }
    ensures { result ≡ lane_x lane }
{
    352 + 116 * lane
}

/// How far to the right what is stopped before a lane ends.
fn stop_x(lane: u128) -> u128
    requires { lane < 2 ^ 65 }
    ensures { result ≡ stop_x lane }
{
    328 + 116 * lane
}

/// The place of a face among these.
fn place_of(lanes: &[Lane], face: u32) -> Option<usize>
    ensures { result ≡ place_of face lanes.now }
{
    lanes.iter().position(|lane| lane.face == face)
}

/// The lane of a face; the gateway's where the face has none.
fn lane_of(lanes: &[Lane], face: Option<u32>) -> u128
    ensures value { result ≡ lane_of lanes.now face }
    ensures small { result < 2 ^ 65 }
{
    let Some(face) = face else {
        return 0;
    };
    match place_of(lanes, face) {
        Some(at) => at as u128 + 1,
        None => 0,
    }
}

/// Writes an attribute with a number.
#[tactic(auto, unfolding(crate::specs::Picture::attribute))]
fn push_attribute(out: &mut Vec<u8>, name: &str, value: u128) -> Result<(), AllocError>
    ensures { OnOk result (out.new.items ≡ out.old.items ++ attribute name.now value) }
{
    push_text(out, " ")?;
    push_text(out, name)?;
    push_text(out, "='")?;
    push_number(out, value)?;
    push_text(out, "'")
}

/// Writes the beginning of a path at a place.
#[tactic(auto, unfolding(crate::specs::Picture::path_words))]
fn push_path(out: &mut Vec<u8>, class: &str, x: u128, y: u128) -> Result<(), AllocError>
    ensures { OnOk result (out.new.items ≡ out.old.items ++ path_words class.now x y) }
{
    push_text(out, "<path class='")?;
    push_text(out, class)?;
    push_text(out, "' d='M")?;
    push_number(out, x)?;
    push_text(out, " ")?;
    push_number(out, y)
}

fn class_of(kind: Kind) -> &'static str
    ensures { result.now ≡ class_of kind }
{
    match kind {
        Kind::Request => "ask",
        Kind::Reply => "reply",
        Kind::Final => "final",
        Kind::Declaration => "tell",
        Kind::Time => "time",
        Kind::Note => "note",
    }
}

/// Writes the line of an arrow, from the gateway's lane to another.
#[tactic(auto, unfolding(crate::specs::Picture::stroke_words))]
fn push_stroke(out: &mut Vec<u8>, kind: Kind, x: u128, y: u128) -> Result<(), AllocError>
    ensures { OnOk result (out.new.items ≡ out.old.items ++ stroke_words kind x y) }
{
    push_path(out, class_of(kind), 352, y)?;
    push_text(out, " H")?;
    push_number(out, x)?;
    push_text(out, "'/>")
}

/// Writes a cross.
#[tactic(auto, unfolding(crate::specs::Picture::cross_words))]
fn push_cross(out: &mut Vec<u8>, x: u128, y: u128) -> Result<(), AllocError>
    ensures { OnOk result (out.new.items ≡ out.old.items ++ cross_words x y) }
{
    push_path(out, "cross", x, y)?;
    push_text(out, " m-6 -6 l12 12 m0 -12 l-12 12'/>")
}

/// Writes the head of an arrow: at the face, at the gateway, or a cross there where it is refused.
#[tactic(auto, unfolding(crate::specs::Picture::head_words))]
fn push_head(out: &mut Vec<u8>, row: &Row, x: u128, y: u128) -> Result<(), AllocError>
    ensures { OnOk result (out.new.items ≡ out.old.items ++ head_words row.now x y) }
{
    if row.handed {
        push_path(out, "head", x, y)?;
        push_text(out, " l-9 -4 v8 z'/>")
    } else if row.refused {
        push_cross(out, 353, y)
    } else {
        push_path(out, "head", 352, y)?;
        push_text(out, " l9 -4 v8 z'/>")
    }
}

/// Writes what stands where a row is of no face: a rule across for a moment, else a dot.
#[tactic(auto, unfolding(crate::specs::Picture::mark_words))]
fn push_mark(out: &mut Vec<u8>, kind: Kind, width: u128, y: u128) -> Result<(), AllocError>
    ensures { OnOk result (out.new.items ≡ out.old.items ++ mark_words kind width y) }
{
    match kind {
        Kind::Time => push_stroke(out, kind, width, y),
        _ => {
            push_path(out, "dot", 352, y)?;
            push_text(out, " h0'/>")
        }
    }
}

/// Writes what stands where a row is of no face: a cross where it is refused, else its mark.
#[tactic(auto, unfolding(crate::specs::Picture::faceless_words))]
fn push_faceless(out: &mut Vec<u8>, width: u128, row: &Row, y: u128) -> Result<(), AllocError>
    ensures { OnOk result (out.new.items ≡ out.old.items ++ faceless_words width row.now y) }
{
    if row.refused {
        return push_cross(out, 353, y);
    }
    push_mark(out, row.kind, width, y)
}

/// Writes the arrow of what is stopped before it reaches its face.
#[tactic(auto, unfolding(crate::specs::Picture::stop_words))]
fn push_stop(out: &mut Vec<u8>, kind: Kind, x: u128, y: u128) -> Result<(), AllocError>
    ensures { OnOk result (out.new.items ≡ out.old.items ++ stop_words kind x y) }
{
    push_stroke(out, kind, x, y)?;
    push_cross(out, x, y)
}

/// Writes the arrow of a row, or its mark.
#[tactic(auto, unfolding(crate::specs::Picture::arrow_words))]
fn push_arrow(
    out: &mut Vec<u8>,
    lanes: &[Lane],
    width: u128,
    row: &Row,
    y: u128,
) -> Result<(), AllocError>
    ensures { OnOk result (out.new.items ≡ out.old.items ++ arrow_words lanes.now width row.now y) }
{
    if row.face.is_none() {
        return push_faceless(out, width, row, y);
    }
    let lane = lane_of(lanes, row.face);
    if row.stopped {
        return push_stop(out, row.kind, stop_x(lane), y);
    }
    let x = lane_x(lane);
    push_stroke(out, row.kind, x, y)?;
    push_head(out, row, x, y)
}

/// Writes what stands beside the arrow of a row.
#[tactic(auto, unfolding(crate::specs::Picture::label_words))]
fn push_label(alloc: Global, out: &mut Vec<u8>, row: &Row, y: u128) -> Result<(), AllocError>
    ensures { OnOk result (out.new.items ≡ out.old.items ++ label_words row.now y) }
{
    push_text(out, "<text")?;
    push_attribute(out, "x", 44)?;
    push_attribute(out, "y", y)?;
    push_text(out, " dy='4'>")?;
    push_short(alloc, out, LABEL, row.label.as_slice())?;
    push_text(out, "</text>")
}

/// Writes the number of a row's line.
#[tactic(auto, unfolding(crate::specs::Picture::number_words))]
fn push_line_number(out: &mut Vec<u8>, line: u64, y: u128) -> Result<(), AllocError>
    ensures { OnOk result (out.new.items ≡ out.old.items ++ number_words line y) }
{
    push_text(out, "<text class='number'")?;
    push_attribute(out, "x", 4)?;
    push_attribute(out, "y", y)?;
    push_text(out, " dy='4'>")?;
    push_number(out, line)?;
    push_text(out, "</text>")
}

/// Writes the number of a call's row, and its name, so that the line can link to it; of a message
/// nothing.
#[tactic(auto, unfolding(crate::specs::Picture::named_words))]
fn push_named(out: &mut Vec<u8>, row: &Row, y: u128) -> Result<(), AllocError>
    ensures { OnOk result (out.new.items ≡ out.old.items ++ named_words row.now y) }
{
    if row.handed {
        return push_text(out, "'>");
    }
    push_text(out, "' id='p")?;
    push_number(out, row.line)?;
    push_text(out, "'>")?;
    push_line_number(out, row.line, y)
}

/// Writes the beginning of a row: its link to the line, and its name.
#[tactic(auto, unfolding(crate::specs::Picture::group_words))]
fn push_group(out: &mut Vec<u8>, row: &Row, y: u128) -> Result<(), AllocError>
    ensures { OnOk result (out.new.items ≡ out.old.items ++ group_words row.now y) }
{
    push_text(out, "<a href='#l")?;
    push_number(out, row.line)?;
    push_named(out, row, y)
}

/// Writes a row.
#[tactic(auto, unfolding(crate::specs::Picture::row_words))]
fn push_row(
    alloc: Global,
    out: &mut Vec<u8>,
    lanes: &[Lane],
    width: u128,
    row: &Row,
    y: u128,
) -> Result<(), AllocError>
    ensures { OnOk result (out.new.items ≡ out.old.items ++ row_words lanes.now width row.now y) }
{
    push_group(out, row, y)?;
    push_arrow(out, lanes, width, row, y)?;
    push_label(alloc, out, row, y)?;
    push_text(out, "</a>")?;
    push_text(out, "\n")
}

/// Writes the rows, from above.
fn push_rows(
    alloc: Global,
    out: &mut Vec<u8>,
    lanes: &[Lane],
    width: u128,
    rows: &[Row],
) -> Result<(), AllocError>
    ensures { OnOk result (out.new.items ≡ out.old.items ++ rows_words lanes.now width rows.now) }
{
    for (i, row) in rows.iter().enumerate() {
        push_row(alloc, out, lanes, width, row, row_y(i))?;
    }
    Ok(())
}

/// The place of the first row that ends what begins with an event.
fn end_of(event: Event, later: &[Row]) -> Option<usize>
    ensures { result ≡ end_of event later.now }
{
    later.iter().position(|row| event.ends_with(row.event))
}

/// How many rows a bar is long: up to the first that ends it, or past the last.
fn span(event: Event, later: &[Row]) -> u128
    ensures value { result ≡ span event later.now }
    ensures small { result ≤ 2 ^ 64 }
{
    match end_of(event, later) {
        Some(at) => at as u128 + 1,
        None => later.len() as u128 + 1,
    }
}

fn bar_class(event: Event) -> &'static str
    ensures { result.now ≡ bar_class event }
{
    match event {
        Event::InFlight { .. } => "flight",
        _ => "pending",
    }
}

/// Writes how wide and how high something is.
#[tactic(auto, unfolding(crate::specs::Picture::size_words))]
fn push_size(out: &mut Vec<u8>, width: u128, height: u128) -> Result<(), AllocError>
    ensures { OnOk result (out.new.items ≡ out.old.items ++ size_words width height) }
{
    push_attribute(out, "width", width)?;
    push_attribute(out, "height", height)
}

/// Writes the class of a bar.
#[tactic(auto, unfolding(crate::specs::Picture::rect_class))]
fn push_rect_class(out: &mut Vec<u8>, event: Event) -> Result<(), AllocError>
    ensures { OnOk result (out.new.items ≡ out.old.items ++ rect_class event) }
{
    push_text(out, "<rect class='")?;
    push_text(out, bar_class(event))?;
    push_text(out, "'")
}

/// Writes a bar at a place, of a height.
#[tactic(auto, unfolding(crate::specs::Picture::rect_words))]
fn push_rect(
    out: &mut Vec<u8>,
    event: Event,
    x: u128,
    y: u128,
    height: u128,
) -> Result<(), AllocError>
    ensures { OnOk result (out.new.items ≡ out.old.items ++ rect_words event x y height) }
{
    push_rect_class(out, event)?;
    push_attribute(out, "x", x)?;
    push_attribute(out, "y", y)?;
    push_size(out, 5, height)?;
    push_text(out, "/>")?;
    push_text(out, "\n")
}

/// Where the bar of a row begins, from the left; bars that lie side by side are moved apart.
fn bar_x(lanes: &[Lane], number: usize, row: &Row) -> u128
    ensures { result ≡ bar_x lanes.now number row.now }
{
    lane_x(lane_of(lanes, row.face)) + 6 * (number as u128 % 8)
}

/// Writes the bar that begins with a row, where one does.
#[tactic(auto, unfolding(crate::specs::Picture::bar_words))]
fn push_bar(
    out: &mut Vec<u8>,
    lanes: &[Lane],
    number: usize,
    row: &Row,
    later: &[Row],
) -> Result<(), AllocError>
    ensures { OnOk result (out.new.items ≡ out.old.items ++ bar_words lanes.now number row.now later.now) }
{
    if !row.event.is_bar() {
        return Ok(());
    }
    let height = 26 * span(row.event, later);
    let x = bar_x(lanes, number, row);
    push_rect(out, row.event, x, row_y(number), height)
}

/// Writes the bars of the rows.
fn push_bars(out: &mut Vec<u8>, lanes: &[Lane], rows: &[Row]) -> Result<(), AllocError>
    ensures { OnOk result (out.new.items ≡ out.old.items ++ bars_words lanes.now rows.now) }
{
    for (i, row) in rows.iter().enumerate() {
        push_bar(out, lanes, i, row, &rows[i + 1..])?;
    }
    Ok(())
}

/// Writes the beginning of a line of a lane's name.
#[tactic(auto, unfolding(crate::specs::Picture::name_words))]
fn push_name(out: &mut Vec<u8>, x: u128, y: u128) -> Result<(), AllocError>
    ensures { OnOk result (out.new.items ≡ out.old.items ++ name_words x y) }
{
    push_text(out, "<text class='name'")?;
    push_attribute(out, "x", x)?;
    push_attribute(out, "y", y)?;
    push_text(out, ">")
}

/// Writes the line of a lane, down to the last row.
#[tactic(auto, unfolding(crate::specs::Picture::lane_words))]
fn push_lane(out: &mut Vec<u8>, x: u128, height: u128) -> Result<(), AllocError>
    ensures { OnOk result (out.new.items ≡ out.old.items ++ lane_words x height) }
{
    push_path(out, "lane", x, 66)?;
    push_text(out, " V")?;
    push_number(out, height)?;
    push_text(out, "'/>")?;
    push_text(out, "\n")
}

/// Writes an id, of which no more than the first `ID` digits are shown.
fn push_id(alloc: Global, out: &mut Vec<u8>, zid: Zid) -> Result<(), AllocError>
    ensures { OnOk result (out.new.items ≡ out.old.items ++ shown_short ID (decimal zid.0)) }
{
    let mut digits = Vec::new(alloc);
    push_number(&mut digits, zid.0)?;
    push_short(alloc, out, ID, digits.as_slice())
}

/// Writes the region, the mode and the id of a face, each on a line of its own.
#[tactic(auto, unfolding(crate::specs::Picture::opened_words))]
fn push_opened(alloc: Global, out: &mut Vec<u8>, x: u128, about: About) -> Result<(), AllocError>
    ensures { OnOk result (out.new.items ≡ out.old.items ++ opened_words x about) }
{
    push_name(out, x, 30)?;
    about.region.show(out)?;
    push_text(out, "</text>")?;
    push_name(out, x, 44)?;
    about.mode.show(out)?;
    push_text(out, "</text>")?;
    push_name(out, x, 58)?;
    push_id(alloc, out, about.zid)?;
    push_text(out, "</text>")
}

/// Writes how a face was opened, if it was.
fn push_about(
    alloc: Global,
    out: &mut Vec<u8>,
    x: u128,
    about: Option<About>,
) -> Result<(), AllocError>
    ensures { OnOk result (out.new.items ≡ out.old.items ++ about_words x about) }
{
    match about {
        Some(about) => push_opened(alloc, out, x, about),
        None => Ok(()),
    }
}

/// Writes the lane of a face, with its name.
#[tactic(auto, unfolding(crate::specs::Picture::face_words))]
fn push_face(
    alloc: Global,
    out: &mut Vec<u8>,
    height: u128,
    number: usize,
    lane: Lane,
) -> Result<(), AllocError>
    ensures { OnOk result (out.new.items ≡ out.old.items ++ face_words height number lane) }
{
    let x = lane_x(number as u128 + 1);
    push_name(out, x, 16)?;
    push_text(out, "face ")?;
    push_number(out, lane.face)?;
    push_text(out, "</text>")?;
    push_about(alloc, out, x, lane.about)?;
    push_lane(out, x, height)
}

/// Writes the lanes of the gateway and of the faces.
fn push_lanes(
    alloc: Global,
    out: &mut Vec<u8>,
    height: u128,
    lanes: &[Lane],
) -> Result<(), AllocError>
    ensures { OnOk result (out.new.items ≡ out.old.items ++ lanes_words height lanes.now) }
{
    push_name(out, 352, 16)?;
    push_text(out, "gateway</text>")?;
    push_lane(out, 352, height)?;
    for (i, lane) in lanes.iter().enumerate() {
        push_face(alloc, out, height, i, *lane)?;
    }
    Ok(())
}

/// Writes how large the view of a picture is.
#[tactic(auto, unfolding(crate::specs::Picture::view_words))]
fn push_view(out: &mut Vec<u8>, width: u128, height: u128) -> Result<(), AllocError>
    ensures { OnOk result (out.new.items ≡ out.old.items ++ view_words width height) }
{
    push_text(out, " viewBox='0 0 ")?;
    push_number(out, width)?;
    push_text(out, " ")?;
    push_number(out, height)?;
    push_text(out, "'")
}

/// Writes the beginning of a picture of a size.
#[tactic(auto, unfolding(crate::specs::Picture::open_words))]
fn push_open(out: &mut Vec<u8>, width: u128, height: u128) -> Result<(), AllocError>
    ensures { OnOk result (out.new.items ≡ out.old.items ++ open_words width height) }
{
    push_text(out, "<svg xmlns='http://www.w3.org/2000/svg'")?;
    push_view(out, width, height)?;
    push_size(out, width, height)?;
    push_text(
        out,
        " role='img' aria-label='Arrows between the faces and the gateway'>",
    )
}

/// Writes the picture of rows, with a lane for each of these faces.
#[tactic(auto, unfolding(crate::specs::Picture::picture_words))]
pub fn push_picture(
    alloc: Global,
    out: &mut Vec<u8>,
    lanes: &[Lane],
    rows: &[Row],
) -> Result<(), AllocError>
    ensures { OnOk result (out.new.items ≡ out.old.items ++ picture_words lanes.now rows.now) }
{
    let width = 416 + 116 * lanes.len() as u128;
    let height = 90 + 26 * rows.len() as u128;
    push_open(out, width, height)?;
    push_lanes(alloc, out, height, lanes)?;
    push_bars(out, lanes, rows)?;
    push_rows(alloc, out, lanes, width, rows)?;
    push_text(out, "</svg>")?;
    push_text(out, "\n")
}
