//! A conversation as a picture: two lifelines, time downwards, a row for each line (Scalable Vector Graphics 1.1).
ghost use Rattle.std.specs.Prelude.{◌≡◌, ◌++◌, OnOk, IfOk};
ghost use Rattle.amqp_show.specs.Picture.{anchor_text, marked, marked_all, attribute_text, place_text, words_text, line_text, lifeline_text, line_front, svg_front, view_front, view_text, font_text, tip_front, tip_shape, white_text, size_text, head_text, step_row, answer_row, said_row, cut_row, row_text, side_after, picture_of, IsPicture};

use crate::layout::{Layout, ROW, Row, behind_mark, below, row_of, step_side};
use crate::lines::next_line;
use crate::show::shown;
use crate::voice::Side;
use amqp_shown::bytes::{push_hex, push_word};
use amqp_shown::value::push_number;
use std::alloc::{AllocError, Global};

/// Where the words of the first row stand.
const FIRST_ROW: u64 = 44;

/// How words stand at their place.
#[derive(Clone, Copy, Debug, PartialEq, Eq)]
pub enum Anchor {
    /// They begin there.
    Start,
    /// Their middle is there.
    Middle,
    /// They end there.
    End,
}

impl Anchor {
    fn attribute(self) -> &'static str
        ensures { result.now ≡ anchor_text self }
    {
        match self {
            Anchor::Start => "",
            Anchor::Middle => " text-anchor='middle'",
            Anchor::End => " text-anchor='end'",
        }
    }
}

/// Adds a byte of a text: markup by its name, a control character as `\x` and two digits.
fn push_marked_byte(out: &mut Vec<u8>, byte: u8) -> Result<(), AllocError>
    ensures { OnOk result (out.new.items ≡ out.old.items ++ marked byte) }
{
    match byte {
        b'&' => push_word(out, "&amp;"),
        b'<' => push_word(out, "&lt;"),
        b'>' => push_word(out, "&gt;"),
        0..=31 | 127 => {
            push_word(out, "\\x")?;
            push_hex(out, &[byte])
        }
        _ => {
            out.push(byte)?;
            Ok(())
        }
    }
}

/// Adds a text.
fn push_marked(out: &mut Vec<u8>, text: &[u8]) -> Result<(), AllocError>
    ensures { OnOk result (out.new.items ≡ out.old.items ++ marked_all text.now) }
{
    for byte in text {
        push_marked_byte(out, *byte)?;
    }
    Ok(())
}

/// Adds an attribute.
fn push_attribute(
    alloc: Global,
    out: &mut Vec<u8>,
    name: &str,
    value: u64,
) -> Result<(), AllocError>
    ensures { OnOk result (out.new.items ≡ out.old.items ++ attribute_text name.now value) }
{
    push_word(out, " ")?;
    push_word(out, name)?;
    push_word(out, "='")?;
    push_number(alloc, out, value)?;
    push_word(out, "'")
}

/// Adds the attributes of a place.
#[tactic(auto, unfolding(crate::specs::Picture::place_text))]
fn push_place(
    alloc: Global,
    out: &mut Vec<u8>,
    across: &str,
    down: &str,
    place: (u64, u64),
) -> Result<(), AllocError>
    ensures { OnOk result (out.new.items ≡ out.old.items ++ place_text across.now down.now place.0 place.1) }
{
    push_attribute(alloc, out, across, place.0)?;
    push_attribute(alloc, out, down, place.1)
}

/// Adds words at a place.
#[tactic(auto, unfolding(crate::specs::Picture::words_text))]
fn push_words(
    alloc: Global,
    out: &mut Vec<u8>,
    x: u64,
    y: u64,
    anchor: Anchor,
    words: &[u8],
) -> Result<(), AllocError>
    ensures { OnOk result (out.new.items ≡ out.old.items ++ words_text x y anchor words.now) }
{
    push_word(out, "<text")?;
    push_place(alloc, out, "x", "y", (x, y))?;
    push_word(out, anchor.attribute())?;
    push_word(out, ">")?;
    push_marked(out, words)?;
    push_word(out, "</text>\n")
}

/// Adds how a line begins.
#[tactic(auto, unfolding(crate::specs::Picture::line_front))]
fn push_line_front(out: &mut Vec<u8>) -> Result<(), AllocError>
    ensures { OnOk result (out.new.items ≡ out.old.items ++ line_front) }
{
    push_word(out, "<line stroke='black'")
}

/// Adds how a picture begins.
#[tactic(auto, unfolding(crate::specs::Picture::svg_front))]
fn push_svg_front(out: &mut Vec<u8>) -> Result<(), AllocError>
    ensures { OnOk result (out.new.items ≡ out.old.items ++ svg_front) }
{
    push_word(out, "<svg xmlns='http://www.w3.org/2000/svg'")
}

/// Adds the letters of a picture.
#[tactic(auto, unfolding(crate::specs::Picture::font_text))]
fn push_font(out: &mut Vec<u8>) -> Result<(), AllocError>
    ensures { OnOk result (out.new.items ≡ out.old.items ++ font_text) }
{
    push_word(out, " font-family='monospace' font-size='13'>\n")
}

/// Adds the room of the tip of an arrow.
#[tactic(auto, unfolding(crate::specs::Picture::tip_front))]
fn push_tip_front(out: &mut Vec<u8>) -> Result<(), AllocError>
    ensures { OnOk result (out.new.items ≡ out.old.items ++ tip_front) }
{
    push_word(
        out,
        "<defs><marker id='tip' markerWidth='9' markerHeight='8' refX='9' refY='4' orient='auto'>",
    )
}

/// Adds the tip of an arrow.
#[tactic(auto, unfolding(crate::specs::Picture::tip_shape))]
fn push_tip_shape(out: &mut Vec<u8>) -> Result<(), AllocError>
    ensures { OnOk result (out.new.items ≡ out.old.items ++ tip_shape) }
{
    push_word(out, "<path d='M0 0L9 4L0 8z'/></marker></defs>\n")
}

/// Adds a white ground, so that the picture is black on white everywhere.
#[tactic(auto, unfolding(crate::specs::Picture::white_text))]
fn push_white(out: &mut Vec<u8>) -> Result<(), AllocError>
    ensures { OnOk result (out.new.items ≡ out.old.items ++ white_text) }
{
    push_word(out, "<rect width='100%' height='100%' fill='white'/>\n")
}

/// Adds a line from one place to another.
#[tactic(auto, unfolding(crate::specs::Picture::line_text))]
fn push_line(
    alloc: Global,
    out: &mut Vec<u8>,
    from: (u64, u64),
    to: (u64, u64),
    style: &str,
) -> Result<(), AllocError>
    ensures { OnOk result (out.new.items ≡ out.old.items ++ line_text from.0 from.1 to.0 to.1 style.now) }
{
    push_line_front(out)?;
    push_place(alloc, out, "x1", "y1", from)?;
    push_place(alloc, out, "x2", "y2", to)?;
    push_word(out, style)?;
    push_word(out, "/>\n")
}

/// Adds a lifeline and its name.
#[tactic(auto, unfolding(crate::specs::Picture::lifeline_text))]
fn push_lifeline(
    alloc: Global,
    out: &mut Vec<u8>,
    place: u64,
    bottom: u64,
    name: &str,
) -> Result<(), AllocError>
    ensures { OnOk result (out.new.items ≡ out.old.items ++ lifeline_text place bottom name.now) }
{
    push_words(alloc, out, place, 20, Anchor::Middle, name.as_bytes())?;
    push_line(alloc, out, (place, 28), (place, bottom), "")
}

/// Adds how the corners of what is seen begin.
#[tactic(auto, unfolding(crate::specs::Picture::view_front))]
fn push_view_front(out: &mut Vec<u8>) -> Result<(), AllocError>
    ensures { OnOk result (out.new.items ≡ out.old.items ++ view_front) }
{
    push_word(out, " viewBox='0 0 ")
}

/// Adds what is seen of a picture: all of it, also where it is shown smaller.
fn push_view(alloc: Global, out: &mut Vec<u8>, width: u64, height: u64) -> Result<(), AllocError>
    ensures { OnOk result (out.new.items ≡ out.old.items ++ view_text width height) }
{
    push_view_front(out)?;
    push_number(alloc, out, width)?;
    push_word(out, " ")?;
    push_number(alloc, out, height)?;
    push_word(out, "'")
}

/// Adds the size of a picture.
fn push_size(alloc: Global, out: &mut Vec<u8>, layout: Layout) -> Result<(), AllocError>
    ensures { OnOk result (out.new.items ≡ out.old.items ++ size_text layout) }
{
    push_svg_front(out)?;
    push_attribute(alloc, out, "width", layout.width())?;
    push_attribute(alloc, out, "height", layout.bottom)?;
    push_view(alloc, out, layout.width(), layout.bottom)?;
    push_font(out)
}

/// Adds all that stands before the rows.
fn push_head(alloc: Global, out: &mut Vec<u8>, layout: Layout) -> Result<(), AllocError>
    ensures { OnOk result (out.new.items ≡ out.old.items ++ head_text layout) }
{
    push_size(alloc, out, layout)?;
    push_tip_front(out)?;
    push_tip_shape(out)?;
    push_white(out)?;
    let bottom = layout.bottom;
    push_lifeline(alloc, out, layout.lifeline(Side::Client), bottom, "client")?;
    push_lifeline(
        alloc,
        out,
        layout.lifeline(Side::Listener),
        bottom,
        "listener",
    )
}

/// Adds a step beside the lifeline of its end, towards the other.
fn push_step_row(
    alloc: Global,
    out: &mut Vec<u8>,
    layout: Layout,
    y: u64,
    side: Side,
    words: &[u8],
) -> Result<(), AllocError>
    ensures { OnOk result (out.new.items ≡ out.old.items ++ step_row layout y side words.now) }
{
    let place = layout.lifeline(side);
    match side {
        Side::Client => push_words(alloc, out, place + 6, y, Anchor::Start, words),
        Side::Listener => push_words(alloc, out, place - 6, y, Anchor::End, words),
    }
}

/// Adds a reply beside the lifeline of its end, away from the other.
fn push_answer_row(
    alloc: Global,
    out: &mut Vec<u8>,
    layout: Layout,
    y: u64,
    side: Side,
    words: &[u8],
) -> Result<(), AllocError>
    ensures { OnOk result (out.new.items ≡ out.old.items ++ answer_row layout y side words.now) }
{
    let place = layout.lifeline(side);
    match side {
        Side::Client => push_words(alloc, out, place - 6, y, Anchor::End, words),
        Side::Listener => push_words(alloc, out, place + 6, y, Anchor::Start, words),
    }
}

/// Adds what an end said above an arrow to the other.
fn push_said_row(
    alloc: Global,
    out: &mut Vec<u8>,
    layout: Layout,
    y: u64,
    side: Side,
    words: &[u8],
) -> Result<(), AllocError>
    ensures { OnOk result (out.new.items ≡ out.old.items ++ said_row layout y side words.now) }
{
    let from = (layout.lifeline(side), below(y, 5));
    let to = (layout.lifeline(side.other()), below(y, 5));
    push_words(alloc, out, layout.middle(), y, Anchor::Middle, words)?;
    push_line(alloc, out, from, to, " marker-end='url(#tip)'")
}

/// Adds what an end has not said above a broken line that does not reach the other.
fn push_cut_row(
    alloc: Global,
    out: &mut Vec<u8>,
    layout: Layout,
    y: u64,
    side: Side,
    words: &[u8],
) -> Result<(), AllocError>
    ensures { OnOk result (out.new.items ≡ out.old.items ++ cut_row layout y side words.now) }
{
    let from = (layout.lifeline(side), below(y, 5));
    let to = (layout.middle(), below(y, 5));
    push_words(alloc, out, layout.middle(), y, Anchor::Middle, words)?;
    push_line(alloc, out, from, to, " stroke-dasharray='4'")
}

/// Adds the row of a line; the end is that of its step.
fn push_row(
    alloc: Global,
    out: &mut Vec<u8>,
    layout: Layout,
    y: u64,
    side: Side,
    line: &[u8],
) -> Result<(), AllocError>
    ensures { OnOk result (out.new.items ≡ out.old.items ++ row_text layout y side line.now) }
{
    let row = row_of(line);
    let words = behind_mark(line, row.mark());
    match row {
        Row::Step => push_step_row(alloc, out, layout, y, side, words),
        Row::Answer => push_answer_row(alloc, out, layout, y, side, words),
        Row::Said(end) => push_said_row(alloc, out, layout, y, end, words),
        Row::Cut(end) => push_cut_row(alloc, out, layout, y, end, words),
    }
}

/// The end of the step that a line is or belongs to, where this is that of the line before.
fn side_of_row(side: Side, line: &[u8]) -> Side
    ensures { result ≡ side_after side line.now }
{
    match row_of(line) {
        Row::Step => step_side(line),
        Row::Answer | Row::Said(_) | Row::Cut(_) => side,
    }
}

/// The picture of what is shown; the one error is want of memory.
fn picture(alloc: Global, text: &[u8]) -> Result<Vec<u8>, AllocError>
    ensures { IfOk result (λ svg. svg.items ≡ picture_of text.now) }
{
    let layout = Layout::of(text);
    let mut out = Vec::new(alloc);
    push_head(alloc, &mut out, layout)?;
    let mut y = FIRST_ROW;
    let mut side = Side::Client;
    let mut rest = text;
    'lines: while let Some((line, after)) = next_line(rest) {
        side = side_of_row(side, line);
        push_row(alloc, &mut out, layout, y, side, line)?;
        y = below(y, ROW);
        rest = after;
    }
    push_word(&mut out, "</svg>\n")?;
    Ok(out)
}

/// What `shown` gives as a picture: two lifelines, time downwards, a row for each line, with an arrow where it is a header or a frame,
/// and replies at the side. The one error is want of memory.
pub fn svg(alloc: Global, script: &[u8], trace: &[u8]) -> Result<Vec<u8>, AllocError>
    ensures { IfOk result (λ svg. IsPicture script.now trace.now svg.items) }
{
    let text = shown(alloc, script, trace)?;
    let svg = picture(alloc, text.as_slice())?;
    Ok(svg)
}
