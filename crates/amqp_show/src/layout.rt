//! Where the lines of a conversation stand in its picture, in pixels.
ghost use Rattle.std.specs.Prelude.{◌≡◌, drop, is_some};
ghost use Rattle.amqp_show.specs.Lines.{lines_of, behind as what_follows};
ghost use Rattle.amqp_show.specs.Layout.{kind_of, mark_of, below as below_of, room as room_of, lifeline as place_of_lifeline, middle as middle_of, width as width_of, measure as measured_by, measured, first_layout, step_side as side_at};

use crate::lines::{behind, next_line, place_of};
use crate::show::side_of;
use crate::voice::Side;

/// The height of a line.
pub const ROW: u64 = 20;

/// What a line tells.
#[derive(Clone, Copy, Debug, PartialEq, Eq)]
pub enum Row {
    /// A step and its line of the script.
    Step,
    /// A reply.
    Answer,
    /// A header or a frame of an end.
    Said(Side),
    /// Bytes of an end that are no whole header or frame.
    Cut(Side),
}

/// How much room there is.
#[derive(Clone, Copy, Debug, PartialEq, Eq)]
pub struct Layout {
    /// The letters of the longest reply, beside each lifeline.
    pub answers: usize,
    /// The letters of the longest of the other lines, between the lifelines.
    pub inner: usize,
    /// The lower edge.
    pub bottom: u64,
}

/// Whether a line begins so.
fn begins(line: &[u8], front: &[u8]) -> bool
    ensures { result ≡ is_some (what_follows front.now line.now) }
{
    behind(front, line).is_some()
}

/// What a line tells.
pub fn row_of(line: &[u8]) -> Row
    ensures { result ≡ kind_of line.now }
{
    if begins(line, b"    -> ") {
        Row::Said(Side::Client)
    } else if begins(line, b"    <- ") {
        Row::Said(Side::Listener)
    } else if begins(line, b"    ") {
        Row::Answer
    } else if begins(line, b"-> ") {
        Row::Cut(Side::Client)
    } else if begins(line, b"<- ") {
        Row::Cut(Side::Listener)
    } else {
        Row::Step
    }
}

impl Row {
    /// How many bytes of a line tell its kind.
    pub fn mark(self) -> usize
        ensures { result ≡ mark_of self }
    {
        match self {
            Row::Step => 0,
            Row::Answer => 4,
            Row::Said(_) => 7,
            Row::Cut(_) => 3,
        }
    }
}

/// A place so far below another.
pub fn below(place: u64, distance: u64) -> u64
    ensures { result ≡ below_of place distance }
{
    place.saturating_add(distance)
}

/// The room for so many letters; what is longer than 4,096 stands beyond it.
fn room(letters: usize) -> u64
    ensures { result ≡ room_of letters }
{
    8 * letters.min(4096) as u64
}

/// What stands behind so many bytes of a line.
pub fn behind_mark(line: &[u8], size: usize) -> &[u8]
    ensures { result.now ≡ drop size line.now }
{
    if size < line.len() {
        &line[size..]
    } else {
        &[]
    }
}

/// The end of a step, of which the line tells behind its number.
pub fn step_side(line: &[u8]) -> Side
    ensures { result ≡ side_at line.now }
{
    match place_of(line, b' ') {
        Some(place) => side_of(&line[place + 1..]),
        None => Side::Client,
    }
}

impl Layout {
    /// Where a lifeline stands.
    pub fn lifeline(self, side: Side) -> u64
        ensures { result ≡ place_of_lifeline side self }
    {
        let left = room(self.answers) + 24;
        match side {
            Side::Client => left,
            Side::Listener => left + room(self.inner) + 48,
        }
    }

    /// The middle between the lifelines.
    pub fn middle(self) -> u64
        ensures { result ≡ middle_of self }
    {
        self.lifeline(Side::Client) + room(self.inner) / 2 + 24
    }

    /// The right edge.
    pub fn width(self) -> u64
        ensures { result ≡ width_of self }
    {
        self.lifeline(Side::Listener) + room(self.answers) + 24
    }

    /// With room for a line more.
    fn measure(self, line: &[u8]) -> Self
        ensures { result ≡ measured_by self line.now }
    {
        let letters = line.len();
        let bottom = below(self.bottom, ROW);
        match row_of(line) {
            Row::Answer => Layout {
                answers: self.answers.max(letters),
                inner: self.inner,
                bottom,
            },
            Row::Step | Row::Said(_) | Row::Cut(_) => Layout {
                answers: self.answers,
                inner: self.inner.max(letters),
                bottom,
            },
        }
    }

    /// With room for all lines of a text.
    pub fn of(text: &[u8]) -> Self
        ensures { result ≡ measured first_layout (lines_of text.now) }
    {
        let mut layout = Layout {
            answers: 8,
            inner: 24,
            bottom: 40,
        };
        let mut rest = text;
        'lines: while let Some((line, after)) = next_line(rest) {
            layout = layout.measure(line);
            rest = after;
        }
        layout
    }
}
