//! The rows as SVG.

use crate::row::{Direction, Row, Verdict};
use fw_draw::write_escaped;
use std::alloc::{AllocError, Allocator};
use std::io;
use std::io::Write;

/// Where the numbers of lines begin.
const NUMBERS: u64 = 10;

/// Where the line of the kernel stands, and that of the server.
const KERNEL: u64 = 110;

const SERVER: u64 = 690;

/// Where the counts begin.
const COUNTS: u64 = 710;

const WIDTH: u64 = 1160;

/// The height of the words over the columns, and where the rows begin.
const HEADS: u64 = 24;

const TOP: u64 = 34;

/// How high a row is, how much higher it is for each verdict, and how far its arrow lies below its top.
const ROW: u64 = 32;

const VERDICT: u64 = 15;

const ARROW: u64 = 22;

/// How far the text of a row lies below its top.
const TEXT: u64 = 16;

/// What is said to those who do not see the picture.
const DESCRIPTION: &[u8] =
    b"<desc>Time runs downwards, and each row is a line of the capture. An arrow is a frame, from the kernel to the \
    server or back; it is dashed where the device refused it. Faults stand below their frame, in red, and warnings in \
    brown. On the right stand the nodes whose counts the frame changes, as nodeid:count.</desc>\n";

/// The heads of arrows, and the ground.
const BEGINNING: &[u8] =
    b"<defs><marker id=\"head\" viewBox=\"0 0 8 8\" refX=\"8\" refY=\"4\" markerWidth=\"8\" \
    markerHeight=\"8\" orient=\"auto\"><path d=\"M0 1L8 4L0 7Z\" fill=\"context-stroke\"/></marker></defs>\n\
    <rect width=\"100%\" height=\"100%\" fill=\"#fff\"/>\n";

/// The colours of what is right, of a fault, and of a warning.
const RIGHT: &str = "#000";

const FAULT: &str = "#c00";

const WARNING: &str = "#850";

/// How high a row is.
fn height_of<A: Allocator>(row: &Row<A>) -> u64 {
    (row.verdicts.len() as u64)
        .saturating_mul(VERDICT)
        .saturating_add(ROW)
}

/// How high all rows are.
fn height<A: Allocator>(rows: &[Row<A>]) -> u64 {
    let mut height = TOP;
    for row in rows {
        height = height.saturating_add(height_of(row));
    }
    height
}

/// The colour of a verdict.
fn colour_of<A: Allocator>(verdict: &Verdict<A>) -> &'static str {
    if verdict.is_warning { WARNING } else { FAULT }
}

/// The colour of a row: that of its first fault, else of its first warning.
fn colour<A: Allocator>(row: &Row<A>) -> &'static str {
    let mut colour = RIGHT;
    for verdict in &row.verdicts {
        if !verdict.is_warning {
            return FAULT;
        }
        colour = WARNING;
    }
    colour
}

/// Writes a text.
fn write_text<W: Write>(out: &mut W, x: u64, y: u64, colour: &str, text: &[u8]) -> io::Result<()> {
    write!(out, "<text x=\"{x}\" y=\"{y}\" fill=\"{colour}\">")?;
    write_escaped(out, text)?;
    out.write_all(b"</text>\n")
}

/// Writes the number of a row's line.
fn write_number<W: Write>(out: &mut W, y: u64, number: u64, is_asked: bool) -> io::Result<()> {
    let weight = if is_asked {
        " font-weight=\"bold\""
    } else {
        ""
    };
    writeln!(
        out,
        "<text x=\"{NUMBERS}\" y=\"{y}\"{weight}>line {number}</text>"
    )
}

/// Writes the arrow of a row.
fn write_arrow<W: Write>(
    out: &mut W,
    y: u64,
    direction: Direction,
    colour: &str,
) -> io::Result<()> {
    let (from, to, dashes) = match direction {
        Direction::ToServer => (KERNEL, SERVER, ""),
        Direction::ToKernel => (SERVER, KERNEL, ""),
        Direction::Refused => (SERVER, KERNEL, " stroke-dasharray=\"4 3\""),
        Direction::Nowhere => return Ok(()),
    };
    writeln!(
        out,
        "<path stroke=\"{colour}\"{dashes} d=\"M{from} {y}H{to}\" marker-end=\"url(#head)\"/>"
    )
}

/// Writes the verdicts of a row.
fn write_verdicts<A: Allocator, W: Write>(
    out: &mut W,
    top: u64,
    verdicts: &[Verdict<A>],
) -> io::Result<()> {
    let mut y = top;
    for verdict in verdicts {
        let text = verdict.text.as_slice();
        write_text(out, KERNEL.saturating_add(8), y, colour_of(verdict), text)?;
        y = y.saturating_add(VERDICT);
    }
    Ok(())
}

/// Writes a row, whose top is at a height.
fn write_row<A: Allocator, W: Write>(
    out: &mut W,
    around: u64,
    top: u64,
    row: &Row<A>,
) -> io::Result<()> {
    let colour = colour(row);
    let middle = top.saturating_add(TEXT);
    let arrow = top.saturating_add(ARROW);
    write_number(out, middle, row.number, row.number == around)?;
    write_text(
        out,
        KERNEL.saturating_add(8),
        middle,
        colour,
        row.words.as_slice(),
    )?;
    write_text(out, COUNTS, middle, RIGHT, row.counts.as_slice())?;
    write_arrow(out, arrow, row.direction, colour)?;
    write_verdicts(out, arrow.saturating_add(VERDICT), row.verdicts.as_slice())
}

/// Writes the size of a picture, its name, and what it begins with.
fn write_start<W: Write>(out: &mut W, name: &str, around: u64, bottom: u64) -> io::Result<()> {
    let height = bottom.saturating_add(16);
    writeln!(
        out,
        "width=\"{WIDTH}\" height=\"{height}\" viewBox=\"0 0 {WIDTH} {height}\" font-family=\"monospace\" \
         font-size=\"12\">"
    )?;
    out.write_all(b"<title>")?;
    write_escaped(out, name.as_bytes())?;
    writeln!(out, " around line {around}</title>")?;
    out.write_all(DESCRIPTION)?;
    out.write_all(BEGINNING)
}

/// Writes the words over the columns, and the lines of kernel and server.
fn write_sides<W: Write>(out: &mut W, bottom: u64) -> io::Result<()> {
    writeln!(
        out,
        "<g font-weight=\"bold\">\n<text x=\"{KERNEL}\" y=\"{HEADS}\" text-anchor=\"middle\">kernel</text>\n\
         <text x=\"{SERVER}\" y=\"{HEADS}\" text-anchor=\"middle\">server</text>\n\
         <text x=\"{COUNTS}\" y=\"{HEADS}\" dx=\"20\">counts</text>\n</g>"
    )?;
    writeln!(
        out,
        "<path stroke=\"{RIGHT}\" d=\"M{KERNEL} {TOP}V{bottom}M{SERVER} {TOP}V{bottom}\"/>"
    )
}

/// Writes what stands in the element of a picture, behind its name space.
fn write_inner<A: Allocator, W: Write>(
    out: &mut W,
    name: &str,
    around: u64,
    rows: &[Row<A>],
) -> io::Result<()> {
    let bottom = height(rows);
    write_start(out, name, around, bottom)?;
    write_sides(out, bottom)?;
    let mut top = TOP;
    for row in rows {
        write_row(out, around, top, row)?;
        top = top.saturating_add(height_of(row));
    }
    Ok(())
}

/// What stands in the SVG element of a picture of these rows, behind its name space.
///
/// # Errors
///
/// Out of memory.
pub(crate) fn inner_text<A: Allocator + Copy>(
    alloc: A,
    name: &str,
    around: u64,
    rows: &[Row<A>],
) -> Result<Vec<u8, A>, AllocError> {
    let mut inner = Vec::new(alloc);
    if write_inner(&mut inner, name, around, rows).is_err() {
        return Err(AllocError);
    }
    Ok(inner)
}
