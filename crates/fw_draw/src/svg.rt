//! A picture as SVG.

ghost use Rattle.std.specs.Prelude.{OnOk};
ghost use Rattle.std.specs.Io.KnownBytes.{Appends};
ghost use Rattle.fw_draw.specs.Svg.{escaped, escaped_byte, svg_text};

use crate::calls::CallSpan;
use crate::label::{Column, Label};
use crate::layout::{CALL_LANE, Layout, LinkColumn, lane_of, lay_out, middle_of};
use crate::link::{Arrow, Ending};
use crate::picture::Picture;
use std::alloc::{AllocError, Allocator};
use std::io;
use std::io::Write;

/// The height of the words over the columns.
const HEADS: u64 = 24;

/// The height at which the columns begin.
const TOP: u64 = 32;

/// How far the lower end of a text lies below its middle.
const BASELINE: u64 = 4;

/// What is said to those who do not see the picture.
const DESCRIPTION: &[u8] =
    b"<desc>Time runs downwards, and each row is an event. An arrow is a message, from the step \
    that put it into its link to the step that took it; it is dashed where a copy of a reply was refused. A cross is \
    a message that was lost. A bar is a system call, from its beginning to its answer. Nodes stand where their counts \
    change, as id:generation:count.</desc>\n";

/// The head of an arrow, and the ground.
const BEGINNING: &[u8] =
    b"<defs><marker id=\"head\" viewBox=\"0 0 8 8\" refX=\"8\" refY=\"4\" markerWidth=\"8\" \
    markerHeight=\"8\" orient=\"auto\"><path d=\"M0 1L8 4L0 7Z\"/></marker></defs>\n\
    <rect width=\"100%\" height=\"100%\" fill=\"#fff\"/>\n";

/// Writes a byte of a text.
fn write_escaped_byte<W: Write>(out: &mut W, byte: u8) -> io::Result<()>
    ensures { OnOk result (Appends (W.contents out.old) (W.contents out.new) (escaped_byte byte)) }
{
    match byte {
        b'&' => out.write_all(b"&amp;"),
        b'<' => out.write_all(b"&lt;"),
        b'>' => out.write_all(b"&gt;"),
        b'"' => out.write_all(b"&quot;"),
        32..=126 => out.write_all(&[byte]),
        _ => out.write_all(b"?"),
    }
}

/// Writes a text, in which `&`, `<`, `>` and `"` are escaped. A byte that is no printable ASCII character is written as
/// `?`.
///
/// # Errors
///
/// What `out` refuses.
pub fn write_escaped<W: Write>(out: &mut W, text: &[u8]) -> io::Result<()>
    ensures { OnOk result (Appends (W.contents out.old) (W.contents out.new) (escaped text.now)) }
{
    for byte in text {
        write_escaped_byte(out, *byte)?;
    }
    Ok(())
}

/// Writes a text that ends at an x or begins there.
fn write_label<A: Allocator, W: Write>(
    out: &mut W,
    layout: &Layout,
    label: &Label<A>,
) -> io::Result<()> {
    let (x, anchor) = match label.column {
        Column::KernelNodes => (layout.kernel_nodes, ""),
        Column::KernelEvents => (layout.kernel_events, " text-anchor=\"end\""),
        Column::ServerEvents => (layout.server_events, ""),
        Column::ServerNodes => (layout.server_nodes, ""),
    };
    let y = label.y.saturating_add(BASELINE);
    write!(out, "<text x=\"{x}\" y=\"{y}\"{anchor}>")?;
    write_escaped(out, label.text.as_slice())?;
    out.write_all(b"</text>\n")
}

/// Writes a word over a column.
fn write_head<W: Write>(out: &mut W, x: u64, anchor: &str, word: &str) -> io::Result<()> {
    writeln!(
        out,
        "<text x=\"{x}\" y=\"{HEADS}\" text-anchor=\"{anchor}\">{word}</text>"
    )
}

/// Writes the words over the columns.
fn write_heads<W: Write>(out: &mut W, layout: &Layout) -> io::Result<()> {
    out.write_all(b"<g font-weight=\"bold\">\n")?;
    write_head(out, layout.kernel_nodes, "start", "nodes")?;
    write_head(out, layout.kernel, "middle", "kernel")?;
    write_head(out, middle_of(layout.requests), "middle", "requests")?;
    write_head(out, middle_of(layout.replies), "middle", "replies")?;
    write_head(out, middle_of(layout.results), "middle", "results")?;
    write_head(out, layout.server, "middle", "server")?;
    write_head(out, layout.server_nodes, "start", "nodes")?;
    out.write_all(b"</g>\n")
}

/// Writes the field of a link.
fn write_field<W: Write>(out: &mut W, layout: &Layout, column: LinkColumn) -> io::Result<()> {
    let LinkColumn { x, width, .. } = column;
    let height = layout.bottom.saturating_sub(TOP);
    writeln!(
        out,
        "<rect x=\"{x}\" y=\"{TOP}\" width=\"{width}\" height=\"{height}\"/>"
    )
}

/// Writes the fields of the links.
fn write_fields<W: Write>(out: &mut W, layout: &Layout) -> io::Result<()> {
    out.write_all(b"<g fill=\"#eee\">\n")?;
    write_field(out, layout, layout.requests)?;
    write_field(out, layout, layout.replies)?;
    write_field(out, layout, layout.results)?;
    out.write_all(b"</g>\n")
}

/// Writes the lines of kernel and server.
fn write_sides<W: Write>(out: &mut W, layout: &Layout) -> io::Result<()> {
    let (kernel, server, bottom) = (layout.kernel, layout.server, layout.bottom);
    writeln!(
        out,
        "<path stroke=\"#000\" d=\"M{kernel} {TOP}V{bottom}M{server} {TOP}V{bottom}\"/>"
    )
}

/// Writes a call: a bar, and lines to the texts at its beginning and its answer. Without an answer the bar is open.
fn write_call<W: Write>(out: &mut W, layout: &Layout, call: &CallSpan) -> io::Result<()> {
    let text = layout.kernel_events.saturating_add(3);
    let left = layout
        .calls
        .saturating_add((call.lane as u64).saturating_mul(CALL_LANE))
        .saturating_add(3);
    let right = left.saturating_add(6);
    let start = call.start;
    match call.answer {
        Some(end) => writeln!(
            out,
            "<path d=\"M{text} {start}H{right}V{end}H{text}M{left} {start}V{end}\"/>"
        ),
        None => {
            let end = layout.bottom;
            writeln!(
                out,
                "<path d=\"M{text} {start}H{right}V{end}M{left} {start}V{end}\"/>"
            )
        }
    }
}

/// Writes the calls.
fn write_calls<W: Write>(out: &mut W, layout: &Layout, calls: &[CallSpan]) -> io::Result<()> {
    out.write_all(b"<g fill=\"none\" stroke=\"#000\">\n")?;
    for call in calls {
        write_call(out, layout, call)?;
    }
    out.write_all(b"</g>\n")
}

/// Writes how the way of a message ends: at the other side with an arrow, where the link was emptied with a cross, or
/// open.
fn write_ending<W: Write>(out: &mut W, layout: &Layout, ending: Ending, to: u64) -> io::Result<()> {
    match ending {
        Ending::Taken { y } => writeln!(out, "V{y}H{to}\" marker-end=\"url(#head)\"/>"),
        Ending::Lost { y } => writeln!(out, "V{y}m-3 -3l6 6m-6 0l6 -6\"/>"),
        Ending::OnItsWay => {
            let bottom = layout.bottom;
            writeln!(out, "V{bottom}\"/>")
        }
    }
}

/// Writes the way of a message from one side to the other, through its lane of the link.
fn write_arrow<W: Write>(
    out: &mut W,
    layout: &Layout,
    column: LinkColumn,
    sides: (u64, u64),
    arrow: &Arrow,
) -> io::Result<()> {
    let (from, to) = sides;
    let lane = lane_of(column, arrow.lane);
    let start = arrow.start;
    let dashes = if arrow.is_refused {
        "stroke-dasharray=\"4 3\" "
    } else {
        ""
    };
    write!(out, "<path {dashes}d=\"M{from} {start}H{lane}")?;
    write_ending(out, layout, arrow.ending, to)
}

/// Writes the ways of a link's messages.
fn write_link<W: Write>(
    out: &mut W,
    layout: &Layout,
    column: LinkColumn,
    sides: (u64, u64),
    arrows: &[Arrow],
) -> io::Result<()> {
    for arrow in arrows {
        write_arrow(out, layout, column, sides, arrow)?;
    }
    Ok(())
}

/// Writes the ways of all messages.
fn write_arrows<A: Allocator + Copy, W: Write>(
    out: &mut W,
    layout: &Layout,
    picture: &Picture<A>,
) -> io::Result<()> {
    let there = (layout.kernel, layout.server);
    let back = (layout.server, layout.kernel);
    out.write_all(b"<g fill=\"none\" stroke=\"#000\">\n")?;
    write_link(
        out,
        layout,
        layout.requests,
        there,
        picture.requests.arrows(),
    )?;
    write_link(out, layout, layout.replies, back, picture.replies.arrows())?;
    write_link(out, layout, layout.results, there, picture.results.arrows())?;
    out.write_all(b"</g>\n")
}

/// Writes all texts.
fn write_labels<A: Allocator, W: Write>(
    out: &mut W,
    layout: &Layout,
    labels: &[Label<A>],
) -> io::Result<()> {
    for label in labels {
        write_label(out, layout, label)?;
    }
    Ok(())
}

/// Writes the size of a picture, its name, and what it begins with.
fn write_start<W: Write>(out: &mut W, layout: &Layout, name: &str) -> io::Result<()> {
    let (width, height) = (layout.width, layout.height);
    writeln!(
        out,
        "width=\"{width}\" height=\"{height}\" viewBox=\"0 0 {width} {height}\" font-family=\"monospace\" \
         font-size=\"12\">"
    )?;
    out.write_all(b"<title>The run of ")?;
    write_escaped(out, name.as_bytes())?;
    out.write_all(b"</title>\n")?;
    out.write_all(DESCRIPTION)?;
    out.write_all(BEGINNING)
}

/// Writes what stands in the element of a picture, behind its name space.
fn write_inner<A: Allocator + Copy, W: Write>(
    out: &mut W,
    name: &str,
    picture: &Picture<A>,
) -> io::Result<()> {
    let layout = lay_out(picture);
    write_start(out, &layout, name)?;
    write_fields(out, &layout)?;
    write_heads(out, &layout)?;
    write_sides(out, &layout)?;
    write_calls(out, &layout, picture.calls.spans())?;
    write_arrows(out, &layout, picture)?;
    write_labels(out, &layout, picture.labels.labels())
}

/// What stands in the SVG element of a picture, behind its name space, under the name of the picture's script.
pub(crate) fn inner_text<A: Allocator + Copy>(
    alloc: A,
    name: &str,
    picture: &Picture<A>,
) -> Result<Vec<u8, A>, AllocError> {
    let mut inner = Vec::new(alloc);
    if write_inner(&mut inner, name, picture).is_err() {
        return Err(AllocError);
    }
    Ok(inner)
}

/// Writes an SVG element, and hands all on that was written.
///
/// # Errors
///
/// What `out` refuses.
pub fn print_svg<W: Write>(out: &mut W, inner: &[u8]) -> io::Result<()>
    ensures { OnOk result (Appends (W.contents out.old) (W.contents out.new) (svg_text inner.now)) }
{
    out.write_all(b"<svg xmlns=\"http://www.w3.org/2000/svg\" ")?;
    out.write_all(inner)?;
    out.write_all(b"</svg>\n")?;
    out.flush()
}
