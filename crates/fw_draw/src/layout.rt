//! Where the columns of a picture stand.

use crate::label::Column;
use crate::picture::Picture;
use std::alloc::Allocator;

/// How wide four characters are, in pixels.
const FOUR_CHARACTERS: u64 = 29;

/// What lies around the picture, and between a text and what stands beside it.
const GAP: u64 = 12;

/// How wide a lane of calls is.
pub(crate) const CALL_LANE: u64 = 12;

/// How wide a lane of messages is.
pub(crate) const MESSAGE_LANE: u64 = 8;

/// The least width of a link.
const LINK: u64 = 24;

/// What lies beside a link.
const BESIDE_LINK: u64 = 52;

/// The least width of a column of texts: that of the word over it.
const NODES: u64 = 35;

/// What lies between the last row and the lower edge.
const BELOW: u64 = 8;

/// A link's column: its left edge, its width, and the left edge of its first lane, in pixels.
#[derive(Clone, Copy)]
pub(crate) struct LinkColumn {
    pub(crate) x: u64,
    pub(crate) width: u64,
    pub(crate) lanes: u64,
}

/// Where the columns stand, in pixels from the left, and how large the picture is.
#[derive(Clone, Copy)]
pub(crate) struct Layout {
    pub(crate) kernel_nodes: u64,
    /// The right edge of the kernel's texts.
    pub(crate) kernel_events: u64,
    /// The left edge of the first lane of calls.
    pub(crate) calls: u64,
    pub(crate) kernel: u64,
    pub(crate) requests: LinkColumn,
    pub(crate) replies: LinkColumn,
    pub(crate) results: LinkColumn,
    pub(crate) server: u64,
    pub(crate) server_events: u64,
    pub(crate) server_nodes: u64,
    pub(crate) width: u64,
    /// The lower end of what is open at the end of the run.
    pub(crate) bottom: u64,
    pub(crate) height: u64,
}

/// How wide this many things of this width are.
fn wide(count: usize, width: u64) -> u64 {
    (count as u64).saturating_mul(width)
}

/// The column of a link at the right of an x, with this many lanes.
fn link_column(left: u64, lanes: usize) -> LinkColumn {
    let x = left.saturating_add(BESIDE_LINK);
    let inner = wide(lanes, MESSAGE_LANE);
    let width = inner.max(LINK);
    let beside = width.saturating_sub(inner) / 2;
    LinkColumn {
        x,
        width,
        lanes: x.saturating_add(beside),
    }
}

/// The right edge of a link's column.
fn right_of(column: LinkColumn) -> u64 {
    column.x.saturating_add(column.width)
}

/// The middle of a link's column.
pub(crate) fn middle_of(column: LinkColumn) -> u64 {
    column.x.saturating_add(column.width / 2)
}

/// The middle of a lane of a link's column.
pub(crate) fn lane_of(column: LinkColumn, lane: usize) -> u64 {
    column
        .lanes
        .saturating_add(wide(lane, MESSAGE_LANE))
        .saturating_add(MESSAGE_LANE / 2)
}

/// How wide a column of texts is.
fn text_width<A: Allocator + Copy>(picture: &Picture<A>, column: Column) -> u64 {
    (wide(picture.labels.width(column), FOUR_CHARACTERS) / 4).max(NODES)
}

/// Where the columns of a picture stand.
pub(crate) fn lay_out<A: Allocator + Copy>(picture: &Picture<A>) -> Layout {
    let nodes = text_width(picture, Column::KernelNodes).saturating_add(GAP);
    let events = text_width(picture, Column::KernelEvents).saturating_add(2 * GAP);
    let kernel_events = nodes.saturating_add(events);
    let calls = kernel_events.saturating_add(GAP);
    let kernel = calls
        .saturating_add(wide(picture.calls.width(), CALL_LANE))
        .saturating_add(GAP);
    let requests = link_column(kernel, picture.requests.width());
    let replies = link_column(right_of(requests), picture.replies.width());
    let results = link_column(right_of(replies), picture.results.width());
    let server = right_of(results).saturating_add(BESIDE_LINK);
    let server_events = server.saturating_add(GAP);
    let server_nodes = server_events
        .saturating_add(text_width(picture, Column::ServerEvents))
        .saturating_add(2 * GAP);
    let width = server_nodes
        .saturating_add(text_width(picture, Column::ServerNodes))
        .saturating_add(GAP);
    Layout {
        kernel_nodes: GAP,
        kernel_events,
        calls,
        kernel,
        requests,
        replies,
        results,
        server,
        server_events,
        server_nodes,
        width,
        bottom: picture.y,
        height: picture.y.saturating_add(BELOW),
    }
}
