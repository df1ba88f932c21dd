//! The nodes of kernel and server, where their counts change.

use fuse_spec::NodeCount;
use fuse_text::write_node;
use std::alloc::{AllocError, Allocator};

/// The node of an id among nodes in rising id, if it is there.
fn find(nodes: &[NodeCount], nodeid: u64) -> Option<NodeCount> {
    let place = nodes
        .binary_search_by_key(&nodeid, |node| node.nodeid)
        .ok()?;
    nodes.get(place).copied()
}

/// Puts a node behind a text, and a space between them.
fn put_node<A: Allocator>(text: &mut Vec<u8, A>, node: NodeCount) -> Result<(), AllocError> {
    if !text.is_empty() {
        text.push(b' ')?;
    }
    write_node(text, node).map_err(|_| AllocError)
}

/// Puts the nodes that are new or have another count.
fn put_changed<A: Allocator>(
    text: &mut Vec<u8, A>,
    before: &[NodeCount],
    after: &[NodeCount],
) -> Result<(), AllocError> {
    for node in after {
        if find(before, node.nodeid) != Some(*node) {
            put_node(text, *node)?;
        }
    }
    Ok(())
}

/// Puts the nodes that are gone, with the count 0.
fn put_gone<A: Allocator>(
    text: &mut Vec<u8, A>,
    before: &[NodeCount],
    after: &[NodeCount],
) -> Result<(), AllocError> {
    for node in before {
        if find(after, node.nodeid).is_none() {
            put_node(
                text,
                NodeCount {
                    nodeid: node.nodeid,
                    generation: node.generation,
                    count: 0,
                },
            )?;
        }
    }
    Ok(())
}

/// Puts the nodes whose count changes in the place of a text, each as `ID:GENERATION:COUNT`: one that is gone has the
/// count 0. Both lists are in rising id.
///
/// # Errors
///
/// Out of memory: the text is a beginning.
pub(crate) fn put_changes<A: Allocator>(
    text: &mut Vec<u8, A>,
    before: &[NodeCount],
    after: &[NodeCount],
) -> Result<(), AllocError> {
    text.clear();
    put_changed(text, before, after)?;
    put_gone(text, before, after)
}
