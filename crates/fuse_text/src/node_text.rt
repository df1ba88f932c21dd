//! Nodes as they are listed.

ghost use Rattle.std.specs.Prelude.{◌≡◌, ◌≤◌, ◌++◌, ◌∷◌, [], OnErr, OnOk, flat_map, length};
ghost use Rattle.std.specs.Io.KnownBytes.{Appends};
ghost use Rattle.fuse_text.specs.Nodes.{node_words, nodes_text, spaced_node};
ghost use Rattle.fuse_text.specs.Outputs.{AppendsSome};

use crate::output::{OutputRefused, write_text};
use crate::short_text::ShortText;
use fuse_spec::NodeCount;
use std::io::Write;

/// The text `ID:GENERATION:COUNT`.
fn node_text(node: NodeCount) -> ShortText
    ensures text { result ≡ node_words node }
    ensures room { length result ≤ 62 }
{
    let mut text = ShortText::new();
    text.put_number(node.count);
    text.put_byte(b':');
    text.put_number(node.generation);
    text.put_byte(b':');
    text.put_number(node.nodeid);
    text
}

/// Writes a node, as `ID:GENERATION:COUNT`.
///
/// # Errors
///
/// The output refused: it has a beginning of the text.
pub fn write_node<W: Write>(out: &mut W, node: NodeCount) -> Result<(), OutputRefused>
    ensures ok { OnOk result (Appends (W.contents out.old) (W.contents out.new) (node_words node)) }
    ensures refused { OnErr result (AppendsSome (W.contents out.old) (W.contents out.new) (node_words node)) }
{
    write_text(out, node_text(node).bytes())
}

/// Writes a node behind a space.
fn write_spaced_node<W: Write>(out: &mut W, node: NodeCount) -> Result<(), OutputRefused>
    ensures ok { OnOk result (Appends (W.contents out.old) (W.contents out.new) (spaced_node node)) }
    ensures refused { OnErr result (AppendsSome (W.contents out.old) (W.contents out.new) (spaced_node node)) }
{
    let mut text = node_text(node);
    text.put_byte(b' ');
    write_text(out, text.bytes())
}

/// Writes nodes one after another, each behind a space.
fn write_list<W: Write>(out: &mut W, nodes: &[NodeCount]) -> Result<(), OutputRefused>
    ensures ok { OnOk result (Appends (W.contents out.old) (W.contents out.new) (flat_map spaced_node nodes.now)) }
    ensures refused { OnErr result (AppendsSome (W.contents out.old) (W.contents out.new) (flat_map spaced_node nodes.now)) }
{
    for node in nodes {
        write_spaced_node(out, *node)?;
    }
    Ok(())
}

/// Writes the line of one side's nodes, each as ` ID:GENERATION:COUNT` behind the side's name.
///
/// # Errors
///
/// The output refused: it has a beginning of the line.
pub fn write_nodes<W: Write>(
    out: &mut W,
    side: &[u8],
    nodes: &[NodeCount],
) -> Result<(), OutputRefused>
    ensures ok { OnOk result (Appends (W.contents out.old) (W.contents out.new) (nodes_text side.now nodes.now)) }
    ensures refused { OnErr result (AppendsSome (W.contents out.old) (W.contents out.new) (nodes_text side.now nodes.now)) }
{
    write_text(out, side)?;
    write_list(out, nodes)?;
    write_text(out, b"\n")
}
