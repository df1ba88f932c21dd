//! The nodes of one side, printed.

use crate::form::{Form, Printer};
use fuse_spec::NodeCount;
use fuse_text::{OutputRefused, write_nodes};
use std::io::Write;

/// Prints a node as a JSON object.
fn print_node<W: Write>(
    printer: &mut Printer<'_, W>,
    node: NodeCount,
) -> Result<(), OutputRefused> {
    printer.put(b"{\"nodeid\":")?;
    printer.put_number(node.nodeid)?;
    printer.put(b",\"generation\":")?;
    printer.put_number(node.generation)?;
    printer.put(b",\"count\":")?;
    printer.put_number(node.count)?;
    printer.put(b"}")
}

/// Prints nodes as a JSON list.
fn print_list<W: Write>(
    printer: &mut Printer<'_, W>,
    nodes: &[NodeCount],
) -> Result<(), OutputRefused> {
    printer.put(b"[")?;
    let mut is_first = true;
    for node in nodes {
        if !is_first {
            printer.put(b",")?;
        }
        print_node(printer, *node)?;
        is_first = false;
    }
    printer.put(b"]")
}

/// Prints the nodes of one side, each its id, its generation and its lookup count.
///
/// # Errors
///
/// The output refused.
pub(crate) fn print_nodes<W: Write>(
    out: &mut W,
    form: Form,
    side: &str,
    nodes: &[NodeCount],
) -> Result<(), OutputRefused> {
    if form == Form::Words {
        return write_nodes(out, side.as_bytes(), nodes);
    }
    let mut printer = Printer::new(out, form);
    printer.start(side)?;
    printer.put(b",\"nodes\":")?;
    print_list(&mut printer, nodes)?;
    printer.end()
}
