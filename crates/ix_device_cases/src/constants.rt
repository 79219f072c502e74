//! The constants of a device in words: the nodes of each, and for which of them the cells of given
//! types stand.

use crate::asked::{Asked, name_of};
use crate::graph::constant_word;
use ix_const::{const_nodes, is_const_cell};
use ix_graph::NodeGraph;
use ix_num::{Constant, NodeId};
use std::alloc::{AllocError, Global};

fn put_numbers(text: &mut String, nodes: &[NodeId]) -> Result<(), AllocError> {
    for node in nodes {
        let number = node.get();
        write!(text, " {number}")?;
    }
    Ok(())
}

/// Writes the nodes of a constant.
fn put_nodes(
    text: &mut String,
    alloc: Global,
    graph: &NodeGraph,
    c: Constant,
) -> Result<(), AllocError> {
    match const_nodes(alloc, graph, c) {
        Ok(nodes) => put_numbers(text, &nodes),
        Err(_) => text.push_str(" out of memory"),
    }
}

/// Writes the constant for which cells of the type of this name stand.
fn put_cell(text: &mut String, asked: &Asked<'_>, name: &str) -> Result<(), AllocError> {
    match name_of(asked, name) {
        Some(cell) => text.push_str(constant_word(is_const_cell(asked.device, cell))),
        None => text.push_str("no name"),
    }
}

fn put_cells(text: &mut String, asked: &Asked<'_>, names: &str) -> Result<(), AllocError> {
    for name in names.split(' ') {
        write!(text, "; {name} ")?;
        put_cell(text, asked, name)?;
    }
    Ok(())
}

/// Writes the nodes of each constant, and for which of them cells of the types of these names
/// stand.
pub fn put_constants(
    text: &mut String,
    alloc: Global,
    graph: &NodeGraph,
    asked: &Asked<'_>,
    names: &str,
) -> Result<(), AllocError> {
    text.push_str("gnd")?;
    put_nodes(text, alloc, graph, Constant::Gnd)?;
    text.push_str("; vcc")?;
    put_nodes(text, alloc, graph, Constant::Vcc)?;
    put_cells(text, asked, names)
}
