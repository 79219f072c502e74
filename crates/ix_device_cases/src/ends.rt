//! The ends of segments: each a node, or a site wire by its site and its number. At a PIP the
//! directed PIP follows, and its place.

ghost use Rattle.std.specs.Prelude.{◌≡◌};
ghost use Rattle.ix_graph.specs.Graph.{graph_of};

use crate::asked::{Asked, name_of};
use crate::lookups::word;
use crate::names::{put_name, put_tile_name};
use ix_graph::NodeGraph;
use ix_num::Res;
use ix_rec::{BranchKind, Segment};
use std::alloc::AllocError;

fn put_end(text: &mut String, asked: &Asked<'_>, end: Res) -> Result<(), AllocError> {
    match end {
        Res::Node(node) => {
            let node = node.get();
            write!(text, "node {node}")?;
        }
        Res::Wire(site, wire) => {
            if site.get() >= asked.device.sites() {
                return text.push_str("a number past the sites");
            }
            let wire = wire.get();
            text.push_str("wire ")?;
            put_name(text, asked.names, asked.device.site_name(site))?;
            write!(text, " {wire}")?;
        }
    }
    Ok(())
}

fn put_ends(
    text: &mut String,
    graph: &NodeGraph,
    asked: &Asked<'_>,
    segment: &Segment,
) -> Result<(), AllocError>
    requires { graph.now ≡ graph_of asked.now.device.now }
{
    match graph.ends(asked.device, segment) {
        Some((from, to)) => {
            put_end(text, asked, from)?;
            text.push_str(" > ")?;
            put_end(text, asked, to)
        }
        None => {
            text.push_str("none")?;
            Ok(())
        }
    }
}

/// Writes the directed PIP of a segment, if there is one, and its place.
fn put_pip(
    text: &mut String,
    graph: &NodeGraph,
    asked: &Asked<'_>,
    segment: &Segment,
) -> Result<(), AllocError>
    requires { graph.now ≡ graph_of asked.now.device.now }
{
    let Some(tile) = asked.device.tile(segment.first) else {
        return Ok(());
    };
    let (wire0, wire1) = (segment.second, segment.third);
    let found = graph.pip_named(asked.device, tile, wire0, wire1, segment.forward);
    if let Some(pip) = found {
        let number = pip.get();
        write!(text, " by {number} at ")?;
        let (tile, place, forward) = graph.pip_place(pip);
        put_tile_name(text, asked.names, asked.device, tile)?;
        let way = if forward { "forward" } else { "back" };
        write!(text, " {place} {way}")?;
    }
    Ok(())
}

fn kind_of(word: &str) -> Option<BranchKind> {
    match word {
        "BelPin" => Some(BranchKind::BelPin),
        "SitePin" => Some(BranchKind::SitePin),
        "SitePip" => Some(BranchKind::SitePip),
        "Pip" => Some(BranchKind::Pip),
        _ => None,
    }
}

/// The segment of these words: its kind, its three names and its way.
fn segment_of(asked: &Asked<'_>, words: &str) -> Option<Segment> {
    Some(Segment {
        kind: kind_of(word(words, 0))?,
        forward: word(words, 4) == "forward",
        first: name_of(asked, word(words, 1))?,
        second: name_of(asked, word(words, 2))?,
        third: name_of(asked, word(words, 3))?,
    })
}

/// Writes the ends of the segment of these words, and at a PIP the directed PIP.
pub fn put_segment(
    text: &mut String,
    graph: &NodeGraph,
    asked: &Asked<'_>,
    words: &str,
) -> Result<(), AllocError>
    requires { graph.now ≡ graph_of asked.now.device.now }
{
    let Some(segment) = segment_of(asked, words) else {
        return text.push_str("no segment");
    };
    put_ends(text, graph, asked, &segment)?;
    if segment.kind == BranchKind::Pip {
        put_pip(text, graph, asked, &segment)?;
    }
    Ok(())
}
