//! Searches that are timed.

ghost use Rattle.std.specs.Prelude.{◌≡◌, ◌<◌};

use crate::reading::pairs_of;
use crate::sums::{NOTHING, Sum, with_found, with_time};
use anyhow::{Result, bail};
use ix_grids::{are_consistent, distances};
use ix_least::{Bounds, Costs, Edges, Search};
use std::alloc::Global;
use std::time::{Clock, Instant};

/// Adds a search without bounds.
fn with_search<E: Edges, C: Costs>(
    clock: &impl Clock,
    search: &mut Search,
    edges: &E,
    costs: &C,
    pair: (u32, u32),
    sum: Sum,
) -> Result<Sum>
    requires points { E.point_count edges.now ≡ search.old }
    requires source { pair.0 < search.old }
    requires target { pair.1 < search.old }
    ensures { search.new ≡ search.old }
{
    let (source, target) = pair;
    let start = Instant::now(clock)?;
    let found = search.find(edges, costs, &[source], target)?;
    let time = start.elapsed(clock)?;
    Ok(with_found(with_time(sum, time), &found))
}

/// Adds a search that these bounds lead; that they are consistent is asked before.
fn with_bounded_search<E: Edges, C: Costs, B: Bounds>(
    clock: &impl Clock,
    search: &mut Search,
    edges: &E,
    costs: &C,
    bounds: &B,
    pair: (u32, u32),
    sum: Sum,
) -> Result<Sum>
    requires points { E.point_count edges.now ≡ search.old }
    requires source { pair.0 < search.old }
    requires target { pair.1 < search.old }
    ensures { search.new ≡ search.old }
{
    let (source, target) = pair;
    if !are_consistent(edges, costs, bounds, target) {
        bail!("the bounds aren't consistent");
    }
    let start = Instant::now(clock)?;
    let found = search.find_bounded(edges, costs, bounds, &[source], target)?;
    let time = start.elapsed(clock)?;
    Ok(with_found(with_time(sum, time), &found))
}

/// Adds the search from one point to another; by the distances on a grid of this width as bounds,
/// if there is one.
fn with_pair<E: Edges, C: Costs>(
    rt: &HostRuntime,
    search: &mut Search,
    edges: &E,
    costs: &C,
    width: Option<usize>,
    pair: (u32, u32),
    sum: Sum,
) -> Result<Sum>
    requires { E.point_count edges.now ≡ search.old }
    ensures { search.new ≡ search.old }
{
    let points = edges.points();
    if pair.0 >= points || pair.1 >= points {
        bail!("a number past the points");
    }
    match width {
        Some(width) => {
            let bounds = distances(rt.alloc(), width, points, pair.1)?;
            with_bounded_search(rt, search, edges, costs, &bounds, pair, sum)
        }
        None => with_search(rt, search, edges, costs, pair, sum),
    }
}

/// The searches between these pairs, summed up.
fn sum_of<E: Edges, C: Costs>(
    rt: &HostRuntime,
    search: &mut Search,
    edges: &E,
    costs: &C,
    width: Option<usize>,
    pairs: &[(u32, u32)],
) -> Result<Sum>
    requires { E.point_count edges.now ≡ search.old }
    ensures { search.new ≡ search.old }
{
    let mut sum = NOTHING;
    for pair in pairs {
        sum = with_pair(rt, search, edges, costs, width, *pair, sum)?;
    }
    Ok(sum)
}

/// Makes the searches of a line, and prints what they come to.
fn time_line<E: Edges, C: Costs>(
    rt: &HostRuntime,
    search: &mut Search,
    edges: &E,
    costs: &C,
    width: usize,
    line: &str,
) -> Result<()>
    requires { E.point_count edges.now ≡ search.old }
    ensures { search.new ≡ search.old }
{
    let pairs = pairs_of(rt.alloc(), line)?;
    let name = line.split(' ').next().unwrap_or("");
    let width = if name.ends_with(":bounded") {
        Some(width)
    } else {
        None
    };
    let sum = sum_of(rt, search, edges, costs, width, &pairs)?;
    print_sum(rt, name, sum)
}

fn print_sum(rt: &HostRuntime, name: &str, sum: Sum) -> Result<()> {
    println!(rt; "{name}: {} paths, fold {}", sum.paths, sum.fold)?;
    eprintln!(rt; "{name}: {} us", sum.nanoseconds / 1000)?;
    Ok(())
}

/// Makes the searches of each line, and prints a line for each.
pub fn time_lines<E: Edges, C: Costs>(
    rt: &HostRuntime,
    edges: &E,
    costs: &C,
    width: usize,
    lines: &str,
) -> Result<()> {
    let mut search = Search::new(rt.alloc(), edges.points())?;
    for line in lines.lines() {
        time_line(rt, &mut search, edges, costs, width, line)?;
    }
    Ok(())
}
