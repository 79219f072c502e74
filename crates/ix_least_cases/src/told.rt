//! What is told of the paths from a source.

ghost use Rattle.std.specs.Prelude.{◌≡◌, ◌<◌, ◌≤◌};

use ix_grids::{are_consistent, distances};
use ix_least::{Costs, Edges, Path, Search};
use ix_num::Memory;
use std::alloc::Global;

/// The paths from a source, summed up.
#[derive(Clone, Copy, PartialEq, Eq)]
pub(crate) struct Told {
    pub(crate) reached: u64,
    pub(crate) edges: u64,
    pub(crate) cost: u64,
    pub(crate) fold: u64,
}

fn with_path<C: Costs>(told: Told, costs: &C, path: &Path) -> Told {
    let mut cost = told.cost;
    let mut fold = told.fold;
    for i in 0..path.len() {
        let (edge, point) = path.at(i);
        cost = cost.wrapping_add(costs.cost(point).unwrap_or(0));
        fold = fold
            .wrapping_mul(31)
            .wrapping_add(u64::from(edge))
            .wrapping_add(1);
    }
    Told {
        reached: told.reached.wrapping_add(1),
        edges: told.edges.wrapping_add(u64::from(path.len())),
        cost,
        fold,
    }
}

/// What is told of the paths from a source, by searches without bounds, or with the distances on a
/// grid of this width as bounds.
pub(crate) fn told_from<E: Edges, C: Costs>(
    alloc: Global,
    search: &mut Search,
    edges: &E,
    costs: &C,
    source: u32,
    bounds: Option<usize>,
) -> Result<Told, Memory>
    requires points { E.point_count edges.now ≡ search.old }
    requires source { source < search.old }
    ensures { search.new ≡ search.old }
{
    let mut told = Told {
        reached: 0,
        edges: 0,
        cost: 0,
        fold: 0,
    };
    let points = edges.points();
    for target in 0..points {
        let found = match bounds {
            Some(width) => {
                let table = distances(alloc, width, points, target)?;
                if are_consistent(edges, costs, &table, target) {
                    search.find_bounded(edges, costs, &table, &[source], target)?
                } else {
                    None
                }
            }
            None => search.find(edges, costs, &[source], target)?,
        };
        if let Some(path) = found {
            told = with_path(told, costs, &path);
        }
        told.fold = told.fold.wrapping_mul(31);
    }
    Ok(told)
}
