//! The conventional PIPs of tile types.

ghost use Rattle.std.specs.Prelude.{◌≡◌, map, IfOk};
ghost use Rattle.ix_graph.specs.Pips.{is_conventional, conventional};

use ix_first::number_of;
use ix_num::Memory;
use ix_rec::{Items, Pip, PipKind, TileType};
use std::alloc::Global;

/// A conventional PIP of a tile type.
#[derive(Clone, Copy)]
pub(crate) struct TilePip {
    /// Its place in the tile type's list of PIPs.
    pub place: u32,
    /// The wire at which a signal enters where it goes forward, as a place in the tile type's list
    /// of wires.
    pub wire0: u32,
    /// The wire at which it then leaves.
    pub wire1: u32,
    /// Whether a signal goes only from `wire0` to `wire1`, and not back too.
    pub directional: bool,
}

// Whether PIPs of this kind are conventional.
fn is_conventional(kind: PipKind) -> bool
    ensures { result ≡ is_conventional kind }
{
    kind == PipKind::Conventional
}

// The conventional ones of these PIPs.
fn conventional(alloc: Global, pips: &Items<Pip>) -> Result<Items<TilePip>, Memory>
    ensures { IfOk result (λ found. found ≡ conventional pips.now) }
{
    let mut found = Items::with_capacity(alloc, pips.len())?;
    for i in 0..pips.len() {
        let pip = pips.at(i);
        if is_conventional(pip.kind) {
            found.push(TilePip {
                place: number_of(i)?,
                wire0: pip.wire0,
                wire1: pip.wire1,
                directional: pip.directional,
            })?;
        }
    }
    Ok(found)
}

/// The conventional PIPs of each of these tile types.
pub(crate) fn pips_of_types(
    alloc: Global,
    types: &Items<TileType>,
) -> Result<Items<Items<TilePip>>, Memory>
    ensures { IfOk result (λ all. all ≡ map (λ ty. conventional ty.pips) types.now) }
{
    let mut all = Items::with_capacity(alloc, types.len())?;
    for i in 0..types.len() {
        all.push(conventional(alloc, &types.at(i).pips)?)?;
    }
    Ok(all)
}
