//! The design as a whole.

ghost use Rattle.std.specs.Prelude.{◌≡◌, length, map, IfOk};
ghost use Rattle.ix_legal.specs.Holders.{nets_of_type};
ghost use Rattle.ix_rec.specs.declared.phys.NetType.TheVariants.{Signal};
ghost use Rattle.ix_extract.specs.Extracted.{net_of, IsExtracted, TellsDesign};
ghost use Rattle.ix_extract.specs.Taken.{AreTables, TellHolders, TellTables};

use crate::cells::placed_cells;
use crate::held::Netlist;
use crate::pins::pins_on_nets;
use crate::ports::port_sites;
use crate::tables::lut_tables;
use ix_num::Memory;
use ix_rec::{CellMap, Flat, FlatNet, Items, TruthTable};
use std::alloc::Global;

// The design with these nets and these truth tables.
fn with_tables(
    alloc: Global,
    on: &Netlist<'_>,
    nets: Items<FlatNet>,
    tables: CellMap<TruthTable>,
) -> Result<Flat, Memory>
    requires ready { TellHolders on.now.device.now on.now.phys.now on.now.ends.now
        on.now.holders.now on.now.ranks.now }
    requires tell { TellTables on.now.names.now on.now.device.now on.now.phys.now on.now.places.now
        on.now.keys.now on.now.ends.now on.now.holders.now }
    requires nets { nets ≡ map net_of (nets_of_type Signal on.now.phys.now.nets) }
    requires tables { AreTables on.now.names.now on.now.device.now on.now.phys.now
        (length on.now.phys.now.placements) tables }
    ensures { IfOk result (IsExtracted on.now.names.now on.now.device.now on.now.phys.now) }
{
    let cells = placed_cells(alloc, on.phys)?;
    let pins = pins_on_nets(alloc, on)?;
    let fixed = port_sites(alloc, on)?;
    Ok(Flat {
        cells,
        ports: 0,
        nets,
        pins,
        tables,
        fixed,
    })
}

/// The design with these nets; none exactly where a LUT has no function. `Memory` is the only
/// error.
pub(crate) fn with_nets(
    alloc: Global,
    on: &Netlist<'_>,
    nets: Items<FlatNet>,
) -> Result<Option<Flat>, Memory>
    requires ready { TellHolders on.now.device.now on.now.phys.now on.now.ends.now
        on.now.holders.now on.now.ranks.now }
    requires tell { TellTables on.now.names.now on.now.device.now on.now.phys.now on.now.places.now
        on.now.keys.now on.now.ends.now on.now.holders.now }
    requires nets { nets ≡ map net_of (nets_of_type Signal on.now.phys.now.nets) }
    ensures { IfOk result (TellsDesign on.now.names.now on.now.device.now on.now.phys.now) }
{
    match lut_tables(alloc, on)? {
        None => Ok(None),
        Some(tables) => Ok(Some(with_tables(alloc, on, nets, tables)?)),
    }
}
