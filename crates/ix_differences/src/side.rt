//! What a design says of a cell, by the cell's name.

ghost use Rattle.std.specs.Prelude.{◌≡◌, ◌<◌, length, IfSome, Some};
ghost use Rattle.ix_flat.specs.Range.{IsNetOf, NumbersFit};
ghost use Rattle.ix_differences.specs.Differences.{cell_named, net_at, site_at, table_at, type_at};
ghost use Rattle.ix_differences.specs.Differences.{named_net as net_by_name};
ghost use Rattle.ix_differences.specs.Numbers.{KnowsCell};

use crate::named_net::NamedNet;
use crate::numbers::CellNumbers;
use ix_num::{CellId, NameId, NetRef, SiteId};
use ix_rec::{Flat, TruthTable};

/// One of the two designs, with the numbers of its cells by name.
#[derive(Clone, Copy)]
pub(crate) struct Side<'a> {
    /// The design.
    pub flat: &'a Flat,
    /// The numbers of its cells.
    pub numbers: &'a CellNumbers,
}

// The number of the cell of a name.
fn cell_of(side: &Side<'_>, name: NameId) -> Option<CellId>
    requires knows { KnowsCell side.now.flat.now side.now.numbers.now name }
    ensures cell { result ≡ cell_named side.now.flat.now name }
    ensures inside { IfSome result (λ cell. cell < length side.now.flat.now.cells) }
{
    side.numbers.get(name.get() as usize)
}

/// The type of the cell of a name.
pub(crate) fn type_of(side: &Side<'_>, name: NameId) -> Option<NameId>
    requires knows { KnowsCell side.now.flat.now side.now.numbers.now name }
    ensures { result ≡ type_at side.now.flat.now name }
{
    let cell = cell_of(side, name)?;
    Some(side.flat.cells.at(cell.get() as usize).ty)
}

/// The site to which the cell of a name is fixed.
pub(crate) fn site_of(side: &Side<'_>, name: NameId) -> Option<SiteId>
    requires knows { KnowsCell side.now.flat.now side.now.numbers.now name }
    ensures { result ≡ site_at side.now.flat.now name }
{
    let cell = cell_of(side, name)?;
    side.flat.fixed.get(cell)
}

/// The truth table of the cell of a name.
pub(crate) fn table_of(side: &Side<'_>, name: NameId) -> Option<TruthTable>
    requires knows { KnowsCell side.now.flat.now side.now.numbers.now name }
    ensures { result ≡ table_at side.now.flat.now name }
{
    let cell = cell_of(side, name)?;
    side.flat.tables.get(cell)
}

/// A net by its name.
pub(crate) fn named_net(flat: &Flat, net: NetRef) -> NamedNet
    requires { IsNetOf flat.now net }
    ensures { net_by_name flat.now net ≡ Some result }
{
    match net {
        NetRef::Gnd => NamedNet::Gnd,
        NetRef::Vcc => NamedNet::Vcc,
        NetRef::Signal(n) => NamedNet::Signal(flat.nets.at(n.get() as usize).name),
    }
}

/// The net of a pin of the cell of a name, by the net's name.
pub(crate) fn net_of(side: &Side<'_>, cell: NameId, pin: NameId) -> Option<NamedNet>
    requires fits { NumbersFit side.now.flat.now }
    requires knows { KnowsCell side.now.flat.now side.now.numbers.now cell }
    ensures { result ≡ net_at side.now.flat.now cell pin }
{
    let cell = cell_of(side, cell)?;
    let net = side.flat.pins.get(cell, pin)?;
    Some(named_net(side.flat, net))
}
