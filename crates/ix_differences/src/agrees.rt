//! Whether two designs agree at a name.

ghost use Rattle.std.specs.Prelude.{◌≡◌, ◌<◌, length, Some, IfSome};
ghost use Rattle.std.specs.Bool.{Decides};
ghost use Rattle.ix_differences.specs.Differences.{AgreesOnCell, AgreesOnTable};
ghost use Rattle.ix_differences.specs.Differences.{site_at};
ghost use Rattle.ix_differences.specs.Earliest.{AgreesOn};
ghost use Rattle.ix_differences.specs.Numbers.{KnowsCell};

use crate::side::{Side, site_of, table_of, type_of};
use ix_num::NameId;
use ix_rec::TruthTable;

/// What is asked at the name of a cell.
#[derive(Clone, Copy)]
pub(crate) enum Asked {
    /// Whether there is such a cell in both, of one type, on its site.
    Cells,
    /// Whether its truth tables are alike.
    Tables,
}

// Whether the cell is on its site in `a` where `b` fixes it.
fn sites_agree(a: &Side<'_>, b: &Side<'_>, name: NameId) -> bool
    requires in_a { KnowsCell a.now.flat.now a.now.numbers.now name }
    requires in_b { KnowsCell b.now.flat.now b.now.numbers.now name }
    ensures { Decides result (IfSome (site_at b.now.flat.now name)
        (λ site. site_at a.now.flat.now name ≡ Some site)) }
{
    match site_of(b, name) {
        None => true,
        Some(site) => site_of(a, name) == Some(site),
    }
}

fn cells_agree(a: &Side<'_>, b: &Side<'_>, name: NameId) -> bool
    requires in_a { KnowsCell a.now.flat.now a.now.numbers.now name }
    requires in_b { KnowsCell b.now.flat.now b.now.numbers.now name }
    ensures { Decides result (AgreesOnCell a.now.flat.now b.now.flat.now name) }
{
    type_of(a, name) == type_of(b, name) && sites_agree(a, b, name)
}

fn are_alike(x: Option<TruthTable>, y: Option<TruthTable>) -> bool
    ensures { Decides result (x ≡ y) }
{
    match (x, y) {
        (None, None) => true,
        (Some(x), Some(y)) => x.bits == y.bits && x.inputs == y.inputs,
        _ => false,
    }
}

fn tables_agree(a: &Side<'_>, b: &Side<'_>, name: NameId) -> bool
    requires in_a { KnowsCell a.now.flat.now a.now.numbers.now name }
    requires in_b { KnowsCell b.now.flat.now b.now.numbers.now name }
    ensures { Decides result (AgreesOnTable a.now.flat.now b.now.flat.now name) }
{
    are_alike(table_of(a, name), table_of(b, name))
}

/// Whether they agree in what is asked at the name of a cell.
pub(crate) fn agree(asked: Asked, a: &Side<'_>, b: &Side<'_>, name: NameId) -> bool
    requires in_a { KnowsCell a.now.flat.now a.now.numbers.now name }
    requires in_b { KnowsCell b.now.flat.now b.now.numbers.now name }
    ensures { Decides result (AgreesOn asked a.now.flat.now b.now.flat.now name) }
{
    match asked {
        Asked::Cells => cells_agree(a, b, name),
        Asked::Tables => tables_agree(a, b, name),
    }
}
