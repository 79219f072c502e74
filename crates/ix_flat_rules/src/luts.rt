//! The LUT cells of a device, by the types of leaves.

ghost use Rattle.std.specs.Prelude.{◌≡◌, IfSome, MatchOption, None, Some, ℕ};
ghost use Rattle.ix_rec.specs.declared.netlist.CellInstance.{CellInstance};
ghost use Rattle.ix_hierarchy.specs.FlatDesign.{lut_of_type};
ghost use Rattle.ix_hierarchy.specs.Hierarchy.{Path};
ghost use Rattle.ix_joined.specs.Joining.{Known};
ghost use Rattle.ix_lut_tables.specs.Tables.{AreLutTypes, HasFewInputs};
ghost use Rattle.ix_flat_rules.specs.Leaves.{IsPlainAt};

use ix_first::FirstByKey;
use ix_joined::Joined;
use ix_lut_tables::lut_of;
use ix_num::NameId;
use ix_rec::{DeviceRec, LutCell, NetlistRec};

/// What the device says of a type; none exactly where it isn't a LUT type.
pub(crate) fn lut_type<'a>(
    device: &'a DeviceRec,
    luts: &FirstByKey<u32>,
    ty: NameId,
) -> Option<&'a LutCell>
    requires { AreLutTypes device.now luts.now }
    ensures lut { MatchOption result (lut_of_type device.now ty ≡ None)
        (λ lut. lut_of_type device.now ty ≡ Some lut.now) }
    ensures sizes { IfSome result (λ lut. HasFewInputs lut.now) }
{
    match lut_of(device, luts, ty) {
        Some(place) => Some(device.lut_definitions.lut_cells.at(place as usize)),
        None => None,
    }
}

/// What the device says of the type of a leaf, which is given by its number in preorder; none
/// exactly where that isn't a LUT type.
pub(crate) fn lut_at<'a>(
    rec: &NetlistRec,
    device: &'a DeviceRec,
    luts: &FirstByKey<u32>,
    joined: &Joined,
    instance: u32,
) -> Option<&'a LutCell>
    requires luts { AreLutTypes device.now luts.now }
    requires leaf { (known : Known) × (path : Path) × (inst : CellInstance) × (ty : ℕ)
        × IsPlainAt known rec.now joined.now instance path inst ty }
    ensures lut { (known : Known) (path : Path) (inst : CellInstance) (ty : ℕ)
        → IsPlainAt known rec.now joined.now instance path inst ty
        → MatchOption result (lut_of_type device.now ty ≡ None)
        (λ lut. lut_of_type device.now ty ≡ Some lut.now) }
    ensures sizes { IfSome result (λ lut. HasFewInputs lut.now) }
{
    let declaration = joined.instances[instance as usize].declaration;
    let ty = rec.cell_decls.at(declaration as usize).name;
    lut_type(device, luts, ty)
}
