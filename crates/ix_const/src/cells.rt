//! Cell types that stand for a constant.

ghost use Rattle.std.specs.Prelude.{◌≡◌};
ghost use Rattle.ix_const.specs.Constants.{constant_of_cell};

use ix_device::Device;
use ix_num::{Constant, NameId};

/// The constant for which cells of this type stand; `None` for any other type, and where the device
/// has no constant cells. A type that the device names for both constants is gnd's. It doesn't
/// matter whether the type has pin maps.
pub fn is_const_cell(device: &Device, cell: NameId) -> Option<Constant>
    ensures { result ≡ constant_of_cell device.now cell }
{
    let constants = device.rec().constants.as_ref()?;
    if constants.gnd_cell_type == cell {
        Some(Constant::Gnd)
    } else if constants.vcc_cell_type == cell {
        Some(Constant::Vcc)
    } else {
        None
    }
}
