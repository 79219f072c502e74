//! Whether cells of a type go only where cells of a port's type go too.

ghost use Rattle.std.specs.Prelude.{◌≡◌, IfOk, OnOk};
ghost use Rattle.ix_belmap.specs.Groups.{stays_with as stays_with_seen};
ghost use Rattle.ix_belmap.specs.Marks.{Knows};

use crate::bels::is_home;
use ix_device::Device;
use ix_first::FirstByKey;
use ix_keys::Key;
use ix_num::{Memory, NameId};

// Whether only site types that also admit the port's type admit the other.
fn stays_with(device: &Device, port_type: NameId, ty: NameId) -> bool
    ensures { result ≡ stays_with_seen device.now port_type ty }
{
    for place in 0..device.rec().site_type_list.len() {
        if is_home(device, ty, place) {
            if !is_home(device, port_type, place) {
                return false;
            }
        }
    }
    true
}

/// The same, which is asked of the device once for each two types.
pub(crate) fn stays_known(
    device: &Device,
    known: &mut FirstByKey<bool>,
    port_type: NameId,
    ty: NameId,
) -> Result<bool, Memory>
    requires { Knows device.now known.now }
    ensures stays { IfOk result (λ stays. stays ≡ stays_with_seen device.now port_type ty) }
    ensures knows { OnOk result (Knows device.now known.new) }
{
    let key = Key::new(port_type.get(), ty.get(), 0);
    if let Some(stays) = known.get(key) {
        return Ok(stays);
    }
    let stays = stays_with(device, port_type, ty);
    known.put(key, stays)?;
    Ok(stays)
}
