//! What is asked of a device, by names.

ghost use Rattle.std.specs.Prelude.{◌<◌, length, slice_get, IfSome};

use ix_device::Device;
use ix_num::{BelId, BelPinId, NameId, SiteTypeId};
use ix_strings::Names;

/// A device and its names.
#[derive(Drop)]
pub struct Asked<'a> {
    pub device: &'a Device,
    pub names: &'a Names,
}

/// The name of this text, if it is one of the names.
pub fn name_of(asked: &Asked<'_>, text: &str) -> Option<NameId> {
    asked.names.find(text)
}

/// The site type of this name.
pub fn type_named(asked: &Asked<'_>, name: &str) -> Option<SiteTypeId>
    ensures { IfSome result (λ t. t < length asked.now.device.now.site_type_list) }
{
    let t = asked.device.site_type(name_of(asked, name)?)?;
    if (t.get() as usize) < asked.device.rec().site_type_list.len() {
        Some(t)
    } else {
        None
    }
}

/// The BEL of this name in a site type.
pub fn bel_named(asked: &Asked<'_>, t: SiteTypeId, name: &str) -> Option<BelId>
    requires { t < length asked.now.device.now.site_type_list }
    ensures { IfSome result (λ b. IfSome (slice_get asked.now.device.now.site_type_list t) (λ ty.
        b < length ty.bels)) }
{
    let bel = asked.device.bel(t, name_of(asked, name)?)?;
    let ty = asked.device.rec().site_type_list.at(t.get() as usize);
    if (bel.get() as usize) < ty.bels.len() {
        Some(bel)
    } else {
        None
    }
}

/// The pin of this name of a BEL of a site type.
pub fn pin_named(asked: &Asked<'_>, t: SiteTypeId, bel: BelId, name: &str) -> Option<BelPinId>
    requires { t < length asked.now.device.now.site_type_list }
    ensures { IfSome result (λ p. IfSome (slice_get asked.now.device.now.site_type_list t) (λ ty.
        p < length ty.bel_pins)) }
{
    let pin = asked.device.bel_pin(t, bel, name_of(asked, name)?)?;
    let ty = asked.device.rec().site_type_list.at(t.get() as usize);
    if (pin.get() as usize) < ty.bel_pins.len() {
        Some(pin)
    } else {
        None
    }
}
