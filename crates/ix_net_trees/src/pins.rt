//! What the device tells of BELs and their pins by names.

ghost use Rattle.std.specs.Prelude.{◌≡◌, ◌<◌, ◌↔◌, length, slice_get, is_some, IfSome, IsTrue};
ghost use Rattle.ix_graph.specs.Ends.{bel_pin_named as bel_pin_seen};
ghost use Rattle.ix_legal.specs.Sites.{direction_at, source_at, element_at};

use ix_device::Device;
use ix_num::{BelPinId, Constant, NameId, SiteTypeId};
use ix_rec::Direction;
use ix_walk::site_type_at;

// The pin of these names of a site type.
fn bel_pin_named(device: &Device, t: SiteTypeId, bel: NameId, pin: NameId) -> Option<BelPinId>
    requires { t < length device.now.site_type_list }
    ensures pin { result ≡ bel_pin_seen device.now t bel pin }
    ensures inside { IfSome result (λ p. IfSome (slice_get device.now.site_type_list t) (λ ty.
        p < length ty.bel_pins)) }
{
    let bel = device.bel(t, bel)?;
    device.bel_pin(t, bel, pin)
}

/// The direction of a BEL pin; none exactly where there is no such pin.
pub(crate) fn direction_of(
    device: &Device,
    site: NameId,
    bel: NameId,
    pin: NameId,
) -> Option<Direction>
    ensures { result ≡ direction_at device.now site bel pin }
{
    let t = site_type_at(device, site)?;
    let pin = bel_pin_named(device, t, bel, pin)?;
    let ty = device.rec().site_type_list.at(t.get() as usize);
    Some(ty.bel_pins.at(pin.get() as usize).dir)
}

/// The constant that a BEL pin can drive; none exactly where there is none.
pub(crate) fn source_of(device: &Device, site: NameId, bel: NameId, pin: NameId) -> Option<Constant>
    ensures { result ≡ source_at device.now site bel pin }
{
    let t = site_type_at(device, site)?;
    let pin = bel_pin_named(device, t, bel, pin)?;
    device.site_source(t, pin)
}

/// Whether a BEL is in a LUT element.
pub(crate) fn is_in_element(device: &Device, site: NameId, bel: NameId) -> bool
    ensures { result ≡ is_some (element_at device.now site bel) }
{
    element_of(device, site, bel).is_some()
}

// The LUT element of a BEL, and the BEL's place in it.
fn element_of(device: &Device, site: NameId, bel: NameId) -> Option<(u32, u32)>
    ensures { result ≡ element_at device.now site bel }
{
    let t = site_type_at(device, site)?;
    let bel = device.bel(t, bel)?;
    device.element_of(t, bel)
}
