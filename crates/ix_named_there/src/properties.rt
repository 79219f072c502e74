//! L1 of properties.

ghost use Rattle.std.specs.Prelude.{◌≡◌, ◌≢◌, ◌++◌, ◌<◌, ◌^◌, ℕ, MatchOption, length, take, map};
ghost use Rattle.std.specs.Prelude.{codes, IfOk};
ghost use Rattle.std.specs.Bool.{Decides};
ghost use Rattle.ix_message.specs.Shape.{Text};
ghost use Rattle.ix_device_rules.specs.Rules.{is_new};
ghost use Rattle.ix_legal.specs.Names.{KeyIsNamed};
ghost use Rattle.ix_walk.specs.Firsts.{TellsMisfit};
ghost use Rattle.ix_walk.specs.Marks.{AreNamesOf};
ghost use Rattle.ix_named_there.specs.Parts.{AreInside, key_of, value_of, site_of};

use crate::bits::table_bits_of;
use crate::keys::names_element;
use ix_device::Device;
use ix_num::Memory;
use ix_rec::{Phys, Property};
use ix_strings::Names;
use ix_walk::NameMarks;
use std::alloc::Global;

// What stands behind `TABLE/`.
fn behind_table(key: &str) -> Option<&str>
    ensures { MatchOption result ((rest : Text) → key.now ≢ codes "TABLE/" ++ rest)
        (λ rest. key.now ≡ codes "TABLE/" ++ rest.now) }
{
    key.strip_prefix("TABLE/")
}

// Whether a property names what is there, given whether its key is new.
fn is_named(
    device: &Device,
    phys: &Phys,
    names: &Names,
    sites: &NameMarks,
    property: &Property,
    new: bool,
) -> bool
    requires sites { AreNamesOf site_of phys.now.site_insts sites.now }
    requires key { property.now.key < length names.now }
    requires value { property.now.value < length names.now }
    ensures { (i : ℕ)
        → is_new (map (λ p. p.key) (take i phys.now.properties)) property.now.key ≡ new
        → Decides result (KeyIsNamed names.now device.now phys.now i property.now) }
{
    let Some(rest) = behind_table(names.name(property.key)) else {
        return true;
    };
    if !new {
        return false;
    }
    if !names_element(device, phys, names, sites, rest) {
        return false;
    }
    table_bits_of(names.name(property.value)).is_some()
}

/// The place of the first property that breaks L1. The sites of instances are marked.
pub(crate) fn first_property(
    alloc: Global,
    device: &Device,
    phys: &Phys,
    names: &Names,
    sites: &NameMarks,
) -> Result<Option<u32>, Memory>
    requires few { length phys.now.properties < 2 ^ 32 }
    requires sites { AreNamesOf site_of phys.now.site_insts sites.now }
    requires keys { AreInside key_of phys.now.properties (length names.now) }
    requires values { AreInside value_of phys.now.properties (length names.now) }
    ensures { IfOk result (TellsMisfit (KeyIsNamed names.now device.now phys.now)
        phys.now.properties) }
{
    let mut keys = NameMarks::new(alloc, names.len())?;
    for i in 0..phys.properties.len() {
        let property = phys.properties.at(i);
        let new = keys.add(property.key);
        if !is_named(device, phys, names, sites, property, new) {
            return Ok(Some(i as u32));
        }
    }
    Ok(None)
}
