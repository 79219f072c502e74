//! Lists whose items have names.

ghost use Rattle.std.specs.Prelude.{◌≡◌};
ghost use Rattle.ix_keys.specs.Keys.{name_key};
ghost use Rattle.ix_device_rules.specs.Kinds.{kind_name, field_name};
ghost use Rattle.ix_device_rules.specs.Named.{name_is_new};
ghost use Rattle.ix_device_rules.specs.Rules.{each_by_earlier};
ghost use Rattle.ix_device_rules.specs.Walks.{Walks};

use crate::kinds::{Field, Kind};
use crate::stop::Stop;
use crate::walk::Walk;
use ix_keys::{Key, Keys};
use ix_num::NameId;
use ix_rec::{Bel, CellBelMapping, Items, SitePin};

/// The key of a name alone.
pub fn key_of(name: NameId) -> Key
    ensures { result ≡ name_key name }
{
    Key::of_name(name.get())
}

/// What has a name.
pub trait Named {
    ghost use Rattle.std.specs.Prelude.{◌≡◌, ℕ};

    ghost name_of: { Self → ℕ };

    /// Its name.
    fn name(&self) -> NameId
        ensures { result ≡ name_of self.now };
}

impl Named for SitePin {
    ghost name_of = { λ pin. pin.name };

    fn name(&self) -> NameId {
        self.name
    }
}

impl Named for Bel {
    ghost name_of = { λ bel. bel.name };

    fn name(&self) -> NameId {
        self.name
    }
}

impl Named for CellBelMapping {
    ghost name_of = { λ mapping. mapping.cell };

    fn name(&self) -> NameId {
        self.cell
    }
}

/// Asks that no two items of the list have one name.
pub fn names_differ_in<T: Named>(
    items: &Items<T>,
    kind: Kind,
    field: Field,
    walk: &mut Walk,
) -> Result<(), Stop>
    ensures { Walks (each_by_earlier (name_is_new (kind_name kind) (field_name field) T.name_of)
        items.now) walk.old result walk.new }
{
    let mut names = Keys::new(walk.alloc());
    for i in 0..items.len() {
        let key = Key::of_name(items.at(i).name().get());
        match walk.enter_new(kind, field, &mut names, key) {
            Ok(()) => {}
            Err(stop) => return Err(stop),
        }
    }
    Ok(())
}
