//! Keys: a name where it is meant.

ghost use Rattle.std.specs.Prelude.{◌≡◌};
ghost use Rattle.ix_keys.specs.Keys.{key, name_key as key_of_name};

/// A name where it is meant, as a pin's name among those of a BEL of a site type.
#[derive(Clone, Copy, Debug, PartialEq, Eq, Hash)]
pub struct Key {
    /// The number of the thing that has the part, as a site type's; 0 where none is needed.
    pub owner: u32,
    /// The number or the name of the part, as a BEL's; 0 where none is needed.
    pub part: u32,
    /// The number of the name, as a pin's.
    pub name: u32,
}

impl Key {
    /// The name of a part of an owner.
    pub fn new(owner: u32, part: u32, name: u32) -> Key
        ensures { result ≡ key owner part name }
    {
        Key { owner, part, name }
    }

    /// A name alone.
    pub fn of_name(name: u32) -> Key
        ensures { result ≡ key_of_name name }
    {
        Key {
            owner: 0,
            part: 0,
            name,
        }
    }
}
