//! What a struct's numbers are asked against.

ghost use Rattle.std.specs.Prelude.{◌<◌, ◌^◌, length};

use ix_num::NameId;
use ix_strings::Names;
use std::alloc::Global;

/// What the numbers of a message are asked against, and the names.
#[derive(Drop)]
pub struct Context<'n> {
    /// Where memory is taken from.
    pub alloc: Global,
    /// The names of the run, those of the message among them.
    pub names: &'n Names,
    /// The names of the string table.
    pub strings: &'n [NameId],
    /// How many site types there are.
    pub site_types: u32,
    /// Of each tile type, how many types its sites have.
    pub tile_types: &'n [u32],
    /// How many wires the device lists.
    pub wires: u32,
    ghost few: { length tile_types.now < 2 ^ 32 },
}

/// What the numbers of a struct are asked against besides, by the structs around it.
#[derive(Clone, Copy)]
pub struct Scope {
    /// How many BEL pins the site type around has.
    pub bel_pins: u32,
    /// How many wires the tile type around has.
    pub tile_wires: u32,
    /// The second number of the struct around, which of a tile is its type.
    pub tile_type: u32,
}

impl<'n> Context<'n> {
    ghost use Rattle.std.specs.Prelude.{◌≡◌, length, slice_index};

    /// How many tile types there are.
    pub fn tile_type_count(&self) -> u32
        ensures { result ≡ length self.now.tile_types.now }
    {
        self.tile_types.len() as u32
    }

    /// How many types the sites of the tile around have.
    pub fn site_types_of_tile(&self, scope: Scope) -> u32
        ensures { result ≡ slice_index self.now.tile_types.now scope.tile_type }
    {
        match self.tile_types.get(scope.tile_type as usize) {
            Some(count) => *count,
            None => 0,
        }
    }
}
