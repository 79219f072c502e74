//! What pins do on their nets.

ghost use Rattle.std.specs.Prelude.{◌≡◌};
ghost use Rattle.ix_hierarchy.specs.Pins.{constant_pin as pin_of};
ghost use Rattle.ix_joined.specs.Roles.{role_in, role_of_constant as role_among, role_towards};

use ix_hierarchy::Kind;
use ix_num::{Constant, NameId};
use ix_rec::{Constants, Direction};

/// What a pin does on its net.
#[derive(Clone, Copy)]
pub enum Role {
    /// It drives it.
    Driver,
    /// It drives it with a constant.
    Constant(Constant),
    /// It is driven.
    Sink,
    /// Neither, as a pin of a constant cell that isn't its constant pin.
    Nothing,
}

/// A pin of a leaf that is on a net.
#[derive(Clone, Copy)]
pub struct LeafPin {
    /// The port.
    pub port: u32,
    /// Its written name.
    pub name: NameId,
    /// The first occurrence of the net.
    pub net: u32,
    /// What it does there.
    pub role: Role,
}

// The pin by which cells of a constant drive it.
fn constant_pin(constants: &Constants, constant: Constant) -> NameId
    ensures { result ≡ pin_of constants.now constant }
{
    match constant {
        Constant::Gnd => constants.gnd_cell_pin,
        Constant::Vcc => constants.vcc_cell_pin,
    }
}

// What a pin of a leaf of constant cells does.
fn role_of_constant(constants: &Option<Constants>, constant: Constant, name: NameId) -> Role
    ensures { result ≡ role_among constants.now constant name }
{
    match constants.as_ref() {
        Some(constants) => {
            if constant_pin(constants, constant) == name {
                Role::Constant(constant)
            } else {
                Role::Nothing
            }
        }
        None => Role::Nothing,
    }
}

/// What a pin of a kind of leaf does, by the direction of its port and its written name.
pub fn role_of(constants: &Option<Constants>, kind: Kind, dir: Direction, name: NameId) -> Role
    ensures { result ≡ role_in constants.now kind dir name }
{
    if let Kind::Constant(constant) = kind {
        return role_of_constant(constants, constant, name);
    }
    match dir {
        Direction::Input => Role::Sink,
        Direction::Output => Role::Driver,
        Direction::Inout => Role::Nothing,
    }
}

/// What a bit of the top does on its net.
pub fn role_of_bit(dir: Direction) -> Role
    ensures { result ≡ role_towards dir }
{
    match dir {
        Direction::Input => Role::Driver,
        Direction::Output => Role::Sink,
        Direction::Inout => Role::Nothing,
    }
}
