//! The ports of declarations, to be looked up.

ghost use Rattle.std.specs.Prelude.{◌≡◌, ◌<◌, ◌^◌, ◌++◌, map, length, OnOk, IfOk};
ghost use Rattle.std.specs.List.{AllByRecursion};
ghost use Rattle.ix_frame.specs.Views.{elements_of, numbers_of};
ghost use Rattle.ix_logic_read.specs.Pins.{AreHeld, pin_number};

use crate::sorted::Sorted;
use ix_frame::{List, Numbers};
use ix_num::Memory;
use std::alloc::Global;

/// A port of a declaration as one number.
pub fn pin(decl: u32, port: u32) -> u64
    ensures { result ≡ pin_number decl port }
{
    decl as u64 * 0x1_0000_0000 + port as u64
}

/// Adds the ports of a declaration.
fn add_ports(held: &mut Vec<u64>, decl: u32, ports: Numbers<'_>) -> Result<(), Memory>
    ensures adds { OnOk result (held.new.items
        ≡ held.old.items ++ map (pin_number decl) (numbers_of ports.entry)) }
    ensures below { IfOk result (λ _. AllByRecursion (λ p. p < 2 ^ 32) (numbers_of ports.entry)) }
{
    for i in 0..ports.len() {
        held.push(pin(decl, ports.at(i)))?;
    }
    Ok(())
}

/// The ports of declarations.
pub fn held_by(alloc: Global, decls: List<'_>) -> Result<Sorted, Memory>
    ensures { IfOk result (λ held. AreHeld held (elements_of decls.entry)) }
{
    let mut held = Vec::new(alloc);
    for d in 0..decls.len() {
        match add_ports(&mut held, d, decls.at(d).sound_numbers(0)) {
            Ok(()) => {}
            Err(memory) => return Err(memory),
        }
    }
    Ok(Sorted::new(held))
}
