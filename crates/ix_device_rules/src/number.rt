//! Places in lists as numbers of 32 bits.

ghost use Rattle.std.specs.Prelude.{◌≡◌, IfOk};

use ix_num::Memory;

/// The place as a number; a list that is too long for it passes memory.
pub fn number_of(place: usize) -> Result<u32, Memory>
    ensures { IfOk result (λ n. n ≡ place) }
{
    if place > u32::MAX as usize {
        return Err(Memory);
    }
    Ok(place as u32)
}
