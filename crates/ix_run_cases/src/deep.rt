//! Designs of many levels, made as they are asked for, as their files would be long.

ghost use Rattle.std.specs.Prelude.{◌≤◌, ◌^◌};

use std::alloc::{AllocError, Global};

/// The most levels that are made.
const MOST_LEVELS: u32 = 1 << 20;

/// Puts a word, by its lower and its upper half.
fn put_word(file: &mut Vec<u8>, low: u32, high: u32) -> Result<(), AllocError> {
    for byte in low.to_le_bytes() {
        file.push(byte)?;
    }
    for byte in high.to_le_bytes() {
        file.push(byte)?;
    }
    Ok(())
}

/// Puts a pointer to a list, so many words behind the pointer.
fn put_list(file: &mut Vec<u8>, offset: u32, size: u32, count: u32) -> Result<(), AllocError> {
    put_word(file, offset << 2 | 1, count << 3 | size)
}

/// Puts the header, the root and the table of texts: none, `i` and `DRV`.
fn put_front(file: &mut Vec<u8>, levels: u32) -> Result<(), AllocError>
    requires { levels ≤ 2 ^ 20 }
{
    put_word(file, 0, 20 + 8 * levels)?;
    put_word(file, 0, 8 << 16)?;
    for _ in 0..3 {
        put_word(file, 0, 0)?;
    }
    put_list(file, 4, 6, 3)?;
    put_list(file, 9, 7, 2 * (levels + 1))?;
    put_word(file, 0, 0)?;
    put_list(file, 10 + 2 * levels, 7, 2 * levels)?;
    put_list(file, 10 + 4 * levels, 7, 3 * levels)?;
    put_list(file, 2, 2, 1)?;
    put_list(file, 2, 2, 2)?;
    put_list(file, 2, 2, 4)?;
    put_word(file, 0, 0)?;
    put_word(file, 0x69, 0)?;
    put_word(file, 0x0056_5244, 0)
}

/// Puts the declarations, all without a name but the last, which is `DRV`.
fn put_declarations(file: &mut Vec<u8>, levels: u32) -> Result<(), AllocError>
    requires { levels ≤ 2 ^ 20 }
{
    put_word(file, (levels + 1) << 2, 1 | 1 << 16)?;
    for _ in 0..levels {
        put_word(file, 0, 0)?;
        put_word(file, 0, 0)?;
    }
    put_word(file, 2, 0)?;
    put_word(file, 0, 0)
}

/// Puts an instance `i` of each declaration but the first.
fn put_instances(file: &mut Vec<u8>, levels: u32) -> Result<(), AllocError>
    requires { levels ≤ 2 ^ 20 }
{
    put_word(file, levels << 2, 1 | 1 << 16)?;
    for level in 0..levels {
        put_word(file, 1, level + 1)?;
        put_word(file, 0, 0)?;
    }
    Ok(())
}

/// Puts the cells, each with an instance of the next declaration.
fn put_cells(file: &mut Vec<u8>, levels: u32) -> Result<(), AllocError>
    requires { levels ≤ 2 ^ 20 }
{
    put_word(file, levels << 2, 1 | 2 << 16)?;
    for level in 0..levels {
        put_word(file, level, 0)?;
        put_list(file, levels + 2 * (levels - 1 - level), 4, 1)?;
        put_word(file, 0, 0)?;
    }
    for level in 0..levels {
        put_word(file, level, 0)?;
    }
    Ok(())
}

/// A design of so many cells, each with one instance `i` of the next, the last with one of `DRV`.
pub(crate) fn deep_design(alloc: Global, levels: u32) -> Result<Vec<u8>, AllocError> {
    let levels = levels.min(MOST_LEVELS);
    let mut file = Vec::new(alloc);
    put_front(&mut file, levels)?;
    put_declarations(&mut file, levels)?;
    put_instances(&mut file, levels)?;
    put_cells(&mut file, levels)?;
    Ok(file)
}
