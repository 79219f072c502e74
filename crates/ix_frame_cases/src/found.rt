//! What is found behind a pointer, in words.

use ix_frame::{Budget, Frame, List, Numbers, Obj, Texts};
use std::alloc::AllocError;

/// The slots of a struct that are told, with their number, Bool and tag.
const SLOTS: [u32; 8] = [0, 1, 2, 3, 4, 5, 65_536, 4_294_967_295];

/// Writes four numbers of a struct, and whether two of its pointers are there.
fn put_struct(text: &mut String, object: &Obj<'_>) -> Result<(), AllocError> {
    let a = object.u32_at(0);
    let b = object.u32_at(1);
    let c = object.u32_at(2);
    let d = object.u32_at(3);
    let p = u32::from(object.has(0));
    let q = u32::from(object.has(1));
    write!(text, "{a} {b} {c} {d}, {p} {q}")
}

fn put_numbers(text: &mut String, numbers: &Numbers<'_>) -> Result<(), AllocError> {
    if numbers.len() == 0 {
        text.push_str("none")?;
    }
    for i in 0..numbers.len() {
        if i > 0 {
            text.push_str(" ")?;
        }
        let number = numbers.at(i);
        write!(text, "{number}")?;
    }
    Ok(())
}

fn put_texts(text: &mut String, texts: &Texts<'_>, budget: &mut Budget) -> Result<(), AllocError> {
    if texts.len() == 0 {
        text.push_str("none")?;
    }
    for i in 0..texts.len() {
        if i > 0 {
            text.push_str(" ")?;
        }
        match texts.at(i, budget) {
            Ok(found) => write!(text, "{found:?}")?,
            Err(fault) => write!(text, "{fault}")?,
        }
    }
    Ok(())
}

/// Writes of each struct three numbers, and whether its first pointer is there.
fn put_list(text: &mut String, list: &List<'_>) -> Result<(), AllocError> {
    let count = list.len();
    write!(text, "{count} structs")?;
    for i in 0..list.len() {
        let element = list.at(i);
        let a = element.u32_at(0);
        let b = element.u32_at(1);
        let c = element.u32_at(2);
        let p = u32::from(element.has(0));
        write!(text, "; {a} {b} {c}, {p}")?;
    }
    Ok(())
}

/// Follows the pointer in a slot of a struct as this call says, and writes what is found, or the
/// fault.
pub fn put_found(
    text: &mut String,
    call: &str,
    root: &Obj<'_>,
    slot: u32,
    budget: &mut Budget,
) -> Result<(), AllocError> {
    match call {
        "root" => put_struct(text, root),
        "struct" => match root.obj(slot, budget) {
            Ok(object) => put_struct(text, &object),
            Err(fault) => write!(text, "{fault}"),
        },
        "text" => match root.text(slot, budget) {
            Ok(found) => write!(text, "{found:?}"),
            Err(fault) => write!(text, "{fault}"),
        },
        "numbers" => match root.numbers(slot, budget) {
            Ok(numbers) => put_numbers(text, &numbers),
            Err(fault) => write!(text, "{fault}"),
        },
        "texts" => match root.texts(slot, budget) {
            Ok(texts) => put_texts(text, &texts, budget),
            Err(fault) => write!(text, "{fault}"),
        },
        "list" => match root.list(slot, budget) {
            Ok(list) => put_list(text, &list),
            Err(fault) => write!(text, "{fault}"),
        },
        _ => text.push_str("no such call"),
    }
}

/// Writes of some slots of the root the number, the Bool and the tag, and which of three pointers
/// are there.
pub fn put_slots(text: &mut String, frame: &Frame<'_>) -> Result<(), AllocError> {
    let Ok(root) = frame.root(&mut Budget::new(frame)) else {
        return text.push_str("no root");
    };
    for slot in SLOTS {
        let number = root.u32_at(slot);
        let flag = u32::from(root.bool_at(slot));
        let tag = root.tag_at(slot);
        write!(text, "{slot} is {number} {flag} {tag}; ")?;
    }
    let first = u32::from(root.has(0));
    let second = u32::from(root.has(1));
    let last = u32::from(root.has(4_294_967_295));
    write!(text, "pointers {first} {second} {last}")
}
