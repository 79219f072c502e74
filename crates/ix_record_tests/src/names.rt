//! A table of many names.

use ix_num::NameId;
use ix_strings::Names;
use std::alloc::Global;
use std::process::Abort;
use std::test::Fail;

/// Adds a name where the table isn't full.
fn add(names: &mut Names, text: &str) -> Result<NameId, Fail> {
    if names.len() < u32::MAX {
        Ok(names.add(text)?)
    } else {
        Err("a full table".into())
    }
}

/// Whether a number stands for this text.
fn is_text(names: &Names, id: NameId, text: &str) -> bool {
    id.get() < names.len() && names.name(id) == text
}

/// Adds so many names, each with the next number.
fn add_all(rt: &impl Abort, alloc: Global, names: &mut Names, count: u32) -> Result<(), Fail> {
    for n in 0..count {
        let text = format!(in alloc; "net/{n}")?;
        let id = add(names, text.as_str())?;
        assert_eq!(rt; id.get(), n);
    }
    Ok(())
}

/// Finds a name by its text and its text by its number, and adds it again, which changes nothing.
fn check_name(rt: &impl Abort, names: &mut Names, n: u32, text: &str) -> Result<(), Fail> {
    let count = names.len();
    let found = names.find(text) == Some(NameId::new(n));
    assert!(rt; found, "{text} is found");
    assert!(rt; is_text(names, NameId::new(n), text), "{n} is {text}");
    let again = add(names, text)?;
    assert_eq!(rt; again.get(), n, "{text} keeps its number");
    assert_eq!(rt; names.len(), count, "{text} isn't added twice");
    Ok(())
}

fn check_names(rt: &impl Abort, alloc: Global, names: &mut Names, count: u32) -> Result<(), Fail> {
    for n in 0..count {
        let text = format!(in alloc; "net/{n}")?;
        check_name(rt, names, n, text.as_str())?;
    }
    Ok(())
}

#[test]
fn many_names(rt: HostRuntime) -> Result<(), Fail> {
    let alloc = rt.alloc();
    let mut names = Names::new(alloc);
    assert_eq!(rt; names.len(), 0);
    assert!(rt; names.find("").is_none());
    add_all(&rt, alloc, &mut names, 100_000)?;
    check_names(&rt, alloc, &mut names, 100_000)?;
    assert!(rt; names.find("net/100000").is_none());
    assert!(rt; names.find("net/").is_none());
    let empty = add(&mut names, "")?;
    assert_eq!(rt; empty.get(), 100_000, "the empty text is a name too");
    Ok(())
}
