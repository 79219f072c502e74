//! Flat names.

ghost use Rattle.std.specs.Prelude.{◌≡◌, ◌<◌, ◌++◌, ◌∷◌, [], ℕ, List, Some, length, slice_get};
ghost use Rattle.std.specs.Prelude.{slice_index_or, IfOk, OnOk, string_bytes};
ghost use Rattle.ix_hierarchy.specs.Hierarchy.{Path, flat_name, written};
ghost use Rattle.ix_hierarchy.specs.Fits.{NetlistFits};
ghost use Rattle.ix_hierarchy.specs.Lists.{AreInstances};
ghost use Rattle.ix_hierarchy.specs.declared.instance.Instance.{Instance as InstanceSeen};
ghost use Rattle.ix_flat_texts.specs.Ways.{IsUp, IsWayTo, behind};

use ix_hierarchy::Instance;
use ix_num::{Memory, NameId};
use ix_rec::{NetlistRec, Port, PortKind, Word};
use ix_strings::Names;
use std::alloc::Global;

// Adds a name, behind a slash where it isn't the first.
fn put_name(text: &mut String, names: &Names, first: bool, name: NameId) -> Result<(), Memory>
    requires { name < length names.now }
    ensures { OnOk result (string_bytes text.new
        ≡ behind first (string_bytes text.old) (slice_index_or names.now name [])) }
{
    if !first {
        text.push_str("/")?;
    }
    text.push_str(names.name(name))?;
    Ok(())
}

/// The flat name of an instance, from the numbers that the instances on the way to it have in the
/// netlist's list.
///
/// # Errors
///
/// `Memory` alone.
pub fn joined_names(
    alloc: Global,
    rec: &NetlistRec,
    names: &Names,
    way: &[u32],
) -> Result<Word, Memory>
    requires fits { NetlistFits (length names.now) rec.now }
    requires way { (path : Path) × IsWayTo rec.now path way.now }
    ensures { (path : Path) → IsWayTo rec.now path way.now
        → IfOk result (λ word. word ≡ flat_name names.now rec.now path []) }
{
    let mut text = String::new(alloc);
    for i in 0..way.len() {
        put_name(
            &mut text,
            names,
            i == 0,
            rec.inst_list.at(way[i] as usize).name,
        )?;
    }
    Word::new(alloc, text.as_str())
}

// The instances from one up to the top, without the top.
fn way_up(alloc: Global, instances: &[Instance], instance: u32) -> Result<Vec<u32>, Memory>
    requires there { instance < length instances.now }
    requires parents { (i : ℕ) (one : InstanceSeen) → 0 < i
        → slice_get instances.now i ≡ Some one → one.parent < i }
    ensures { IfOk result (λ way. IsUp instances.now instance way.items 0) }
{
    let mut way = Vec::new(alloc);
    let mut at = instance;
    while at > 0 {
        way.push(at)?;
        at = instances[at as usize].parent;
    }
    Ok(way)
}

/// The flat name of an instance, by its number in preorder; empty at the top.
///
/// # Errors
///
/// `Memory` alone.
pub fn path_text(
    alloc: Global,
    rec: &NetlistRec,
    names: &Names,
    instances: &[Instance],
    instance: u32,
) -> Result<String, Memory>
    requires fits { NetlistFits (length names.now) rec.now }
    requires are { (paths : List Path) × (nets : ℕ)
        × AreInstances rec.now instances.now paths nets }
    requires there { instance < length instances.now }
    ensures { (paths : List Path) (nets : ℕ) (path : Path)
        → AreInstances rec.now instances.now paths nets → slice_get paths instance ≡ Some path
        → IfOk result (λ text. string_bytes text ≡ flat_name names.now rec.now path []) }
{
    let way = way_up(alloc, instances, instance)?;
    let mut text = String::new(alloc);
    let mut i = way.len();
    while i > 0 {
        i -= 1;
        let number = instances[way[i] as usize].number;
        let name = rec.inst_list.at(number as usize).name;
        put_name(&mut text, names, i + 1 == way.len(), name)?;
    }
    Ok(text)
}

/// The flat name of a name inside an instance, which is given by its number in preorder.
///
/// # Errors
///
/// `Memory` alone.
pub fn text_in(
    alloc: Global,
    rec: &NetlistRec,
    names: &Names,
    instances: &[Instance],
    instance: u32,
    name: NameId,
) -> Result<String, Memory>
    requires fits { NetlistFits (length names.now) rec.now }
    requires are { (paths : List Path) × (nets : ℕ)
        × AreInstances rec.now instances.now paths nets }
    requires there { instance < length instances.now }
    requires named { name < length names.now }
    ensures { (paths : List Path) (nets : ℕ) (path : Path)
        → AreInstances rec.now instances.now paths nets → slice_get paths instance ≡ Some path
        → IfOk result (λ text. string_bytes text ≡ flat_name names.now rec.now path
        (slice_index_or names.now name [] ∷ [])) }
{
    let mut text = path_text(alloc, rec, names, instances, instance)?;
    put_name(&mut text, names, instance == 0, name)?;
    Ok(text)
}

/// Adds the written name of a port's bit.
///
/// # Errors
///
/// `Memory` alone.
pub fn put_bit(text: &mut String, names: &Names, port: &Port, index: u32) -> Result<(), Memory>
    requires { port.now.name < length names.now }
    ensures { OnOk result (string_bytes text.new
        ≡ string_bytes text.old ++ written names.now port.now index) }
{
    text.push_str(names.name(port.name))?;
    if port.kind == PortKind::Bus {
        write!(text, "[{index}]")?;
    }
    Ok(())
}
