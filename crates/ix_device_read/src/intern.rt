//! Adding the texts of a message to the names of the run, from its sound frame.

ghost use Rattle.std.specs.Prelude.{◌≡◌, ◌∷◌, [], Some, slice_get, IfOk};
ghost use Rattle.std.specs.List.{flat_map};
ghost use Rattle.ix_frame.specs.Sound.{sound_elements, sound_list, sound_text};
ghost use Rattle.ix_frame.specs.Views.{object_of, elements_of, text_elements};
ghost use Rattle.ix_schema.specs.Said.{said, each_said, texts_said};
ghost use Rattle.ix_device_read.specs.Loose.{loose_texts, Adds, AreNumbersOf, HasRoom};

use ix_frame::{List, Obj, Texts};
use ix_num::{Memory, NameId};
use ix_rec::Items;
use ix_strings::Names;
use std::alloc::Global;

/// A struct with texts behind pointers of its own, or of the structs behind its pointers.
pub trait HasTexts: Sized {
    ghost use Rattle.ix_message.specs.Shape.{Struct};

    ghost form: { Struct };

    /// Adds these texts to the names, in reading order. `Memory` is its only error, after which
    /// some were added.
    fn add_texts(o: Obj<'_>, names: &mut Names) -> Result<(), Memory>
        requires { HasRoom (loose_texts form (said form (object_of o))) names.old }
        ensures { Adds result (loose_texts form (said form (object_of o.entry))) names.old
            names.new };
}

/// Adds the texts of each struct of a list.
fn add_list<T: HasTexts>(l: List<'_>, names: &mut Names) -> Result<(), Memory>
    requires { HasRoom (flat_map (loose_texts T.form)
        (each_said (said T.form) (elements_of l).count (elements_of l) 0)) names.old }
    ensures { Adds result (flat_map (loose_texts T.form)
        (each_said (said T.form) (elements_of l.entry).count (elements_of l.entry) 0)) names.old
        names.new }
{
    for i in 0..l.len() {
        match T::add_texts(l.at(i), names) {
            Ok(()) => {}
            Err(memory) => return Err(memory),
        }
    }
    Ok(())
}

/// The same of the list behind this pointer.
pub fn add_structs_behind<T: HasTexts>(
    o: Obj<'_>,
    slot: u32,
    names: &mut Names,
) -> Result<(), Memory>
    requires { HasRoom (flat_map (loose_texts T.form)
        (each_said (said T.form) (sound_elements (object_of o) slot).count
        (sound_elements (object_of o) slot) 0)) names.old }
    ensures { Adds result (flat_map (loose_texts T.form)
        (each_said (said T.form) (sound_elements (object_of o.entry) slot).count
        (sound_elements (object_of o.entry) slot) 0)) names.old names.new }
{
    add_list::<T>(o.sound_list(slot), names)
}

/// Adds a text, and gives its number.
fn add_text(text: &str, names: &mut Names) -> Result<NameId, Memory>
    requires { HasRoom (text.now ∷ []) names.old }
    ensures adds { Adds result (text.now ∷ []) names.old names.new }
    ensures number { IfOk result (λ id. slice_get names.new id ≡ Some text.now) }
{
    names.add(text)
}

/// Adds the text behind this pointer.
pub fn add_text_behind(o: Obj<'_>, slot: u32, names: &mut Names) -> Result<(), Memory>
    requires { HasRoom (sound_text (object_of o) slot ∷ []) names.old }
    ensures { Adds result (sound_text (object_of o.entry) slot ∷ []) names.old names.new }
{
    match add_text(o.sound_text(slot), names) {
        Ok(_) => Ok(()),
        Err(memory) => Err(memory),
    }
}

/// Adds each text of a list.
fn add_each(l: Texts<'_>, names: &mut Names) -> Result<(), Memory>
    requires { HasRoom (texts_said (text_elements l).count (text_elements l) 0) names.old }
    ensures { Adds result (texts_said (text_elements l.entry).count (text_elements l.entry) 0)
        names.old names.new }
{
    for i in 0..l.len() {
        match add_text(l.sound_at(i), names) {
            Ok(_) => {}
            Err(memory) => return Err(memory),
        }
    }
    Ok(())
}

/// Adds each text of the list behind this pointer.
pub fn add_texts_behind(o: Obj<'_>, slot: u32, names: &mut Names) -> Result<(), Memory>
    requires { HasRoom (texts_said (sound_list 6 (object_of o) slot).count
        (sound_list 6 (object_of o) slot) 0) names.old }
    ensures { Adds result (texts_said (sound_list 6 (object_of o.entry) slot).count
        (sound_list 6 (object_of o.entry) slot) 0) names.old names.new }
{
    add_each(o.sound_texts(slot), names)
}

/// Adds each text of a string table, and gives their numbers, by their place in the table.
fn add_table(alloc: Global, l: Texts<'_>, names: &mut Names) -> Result<Items<NameId>, Memory>
    requires { HasRoom (texts_said (text_elements l).count (text_elements l) 0) names.old }
    ensures adds { Adds result (texts_said (text_elements l.entry).count (text_elements l.entry) 0)
        names.old names.new }
    ensures numbers { IfOk result (λ ids. AreNumbersOf names.new ids
        (texts_said (text_elements l.entry).count (text_elements l.entry) 0)) }
{
    let mut found = Items::with_capacity(alloc, l.len() as usize)?;
    for i in 0..l.len() {
        let id = match add_text(l.sound_at(i), names) {
            Ok(id) => id,
            Err(memory) => return Err(memory),
        };
        found.push(id)?;
    }
    Ok(found)
}

/// The same of the string table behind this pointer.
pub fn add_table_behind(
    alloc: Global,
    o: Obj<'_>,
    slot: u32,
    names: &mut Names,
) -> Result<Items<NameId>, Memory>
    requires { HasRoom (texts_said (sound_list 6 (object_of o) slot).count
        (sound_list 6 (object_of o) slot) 0) names.old }
    ensures adds { Adds result (texts_said (sound_list 6 (object_of o.entry) slot).count
        (sound_list 6 (object_of o.entry) slot) 0) names.old names.new }
    ensures numbers { IfOk result (λ ids. AreNumbersOf names.new ids
        (texts_said (sound_list 6 (object_of o.entry) slot).count
        (sound_list 6 (object_of o.entry) slot) 0)) }
{
    add_table(alloc, o.sound_texts(slot), names)
}
