//! Tables of messages.

ghost use Rattle.std.specs.Prelude.{◌≡◌, true};
ghost use Rattle.ix_schema.specs.Forms.{are_ordered};

use crate::form::StructForm;

/// The structs of a message by their numbers, each with lower numbers behind its pointers than its
/// own.
#[derive(Clone, Copy)]
pub struct Table {
    /// The structs by their numbers.
    pub structs: &'static [StructForm],
    ghost ordered: { are_ordered 0 structs.now ≡ true },
}

impl Table {
    ghost use Rattle.std.specs.Prelude.{◌<◌, length};
    ghost use Rattle.std.specs.Prelude.{List as Items};
    ghost use Rattle.ix_message.specs.Shape.{Struct};
    ghost use Rattle.ix_schema.specs.Named.{are_named, kind_text, field_text, names_of, no_struct};

    /// The name of the struct with this number, empty where there is none.
    pub fn name(&self, n: usize) -> &'static str
        ensures { (ss : Items Struct) → are_named self.now.structs.now ss ≡ true
            → result.now ≡ kind_text ss n }
    {
        match self.structs.get(n) {
            Some(form) => form.name,
            None => "",
        }
    }

    /// The name of this field of the struct with this number, empty where there is none: data
    /// fields are counted before pointer fields.
    pub fn field(&self, n: usize, field: usize) -> &'static str
        ensures { (ss : Items Struct) → are_named self.now.structs.now ss ≡ true
            → result.now ≡ field_text ss n field }
    {
        let Some(form) = self.structs.get(n) else {
            return "";
        };
        match form.fields.get(field) {
            Some(name) => *name,
            None => "",
        }
    }
}
