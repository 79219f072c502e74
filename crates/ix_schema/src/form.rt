//! The table of a message.

/// What stands behind a pointer field. A struct is meant by its number in the table.
#[derive(Clone, Copy)]
pub enum Behind {
    /// A text.
    Text,
    /// A list of texts.
    Texts,
    /// A list of numbers.
    Numbers,
    /// A struct.
    Struct(usize),
    /// A struct that isn't there where the pointer is zero.
    StructOrNone(usize),
    /// A struct with a list of structs and nothing else.
    Boxed(usize),
    /// A list of structs.
    Structs(usize),
    /// A list of structs with one pointer, to a list of the same.
    Branches,
    /// The string table, or what is passed over.
    Unread,
}

/// A struct of a message: its name, the names of its data fields and then of its pointer fields,
/// both in slot order, and what stands behind the latter.
#[derive(Clone, Copy)]
pub struct StructForm {
    /// The struct's name.
    pub name: &'static str,
    /// The names of its fields.
    pub fields: &'static [&'static str],
    /// What stands behind its pointers.
    pub pointers: &'static [Behind],
}
