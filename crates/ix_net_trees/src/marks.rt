//! Marks on resources.

ghost use Rattle.std.specs.Prelude.{◌≡◌, ◌<◌, ℕ, ◌↔◌, length, slice_index, slice_set, IfOk, IsTrue};

use ix_num::Memory;
use std::alloc::Global;
use std::marker::Model;

/// The last mark of each resource, by its number; 0 at first. It takes 4 bytes a resource.
/// Contracts see the list of marks.
#[derive(Drop)]
pub(crate) struct Marks {
    marks: Vec<u32>,
}

impl Model for Marks {
    ghost use Rattle.std.specs.Prelude.{List, ℕ};

    ghost Value = { List ℕ };

    ghost view = { λ m. m.marks.items };
}

impl Marks {
    /// So many marks, all 0.
    pub(crate) fn new(alloc: Global, count: u32) -> Result<Marks, Memory>
        ensures many { IfOk result (λ marks. length marks ≡ count) }
        ensures unset { IfOk result (λ marks. (i : ℕ) → slice_index marks i ≡ 0) }
    {
        let mut marks = Vec::new(alloc);
        marks.resize(count as usize, 0)?;
        Ok(Marks { marks })
    }

    /// Whether a resource has this mark.
    pub(crate) fn has(&self, number: u32, mark: u32) -> bool
        requires { number < length self.now }
        ensures { IsTrue result ↔ (slice_index self.now number ≡ mark) }
    {
        self.marks[number as usize] == mark
    }

    /// Gives a resource this mark.
    pub(crate) fn set(&mut self, number: u32, mark: u32)
        requires { number < length self.old }
        ensures { self.new ≡ slice_set self.old number mark }
    {
        self.marks[number as usize] = mark;
    }
}
