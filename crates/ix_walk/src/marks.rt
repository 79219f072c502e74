//! Marks of names.

ghost use Rattle.std.specs.Prelude.{◌≡◌, ◌<◌, ◌||◌, length, false, not, nat_eq, IfOk};
ghost use Rattle.ix_num.specs.Numbers.{NameNumber};
ghost use Rattle.ix_walk.specs.Marks.{has_mark};

use ix_num::{Memory, NameId};
use std::alloc::Global;
use std::marker::Model;

/// Which names were met. It takes a byte a name of the table, and a look-up is an index.
#[derive(Drop)]
pub struct NameMarks {
    marks: Vec<bool>,
}

impl Model for NameMarks {
    ghost use Rattle.ix_walk.specs.Marks.{Marks};

    ghost Value = { Marks };

    ghost view = { λ m. m.marks.items };
}

impl NameMarks {
    /// Marks for this many names, none of them set.
    #[tactic(auto, unfolding(crate::specs::Marks::has_mark))]
    pub fn new(alloc: Global, count: u32) -> Result<NameMarks, Memory>
        ensures count { IfOk result (λ marks. length marks ≡ count) }
        ensures none { IfOk result (λ marks. (name : NameNumber) → has_mark marks name ≡ false) }
    {
        let mut marks = Vec::new(alloc);
        marks.resize(count as usize, false)?;
        Ok(NameMarks { marks })
    }

    /// Whether a name was met. A name past the last was not.
    #[tactic(auto, unfolding(crate::specs::Marks::has_mark))]
    pub fn has(&self, name: NameId) -> bool
        ensures { result ≡ has_mark self.now name }
    {
        match self.marks.as_slice().get(name.get() as usize) {
            Some(met) => *met,
            None => false,
        }
    }

    /// Meets a name, and says whether it is new.
    #[tactic(auto, unfolding(crate::specs::Marks::has_mark))]
    pub fn add(&mut self, name: NameId) -> bool
        requires { name < length self.old }
        ensures new { result ≡ not (has_mark self.old name) }
        ensures marks { (other : NameNumber)
            → has_mark self.new other ≡ (nat_eq other name || has_mark self.old other) }
        ensures count { length self.new ≡ length self.old }
    {
        let place = name.get() as usize;
        let new = !self.marks[place];
        self.marks[place] = true;
        new
    }
}
