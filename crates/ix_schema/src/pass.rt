//! The first pass over a message.

ghost use Rattle.std.specs.Prelude.{◌≡◌, ◌<◌, length, true, slice_get};
ghost use Rattle.ix_frame.specs.Views.{object_of, elements_of, text_elements};
ghost use Rattle.ix_message.specs.Shape.{Struct};
ghost use Rattle.ix_schema.specs.Forms.{is_form, is_behind, IsLower, Ordered, pointer_left};
ghost use Rattle.ix_schema.specs.Forms.{pointers_in};
ghost use Rattle.ix_schema.specs.Passed.{left_at, each_left, texts_left, texts_passed};
ghost use Rattle.ix_schema.specs.Passed.{branches_left, Passes, PassesAlone};

use crate::branches::pass_branches;
use crate::form::Behind;
use crate::table::Table;
use ix_frame::{Budget, List, Obj, Texts};
use ix_num::FrameFault;
use ix_rec::ReadFault;
use std::alloc::Global;

/// Passes over the texts of a list.
fn pass_texts(l: Texts<'_>, budget: &mut Budget) -> Result<(), FrameFault>
    ensures { PassesAlone result budget.new
        (texts_left (text_elements l.entry).count (text_elements l.entry) 0 budget.old) }
{
    for i in 0..l.len() {
        match l.at(i, budget) {
            Ok(_) => {}
            Err(fault) => return Err(fault),
        }
    }
    Ok(())
}

/// Passes over the list of texts behind a pointer.
#[tactic(auto, unfolding(crate::specs::Passed::texts_passed))]
pub fn pass_texts_behind(o: Obj<'_>, slot: u32, budget: &mut Budget) -> Result<(), FrameFault>
    ensures { PassesAlone result budget.new (texts_passed (object_of o.entry) slot budget.old) }
{
    let l = o.texts(slot, budget)?;
    pass_texts(l, budget)
}

impl Table {
    /// What stands behind the pointers of the struct with this number.
    fn pointers_of(&self, n: usize) -> &'static [Behind]
        requires { n < length self.now.structs.now }
        ensures pointers { result.now ≡ pointers_in (slice_get self.now.structs.now n) }
        ensures ordered { Ordered n result.now }
    {
        self.structs[n].pointers
    }

    /// Passes over a struct of this number with all that its pointers lead to, in reading order,
    /// and takes its cost from the budget. Else the first fault of the frame.
    #[cycle(pass)]
    pub fn pass(
        &self,
        alloc: Global,
        n: usize,
        o: Obj<'_>,
        budget: &mut Budget,
    ) -> Result<(), ReadFault>
        requires { n < length self.now.structs.now }
        ensures { (s : Struct) → is_form self.now.structs.now n s ≡ true
            → Passes result budget.new (left_at s (object_of o.entry) budget.old) }
    {
        let pointers = self.pointers_of(n);
        for slot in 0..pointers.len() {
            match self.pass_pointer(alloc, n, pointers[slot], o, slot as u32, budget) {
                Ok(()) => {}
                Err(fault) => return Err(fault),
            }
        }
        Ok(())
    }

    /// Passes over the structs of a list.
    #[cycle(pass)]
    fn pass_list(
        &self,
        alloc: Global,
        n: usize,
        l: List<'_>,
        budget: &mut Budget,
    ) -> Result<(), ReadFault>
        requires { n < length self.now.structs.now }
        ensures { (s : Struct) → is_form self.now.structs.now n s ≡ true
            → Passes result budget.new (each_left (left_at s) (elements_of l.entry).count
            (elements_of l.entry) 0 budget.old) }
    {
        if self.pointers_of(n).is_empty() {
            return Ok(());
        }
        for i in 0..l.len() {
            match self.pass(alloc, n, l.at(i), budget) {
                Ok(()) => {}
                Err(fault) => return Err(fault),
            }
        }
        Ok(())
    }

    /// Passes over what is behind one pointer of a struct of this number.
    #[cycle(pass)]
    #[tactic(auto, unfolding(crate::specs::Forms::pointer_left))]
    fn pass_pointer(
        &self,
        alloc: Global,
        n: usize,
        behind: Behind,
        o: Obj<'_>,
        slot: u32,
        budget: &mut Budget,
    ) -> Result<(), ReadFault>
        requires number { n < length self.now.structs.now }
        requires lower { IsLower n behind }
        ensures { (s : Struct) → is_behind self.now.structs.now behind s ≡ true
            → Passes result budget.new (pointer_left behind (left_at s) slot (object_of o.entry)
            budget.old) }
    {
        match behind {
            Behind::Text => {
                o.text(slot, budget)?;
                Ok(())
            }
            Behind::Texts => {
                pass_texts_behind(o, slot, budget)?;
                Ok(())
            }
            Behind::Numbers => {
                o.numbers(slot, budget)?;
                Ok(())
            }
            Behind::Struct(m) => {
                let inner = o.obj(slot, budget)?;
                self.pass(alloc, m, inner, budget)
            }
            Behind::StructOrNone(m) => {
                if o.has(slot) {
                    let inner = o.obj(slot, budget)?;
                    self.pass(alloc, m, inner, budget)
                } else {
                    Ok(())
                }
            }
            Behind::Boxed(m) => {
                let inner = o.obj(slot, budget)?;
                let l = inner.list(0, budget)?;
                self.pass_list(alloc, m, l, budget)
            }
            Behind::Structs(m) => {
                let l = o.list(slot, budget)?;
                self.pass_list(alloc, m, l, budget)
            }
            Behind::Branches => {
                let l = o.list(slot, budget)?;
                pass_branches(alloc, l, budget)
            }
            Behind::Unread => Ok(()),
        }
    }
}
