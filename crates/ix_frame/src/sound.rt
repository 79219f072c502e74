//! Following pointers in a frame whose reading is known to find no fault. No budget is asked, and
//! no fault is told: a pointer that can't be followed counts as zero, which a reading before has
//! ruled out.

ghost use Rattle.std.specs.Prelude.{◌≡◌, ◌<◌};
ghost use Rattle.ix_frame.specs.Sound.{sound_struct, sound_elements, sound_list, sound_text};
ghost use Rattle.ix_frame.specs.Sound.{sound_text_in};
ghost use Rattle.ix_frame.specs.Views.{object_of, elements_of, number_elements, text_elements};

use crate::follow::{no_elements, no_run, no_struct};
use crate::frame::Budget;
use crate::list::{List, Numbers, Texts};
use crate::object::Obj;

impl<'a> Obj<'a> {
    /// The struct behind this pointer, and one without words where the pointer is zero or past the
    /// pointer section.
    #[tactic(auto, unfolding(crate::specs::Sound::sound_struct))]
    pub fn sound_obj(&self, slot: u32) -> Obj<'a>
        ensures { object_of result ≡ sound_struct (object_of self.now) slot }
    {
        match self.obj(slot, &mut Budget::endless()) {
            Ok(inner) => inner,
            Err(_) => no_struct(&self.segment),
        }
    }

    /// The list of structs behind this pointer; empty where the pointer is zero or past the pointer
    /// section.
    #[tactic(auto, unfolding(crate::specs::Sound::sound_elements))]
    pub fn sound_list(&self, slot: u32) -> List<'a>
        ensures { elements_of result ≡ sound_elements (object_of self.now) slot }
    {
        match self.list(slot, &mut Budget::endless()) {
            Ok(list) => list,
            Err(_) => no_elements(&self.segment),
        }
    }

    /// The list of numbers of 32 bits behind this pointer; empty where the pointer is zero or past
    /// the pointer section.
    #[tactic(auto, unfolding(crate::specs::Sound::sound_list))]
    pub fn sound_numbers(&self, slot: u32) -> Numbers<'a>
        ensures { number_elements result ≡ sound_list 4 (object_of self.now) slot }
    {
        match self.numbers(slot, &mut Budget::endless()) {
            Ok(list) => list,
            Err(_) => {
                let run = no_run(&self.segment);
                Numbers {
                    segment: run.segment,
                    start: run.start,
                    count: run.count,
                }
            }
        }
    }

    /// The list of texts behind this pointer; empty where the pointer is zero or past the pointer
    /// section.
    #[tactic(auto, unfolding(crate::specs::Sound::sound_list))]
    pub fn sound_texts(&self, slot: u32) -> Texts<'a>
        ensures { text_elements result ≡ sound_list 6 (object_of self.now) slot }
    {
        match self.texts(slot, &mut Budget::endless()) {
            Ok(list) => list,
            Err(_) => {
                let run = no_run(&self.segment);
                Texts {
                    segment: run.segment,
                    start: run.start,
                    count: run.count,
                }
            }
        }
    }

    /// The text behind this pointer, without the NUL that ends it: a slice of the file, and empty
    /// where the pointer is zero or past the pointer section.
    #[tactic(auto, unfolding(crate::specs::Sound::sound_text))]
    pub fn sound_text(&self, slot: u32) -> &'a str
        ensures { result.now ≡ sound_text (object_of self.now) slot }
    {
        match self.text(slot, &mut Budget::endless()) {
            Ok(text) => text,
            Err(_) => "",
        }
    }
}

impl<'a> Texts<'a> {
    /// The i-th text, counted from 0, without the NUL that ends it: a slice of the file, empty
    /// where its pointer is zero.
    #[tactic(auto, unfolding(crate::specs::Sound::sound_text_in))]
    pub fn sound_at(&self, i: u32) -> &'a str
        requires { i < (text_elements self.now).count }
        ensures { result.now ≡ sound_text_in (text_elements self.now) i }
    {
        match self.at(i, &mut Budget::endless()) {
            Ok(text) => text,
            Err(_) => "",
        }
    }
}
