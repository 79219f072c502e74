//! The builder of a message.

ghost use Rattle.std.specs.Prelude.{◌≡◌, ◌+◌, ◌-◌, ◌*◌, ◌/◌, ◌%◌, ◌^◌, ◌<◌, ◌≤◌, ◌↔◌, [], ◌∷◌};
ghost use Rattle.std.specs.Prelude.{◌++◌, length, replicate, IsTrue, Ok, Err, IfOk, OnOk, OnErr};
ghost use Rattle.byteorder.specs.Endian.{little_bytes};
ghost use Rattle.ix_frame.specs.Segments.{segments};
ghost use Rattle.ix_message.specs.Layout.{nothing_laid, number_bytes, text_laid, numbers_laid};
ghost use Rattle.ix_capw.specs.Frame.{too_many_words, words_in, root_segment, frame_bytes};
ghost use Rattle.ix_capw.specs.Growth.{written, with_object, too_long, blank_struct, blank_structs};
ghost use Rattle.ix_capw.specs.Growth.{blank_texts, some_structs, some_texts, some_text};
ghost use Rattle.ix_capw.specs.Growth.{some_numbers, pointer_word, number_place, IsInside};
ghost use Rattle.ix_capw.specs.Growth.{IsListInside, IsSegment};
ghost use Rattle.ix_capw.specs.declared.builder.BuildFault.TheVariants.{Memory};

use crate::numbers::{
    fill_header, put_object, put_root, set_bytes, set_number, set_numbers, set_word,
};
use std::alloc::{AllocError, AllocFailed, Global};
use std::marker::Model;
use thiserror::Error;

/// Why a message could not be written.
#[derive(Clone, Copy, Debug, PartialEq, Eq, Error)]
pub enum BuildFault {
    /// The message would have 2^27 words or more.
    #[error("the message is too long")]
    TooLong,
    /// Out of memory.
    #[error("out of memory")]
    Memory,
}

impl From<AllocError> for BuildFault {
    ghost from_gives = { λ _ e. e ≡ Memory };

    fn from(_error: AllocError) -> BuildFault {
        BuildFault::Memory
    }
}

/// A struct of the message: where its sections begin, and their sizes.
#[derive(Clone, Copy, Debug)]
pub struct At {
    /// The word of the segment at which the struct begins.
    pub start: u32,
    /// The words of its data section.
    pub words: u16,
    /// The words of its pointer section.
    pub pointers: u16,
}

/// A list of the message: where its first element begins, the elements' sections, and how many they
/// are.
#[derive(Clone, Copy, Debug)]
pub struct ListAt {
    /// The word of the segment at which the first element begins.
    pub start: u32,
    /// The words of an element's data section.
    pub words: u16,
    /// The words of an element's pointer section.
    pub pointers: u16,
    /// How many elements there are.
    pub count: u32,
}

impl ListAt {
    /// The element at a place, from 0.
    pub fn at(self, i: u32) -> At
        requires within { i < self.count }
        requires inside { self.start + self.count * (self.words + self.pointers) < 2 ^ 27 }
        ensures { result ≡ record {
          start = self.start + i * (self.words + self.pointers);
          words = self.words;
          pointers = self.pointers;
        } }
    {
        let size = self.words as u32 + self.pointers as u32;
        At {
            start: self.start + i * size,
            words: self.words,
            pointers: self.pointers,
        }
    }
}

// The word of a pointer to a struct or a list that begins right behind it.
fn struct_head(words: u16, pointers: u16) -> u64
    ensures { result ≡ words * 2 ^ 32 + pointers * 2 ^ 48 }
{
    (words as u64) * (1 << 32) + (pointers as u64) * (1 << 48)
}

fn list_head(size: u8, count: u32) -> u64
    requires size { size < 8 }
    requires count { count < 2 ^ 29 }
    ensures { result ≡ 1 + size * 2 ^ 32 + count * 2 ^ 35 }
{
    1 + (size as u64) * (1 << 32) + (count as u64) * (1 << 35)
}

/// A message of one segment that is being written. In contracts it is the list of the segment's
/// bytes so far.
#[derive(Drop)]
pub struct Builder {
    // The file so far: a header of 8 bytes, which `finish` fills in, and then the segment; or
    // nothing at all.
    bytes: Vec<u8>,
}

impl Model for Builder {
    ghost use Rattle.std.specs.Prelude.{◌≡◌, ◌+◌, ◌*◌, ◌<◌, ◌⊎◌, List, [], ℕ, length, drop};
    ghost use Rattle.ix_capw.specs.Whole.{IsWhole};

    ghost Value = { List ℕ };

    ghost view = { λ b. drop 8 b.bytes.items };

    ghost invariant = { λ b. IsWhole b.bytes.items };
}

impl Builder {
    /// A message without a word.
    pub fn new(alloc: Global) -> Builder
        ensures { result ≡ [] }
    {
        Builder {
            bytes: Vec::new(alloc),
        }
    }

    /// Makes the root struct, with data and pointer sections of these sizes in words, all of them
    /// zero. It is the first call. After a refusal the message is as before.
    ///
    /// # Errors
    ///
    /// `TooLong` where the words would reach 2^27, `Memory`.
    pub fn root(&mut self, words: u16, pointers: u16) -> Result<At, BuildFault>
        requires { self.old ≡ [] }
        ensures made { OnOk result (self.new ≡ root_segment words pointers) }
        ensures at { IfOk result (λ at. at ≡ record {
          start = 1;
          words = words;
          pointers = pointers;
        }) }
        ensures too_long { (result ≡ Err BuildFault.TooLong)
            ↔ (too_many_words ≤ 1 + words + pointers) }
        ensures unchanged { OnErr result (self.new ≡ self.old) }
        ensures segment { IsSegment self.new }
    {
        put_root(&mut self.bytes, words, pointers)?;
        Ok(At {
            start: 1,
            words,
            pointers,
        })
    }

    /// Makes a struct with data and pointer sections of these sizes in words, all of them zero, and
    /// leads the pointer in this slot to it. After a refusal the message is as before.
    ///
    /// # Errors
    ///
    /// `TooLong` where the words would reach 2^27, `Memory`.
    pub fn obj(&mut self, at: At, slot: u16, words: u16, pointers: u16) -> Result<At, BuildFault>
        requires inside { IsInside at self.old }
        requires slot { slot < at.pointers }
        ensures made { OnOk result (self.new ≡ with_object (pointer_word at slot)
            (blank_struct words pointers) self.old) }
        ensures at { IfOk result (λ made. made
            ≡ record { start = words_in self.old; words = words; pointers = pointers }) }
        ensures too_long { (result ≡ Err BuildFault.TooLong)
            ↔ IsTrue (too_long (blank_struct words pointers) self.old) }
        ensures unchanged { OnErr result (self.new ≡ self.old) }
        ensures segment { IsSegment self.new }
    {
        let size = words as usize + pointers as usize;
        if !self.has_room(size) {
            return Err(BuildFault::TooLong);
        }
        let start = self.len();
        self.add(at, slot, struct_head(words, pointers), size)?;
        Ok(At {
            start: start as u32,
            words,
            pointers,
        })
    }

    /// Makes a list of so many structs with data and pointer sections of these sizes in words, all
    /// of them zero, and leads the pointer in this slot to it. An empty list is a zero pointer.
    /// After a refusal the message is as before.
    ///
    /// # Errors
    ///
    /// `TooLong` where the words would reach 2^27 or there are 2^30 structs or more, `Memory`.
    pub fn list(
        &mut self,
        at: At,
        slot: u16,
        count: u32,
        words: u16,
        pointers: u16,
    ) -> Result<ListAt, BuildFault>
        requires inside { IsInside at self.old }
        requires slot { slot < at.pointers }
        ensures made { OnOk result (self.new ≡ with_object (pointer_word at slot)
            (blank_structs count words pointers) self.old) }
        ensures list { IfOk result (λ made. made
            ≡ record {
              start = words_in self.old + 1;
              words = words;
              pointers = pointers;
              count = count;
            }) }
        ensures too_long { (result ≡ Err BuildFault.TooLong)
            ↔ IsTrue (too_long (blank_structs count words pointers) self.old) }
        ensures unchanged { OnErr result (self.new ≡ self.old) }
        ensures segment { IsSegment self.new }
    {
        let start = self.len() + 1;
        let made = ListAt {
            start: start as u32,
            words,
            pointers,
            count,
        };
        if count == 0 {
            self.set_zero(at, slot);
            return Ok(made);
        }
        let size = words as usize + pointers as usize;
        if count >= 1 << 30 || !self.has_room(1 + count as usize * size) {
            return Err(BuildFault::TooLong);
        }
        self.add_list(at, slot, count, words, pointers)?;
        Ok(made)
    }

    /// Makes a list of so many texts, all of them empty, and leads the pointer in this slot to it.
    /// The pointer in slot 0 of its i-th element is that of the i-th text. An empty list is a zero
    /// pointer. After a refusal the message is as before.
    ///
    /// # Errors
    ///
    /// `TooLong` where the words would reach 2^27, `Memory`.
    pub fn texts(&mut self, at: At, slot: u16, count: u32) -> Result<ListAt, BuildFault>
        requires inside { IsInside at self.old }
        requires slot { slot < at.pointers }
        ensures made { OnOk result (self.new ≡ with_object (pointer_word at slot)
            (blank_texts count) self.old) }
        ensures list { IfOk result (λ made. made
            ≡ record { start = words_in self.old; words = 0; pointers = 1; count = count }) }
        ensures too_long { (result ≡ Err BuildFault.TooLong)
            ↔ IsTrue (too_long (blank_texts count) self.old) }
        ensures unchanged { OnErr result (self.new ≡ self.old) }
        ensures segment { IsSegment self.new }
    {
        let start = self.len();
        let made = ListAt {
            start: start as u32,
            words: 0,
            pointers: 1,
            count,
        };
        if count == 0 {
            self.set_zero(at, slot);
            return Ok(made);
        }
        if !self.has_room(count as usize) {
            return Err(BuildFault::TooLong);
        }
        self.add_texts(at, slot, count)?;
        Ok(made)
    }

    /// Puts a list of numbers of four bytes each, and leads the pointer in this slot to it. An
    /// empty list is a zero pointer. After a refusal the message is as before.
    ///
    /// # Errors
    ///
    /// `TooLong` where the words would reach 2^27, `Memory`.
    pub fn numbers(&mut self, at: At, slot: u16, values: &[u32]) -> Result<(), BuildFault>
        requires inside { IsInside at self.old }
        requires slot { slot < at.pointers }
        ensures made { OnOk result (self.new ≡ with_object (pointer_word at slot)
            (numbers_laid values.now) self.old) }
        ensures too_long { (result ≡ Err BuildFault.TooLong)
            ↔ IsTrue (too_long (numbers_laid values.now) self.old) }
        ensures unchanged { OnErr result (self.new ≡ self.old) }
        ensures segment { IsSegment self.new }
    {
        let room = self.has_room(values.len() / 2 + values.len() % 2);
        if values.is_empty() {
            self.set_zero(at, slot);
            return Ok(());
        }
        if !room {
            return Err(BuildFault::TooLong);
        }
        match self.add_numbers(at, slot, values) {
            Ok(()) => Ok(()),
            Err(_) => Err(BuildFault::Memory),
        }
    }

    /// Puts a text, padded with zero bytes to a word, and leads the pointer in this slot to it. An
    /// empty text is a zero pointer. After a refusal the message is as before.
    ///
    /// # Errors
    ///
    /// `TooLong` where the words would reach 2^27 or the text has 2^29 - 1 bytes or more, `Memory`.
    pub fn set_text(&mut self, at: At, slot: u16, text: &str) -> Result<(), BuildFault>
        requires inside { IsInside at self.old }
        requires slot { slot < at.pointers }
        ensures made { OnOk result (self.new ≡ with_object (pointer_word at slot)
            (text_laid text.now) self.old) }
        ensures too_long { (result ≡ Err BuildFault.TooLong)
            ↔ IsTrue (too_long (text_laid text.now) self.old) }
        ensures unchanged { OnErr result (self.new ≡ self.old) }
        ensures segment { IsSegment self.new }
    {
        if text.is_empty() {
            self.set_zero(at, slot);
            return Ok(());
        }
        let room = self.has_room(text.len() / 8 + 1);
        if !room || text.len() >= (1 << 29) - 1 {
            return Err(BuildFault::TooLong);
        }
        self.add_text(at, slot, text.as_bytes())?;
        Ok(())
    }

    /// Sets the number in this slot of 32 bits of a data section.
    pub fn set_u32(&mut self, at: At, slot: u16, value: u32)
        requires inside { IsInside at self.old }
        requires slot { slot < 2 * at.words }
        ensures made { self.new ≡ written (number_place at slot) 4 (little_bytes 4 value) self.old }
        ensures segment { IsSegment self.new }
    {
        self.write_number(8 * at.start as usize + 4 * slot as usize, value);
    }

    // The pointer in this slot leads to nothing.
    fn set_zero(&mut self, at: At, slot: u16)
        requires inside { IsInside at self.old }
        requires slot { slot < at.pointers }
        ensures made { self.new ≡ with_object (pointer_word at slot) nothing_laid self.old }
        ensures segment { IsSegment self.new }
    {
        let word = at.start as usize + at.words as usize + slot as usize;
        self.write_word(8 * word, 0);
    }

    // A list of structs that isn't empty and fits.
    fn add_list(
        &mut self,
        at: At,
        slot: u16,
        count: u32,
        words: u16,
        pointers: u16,
    ) -> Result<(), AllocError>
        requires inside { IsInside at self.old }
        requires slot { slot < at.pointers }
        requires room { words_in self.old + (1 + count * (words + pointers)) < too_many_words }
        requires few { count < 2 ^ 30 }
        ensures ok { OnOk result (self.new ≡ with_object (pointer_word at slot)
            (some_structs count words pointers) self.old) }
        ensures err { OnErr result (self.new ≡ self.old) }
        ensures segment { IsSegment self.new }
    {
        let tag = 8 * self.len();
        let size = words as usize + pointers as usize;
        let elements = count as usize * size;
        self.add(at, slot, list_head(7, elements as u32), 1 + elements)?;
        let word = 4 * count as u64 + struct_head(words, pointers);
        self.write_word(tag, word);
        Ok(())
    }

    // A list of texts that isn't empty and fits.
    fn add_texts(&mut self, at: At, slot: u16, count: u32) -> Result<(), AllocError>
        requires inside { IsInside at self.old }
        requires slot { slot < at.pointers }
        requires room { words_in self.old + count < too_many_words }
        ensures ok { OnOk result (self.new ≡ with_object (pointer_word at slot) (some_texts count)
            self.old) }
        ensures err { OnErr result (self.new ≡ self.old) }
        ensures segment { IsSegment self.new }
    {
        self.add(at, slot, list_head(6, count), count as usize)?;
        Ok(())
    }

    // A list of numbers that isn't empty and fits.
    fn add_numbers(&mut self, at: At, slot: u16, values: &[u32]) -> Result<(), AllocError>
        requires inside { IsInside at self.old }
        requires slot { slot < at.pointers }
        requires room { words_in self.old + (length values.now / 2 + length values.now % 2)
            < too_many_words }
        ensures ok { OnOk result (self.new ≡ with_object (pointer_word at slot)
            (some_numbers values.now) self.old) }
        ensures err { OnErr result (self.new ≡ self.old) }
        ensures segment { IsSegment self.new }
    {
        let start = 8 * self.len();
        let head = list_head(4, values.len() as u32);
        self.add(at, slot, head, values.len() / 2 + values.len() % 2)?;
        self.write_numbers(start, values);
        Ok(())
    }

    // A text that isn't empty and fits.
    fn add_text(&mut self, at: At, slot: u16, text: &[u8]) -> Result<(), AllocError>
        requires inside { IsInside at self.old }
        requires slot { slot < at.pointers }
        requires room { words_in self.old + (length text.now / 8 + 1) < too_many_words }
        requires few { length text.now < 2 ^ 29 - 1 }
        ensures ok { OnOk result (self.new ≡ with_object (pointer_word at slot) (some_text text.now)
            self.old) }
        ensures err { OnErr result (self.new ≡ self.old) }
        ensures segment { IsSegment self.new }
    {
        let start = 8 * self.len();
        let head = list_head(2, text.len() as u32 + 1);
        self.add(at, slot, head, text.len() / 8 + 1)?;
        self.write_bytes(start, text);
        Ok(())
    }

    // Writes over bytes that are there.
    fn write_word(&mut self, place: usize, word: u64)
        requires { place + 8 ≤ length self.old }
        ensures made { self.new ≡ written place 8 (little_bytes 8 word) self.old }
        ensures segment { IsSegment self.new }
    {
        set_word(&mut self.bytes, 8 + place, word);
    }

    fn write_number(&mut self, place: usize, number: u32)
        requires { place + 4 ≤ length self.old }
        ensures made { self.new ≡ written place 4 (little_bytes 4 number) self.old }
        ensures segment { IsSegment self.new }
    {
        set_number(&mut self.bytes, 8 + place, number);
    }

    fn write_bytes(&mut self, place: usize, bytes: &[u8])
        requires some { 8 ≤ length self.old }
        requires inside { place + length bytes.now ≤ length self.old }
        ensures made { self.new ≡ written place (length bytes.now) bytes.now self.old }
        ensures segment { IsSegment self.new }
    {
        set_bytes(&mut self.bytes, 8 + place, bytes);
    }

    fn write_numbers(&mut self, place: usize, numbers: &[u32])
        requires few { length numbers.now < 2 ^ 28 }
        requires some { 8 ≤ length self.old }
        requires inside { place + 4 * length numbers.now ≤ length self.old }
        ensures made { self.new ≡ written place (4 * length numbers.now) (number_bytes numbers.now)
            self.old }
        ensures segment { IsSegment self.new }
    {
        set_numbers(&mut self.bytes, 8 + place, numbers);
    }

    // How many words there are.
    fn len(&self) -> usize
        ensures count { result ≡ words_in self.now }
        ensures segment { IsSegment self.now }
    {
        if self.bytes.is_empty() {
            0
        } else {
            self.bytes.len() / 8 - 1
        }
    }

    // Whether so many more words fit a message.
    fn has_room(&self, words: usize) -> bool
        ensures room { IsTrue result ↔ (words_in self.now + words < too_many_words) }
        ensures segment { IsSegment self.now }
    {
        words < (1 << 27) - self.len()
    }

    // Leads the pointer in this slot to an object of so many words at the end, all of them zero.
    // The pointer's word is `head`, and in it how many words behind the pointer the object begins.
    fn add(&mut self, at: At, slot: u16, head: u64, words: usize) -> Result<(), AllocError>
        requires inside { IsInside at self.old }
        requires slot { slot < at.pointers }
        requires head { head < 2 ^ 64 - 2 ^ 30 }
        requires room { words_in self.old + words < too_many_words }
        ensures ok { let word = pointer_word at slot
            in OnOk result (self.new ≡ written (8 * word) 8
            (little_bytes 8 (head + 4 * (words_in self.old - (word + 1)))) self.old
            ++ replicate (8 * words) 0) }
        ensures err { OnErr result (self.new ≡ self.old) }
        ensures segment { IsSegment self.new }
    {
        let word = at.start as usize + at.words as usize + slot as usize;
        let gap = self.len() - (word + 1);
        put_object(
            &mut self.bytes,
            8 + 8 * word,
            head + 4 * gap as u64,
            8 * words,
        )
    }

    /// The message as a file: its header, and the one segment. `Memory` is its only error.
    pub fn finish(self) -> Result<Vec<u8>, ix_num::Memory>
        ensures bytes { IfOk result (λ file. file.items ≡ frame_bytes self) }
        // What is read again is the segment that was written.
        ensures reads { IfOk result (λ file. segments file.items ≡ Ok (self ∷ [])) }
    {
        let mut bytes = self.bytes;
        fill_header(&mut bytes)?;
        Ok(bytes)
    }
}
