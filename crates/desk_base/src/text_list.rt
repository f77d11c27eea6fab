//! Texts of cells in one block of memory. A clause sees the list of them.
ghost use Rattle.std.specs.Prelude.{◌≡◌, ◌<◌, ◌≤◌, ◌∷◌, ◌++◌, [], length, get_or, take, IfOk, OnOk, OnErr};

use crate::duplicate::Duplicate;
use crate::error::NoMemory;
use crate::limits::MAX_TEXT;
use std::alloc::Global;
use std::fmt;
use std::marker::Model;

/// Texts of at most 200 bytes each, one after another.
#[derive(Drop)]
pub struct TextList {
    /// The bytes of all texts.
    bytes: String,
    /// Where each text ends.
    ends: Vec<usize>,
}

impl Model for TextList {
    ghost use Rattle.std.specs.Prelude.{ℕ, List};
    ghost use Rattle.std.specs.String.{string_bytes};
    ghost use Rattle.desk_base.specs.TextLists.{AreEnds, texts_from};

    ghost Value = { List (List ℕ) };

    ghost view = { λ t. texts_from 0 t.ends.items (string_bytes t.bytes) };

    ghost invariant = { λ t. AreEnds 0 t.ends.items (string_bytes t.bytes) };
}

impl TextList {
    /// The empty list.
    pub fn new(alloc: Global) -> TextList
        ensures { result ≡ [] }
    {
        TextList {
            bytes: String::new(alloc),
            ends: Vec::new(alloc),
        }
    }

    /// Adds a text of at most 200 bytes at the end. Where there is no memory the list is as before.
    pub fn push(&mut self, text: &str) -> Result<(), NoMemory>
        requires { length text.now ≤ MAX_TEXT }
        ensures pushed { OnOk result (self.new ≡ self.old ++ text.now ∷ []) }
        ensures unchanged { OnErr result (self.new ≡ self.old) }
    {
        let start = self.bytes.len();
        self.bytes.push_str(text)?;
        match self.ends.push(start + text.len()) {
            Ok(()) => Ok(()),
            Err(_full) => {
                self.bytes.truncate(start);
                Err(NoMemory)
            }
        }
    }

    /// How many texts there are.
    pub fn len(&self) -> usize
        ensures { result ≡ length self.now }
    {
        self.ends.len()
    }

    /// The text at a place, counted from 0, which has at most 200 bytes.
    pub fn get(&self, place: usize) -> &str
        requires { place < length self.now }
        ensures text { result.now ≡ get_or self.now place [] }
        ensures fits { length result.now ≤ MAX_TEXT }
    {
        let start = start_of(self.ends.as_slice(), place);
        &self.bytes.as_str()[start..self.ends[place]]
    }

    /// Keeps so many of the first texts, at most all of them, and lets the others go.
    pub fn truncate(&mut self, count: usize)
        requires { count ≤ length self.old }
        ensures { self.new ≡ take count self.old }
    {
        let end = start_of(self.ends.as_slice(), count);
        self.bytes.truncate(end);
        self.ends.truncate(count);
    }
}

/// Where the text at a place begins; at the last place, where the texts end.
fn start_of(ends: &[usize], place: usize) -> usize
    requires { place ≤ length ends.now }
    ensures { result ≡ get_or (0 ∷ ends.now) place 0 }
{
    if place == 0 { 0 } else { ends[place - 1] }
}

/// A list of texts is shown as its texts.
impl fmt::Debug for TextList {
    fn fmt<W: fmt::Write>(&self, f: &mut fmt::Formatter<W>) -> fmt::Result {
        let mut list = f.debug_list();
        'texts: for place in 0..self.len() {
            list.entry(&self.get(place));
        }
        list.finish()
    }
}

impl Duplicate for TextList {
    fn copy(&self) -> Result<TextList, NoMemory> {
        let bytes = self.bytes.clone()?;
        let ends = self.ends.clone()?;
        Ok(TextList { bytes, ends })
    }
}
