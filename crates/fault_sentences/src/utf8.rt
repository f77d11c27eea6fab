//! Where bytes stop to be UTF-8.
ghost use Rattle.std.specs.Prelude.{◌≡◌, ◌++◌, ◌≤◌, length, OnOk};
ghost use Rattle.std.specs.Str.Lossy.{utf8_valid_len};
ghost use Rattle.fault_sentences.specs.Places.{at_place, not_utf8, other_byte, place_in};

use crate::sentence::Sentence;
use desk_base::NoMemory;
use rule_text::Place;

/// How many bytes there are up to the first that is not UTF-8.
pub(crate) fn valid_length(bytes: &[u8]) -> usize
    ensures length { result ≡ utf8_valid_len bytes.now }
    ensures within { result ≤ length bytes.now }
{
    match std::str::from_utf8(bytes) {
        Ok(_) => bytes.len(),
        Err(error) => error.valid_up_to(),
    }
}

/// The place of the byte that so many are in front of.
fn place_in(text: &[u8], index: usize) -> Place
    requires { index ≤ length text.now }
    ensures { result ≡ place_in text.now index }
{
    Place { line: 1, column: 1 }.following(&text[..index])
}

impl Sentence {
    /// Adds the place of a byte.
    pub(crate) fn place_in(&mut self, text: &[u8], index: usize) -> Result<(), NoMemory>
        requires { index ≤ length text.now }
        ensures { OnOk result (self.new ≡ self.old
            ++ at_place (place_in text.now index).line (place_in text.now index).column) }
    {
        let place = place_in(text, index);
        self.place(place.line, place.column)
    }

    /// Adds the first byte with which a text stops to be UTF-8.
    #[tactic(auto, unfolding(crate::specs::Places::other_byte))]
    pub(crate) fn other_byte(&mut self, text: &[u8]) -> Result<(), NoMemory>
        ensures { OnOk result (self.new ≡ self.old ++ other_byte text.now) }
    {
        match text.get(valid_length(text)) {
            Some(byte) => self.byte(*byte),
            None => self.byte(0),
        }
    }

    /// Adds where a text is not UTF-8, and what to do.
    #[tactic(auto, unfolding(crate::specs::Places::not_utf8))]
    pub(crate) fn not_utf8(&mut self, text: &[u8]) -> Result<(), NoMemory>
        ensures { OnOk result (self.new ≡ self.old ++ not_utf8 text.now) }
    {
        self.place_in(text, valid_length(text))?;
        self.other_byte(text)?;
        self.words(" is not UTF-8; save the text as UTF-8")
    }
}
