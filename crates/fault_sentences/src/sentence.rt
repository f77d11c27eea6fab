//! A sentence while it is written. A clause sees its bytes.
ghost use Rattle.std.specs.Prelude.{◌≡◌, ◌++◌, ◌<◌, ◌∷◌, [], chars, decimal, flat_map, take, IfOk, OnOk};
ghost use Rattle.fault_sentences.specs.Memory.{no_memory};
ghost use Rattle.fault_sentences.specs.Places.{at_place, byte_shown, has_bytes, two_digits};
ghost use Rattle.fault_sentences.specs.Shown.{char_shown, chars_quoted, escaped, escaped_pair, escaped_unit, hex_digit};
ghost use Rattle.fault_sentences.specs.Shown.{quoted, rest_shown, shown};
ghost use Rattle.fault_sentences.specs.Shown.{utf8_shown};

use desk_base::{NoMemory, is_word};
use std::alloc::Global;
use std::marker::Model;

/// How many characters of a text are shown at most.
pub const MOST_SHOWN: usize = 40;

/// A sentence, which grows at its end.
#[derive(Debug, Drop)]
pub struct Sentence {
    alloc: Global,
    text: String,
}

impl Model for Sentence {
    ghost use Rattle.std.specs.Prelude.{ℕ, List, string_bytes};

    ghost Value = { List ℕ };

    ghost view = { λ s. string_bytes s.text };
}

impl Sentence {
    /// The empty sentence.
    pub fn new(alloc: Global) -> Sentence
        ensures { result ≡ [] }
    {
        Sentence {
            alloc,
            text: String::new(alloc),
        }
    }

    /// Adds these words.
    pub fn words(&mut self, words: &str) -> Result<(), NoMemory>
        ensures { OnOk result (self.new ≡ self.old ++ words.now) }
    {
        self.text.push_str(words)?;
        Ok(())
    }

    /// Adds a number, in decimal digits.
    pub fn number(&mut self, number: u64) -> Result<(), NoMemory>
        ensures { OnOk result (self.new ≡ self.old ++ decimal number) }
    {
        let digits = number.to_string(self.alloc)?;
        self.words(digits.as_str())
    }

    /// Adds a line and a column.
    pub fn place(&mut self, line: u64, column: u64) -> Result<(), NoMemory>
        ensures { OnOk result (self.new ≡ self.old ++ at_place line column) }
    {
        self.words("line ")?;
        self.number(line)?;
        self.words(", column ")?;
        self.number(column)?;
        self.words(": ")
    }

    /// Adds a text: as it stands where it is a word, and else between quotes.
    #[tactic(auto, unfolding(crate::specs::Shown::shown))]
    pub fn shown(&mut self, text: &[u8]) -> Result<(), NoMemory>
        ensures { OnOk result (self.new ≡ self.old ++ shown text.now) }
    {
        match std::str::from_utf8(text) {
            Ok(text) => self.utf8_shown(text),
            Err(_) => self.words("a text that is not UTF-8"),
        }
    }

    /// Adds a text between quotes, with the escapes of JSON for all but printable ASCII, and of a long one
    /// its front.
    #[tactic(auto, unfolding(crate::specs::Shown::quoted))]
    pub fn quoted(&mut self, text: &[u8]) -> Result<(), NoMemory>
        ensures { OnOk result (self.new ≡ self.old ++ quoted text.now) }
    {
        match std::str::from_utf8(text) {
            Ok(text) => self.characters(text),
            Err(_) => self.words("a text that is not UTF-8"),
        }
    }

    fn utf8_shown(&mut self, text: &str) -> Result<(), NoMemory>
        ensures { OnOk result (self.new ≡ self.old ++ utf8_shown text.now) }
    {
        if is_word(text.as_bytes()) {
            self.words(text)
        } else {
            self.characters(text)
        }
    }

    /// Adds the characters of a text between quotes, the first 40 of them.
    fn characters(&mut self, text: &str) -> Result<(), NoMemory>
        ensures { OnOk result (self.new ≡ self.old ++ chars_quoted (chars text.now)) }
    {
        let characters = characters_of(self.alloc, text)?;
        self.between_quotes(characters.as_slice())
    }

    /// Adds characters between quotes, the first 40 of them.
    #[tactic(auto, unfolding(crate::specs::Shown::chars_quoted))]
    fn between_quotes(&mut self, characters: &[char]) -> Result<(), NoMemory>
        ensures { OnOk result (self.new ≡ self.old ++ chars_quoted characters.now) }
    {
        self.words("\"")?;
        self.escaped(front(characters))?;
        self.words("\"")?;
        self.rest(characters)
    }

    /// Adds two dots, where there are more characters than are shown.
    #[tactic(auto, unfolding(crate::specs::Shown::rest_shown))]
    fn rest(&mut self, characters: &[char]) -> Result<(), NoMemory>
        ensures { OnOk result (self.new ≡ self.old ++ rest_shown characters.now) }
    {
        if characters.len() > MOST_SHOWN {
            self.words("..")?;
        }
        Ok(())
    }

    fn escaped(&mut self, characters: &[char]) -> Result<(), NoMemory>
        ensures { OnOk result (self.new ≡ self.old ++ flat_map char_shown characters.now) }
    {
        'characters: for character in characters {
            self.character(*character)?;
        }
        Ok(())
    }

    /// Adds a character as it stands between quotes.
    #[tactic(auto, unfolding(crate::specs::Shown::char_shown))]
    fn character(&mut self, character: char) -> Result<(), NoMemory>
        ensures { OnOk result (self.new ≡ self.old ++ char_shown character) }
    {
        match character {
            '"' => self.words("\\\""),
            '\\' => self.words("\\\\"),
            '\u{8}' => self.words("\\b"),
            '\t' => self.words("\\t"),
            '\n' => self.words("\\n"),
            '\u{c}' => self.words("\\f"),
            '\r' => self.words("\\r"),
            ' '..='~' => self.ascii(character as u8),
            _ => self.escape(character as u32),
        }
    }

    fn escape(&mut self, number: u32) -> Result<(), NoMemory>
        requires { number < 1114112 }
        ensures { OnOk result (self.new ≡ self.old ++ escaped number) }
    {
        if number < 0x1_0000 {
            self.unit(number)
        } else {
            self.pair(number - 0x1_0000)
        }
    }

    /// Adds the two units of a character that is so far past the first 65,536.
    fn pair(&mut self, past: u32) -> Result<(), NoMemory>
        requires { past < 1048576 }
        ensures { OnOk result (self.new ≡ self.old ++ escaped_pair past) }
    {
        self.unit(0xD800 + past / 0x400)?;
        self.unit(0xDC00 + past % 0x400)
    }

    #[tactic(auto, unfolding(crate::specs::Shown::escaped_unit))]
    fn unit(&mut self, unit: u32) -> Result<(), NoMemory>
        requires { unit < 65536 }
        ensures { OnOk result (self.new ≡ self.old ++ escaped_unit unit) }
    {
        self.words("\\u")?;
        self.digit(unit / 4096)?;
        self.digit(unit / 256 % 16)?;
        self.digit(unit / 16 % 16)?;
        self.digit(unit % 16)
    }

    fn digit(&mut self, digit: u32) -> Result<(), NoMemory>
        requires { digit < 16 }
        ensures { OnOk result (self.new ≡ self.old ++ hex_digit digit ∷ []) }
    {
        if digit < 10 {
            self.ascii(b'0' + digit as u8)
        } else {
            self.ascii(b'a' + (digit as u8 - 10))
        }
    }

    /// Adds a character of ASCII.
    pub(crate) fn ascii(&mut self, character: u8) -> Result<(), NoMemory>
        requires { character < 128 }
        ensures { OnOk result (self.new ≡ self.old ++ character ∷ []) }
    {
        self.text.push(char::from(character))?;
        Ok(())
    }

    /// Adds a byte, in hexadecimal digits.
    pub(crate) fn byte(&mut self, byte: u8) -> Result<(), NoMemory>
        ensures { OnOk result (self.new ≡ self.old ++ byte_shown byte) }
    {
        self.words("the byte 0x")?;
        self.digits(u32::from(byte))
    }

    /// Adds two hexadecimal digits.
    #[tactic(auto, unfolding(crate::specs::Places::two_digits))]
    fn digits(&mut self, byte: u32) -> Result<(), NoMemory>
        requires { byte < 256 }
        ensures { OnOk result (self.new ≡ self.old ++ two_digits byte) }
    {
        self.digit(byte / 16 % 16)?;
        self.digit(byte % 16)
    }

    /// Adds how many bytes a text has.
    #[tactic(auto, unfolding(crate::specs::Places::has_bytes))]
    pub(crate) fn has_bytes(&mut self, count: usize) -> Result<(), NoMemory>
        ensures { OnOk result (self.new ≡ self.old ++ has_bytes count) }
    {
        self.words(" has ")?;
        self.number(count as u64)?;
        self.words(" bytes")
    }

    /// Adds that there was no memory.
    pub(crate) fn no_memory(&mut self) -> Result<(), NoMemory>
        ensures { OnOk result (self.new ≡ self.old ++ no_memory) }
    {
        self.words("there was no memory; try it again")
    }

    /// The allocator that the sentence was made with.
    pub(crate) fn allocator(&self) -> Global {
        self.alloc
    }

    /// The text of the sentence.
    pub fn as_str(&self) -> &str
        ensures { result.now ≡ self.now }
    {
        self.text.as_str()
    }
}

/// Those that are shown.
fn front(characters: &[char]) -> &[char]
    ensures { result.now ≡ take MOST_SHOWN characters.now }
{
    &characters[..MOST_SHOWN.min(characters.len())]
}

/// The characters of a text.
fn characters_of(alloc: Global, text: &str) -> Result<Vec<char>, NoMemory>
    ensures { IfOk result (λ characters. characters.items ≡ chars text.now) }
{
    let mut characters = Vec::new(alloc);
    for character in text.chars() {
        characters.push(character)?;
    }
    Ok(characters)
}
