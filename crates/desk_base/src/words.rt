//! The forms of names and words.
ghost use Rattle.std.specs.Prelude.{◌≡◌, ◌≤◌, length, IsTrue};
ghost use Rattle.std.specs.List.{list_all};
ghost use Rattle.std.specs.Char.{is_ascii_lowercase};
ghost use Rattle.desk_base.specs.Words.{begins_with, is_word_byte, starts_word, is_word, is_name_byte, is_name};

use crate::limits::MAX_WORD;

/// Whether this byte may stand in a word: an ASCII letter, a digit or `_`.
pub fn is_word_byte(byte: u8) -> bool
    ensures { result ≡ is_word_byte byte }
{
    byte.is_ascii_alphanumeric() || byte == b'_'
}

/// Whether a word may begin with this byte: an ASCII letter or `_`.
pub fn starts_word(byte: u8) -> bool
    ensures { result ≡ starts_word byte }
{
    byte.is_ascii_alphabetic() || byte == b'_'
}

fn is_name_byte(byte: u8) -> bool
    ensures { result ≡ is_name_byte byte }
{
    byte.is_ascii_lowercase() || byte.is_ascii_digit() || byte == b'_'
}

fn begins_word(bytes: &[u8]) -> bool
    ensures { result ≡ begins_with starts_word bytes.now }
{
    match bytes {
        [first, ..] => starts_word(*first),
        [] => false,
    }
}

fn begins_name(bytes: &[u8]) -> bool
    ensures { result ≡ begins_with is_ascii_lowercase bytes.now }
{
    match bytes {
        [first, ..] => first.is_ascii_lowercase(),
        [] => false,
    }
}

fn has_word_bytes(bytes: &[u8]) -> bool
    ensures { result ≡ list_all is_word_byte bytes.now }
{
    bytes.iter().all(|byte| is_word_byte(*byte))
}

fn has_name_bytes(bytes: &[u8]) -> bool
    ensures { result ≡ list_all is_name_byte bytes.now }
{
    bytes.iter().all(|byte| is_name_byte(*byte))
}

/// Whether these bytes are a word, the form of attributes and rules: 1 to 32 bytes, an ASCII letter or
/// `_`, then letters, digits or `_`.
pub fn is_word(bytes: &[u8]) -> bool
    ensures form { result ≡ is_word bytes.now }
    ensures short { IsTrue result → length bytes.now ≤ MAX_WORD }
{
    begins_word(bytes) && has_word_bytes(bytes) && bytes.len() <= MAX_WORD
}

/// Whether these bytes are a name, the form of clerks, schemas, masters, rulebooks and editions: 1 to 32
/// bytes, a small ASCII letter, then small letters, digits or `_`.
pub fn is_name(bytes: &[u8]) -> bool
    ensures form { result ≡ is_name bytes.now }
    ensures short { IsTrue result → length bytes.now ≤ MAX_WORD }
{
    begins_name(bytes) && has_name_bytes(bytes) && bytes.len() <= MAX_WORD
}
