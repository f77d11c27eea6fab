//! Words with blanks between.
use std::alloc::Global;
use std::test::Fail;

/// The words of a text.
pub fn words_of(alloc: Global, text: &[u8]) -> Result<Vec<String>, Fail> {
    let Ok(text) = std::str::from_utf8(text) else {
        return Err(Fail::new("words are no UTF-8"));
    };
    let mut words = Vec::new(alloc);
    for word in text.split_whitespace() {
        words.push(String::from_str(alloc, word)?)?;
    }
    Ok(words)
}

/// Adds a word, with a space between it and those before. An empty word adds nothing.
pub fn add_word(words: &mut Vec<u8>, word: &[u8]) -> Result<(), Fail> {
    if !words.is_empty() && !word.is_empty() {
        words.push(b' ')?;
    }
    words.extend_from_slice(word)?;
    Ok(())
}
