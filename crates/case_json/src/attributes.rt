//! The attributes of a case. A clause sees `Attributes` as the list of their words.
ghost use Rattle.std.specs.Prelude.{◌≡◌, ◌<◌, ◌≤◌, length, IfOk, IfSome, IsErrOf, Some, None};
ghost use Rattle.std.specs.List.{list_all};
ghost use Rattle.desk_base.specs.Places.{place_of};
ghost use Rattle.desk_base.specs.Words.{is_word};
ghost use Rattle.serde_json.specs.View.{view};
ghost use Rattle.case_json.specs.Attributes.{attributes_in, place_in, word_in};

use desk_base::{List, MAX_ATTRIBUTES, Text, is_word, place_of};
use json_parts::{Part, PartFault};
use serde_json::Value;
use std::alloc::Global;
use std::marker::Model;

/// 1 to 48 words, by which the parts of a case name attributes.
#[derive(Debug, Drop)]
pub struct Attributes {
    words: List<Text>,
}

impl Model for Attributes {
    ghost use Rattle.std.specs.Prelude.{ℕ, List, ◌≤◌, length};
    ghost use Rattle.desk_base.specs.declared.limits.TheConstants.{MAX_ATTRIBUTES};

    ghost Value = { List (List ℕ) };

    ghost view = { λ a. a.words };

    ghost invariant = { λ a. (1 ≤ length a.words) × (length a.words ≤ MAX_ATTRIBUTES) };
}

impl Part<()> for Attributes {
    ghost part_in = { λ _. attributes_in };

    fn read(alloc: Global, context: &(), value: &Value) -> Result<Attributes, PartFault> {
        let words = List::<Text>::read(alloc, context, value)?;
        let count = words.len();
        if are_words(&words) && 1 <= count && count <= MAX_ATTRIBUTES {
            Ok(Attributes { words })
        } else {
            Err(PartFault::WrongForm)
        }
    }
}

impl Attributes {
    /// How many there are, 1 to 48.
    pub fn count(&self) -> u16
        ensures count { result ≡ length self.now }
        ensures some { (1 ≤ result) × (result ≤ MAX_ATTRIBUTES) }
    {
        self.words.len() as u16
    }

    /// The place of the attribute with this word, counted from 0.
    pub fn place(&self, word: &str) -> Option<u16>
        ensures place { result ≡ place_of self.now word.now }
        ensures within { IfSome result (λ place. place < length self.now) }
    {
        match place_of(self.words.as_slice(), word) {
            Some(place) => Some(place as u16),
            None => None,
        }
    }

    /// The words in their order.
    pub fn words(&self) -> &[Text]
        ensures { result.now ≡ self.now }
    {
        self.words.as_slice()
    }

    /// The words in their order.
    pub fn into_words(self) -> List<Text>
        ensures { result ≡ self }
    {
        self.words
    }
}

/// A word, the name of an attribute.
#[derive(Drop)]
pub struct Word {
    text: Text,
}

impl Model for Word {
    ghost use Rattle.std.specs.Prelude.{ℕ, List};

    ghost Value = { List ℕ };

    ghost view = { λ word. word.text };
}

impl Part<()> for Word {
    ghost part_in = { λ _. word_in };

    fn read(alloc: Global, context: &(), value: &Value) -> Result<Word, PartFault> {
        let text = Text::read(alloc, context, value)?;
        if is_word(text.as_str().as_bytes()) {
            Ok(Word { text })
        } else {
            Err(PartFault::WrongForm)
        }
    }
}

/// The place of the attribute that a value names, from 0.
impl Part<Attributes> for u16 {
    ghost part_in = { place_in };

    fn read(_alloc: Global, attributes: &Attributes, value: &Value) -> Result<u16, PartFault> {
        match place_in(attributes, value) {
            Some(place) => Ok(place),
            None => Err(PartFault::WrongForm),
        }
    }
}

fn place_in(attributes: &Attributes, value: &Value) -> Option<u16>
    ensures { result ≡ place_in attributes.now (view value.now) }
{
    match value.as_str() {
        Some(word) => attributes.place(word),
        None => None,
    }
}

fn are_words(texts: &List<Text>) -> bool
    ensures { result ≡ list_all is_word texts.now }
{
    texts
        .as_slice()
        .iter()
        .all(|text| is_word(text.as_str().as_bytes()))
}
