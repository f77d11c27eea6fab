//! A case: what it shows, and its parts.
use desk_base::NoMemory;
use std::alloc::Global;
use std::test::Fail;

/// How many bytes a call of a device moves at most, where a case does not say.
pub const USUAL_CUT: usize = 65_536;

/// A part of a case.
#[derive(Debug, Drop)]
pub struct Part {
    pub name: String,
    pub content: Vec<u8>,
}

impl Part {
    /// A part of this name, with this content.
    pub(crate) fn new(alloc: Global, name: &str, content: &[u8]) -> Result<Part, NoMemory> {
        let name = String::from_str(alloc, name)?;
        let content = Vec::from_slice(alloc, content)?;
        Ok(Part { name, content })
    }

    /// Whether a part that is text has this word.
    pub fn has_word(&self, word: &str) -> bool {
        match std::str::from_utf8(self.content.as_slice()) {
            Ok(text) => text.split_whitespace().any(|other| other == word),
            Err(_) => false,
        }
    }
}

/// A case.
#[derive(Debug, Drop)]
pub struct Case {
    /// What it shows.
    pub title: String,
    /// Its parts, in their order.
    pub parts: Vec<Part>,
}

impl Case {
    /// The bytes of the first part of this name.
    pub fn part(&self, name: &str) -> Option<&[u8]> {
        for part in &self.parts {
            if part.name.as_str() == name {
                return Some(part.content.as_slice());
            }
        }
        None
    }

    /// The bytes of a part that has to be there.
    pub fn bytes(&self, name: &str) -> Result<&[u8], Fail> {
        match self.part(name) {
            Some(content) => Ok(content),
            None => Err(Fail::new("a case has not a part that is wanted")),
        }
    }

    /// How many bytes a call of a device moves at most: what the part `cut` says, or 65,536.
    pub fn cut(&self) -> usize {
        match self.number("cut") {
            Some(cut) => usize::try_from(cut).unwrap_or(usize::MAX),
            None => USUAL_CUT,
        }
    }

    /// Whether one of the parts with these names has a word.
    pub fn has_word(&self, names: &[&str], word: &str) -> bool {
        for part in &self.parts {
            if (&*names).contains(&part.name.as_str()) && part.has_word(word) {
                return true;
            }
        }
        false
    }

    /// A part that is one text.
    pub fn text(&self, name: &str) -> Option<&str> {
        match std::str::from_utf8(self.part(name)?) {
            Ok(text) => Some(text),
            Err(_) => None,
        }
    }

    /// A part that is a number.
    pub fn number(&self, name: &str) -> Option<u64> {
        self.text(name)?.trim().parse().ok()
    }

    /// The numbers of a part, which stand with spaces or line ends between: none where there is no such part.
    pub fn numbers(&self, alloc: Global, name: &str) -> Result<Vec<u64>, Fail> {
        let mut numbers = Vec::new(alloc);
        for word in self.text(name).unwrap_or("").split_whitespace() {
            match word.parse() {
                Ok(number) => numbers.push(number)?,
                Err(_) => return Err(Fail::new("a case has a word where a number is wanted")),
            }
        }
        Ok(numbers)
    }
}
