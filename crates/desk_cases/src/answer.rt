//! The answer to a case, made part by part.
use crate::case::Part;
use std::alloc::Global;
use std::fmt::Debug;
use std::test::Fail;

/// The parts that a case is answered by, in their order. A function that answers a case is lent it, so that it owns no
/// part of it.
#[derive(Debug, Drop)]
pub struct Answer {
    alloc: Global,
    parts: Vec<Part>,
}

impl Answer {
    /// No part yet.
    pub(crate) fn new(alloc: Global) -> Answer {
        Answer {
            alloc,
            parts: Vec::new(alloc),
        }
    }

    /// What its parts are allocated by.
    pub fn alloc(&self) -> Global {
        self.alloc
    }

    /// Adds a part with these bytes.
    pub fn bytes(&mut self, name: &str, content: &[u8]) -> Result<(), Fail> {
        let part = Part::new(self.alloc, name, content)?;
        Ok(self.parts.push(part)?)
    }

    /// Adds a part with this text.
    pub fn text(&mut self, name: &str, text: &str) -> Result<(), Fail> {
        self.bytes(name, text.as_bytes())
    }

    /// Adds a part that says `yes` or `no`.
    pub fn truth(&mut self, name: &str, holds: bool) -> Result<(), Fail> {
        self.text(name, if holds { "yes" } else { "no" })
    }

    /// Adds a part that is a number.
    pub fn number(&mut self, name: &str, number: u64) -> Result<(), Fail> {
        self.shown(name, &number)
    }

    /// Adds a part with what `{:?}` shows of a value.
    pub fn shown<T: Debug>(&mut self, name: &str, value: &T) -> Result<(), Fail> {
        let text = format!(in self.alloc; "{value:?}")?;
        self.text(name, text.as_str())
    }

    /// Adds a part with these bytes, unless it is there: what is answered alike many times is told once.
    pub fn bytes_once(&mut self, name: &str, content: &[u8]) -> Result<(), Fail> {
        if self.has(name, content) {
            return Ok(());
        }
        self.bytes(name, content)
    }

    /// Adds a part that is a number, unless it is there.
    pub fn number_once(&mut self, name: &str, number: u64) -> Result<(), Fail> {
        let text = format!(in self.alloc; "{number}")?;
        self.bytes_once(name, text.as_bytes())
    }

    /// Whether a part of this name and content is there.
    fn has(&self, name: &str, content: &[u8]) -> bool {
        for part in &self.parts {
            if part.name.as_str() == name && part.content.as_slice() == content {
                return true;
            }
        }
        false
    }

    /// The parts.
    pub(crate) fn into_parts(self) -> Vec<Part> {
        self.parts
    }
}
