//! A text of any length. A clause sees its bytes.
ghost use Rattle.std.specs.Prelude.{◌≡◌, IfOk, IsUtf8};

use crate::duplicate::Duplicate;
use crate::error::NoMemory;
use std::alloc::Global;
use std::marker::Model;

/// A text of any length, as a request names things before anybody knows whether they stand.
#[derive(Debug, Drop)]
pub struct Str {
    content: String,
}

impl Model for Str {
    ghost use Rattle.std.specs.Prelude.{ℕ, List, string_bytes};

    ghost Value = { List ℕ };

    ghost view = { λ s. string_bytes s.content };
}

impl Str {
    /// The same text.
    pub fn new(alloc: Global, text: &str) -> Result<Str, NoMemory>
        ensures { IfOk result (λ made. made ≡ text.now) }
    {
        let content = String::from_str(alloc, text)?;
        Ok(Str { content })
    }

    /// The text as Rust's.
    pub fn as_str(&self) -> &str
        ensures text { result.now ≡ self.now }
        ensures utf8 { IsUtf8 self.now }
    {
        self.content.as_str()
    }
}

impl Duplicate for Str {
    fn copy(&self) -> Result<Str, NoMemory> {
        let content = self.content.clone()?;
        Ok(Str { content })
    }
}
