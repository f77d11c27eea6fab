//! The text of a cell: UTF-8, at most 200 bytes. A clause sees its bytes.
ghost use Rattle.desk_base.specs.declared.text.TextFault.TheVariants as fault;
ghost use Rattle.std.specs.Prelude.{◌≡◌, ◌==◌, ◌<◌, ◌≤◌, ◌↔◌, length, IsTrue, IfOk, OnOk, IsErrOf, IsUtf8, []};

use crate::duplicate::Duplicate;
use crate::error::NoMemory;
use crate::limits::MAX_TEXT;
use arrayvec::ArrayString;
use std::alloc::Global;
use std::fmt;
use std::marker::Model;
use std::rc::{Rc, RcStr};
use thiserror::Error;

/// The text of one cell. The empty text is a blank. A copy shares its bytes, so it costs the same for any length.
pub struct Text {
    content: Content,
}

/// The bytes of a text, in as few blocks of memory as there can be.
#[derive(Drop)]
enum Content {
    /// There are none.
    Blank,
    /// At most 16 bytes, in one block with the count of those who share it.
    Short(Rc<ArrayString<16>>),
    /// More bytes, in a block of their own.
    Long(RcStr),
}

impl Model for Text {
    ghost use Rattle.std.specs.Prelude.{ℕ, List};
    ghost use Rattle.desk_base.specs.Shared.{IsCellText, content_bytes};

    ghost Value = { List ℕ };

    ghost view = { λ t. content_bytes t.content };

    ghost invariant = { λ t. IsCellText t.content };
}

/// One call lets a text go, whatever owned it (`docs/gate.md`).
impl Drop for Text {
    fn drop(self) {
        let Text { content } = self;
        drop(content);
    }
}

/// A text is shown as a string of Rust's is.
impl fmt::Debug for Text {
    fn fmt<W: fmt::Write>(&self, f: &mut fmt::Formatter<W>) -> fmt::Result {
        fmt::Debug::fmt(&self.as_str(), f)
    }
}

/// Why some bytes are no text of a cell.
#[derive(Clone, Copy, Debug, PartialEq, Eq, Error)]
pub enum TextFault {
    /// There are more than 200 bytes.
    #[error("a text has more than 200 bytes")]
    TooLong,
    /// There are at most 200 bytes, and they are not UTF-8.
    #[error("a text is not UTF-8")]
    NotUtf8,
    /// There was no memory for them.
    #[error("there was no memory for a text")]
    NoMemory,
}

impl From<NoMemory> for TextFault {
    ghost from_gives = { λ _ result. result ≡ fault.NoMemory };

    fn from(_want: NoMemory) -> TextFault {
        TextFault::NoMemory
    }
}

impl Text {
    /// The text of these bytes.
    pub fn new(alloc: Global, bytes: &[u8]) -> Result<Text, TextFault>
        ensures text { IfOk result (λ text. text ≡ bytes.now) }
        ensures fits { OnOk result ((length bytes.now ≤ MAX_TEXT) × IsUtf8 bytes.now) }

        // Each refusal, exactly where it comes.
        ensures too_long { IsErrOf result TextFault.TooLong ↔ (MAX_TEXT < length bytes.now) }
        ensures not_utf8 { IsErrOf result TextFault.NotUtf8
            ↔ ((length bytes.now ≤ MAX_TEXT) × (IsUtf8 bytes.now → ⊥)) }
    {
        if bytes.len() > MAX_TEXT {
            return Err(TextFault::TooLong);
        }
        match std::str::from_utf8(bytes) {
            Ok(text) => Ok(Text::of(alloc, text)?),
            Err(_) => Err(TextFault::NotUtf8),
        }
    }

    /// The text of a string of Rust's, which has at most 200 bytes and is UTF-8 by its type.
    pub fn of(alloc: Global, text: &str) -> Result<Text, NoMemory>
        requires { length text.now ≤ MAX_TEXT }
        ensures { IfOk result (λ made. made ≡ text.now) }
    {
        if text.is_empty() {
            return Ok(Text {
                content: Content::Blank,
            });
        }
        let content = match ArrayString::from(text) {
            Ok(short) => Content::Short(Rc::new(alloc, short)?),
            Err(_longer) => Content::Long(RcStr::from_str(alloc, text)?),
        };
        Ok(Text { content })
    }

    /// The text as Rust's, of at most 200 bytes.
    pub fn as_str(&self) -> &str
        ensures text { result.now ≡ self.now }
        ensures fits { length self.now ≤ MAX_TEXT }
        ensures utf8 { IsUtf8 self.now }
    {
        match &self.content {
            Content::Blank => "",
            Content::Short(short) => short.as_ref().as_str(),
            Content::Long(long) => long.as_str(),
        }
    }

    /// Whether this is the empty text.
    pub fn is_blank(&self) -> bool
        ensures { IsTrue result ↔ (self.now ≡ []) }
    {
        match &self.content {
            Content::Blank => true,
            Content::Short(_) | Content::Long(_) => false,
        }
    }
}

impl Duplicate for Text {
    fn copy(&self) -> Result<Text, NoMemory> {
        let content = match &self.content {
            Content::Blank => Content::Blank,
            Content::Short(short) => Content::Short(short.clone()?),
            Content::Long(long) => Content::Long(long.clone()?),
        };
        Ok(Text { content })
    }
}
