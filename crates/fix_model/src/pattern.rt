//! The pattern cells of a rule.
ghost use Rattle.std.specs.Prelude.{◌↔◌, IsTrue};
ghost use Rattle.fix_model.specs.Alike.{AreAlike};
ghost use Rattle.fix_model.specs.Pattern.{Matches, IsAmong, IsSized};

use crate::comparison::alike;
use desk_base::{Duplicate, List, MAX_SET, NoMemory, Text};

/// What a rule asks of an attribute. Two texts are compared with regard to ASCII case, unless the
/// attribute is folded.
#[derive(Debug, Drop)]
pub enum Pat {
    /// The text is this one.
    Is(Text),
    /// The text is another one.
    IsNot(Text),
    /// The text is one of these, 1 to 64 in a valid kit.
    OneOf(List<Text>),
    /// The text is none of these, 1 to 64 in a valid kit.
    NoneOf(List<Text>),
    /// Any text will do.
    Any,
}

/// Whether the pattern matches the text, at an attribute that is folded or not.
pub fn matches(pat: &Pat, text: &str, folded: bool) -> bool
    ensures { IsTrue result ↔ Matches folded pat.now text.now }
{
    match pat {
        Pat::Is(constant) => alike(constant.as_str(), text, folded),
        Pat::IsNot(constant) => !alike(constant.as_str(), text, folded),
        Pat::OneOf(texts) => is_among(texts, text, folded),
        Pat::NoneOf(texts) => !is_among(texts, text, folded),
        Pat::Any => true,
    }
}

fn is_among(texts: &List<Text>, text: &str, folded: bool) -> bool
    ensures { IsTrue result ↔ IsAmong (AreAlike folded) texts.now text.now }
{
    texts
        .as_slice()
        .iter()
        .any(|one| alike(one.as_str(), text, folded))
}

/// Whether a finite set has 1 to 64 texts.
pub(crate) fn is_sized(pat: &Pat) -> bool
    ensures { IsTrue result ↔ IsSized pat.now }
{
    match pat {
        Pat::OneOf(texts) | Pat::NoneOf(texts) => !texts.is_empty() && texts.len() <= MAX_SET,
        Pat::Is(_) | Pat::IsNot(_) | Pat::Any => true,
    }
}

impl Duplicate for Pat {
    fn copy(&self) -> Result<Pat, NoMemory> {
        match self {
            Pat::Is(constant) => Ok(Pat::Is(constant.copy()?)),
            Pat::IsNot(constant) => Ok(Pat::IsNot(constant.copy()?)),
            Pat::OneOf(texts) => Ok(Pat::OneOf(texts.copy()?)),
            Pat::NoneOf(texts) => Ok(Pat::NoneOf(texts.copy()?)),
            Pat::Any => Ok(Pat::Any),
        }
    }
}
