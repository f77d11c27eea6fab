//! How each kind of pattern is written, and the pattern that is made of what it holds.
ghost use Rattle.std.specs.Prelude.{◌≡◌, ◌++◌, OnOk};
ghost use Rattle.rule_text.specs.Patterns.{constant_of, set_of};
ghost use Rattle.rule_text.specs.Printing.{pattern_text};

use crate::printing::{put, put_set, put_string};
use desk_base::{List, NoMemory, Text};
use fix_model::Pat;

/// Prints what is asked of an attribute.
pub fn put_pattern(out: &mut Vec<u8>, pattern: &Pat) -> Result<(), NoMemory>
    ensures { OnOk result (out.new.items ≡ out.old.items ++ pattern_text pattern.now) }
{
    match pattern {
        Pat::Is(constant) => {
            put(out, b" is ")?;
            put_string(out, constant)
        }
        Pat::IsNot(constant) => {
            put(out, b" not ")?;
            put_string(out, constant)
        }
        Pat::OneOf(texts) => {
            put(out, b" in ")?;
            put_set(out, texts.as_slice())
        }
        Pat::NoneOf(texts) => {
            put(out, b" not in ")?;
            put_set(out, texts.as_slice())
        }
        Pat::Any => put(out, b" any"),
    }
}

/// The constant, excluded or asked for.
pub fn constant_of(negated: bool, constant: Text) -> Pat
    ensures { result ≡ constant_of negated constant }
{
    if negated {
        Pat::IsNot(constant)
    } else {
        Pat::Is(constant)
    }
}

/// The set of these texts, excluded or asked for.
pub fn set_of(negated: bool, texts: List<Text>) -> Pat
    ensures { result ≡ set_of negated texts }
{
    if negated {
        Pat::NoneOf(texts)
    } else {
        Pat::OneOf(texts)
    }
}
