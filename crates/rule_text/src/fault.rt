//! Why a text is no rulebook.
ghost use Rattle.std.specs.Prelude.{◌≡◌};
ghost use Rattle.rule_text.specs.declared.fault.RuleFault.TheVariants as fault;

use desk_base::NoMemory;
use std::alloc::AllocFailed;
use thiserror::Error;

/// Why a text is no rulebook: the first test that it fails, with the line and the column, both from 1, of
/// what fails it.
///
/// The whole text is tested for its grammar first, then for the number of its rules. The other tests
/// follow rule by rule, in the order of the text.
#[derive(Clone, Copy, Debug, PartialEq, Eq, Error)]
pub enum RuleFault {
    /// A token cannot stand here, a byte begins no token, or the text ends within a rule.
    #[error("a token that is not expected, at line {0}, column {1}")]
    Syntax(u64, u64),
    /// The schema has no attribute of this name.
    #[error("an attribute that the schema has not, at line {0}, column {1}")]
    UnknownAttr(u64, u64),
    /// The head of the rule is one of its keys.
    #[error("the head of a rule is one of its keys, at line {0}, column {1}")]
    HeadInKeys(u64, u64),
    /// A condition asks of the head of its rule.
    #[error("a condition asks of the head of its rule, at line {0}, column {1}")]
    HeadInWhen(u64, u64),
    /// An earlier key of the rule, or an earlier condition, has the attribute.
    #[error("an attribute stands twice, at line {0}, column {1}")]
    AttrTwice(u64, u64),
    /// An earlier rule has the name.
    #[error("an earlier rule has the name, at line {0}, column {1}")]
    NameTwice(u64, u64),
    /// It is the 201st rule, or the ninth key or condition of its rule, or the 65th text of its set.
    #[error("too many rules, keys, conditions or texts, at line {0}, column {1}")]
    TooMany(u64, u64),
    /// A column or a constant has more than 200 bytes.
    #[error("a text of more than 200 bytes, at line {0}, column {1}")]
    ConstantLong(u64, u64),
    /// There was no memory. It may come in place of any other answer.
    #[error("there was no memory")]
    NoMemory,
}

impl From<NoMemory> for RuleFault {
    ghost from_gives = { λ _ result. result ≡ fault.NoMemory };

    fn from(_fault: NoMemory) -> RuleFault {
        RuleFault::NoMemory
    }
}

impl<T: Drop> From<AllocFailed<T>> for RuleFault {
    ghost from_gives = { λ _ result. result ≡ fault.NoMemory };

    fn from(_refused: AllocFailed<T>) -> RuleFault {
        RuleFault::NoMemory
    }
}
