//! What is seen at a place of a text of rules. A clause sees it as `specs/Sights.antt` says.
ghost use Rattle.std.specs.Prelude.{◌≡◌, ◌+◌, ◌<◌, ℕ, List, length, IfOk};
ghost use Rattle.rule_text.specs.Tokens.{piece_at};
ghost use Rattle.rule_text.specs.declared.grammar.Expected.{Expected as ExpectedOf};
ghost use Rattle.fault_sentences.specs.Sights.{Seen as SeenOf, is_place, rule_after, seen_at, seen_after};
ghost use Rattle.fault_sentences.specs.Looks.{as_seen};

use desk_base::NoMemory;
use rule_text::{Expected, Piece, Place, next, piece_at};
use std::alloc::Global;

/// What is expected at a place of a text of rules, the name of the rule that began last, and the bytes from the
/// place on.
#[derive(Clone, Copy, Debug)]
pub struct Seen<'a> {
    pub expected: Expected,
    pub rule: &'a [u8],
    pub rest: &'a [u8],
}

/// What is seen at a line and a column of a text. It takes a look at the text up to there.
pub(crate) fn seen_at<'a>(
    alloc: Global,
    text: &'a [u8],
    line: u64,
    column: u64,
) -> Result<Seen<'a>, NoMemory>
    ensures { IfOk result (λ seen. as_seen seen ≡ seen_at text.now line column) }
{
    let sought = Place { line, column };
    let mut place = Place { line: 1, column: 1 };
    let mut expected = Expected::Rule;
    let mut rule: &'a [u8] = &[];
    let mut rest = text;
    'pieces: while !rest.is_empty() {
        if is_place(sought, place) {
            return Ok(Seen {
                expected,
                rule,
                rest,
            });
        }
        let (after, named, more) = after_piece(alloc, expected, rule, rest)?;
        let (passed, left) = rest.split_at(more + 1);
        place = place.following(passed);
        (expected, rule, rest) = (after, named, left);
    }
    Ok(Seen {
        expected,
        rule,
        rest,
    })
}

fn is_place(one: Place, other: Place) -> bool
    ensures { result ≡ is_place one other }
{
    one.line == other.line && one.column == other.column
}

/// What is expected after the piece in front of some bytes, the rule that is open there, and how many bytes the
/// piece has after its first.
fn after_piece<'a>(
    alloc: Global,
    expected: Expected,
    rule: &'a [u8],
    here: &'a [u8],
) -> Result<(Expected, &'a [u8], usize), NoMemory>
    requires { 0 < length here.now }
    ensures within { IfOk result (λ step. step.2 < length here.now) }
    ensures step { IfOk result (λ step. (others : ExpectedOf → List ℕ → ℕ → SeenOf)
        → seen_after (piece_at here.now) expected rule.now here.now others ≡ others step.0 step.1.now step.2) }
{
    match piece_at(alloc, here)? {
        Piece::Gap(more) => Ok((expected, rule, more)),
        Piece::Spelled(token, more) => {
            let after = next(expected, &token).unwrap_or(expected);
            Ok((after, rule_after(expected, rule, &here[..more + 1]), more))
        }
        Piece::Stray => Ok((expected, rule, 0)),
    }
}

/// The name of the rule that is open after this token.
fn rule_after<'a>(expected: Expected, rule: &'a [u8], token: &'a [u8]) -> &'a [u8]
    ensures { result.now ≡ rule_after expected rule.now token.now }
{
    match expected {
        Expected::Name => token,
        _ => rule,
    }
}
