//! From bytes to the tokens of the grammar.
ghost use Rattle.std.specs.Prelude.{◌≡◌, ◌≢◌, ◌++◌, ◌∷◌, [], Ok, Err, Some, None, IfOk, IfErr, OnOk};
ghost use Rattle.rule_text.specs.Grammar.{next};
ghost use Rattle.rule_text.specs.Tokenizer.{syntax_at, tokens_of};

use crate::fault::RuleFault;
use crate::grammar::{Expected, Taken, next};
use crate::place::Place;
use crate::token::{Piece, Token, piece_at};
use std::alloc::Global;

/// The tokens of a text, each with what was expected there and its place.
pub fn tokens_of(alloc: Global, text: &[u8]) -> Result<Vec<Taken>, RuleFault>
    ensures tokens { IfOk result (λ tokens. tokens_of text.now ≡ Ok tokens.items) }
    ensures fault { IfErr result (λ fault. fault ≢ RuleFault.NoMemory
        → tokens_of text.now ≡ Err fault) }
{
    let mut tokens = Vec::new(alloc);
    let mut expected = Expected::Rule;
    let mut place = Place { line: 1, column: 1 };
    let mut rest = text;
    while !rest.is_empty() {
        let more = match piece_at(alloc, rest)? {
            Piece::Gap(more) => more,
            Piece::Spelled(token, more) => {
                expected = take(&mut tokens, expected, token, place)?;
                more
            }
            Piece::Stray => return Err(RuleFault::Syntax(place.line, place.column)),
        };
        let (passed, left) = rest.split_at(more + 1);
        place = place.following(passed);
        rest = left;
    }
    match expected {
        Expected::Rule => Ok(tokens),
        _ => Err(RuleFault::Syntax(place.line, place.column)),
    }
}

/// Takes the token that stands at a place, and tells what is expected after it.
fn take(
    tokens: &mut Vec<Taken>,
    expected: Expected,
    token: Token,
    place: Place,
) -> Result<Expected, RuleFault>
    ensures leads { IfOk result (λ after. next expected token ≡ Some after) }
    ensures taken { OnOk result (tokens.new.items ≡ tokens.old.items
        ++ record { expected = expected; token = token; place = place } ∷ []) }
    ensures fault { IfErr result (λ fault. fault ≢ RuleFault.NoMemory
        → (next expected token ≡ None) × (fault ≡ syntax_at place)) }
{
    let Some(after) = next(expected, &token) else {
        return Err(RuleFault::Syntax(place.line, place.column));
    };
    let taken = Taken {
        expected,
        token,
        place,
    };
    tokens.push(taken)?;
    Ok(after)
}
