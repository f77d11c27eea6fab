//! The grammar: what is expected, and which token may come there.
ghost use Rattle.std.specs.Prelude.{◌≡◌};
ghost use Rattle.rule_text.specs.Grammar.{next, leads, after_key, after_head, test, negated, after_item, after_cond};

use crate::place::Place;
use crate::token::{Mark, Token};

/// What is expected next.
#[derive(Clone, Copy, Debug, PartialEq, Eq)]
pub enum Expected {
    /// A rule, or the end.
    Rule,
    /// The rule's name.
    Name,
    From,
    /// The master's name.
    Master,
    Colon,
    /// A key's attribute.
    Key,
    KeyEquals,
    /// A key's column.
    KeyColumn,
    AfterKey,
    /// The attribute that is fixed.
    Head,
    HeadEquals,
    /// The column that it is fixed from.
    HeadColumn,
    AfterHead,
    /// A condition's attribute.
    Cond,
    /// What it asks.
    Test,
    /// What `not` asks.
    Negated,
    Open,
    /// A text of a set.
    Item,
    AfterItem,
    /// The one constant.
    Const,
    AfterCond,
}

/// A token, with what was expected there and its place.
#[derive(Debug, Drop)]
pub struct Taken {
    pub expected: Expected,
    pub token: Token,
    pub place: Place,
}

fn leads(taken: bool, expected: Expected) -> Option<Expected>
    ensures { result ≡ leads taken expected }
{
    if taken { Some(expected) } else { None }
}

/// What is expected after the token, where it is what is expected now.
#[tactic(auto, unfolding(crate::specs::Grammar::next))]
pub fn next(expected: Expected, token: &Token) -> Option<Expected>
    ensures { result ≡ next expected token.now }
{
    match expected {
        Expected::Rule => leads(token.is_keyword(b"rule"), Expected::Name),
        Expected::Name => leads(token.is_name(), Expected::From),
        Expected::From => leads(token.is_keyword(b"from"), Expected::Master),
        Expected::Master => leads(token.is_name(), Expected::Colon),
        Expected::Colon => leads(token.is_sign(Mark::Colon), Expected::Key),
        Expected::Key => leads(token.is_name(), Expected::KeyEquals),
        Expected::KeyEquals => leads(token.is_sign(Mark::Equals), Expected::KeyColumn),
        Expected::KeyColumn => leads(token.is_column(), Expected::AfterKey),
        Expected::AfterKey => after_key(token),
        Expected::Head => leads(token.is_name(), Expected::HeadEquals),
        Expected::HeadEquals => leads(token.is_sign(Mark::Equals), Expected::HeadColumn),
        Expected::HeadColumn => leads(token.is_column(), Expected::AfterHead),
        Expected::AfterHead => after_head(token),
        Expected::Cond => leads(token.is_name(), Expected::Test),
        Expected::Test => test(token),
        Expected::Negated => negated(token),
        Expected::Open => leads(token.is_sign(Mark::Opening), Expected::Item),
        Expected::Item => leads(token.is_quoted(), Expected::AfterItem),
        Expected::AfterItem => after_item(token),
        Expected::Const => leads(token.is_quoted(), Expected::AfterCond),
        Expected::AfterCond => after_cond(token),
    }
}

fn after_key(token: &Token) -> Option<Expected>
    ensures { result ≡ after_key token.now }
{
    if token.is_sign(Mark::Comma) {
        Some(Expected::Key)
    } else {
        leads(token.is_sign(Mark::Arrow), Expected::Head)
    }
}

fn after_head(token: &Token) -> Option<Expected>
    ensures { result ≡ after_head token.now }
{
    if token.is_keyword(b"when") {
        Some(Expected::Cond)
    } else {
        leads(token.is_sign(Mark::Semicolon), Expected::Rule)
    }
}

fn test(token: &Token) -> Option<Expected>
    ensures { result ≡ test token.now }
{
    if token.is_keyword(b"is") {
        Some(Expected::Const)
    } else if token.is_keyword(b"not") {
        Some(Expected::Negated)
    } else if token.is_keyword(b"in") {
        Some(Expected::Open)
    } else {
        leads(token.is_keyword(b"any"), Expected::AfterCond)
    }
}

fn negated(token: &Token) -> Option<Expected>
    ensures { result ≡ negated token.now }
{
    if token.is_quoted() {
        Some(Expected::AfterCond)
    } else {
        leads(token.is_keyword(b"in"), Expected::Open)
    }
}

fn after_item(token: &Token) -> Option<Expected>
    ensures { result ≡ after_item token.now }
{
    if token.is_sign(Mark::Comma) {
        Some(Expected::Item)
    } else {
        leads(token.is_sign(Mark::Closing), Expected::AfterCond)
    }
}

fn after_cond(token: &Token) -> Option<Expected>
    ensures { result ≡ after_cond token.now }
{
    if token.is_sign(Mark::Comma) {
        Some(Expected::Cond)
    } else {
        leads(token.is_sign(Mark::Semicolon), Expected::Rule)
    }
}
