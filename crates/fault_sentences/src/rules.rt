//! The sentences on texts of rules.
ghost use Rattle.std.specs.Prelude.{◌≡◌, ◌++◌, ◌≤◌, length, option_map, IfOk, OnOk};
ghost use Rattle.fault_sentences.specs.Looks.{as_seen};
ghost use Rattle.fault_sentences.specs.Rules.{attribute_twice, clash, content_at, expected_words, found_shown};
ghost use Rattle.fault_sentences.specs.Rules.{head_in_keys, head_in_when, mark_text, name_twice, other_length, rule_of};
ghost use Rattle.fault_sentences.specs.Rules.{long_told, other_shown, over_words, past_ascii, rules_sentence};
ghost use Rattle.fault_sentences.specs.Rules.{stray_from, stray_shown};
ghost use Rattle.fault_sentences.specs.Rules.{text_long, token_shown, too_many, twice_words, unknown, word_of};
ghost use Rattle.fault_sentences.specs.Places.{at_place};
ghost use Rattle.fault_sentences.specs.Sights.{seen_at};

use crate::sentence::Sentence;
use crate::sight::{Seen, seen_at};
use crate::utf8::valid_length;
use desk_base::{List, NoMemory};
use rule_text::{Expected, Mark, Piece, RuleFault, Token, piece_at};
use schema_core::Schema;
use std::alloc::Global;

/// Says why a text is no rulebook over a schema: the place, what stands there, and what was expected or what to do.
#[tactic(auto, unfolding(crate::specs::Rules::rules_sentence))]
pub fn rules_sentence(
    alloc: Global,
    fault: RuleFault,
    schema: &Schema,
    text: &[u8],
) -> Result<Sentence, NoMemory>
    ensures { IfOk result (λ sentence. sentence ≡ rules_sentence fault schema.now text.now) }
{
    let mut out = Sentence::new(alloc);
    match fault {
        RuleFault::Syntax(line, column) => {
            let seen = placed(&mut out, text, line, column)?;
            clash(&mut out, &seen)?;
        }
        RuleFault::UnknownAttr(line, column) => {
            let seen = placed(&mut out, text, line, column)?;
            unknown(&mut out, schema, &seen)?;
        }
        RuleFault::HeadInKeys(line, column) => {
            let seen = placed(&mut out, text, line, column)?;
            head_in_keys(&mut out, &seen)?;
        }
        RuleFault::HeadInWhen(line, column) => {
            let seen = placed(&mut out, text, line, column)?;
            head_in_when(&mut out, &seen)?;
        }
        RuleFault::AttrTwice(line, column) => {
            let seen = placed(&mut out, text, line, column)?;
            attribute_twice(&mut out, &seen)?;
        }
        RuleFault::NameTwice(line, column) => {
            let seen = placed(&mut out, text, line, column)?;
            name_twice(&mut out, &seen)?;
        }
        RuleFault::TooMany(line, column) => {
            let seen = placed(&mut out, text, line, column)?;
            too_many(&mut out, &seen)?;
        }
        RuleFault::ConstantLong(line, column) => {
            let seen = placed(&mut out, text, line, column)?;
            text_long(&mut out, &seen)?;
        }
        RuleFault::NoMemory => out.no_memory()?,
    }
    Ok(out)
}

/// Adds a place, and tells what is seen there.
fn placed<'a>(
    out: &mut Sentence,
    text: &'a [u8],
    line: u64,
    column: u64,
) -> Result<Seen<'a>, NoMemory>
    ensures place { OnOk result (out.new ≡ out.old ++ at_place line column) }
    ensures seen { IfOk result (λ seen. as_seen seen ≡ seen_at text.now line column) }
{
    out.place(line, column)?;
    seen_at(out.allocator(), text, line, column)
}

/// What can not stand here.
#[tactic(auto, unfolding(crate::specs::Rules::clash))]
fn clash(out: &mut Sentence, seen: &Seen<'_>) -> Result<(), NoMemory>
    ensures { OnOk result (out.new ≡ out.old ++ clash (as_seen seen.now)) }
{
    out.words("expected ")?;
    out.words(expected_words(seen.expected))?;
    out.words(", and found ")?;
    found(out, seen.rest)
}

/// What may stand where this is expected.
fn expected_words(expected: Expected) -> &'static str
    ensures { result.now ≡ expected_words expected }
{
    match expected {
        Expected::Rule => "the word rule",
        Expected::Name => "the rule's name, a word of at most 32 bytes",
        Expected::From => "the word from",
        Expected::Master => "the master's name, a word of at most 32 bytes",
        Expected::Colon => "a colon",
        Expected::Key | Expected::Head | Expected::Cond => {
            "an attribute, a word of at most 32 bytes"
        }
        Expected::KeyEquals | Expected::HeadEquals => "=",
        Expected::KeyColumn | Expected::HeadColumn => "a column, a word or a text between quotes",
        Expected::AfterKey => "-> or a comma",
        Expected::AfterHead => "a semicolon or the word when",
        Expected::Test => "is, not, in or any",
        Expected::Negated => "a text between quotes or the word in",
        Expected::Open => "(",
        Expected::Item | Expected::Const => "a text between quotes",
        Expected::AfterItem => "a comma or )",
        Expected::AfterCond => "a semicolon or a comma",
    }
}

/// Adds what stands in front of some bytes.
#[tactic(auto, unfolding(crate::specs::Rules::found_shown))]
fn found(out: &mut Sentence, bytes: &[u8]) -> Result<(), NoMemory>
    ensures { OnOk result (out.new ≡ out.old ++ found_shown bytes.now) }
{
    match piece_at(out.allocator(), bytes)? {
        Piece::Spelled(token, _) => token_shown(out, &token),
        Piece::Gap(_) | Piece::Stray => stray_shown(out, bytes),
    }
}

fn token_shown(out: &mut Sentence, token: &Token) -> Result<(), NoMemory>
    ensures { OnOk result (out.new ≡ out.old ++ token_shown token.now) }
{
    match token {
        Token::Word(word) => out.shown(word.as_slice()),
        Token::Quoted(text) => out.quoted(text.as_slice()),
        Token::Sign(mark) => out.words(mark_text(*mark)),
    }
}

fn mark_text(mark: Mark) -> &'static str
    ensures { result.now ≡ mark_text mark }
{
    match mark {
        Mark::Colon => ":",
        Mark::Comma => ",",
        Mark::Equals => "=",
        Mark::Arrow => "->",
        Mark::Semicolon => ";",
        Mark::Opening => "(",
        Mark::Closing => ")",
    }
}

/// Adds what begins no token.
fn stray_shown(out: &mut Sentence, bytes: &[u8]) -> Result<(), NoMemory>
    ensures { OnOk result (out.new ≡ out.old ++ stray_shown bytes.now) }
{
    match bytes {
        [] => out.words("the end of the text"),
        [first, ..] => stray_from(out, *first, bytes),
    }
}

fn stray_from(out: &mut Sentence, first: u8, bytes: &[u8]) -> Result<(), NoMemory>
    ensures { OnOk result (out.new ≡ out.old ++ stray_from first bytes.now) }
{
    if first == b'"' {
        out.words(
            "a quote whose text does not end on its line, holds a tab or another byte below 0x20, or is not UTF-8",
        )
    } else if first > b' ' && first < 0x7F {
        out.ascii(first)
    } else if first >= 0x80 {
        other_shown(out, first, &bytes[..other_length(bytes)])
    } else {
        out.byte(first)
    }
}

/// Adds characters past ASCII, and where there are none the byte.
fn other_shown(out: &mut Sentence, first: u8, characters: &[u8]) -> Result<(), NoMemory>
    ensures { OnOk result (out.new ≡ out.old ++ other_shown first characters.now) }
{
    if characters.is_empty() {
        out.byte(first)
    } else {
        out.quoted(characters)
    }
}

/// How many bytes in front are whole characters past ASCII.
fn other_length(bytes: &[u8]) -> usize
    ensures length { result ≡ other_length bytes.now }
    ensures within { result ≤ length bytes.now }
{
    valid_length(&bytes[..past_ascii(bytes)])
}

/// How many bytes past ASCII stand in front.
fn past_ascii(bytes: &[u8]) -> usize
    ensures length { result ≡ past_ascii bytes.now }
    ensures within { result ≤ length bytes.now }
{
    bytes.iter().take_while(|byte| **byte >= 0x80).count()
}

/// The content of the token in front of some bytes.
#[tactic(auto, unfolding(crate::specs::Rules::content_at))]
fn content_at(alloc: Global, bytes: &[u8]) -> Result<List<u8>, NoMemory>
    ensures { IfOk result (λ content. content ≡ content_at bytes.now) }
{
    match piece_at(alloc, bytes)? {
        Piece::Spelled(Token::Word(content) | Token::Quoted(content), _) => Ok(content),
        Piece::Spelled(Token::Sign(_), _) | Piece::Gap(_) | Piece::Stray => Ok(List::new(alloc)),
    }
}

/// Adds the word that is seen.
#[tactic(auto, unfolding(crate::specs::Rules::word_of))]
fn word(out: &mut Sentence, seen: &Seen<'_>) -> Result<(), NoMemory>
    ensures { OnOk result (out.new ≡ out.old ++ word_of (as_seen seen.now)) }
{
    let content = content_at(out.allocator(), seen.rest)?;
    out.shown(content.as_slice())
}

/// Adds the name of the rule in which it is seen.
#[tactic(auto, unfolding(crate::specs::Rules::rule_of))]
fn rule(out: &mut Sentence, seen: &Seen<'_>) -> Result<(), NoMemory>
    ensures { OnOk result (out.new ≡ out.old ++ rule_of (as_seen seen.now)) }
{
    out.words("rule ")?;
    out.shown(seen.rule)
}

/// An attribute that the schema has not.
#[tactic(auto, unfolding(crate::specs::Rules::unknown))]
fn unknown(out: &mut Sentence, schema: &Schema, seen: &Seen<'_>) -> Result<(), NoMemory>
    ensures { OnOk result (out.new ≡ out.old ++ unknown schema.now (as_seen seen.now)) }
{
    out.words("expected an attribute of the schema ")?;
    out.schema(schema)?;
    out.words(", and found ")?;
    word(out, seen)
}

/// A head that is one of the keys.
#[tactic(auto, unfolding(crate::specs::Rules::head_in_keys))]
fn head_in_keys(out: &mut Sentence, seen: &Seen<'_>) -> Result<(), NoMemory>
    ensures { OnOk result (out.new ≡ out.old ++ head_in_keys (as_seen seen.now)) }
{
    rule(out, seen)?;
    out.words(" looks up ")?;
    word(out, seen)?;
    out.words(", and can not fix it too; fix another attribute, or drop the key")
}

/// A condition on the head.
#[tactic(auto, unfolding(crate::specs::Rules::head_in_when))]
fn head_in_when(out: &mut Sentence, seen: &Seen<'_>) -> Result<(), NoMemory>
    ensures { OnOk result (out.new ≡ out.old ++ head_in_when (as_seen seen.now)) }
{
    rule(out, seen)?;
    out.words(" fixes ")?;
    word(out, seen)?;
    out.words(", and can not ask for it too; drop the condition")
}

/// An attribute that stands twice.
#[tactic(auto, unfolding(crate::specs::Rules::attribute_twice))]
fn attribute_twice(out: &mut Sentence, seen: &Seen<'_>) -> Result<(), NoMemory>
    ensures { OnOk result (out.new ≡ out.old ++ attribute_twice (as_seen seen.now)) }
{
    let (before, after) = twice_words(seen.expected);
    word_in_rule(out, seen, before, after)
}

/// The word that is seen and its rule, with words before and after the name of the rule.
fn word_in_rule(
    out: &mut Sentence,
    seen: &Seen<'_>,
    before: &str,
    after: &str,
) -> Result<(), NoMemory>
    ensures { OnOk result (out.new
        ≡ out.old ++ word_of (as_seen seen.now) ++ before.now ++ rule_of (as_seen seen.now) ++ after.now) }
{
    word(out, seen)?;
    out.words(before)?;
    rule(out, seen)?;
    out.words(after)
}

fn twice_words(expected: Expected) -> (&'static str, &'static str)
    ensures before { result.0.now ≡ (twice_words expected).0 }
    ensures after { result.1.now ≡ (twice_words expected).1 }
{
    match expected {
        Expected::Key => (" is a key of ", " already; keep one of the two"),
        _ => (
            " stands in a condition of ",
            " already; join the two, by in or not in",
        ),
    }
}

/// A name that an earlier rule has.
#[tactic(auto, unfolding(crate::specs::Rules::name_twice))]
fn name_twice(out: &mut Sentence, seen: &Seen<'_>) -> Result<(), NoMemory>
    ensures { OnOk result (out.new ≡ out.old ++ name_twice (as_seen seen.now)) }
{
    out.words("an earlier rule is named ")?;
    word(out, seen)?;
    out.words(" too; give this one another name")
}

/// One more than there may be.
#[tactic(auto, unfolding(crate::specs::Rules::too_many))]
fn too_many(out: &mut Sentence, seen: &Seen<'_>) -> Result<(), NoMemory>
    ensures { OnOk result (out.new ≡ out.old ++ too_many (as_seen seen.now)) }
{
    match over_words(seen.expected) {
        Some((before, after)) => word_in_rule(out, seen, before, after),
        None => out.words("this is rule 201, and a rulebook has at most 200; leave some out"),
    }
}

fn over_words(expected: Expected) -> Option<(&'static str, &'static str)>
    ensures { option_map (λ words. (words.0.now, words.1.now)) result ≡ over_words expected }
{
    match expected {
        Expected::Key => Some((
            " is key 9 of ",
            ", and a rule has at most 8; leave some out",
        )),
        Expected::Cond => Some((
            " is asked for by condition 9 of ",
            ", and a rule has at most 8; leave some out",
        )),
        Expected::Item => Some((
            " is text 65 of a set in ",
            ", and a set has at most 64; part the rule into several",
        )),
        _ => None,
    }
}

/// A column or a text that is too long.
#[tactic(auto, unfolding(crate::specs::Rules::text_long))]
fn text_long(out: &mut Sentence, seen: &Seen<'_>) -> Result<(), NoMemory>
    ensures { OnOk result (out.new ≡ out.old ++ text_long (as_seen seen.now)) }
{
    let content = content_at(out.allocator(), seen.rest)?;
    long_told(out, content.as_slice())
}

#[tactic(auto, unfolding(crate::specs::Rules::long_told))]
fn long_told(out: &mut Sentence, text: &[u8]) -> Result<(), NoMemory>
    ensures { OnOk result (out.new ≡ out.old ++ long_told text.now) }
{
    out.quoted(text)?;
    out.has_bytes(text.len())?;
    out.words(", and a text has at most 200; shorten it")
}
