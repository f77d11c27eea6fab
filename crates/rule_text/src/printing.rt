//! How a rulebook is printed.
ghost use Rattle.std.specs.Prelude.{◌≡◌, ◌<◌, ◌++◌, ◌∷◌, [], codes, length, map, Ok, OnOk, IfOk};
ghost use Rattle.std.specs.List.{AllByRecursion};
ghost use Rattle.schema_core.specs.Schemas.{IsSchema};
ghost use Rattle.rule_text.specs.Rulebooks.{IsRulebook, IsLine, IsPlain, IsPattern};
ghost use Rattle.rule_text.specs.Reading.{read_rules};
ghost use Rattle.rule_text.specs.Printing.{doubled, string_text, column_text, attribute_text, separator, listed};
ghost use Rattle.rule_text.specs.Printing.{pair_text, set_text, cond_text, conds_text, line_text};
ghost use Rattle.rule_text.specs.Printing.{printed};

use crate::patterns::put_pattern;
use crate::rulebook::{RuleLine, Rulebook};
use desk_base::{List, NoMemory, Text, is_word};
use fix_model::Pat;
use schema_core::Schema;
use std::alloc::Global;

/// Prints a rulebook, each rule on a line of its own. What is printed reads as the same rulebook.
pub fn print(alloc: Global, rulebook: &Rulebook, schema: &Schema) -> Result<List<u8>, NoMemory>
    requires schema { IsSchema schema.now }
    requires rulebook { IsRulebook schema.now rulebook.now }
    ensures text { IfOk result (λ text. text ≡ printed rulebook.now schema.now) }
    ensures again { IfOk result (λ text. read_rules text schema.now ≡ Ok rulebook.now) }
{
    let mut out = Vec::new(alloc);
    'lines: for line in rulebook.lines.as_slice() {
        put_line(&mut out, schema, line)?;
    }
    Ok(List::from_vec(out))
}

#[tactic(auto, unfolding(crate::specs::Printing::line_text))]
fn put_line(out: &mut Vec<u8>, schema: &Schema, line: &RuleLine) -> Result<(), NoMemory>
    requires { IsLine schema.now line.now }
    ensures { OnOk result (out.new.items ≡ out.old.items ++ line_text schema.now line.now) }
{
    put(out, b"rule ")?;
    put(out, line.name.as_str().as_bytes())?;
    put(out, b" from ")?;
    put(out, line.master.as_str().as_bytes())?;
    put(out, b": ")?;
    put_keys(out, schema, line.keys.as_slice())?;
    put(out, b" -> ")?;
    put_pair(out, schema, line.head, &line.from)?;
    put_conds(out, schema, line.conds.as_slice())?;
    put(out, b";\n")
}

pub fn put(out: &mut Vec<u8>, bytes: &[u8]) -> Result<(), NoMemory>
    ensures { OnOk result (out.new.items ≡ out.old.items ++ bytes.now) }
{
    out.extend_from_slice(bytes)?;
    Ok(())
}

fn put_byte(out: &mut Vec<u8>, byte: u8) -> Result<(), NoMemory>
    ensures { OnOk result (out.new.items ≡ out.old.items ++ byte ∷ []) }
{
    out.push(byte)?;
    Ok(())
}

/// A text between quotes, with each quote in it twice.
pub fn put_string(out: &mut Vec<u8>, text: &Text) -> Result<(), NoMemory>
    ensures { OnOk result (out.new.items ≡ out.old.items ++ string_text text.now) }
{
    put_byte(out, b'"')?;
    'bytes: for byte in text.as_str().as_bytes() {
        put_doubled(out, *byte)?;
    }
    put_byte(out, b'"')
}

/// A byte of a string, twice where it is a quote.
fn put_doubled(out: &mut Vec<u8>, byte: u8) -> Result<(), NoMemory>
    ensures { OnOk result (out.new.items ≡ out.old.items ++ doubled (byte ∷ [])) }
{
    if byte == b'"' {
        put(out, b"\"\"")
    } else {
        put_byte(out, byte)
    }
}

/// What stands between an item and the one before it.
fn put_separator(out: &mut Vec<u8>, place: usize) -> Result<(), NoMemory>
    ensures { OnOk result (out.new.items ≡ out.old.items ++ separator place) }
{
    match place {
        0 => Ok(()),
        _ => put(out, b", "),
    }
}

/// A column as a word, where it is one, and else as a string.
fn put_column(out: &mut Vec<u8>, column: &Text) -> Result<(), NoMemory>
    ensures { OnOk result (out.new.items ≡ out.old.items ++ column_text column.now) }
{
    let bytes = column.as_str().as_bytes();
    if is_word(bytes) {
        put(out, bytes)
    } else {
        put_string(out, column)
    }
}

fn put_attribute(out: &mut Vec<u8>, schema: &Schema, attribute: u16) -> Result<(), NoMemory>
    requires { attribute < length schema.now.attributes }
    ensures { OnOk result (out.new.items ≡ out.old.items ++ attribute_text schema.now attribute) }
{
    put(
        out,
        schema.attributes.as_slice()[attribute as usize]
            .as_str()
            .as_bytes(),
    )
}

/// An attribute and the column that it is compared with or fixed from.
fn put_pair(
    out: &mut Vec<u8>,
    schema: &Schema,
    attribute: u16,
    column: &Text,
) -> Result<(), NoMemory>
    requires { attribute < length schema.now.attributes }
    ensures { OnOk result (out.new.items ≡ out.old.items ++ pair_text schema.now (attribute, column.now)) }
{
    put_attribute(out, schema, attribute)?;
    put(out, b" = ")?;
    put_column(out, column)
}

fn put_keys(out: &mut Vec<u8>, schema: &Schema, keys: &[(u16, Text)]) -> Result<(), NoMemory>
    requires { AllByRecursion (λ key. (key.0 < length schema.now.attributes) × IsPlain key.1) keys.now }
    ensures { OnOk result (out.new.items ≡ out.old.items ++ listed (map (pair_text schema.now) keys.now)) }
{
    'keys: for (place, key) in keys.iter().enumerate() {
        put_separator(out, place)?;
        put_pair(out, schema, key.0, &key.1)?;
    }
    Ok(())
}

fn put_conds(out: &mut Vec<u8>, schema: &Schema, conds: &[(u16, Pat)]) -> Result<(), NoMemory>
    requires { AllByRecursion (λ cond. (cond.0 < length schema.now.attributes) × IsPattern cond.1) conds.now }
    ensures { OnOk result (out.new.items ≡ out.old.items ++ conds_text schema.now conds.now) }
{
    if conds.is_empty() {
        return Ok(());
    }
    put(out, b" when ")?;
    put_asked(out, schema, conds)
}

fn put_asked(out: &mut Vec<u8>, schema: &Schema, conds: &[(u16, Pat)]) -> Result<(), NoMemory>
    requires { AllByRecursion (λ cond. (cond.0 < length schema.now.attributes) × IsPattern cond.1) conds.now }
    ensures { OnOk result (out.new.items ≡ out.old.items ++ listed (map (cond_text schema.now) conds.now)) }
{
    'conds: for (place, cond) in conds.iter().enumerate() {
        put_separator(out, place)?;
        put_cond(out, schema, cond.0, &cond.1)?;
    }
    Ok(())
}

fn put_cond(
    out: &mut Vec<u8>,
    schema: &Schema,
    attribute: u16,
    pattern: &Pat,
) -> Result<(), NoMemory>
    requires { attribute < length schema.now.attributes }
    ensures { OnOk result (out.new.items ≡ out.old.items ++ cond_text schema.now (attribute, pattern.now)) }
{
    put_attribute(out, schema, attribute)?;
    put_pattern(out, pattern)
}

/// Texts between parentheses, with commas between.
pub fn put_set(out: &mut Vec<u8>, texts: &[Text]) -> Result<(), NoMemory>
    ensures { OnOk result (out.new.items ≡ out.old.items ++ set_text texts.now) }
{
    put_byte(out, b'(')?;
    put_strings(out, texts)?;
    put_byte(out, b')')
}

fn put_strings(out: &mut Vec<u8>, texts: &[Text]) -> Result<(), NoMemory>
    ensures { OnOk result (out.new.items ≡ out.old.items ++ listed (map string_text texts.now)) }
{
    'texts: for (place, text) in texts.iter().enumerate() {
        put_separator(out, place)?;
        put_string(out, text)?;
    }
    Ok(())
}
