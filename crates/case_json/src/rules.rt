//! The rules of a case.
ghost use Rattle.std.specs.Prelude.{◌≡◌, ◌<◌, map, IfOk, IsErrOf, Some, None};
ghost use Rattle.serde_json.specs.View.{view};
ghost use Rattle.json_parts.specs.Parts.{field, has_keys};
ghost use Rattle.case_json.specs.Rules.{column_in, cond_in, cond_of, key_in, key_of, master_in, counted_in};
ghost use Rattle.case_json.specs.Rules.{pattern_of, pattern_with, rule_in, rule_keys, rule_of};

use crate::attributes::Attributes;
use desk_base::{List, MAX_COLUMNS, MAX_MASTERS, Text};
use fix_model::{Pat, Rule};
use json_parts::{Part, PartFault, has_keys, items, number, read_field};
use serde_json::Value;
use std::alloc::Global;

/// The place from 0 that a whole number from 1 up to the greatest stands for.
fn place(greatest: u16, value: &Value) -> Option<u16>
    ensures { result ≡ counted_in greatest (view value.now) }
{
    match number(u32::from(greatest), value) {
        Some(count) => Some((count - 1) as u16),
        None => None,
    }
}

/// The column at a key of an object.
pub fn column_at(key: &str, value: &Value) -> Option<u16>
    ensures { result ≡ field key.now column_in (view value.now) }
{
    match value.get(key) {
        Some(found) => place(MAX_COLUMNS as u16, found),
        None => None,
    }
}

/// The master at a key of an object.
pub fn master_at(key: &str, value: &Value) -> Option<u16>
    ensures { result ≡ field key.now master_in (view value.now) }
{
    match value.get(key) {
        Some(found) => place(MAX_MASTERS as u16, found),
        None => None,
    }
}

impl Part<Attributes> for (u16, u16) {
    ghost part_in = { key_in };

    fn read(
        alloc: Global,
        attributes: &Attributes,
        value: &Value,
    ) -> Result<(u16, u16), PartFault> {
        key(alloc, attributes, items(value)?)
    }
}

/// A key, read of the items of its array.
fn key(alloc: Global, attributes: &Attributes, items: &[Value]) -> Result<(u16, u16), PartFault>
    ensures key { IfOk result (λ key. key_of attributes.now (map view items.now) ≡ Some key) }
    ensures none { IsErrOf result PartFault.WrongForm → key_of attributes.now (map view items.now) ≡ None }
{
    let [name, column] = items else {
        return Err(PartFault::WrongForm);
    };
    let attribute = u16::read(alloc, attributes, name)?;
    match place(MAX_COLUMNS as u16, column) {
        Some(column) => Ok((attribute, column)),
        None => Err(PartFault::WrongForm),
    }
}

/// The pattern of one text or of a set, which stands after its word.
fn pattern_with(alloc: Global, word: &str, value: &Value) -> Result<Pat, PartFault>
    ensures pattern { IfOk result (λ pattern. pattern_with word.now (view value.now) ≡ Some pattern) }
    ensures none { IsErrOf result PartFault.WrongForm → pattern_with word.now (view value.now) ≡ None }
{
    match word {
        "is" => Ok(Pat::Is(Text::read(alloc, &(), value)?)),
        "not" => Ok(Pat::IsNot(Text::read(alloc, &(), value)?)),
        "in" => Ok(Pat::OneOf(List::read(alloc, &(), value)?)),
        "not_in" => Ok(Pat::NoneOf(List::read(alloc, &(), value)?)),
        _ => Err(PartFault::WrongForm),
    }
}

fn pattern(alloc: Global, word: &str, rest: &[Value]) -> Result<Pat, PartFault>
    ensures pattern { IfOk result (λ pattern. pattern_of word.now (map view rest.now) ≡ Some pattern) }
    ensures none { IsErrOf result PartFault.WrongForm → pattern_of word.now (map view rest.now) ≡ None }
{
    match rest {
        [] if word == "any" => Ok(Pat::Any),
        [value] => pattern_with(alloc, word, value),
        _ => Err(PartFault::WrongForm),
    }
}

/// A condition, read of the items of its array.
fn cond(alloc: Global, attributes: &Attributes, items: &[Value]) -> Result<(u16, Pat), PartFault>
    ensures cond { IfOk result (λ cond. cond_of attributes.now (map view items.now) ≡ Some cond) }
    ensures none { IsErrOf result PartFault.WrongForm → cond_of attributes.now (map view items.now) ≡ None }
{
    let [name, test, rest @ ..] = items else {
        return Err(PartFault::WrongForm);
    };
    let attribute = u16::read(alloc, attributes, name)?;
    let Some(word) = test.as_str() else {
        return Err(PartFault::WrongForm);
    };
    let pattern = pattern(alloc, word, rest)?;
    Ok((attribute, pattern))
}

impl Part<Attributes> for (u16, Pat) {
    ghost part_in = { cond_in };

    fn read(
        alloc: Global,
        attributes: &Attributes,
        value: &Value,
    ) -> Result<(u16, Pat), PartFault> {
        cond(alloc, attributes, items(value)?)
    }
}

/// Whether the value is an object with the keys of a rule.
pub fn has_rule_keys(value: &Value) -> bool
    ensures { result ≡ has_keys rule_keys (view value.now) }
{
    has_keys(value, &["conds", "from", "head", "keys", "master"])
}

/// A rule, read of an object that has the keys of one.
fn rule(alloc: Global, attributes: &Attributes, value: &Value) -> Result<Rule, PartFault>
    ensures rule { IfOk result (λ rule. rule_of attributes.now (view value.now) ≡ Some rule) }
    ensures none { IsErrOf result PartFault.WrongForm → rule_of attributes.now (view value.now) ≡ None }
{
    let keys = read_field(alloc, attributes, "keys", value)?;
    let head = read_field(alloc, attributes, "head", value)?;
    let Some(from) = column_at("from", value) else {
        return Err(PartFault::WrongForm);
    };
    let Some(master) = master_at("master", value) else {
        return Err(PartFault::WrongForm);
    };
    let conds = read_field(alloc, attributes, "conds", value)?;
    Ok(Rule {
        keys,
        head,
        from,
        master,
        conds,
    })
}

impl Part<Attributes> for Rule {
    ghost part_in = { rule_in };

    fn read(alloc: Global, attributes: &Attributes, value: &Value) -> Result<Rule, PartFault> {
        if has_rule_keys(value) {
            rule(alloc, attributes, value)
        } else {
            Err(PartFault::WrongForm)
        }
    }
}
