//! Parts of a JSON value, where it has the form that is wanted.
ghost use Rattle.std.specs.Prelude.{◌≡◌, Option, Some, None, option_map, map, length, ◌≤◌, IfOk, IfSome, IsErrOf};
ghost use Rattle.std.specs.Cmp.Lexicographic.{pointwise};
ghost use Rattle.std.specs.Str.{bytes_eq};
ghost use Rattle.serde_json.specs.Data.{Data};
ghost use Rattle.serde_json.specs.View.{view, members_view};
ghost use Rattle.json_parts.specs.Parts.{each, field, has_keys, items_in, json_of, keys_of, list_in};
ghost use Rattle.json_parts.specs.Parts.{number_in, text_in};

use crate::fault::PartFault;
use desk_base::{List, MAX_TEXT, NoMemory, Text};
use serde_json::{Map, Value};
use std::alloc::Global;

/// The value that the bytes write, or none where they are no JSON.
pub fn json_of(alloc: Global, bytes: &[u8]) -> Result<Option<Value>, NoMemory>
    ensures { IfOk result (λ found. option_map view found ≡ json_of bytes.now) }
{
    match Value::from_slice(alloc, bytes) {
        Ok(value) => Ok(Some(value)),
        Err(error) if error.is_memory() => Err(NoMemory),
        Err(_) => Ok(None),
    }
}

/// What is read of a JSON value, in a context: what its names refer to.
pub trait Part<C>: Sized {
    /// What a value states, if it has the form of this part.
    ghost part_in: { C → Data → Option Self };

    /// Reads the part from a value.
    fn read(alloc: Global, context: &C, value: &Value) -> Result<Self, PartFault>
        ensures part { IfOk result (λ part. part_in context.now (view value.now) ≡ Some part) }
        ensures none { IsErrOf result PartFault.WrongForm → part_in context.now (view value.now) ≡ None };
}

/// The items of an array.
pub fn items(value: &Value) -> Result<&[Value], PartFault>
    ensures items { IfOk result (λ items. items_in (view value.now) ≡ Some (map view items.now)) }
    ensures none { IsErrOf result PartFault.WrongForm → items_in (view value.now) ≡ None }
{
    match value.as_array() {
        Some(list) => Ok(list.as_slice()),
        None => Err(PartFault::WrongForm),
    }
}

impl<C> Part<C> for Text {
    ghost part_in = { λ _. text_in };

    fn read(alloc: Global, _context: &C, value: &Value) -> Result<Text, PartFault> {
        match short_str(value) {
            Some(text) => Ok(Text::of(alloc, text)?),
            None => Err(PartFault::WrongForm),
        }
    }
}

/// The string that the value is, where it is one of at most 200 bytes.
pub fn short_str(value: &Value) -> Option<&str>
    ensures text { option_map (λ text. text.now) result ≡ text_in (view value.now) }
    ensures fits { IfSome result (λ text. length text.now ≤ MAX_TEXT) }
{
    let text = value.as_str()?;
    if text.len() > MAX_TEXT {
        return None;
    }
    Some(text)
}

impl<C, T: Part<C> + Drop> Part<C> for List<T> {
    ghost part_in = { λ context. list_in (T.part_in context) };

    fn read(alloc: Global, context: &C, value: &Value) -> Result<List<T>, PartFault> {
        read_each(alloc, context, items(value)?)
    }
}

/// Reads a part from each value.
fn read_each<C, T: Part<C> + Drop>(
    alloc: Global,
    context: &C,
    values: &[Value],
) -> Result<List<T>, PartFault>
    ensures parts { IfOk result (λ parts. each (T.part_in context.now) (map view values.now) ≡ Some parts) }
    ensures none { IsErrOf result PartFault.WrongForm → each (T.part_in context.now) (map view values.now) ≡ None }
{
    let mut parts = List::new(alloc);
    'values: for value in values {
        parts.push(T::read(alloc, context, value)?)?;
    }
    Ok(parts)
}

/// A whole number from 1 up to the greatest.
pub fn number(greatest: u32, value: &Value) -> Option<u32>
    ensures { result ≡ number_in greatest (view value.now) }
{
    match value.as_u64() {
        Some(number) if 1 <= number && number <= u64::from(greatest) => Some(number as u32),
        _ => None,
    }
}

/// Reads a part from the value at a key of an object.
pub fn read_field<C, T: Part<C>>(
    alloc: Global,
    context: &C,
    key: &str,
    value: &Value,
) -> Result<T, PartFault>
    ensures part { IfOk result (λ part. field key.now (T.part_in context.now) (view value.now) ≡ Some part) }
    ensures none { IsErrOf result PartFault.WrongForm → field key.now (T.part_in context.now) (view value.now) ≡ None }
{
    match value.get(key) {
        Some(found) => T::read(alloc, context, found),
        None => Err(PartFault::WrongForm),
    }
}

/// Whether the value is an object with exactly these keys, which are given in byte order.
pub fn has_keys(value: &Value, keys: &[&str]) -> bool
    ensures { result ≡ has_keys (map (λ key. key.now) keys.now) (view value.now) }
{
    match value.as_object() {
        Some(members) => are_keys(members, keys),
        None => false,
    }
}

fn are_keys(members: &Map<String, Value>, keys: &[&str]) -> bool
    ensures { result
        ≡ pointwise bytes_eq (keys_of (members_view members.now.entries)) (map (λ key. key.now) keys.now) }
{
    let mut place = 0;
    'names: for name in members.keys() {
        if place >= keys.len() {
            return false;
        }
        if name.as_str() != keys[place] {
            return false;
        }
        place += 1;
    }
    place == keys.len()
}
