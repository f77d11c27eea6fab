//! The object that a body is, and what stands at its keys.
ghost use Rattle.std.specs.Prelude.{◌≡◌, ◌≢◌, map, option_map, Ok, Err, IfOk, IfErr};
ghost use Rattle.serde_json.specs.View.{view, members_view};
ghost use Rattle.desk_base.specs.Places.{has_text};
ghost use Rattle.desk_json.specs.Body.{at_key, at_key_or, first_unknown, in_body, object_in};
ghost use Rattle.desk_json.specs.Checked.{some_or};

use crate::fault::JsonFault;
use crate::forms::InBody;
use desk_base::Str;
use json_parts::{Part, PartFault, json_of};
use serde_json::{Map, Value};
use std::alloc::Global;

/// The object that a body is, with no other keys than these.
pub fn object(alloc: Global, keys: &[&str], body: &[u8]) -> Result<Value, JsonFault>
    ensures object { IfOk result (λ value. object_in (map (λ key. key.now) keys.now) body.now ≡ Ok (view value)) }
    ensures fault { IfErr result (λ fault. fault ≢ JsonFault.NoMemory
        → object_in (map (λ key. key.now) keys.now) body.now ≡ Err fault) }
{
    let Some(value) = json_of(alloc, body)? else {
        return Err(JsonFault::NotJson);
    };
    let Some(members) = value.as_object() else {
        return Err(JsonFault::WrongKind(Str::new(alloc, "")?));
    };
    match first_unknown(keys, members) {
        None => Ok(value),
        Some(key) => Err(JsonFault::Unknown(Str::new(alloc, key)?)),
    }
}

/// The first key in byte order that is none of these.
fn first_unknown<'a>(keys: &[&str], members: &'a Map<String, Value>) -> Option<&'a str>
    ensures { option_map (λ key. key.now) result
        ≡ first_unknown (map (λ key. key.now) keys.now) (members_view members.now.entries) }
{
    'names: for name in members.keys() {
        if !is_listed(keys, name.as_str()) {
            return Some(name.as_str());
        }
    }
    None
}

fn is_listed(keys: &[&str], key: &str) -> bool
    ensures { result ≡ has_text (map (λ key. key.now) keys.now) key.now }
{
    'keys: for one in keys {
        if key == *one {
            return true;
        }
    }
    false
}

/// What stands at a key.
pub fn at_key<T: Part<InBody>>(alloc: Global, key: &str, object: &Value) -> Result<T, JsonFault>
    ensures part { IfOk result (λ part. at_key key.now (T.part_in in_body) (view object.now) ≡ Ok part) }
    ensures fault { IfErr result (λ fault. fault ≢ JsonFault.NoMemory
        → at_key key.now (T.part_in in_body) (view object.now) ≡ Err fault) }
{
    match object.get(key) {
        Some(value) => read_at(alloc, key, value),
        None => Err(JsonFault::Missing(Str::new(alloc, key)?)),
    }
}

/// What stands at a key, or this where the key is left out.
pub fn at_key_or<T: Part<InBody> + Drop>(
    alloc: Global,
    key: &str,
    absent: T,
    object: &Value,
) -> Result<T, JsonFault>
    ensures part { IfOk result (λ part. at_key_or key.now (T.part_in in_body) absent (view object.now) ≡ Ok part) }
    ensures fault { IfErr result (λ fault. fault ≢ JsonFault.NoMemory
        → at_key_or key.now (T.part_in in_body) absent (view object.now) ≡ Err fault) }
{
    match object.get(key) {
        Some(value) => read_at(alloc, key, value),
        None => Ok(absent),
    }
}

/// What the value at a key is read as.
fn read_at<T: Part<InBody>>(alloc: Global, key: &str, value: &Value) -> Result<T, JsonFault>
    ensures part { IfOk result (λ part.
        some_or (JsonFault.WrongKind key.now) (T.part_in in_body (view value.now)) ≡ Ok part) }
    ensures fault { IfErr result (λ fault. fault ≢ JsonFault.NoMemory
        → some_or (JsonFault.WrongKind key.now) (T.part_in in_body (view value.now)) ≡ Err fault) }
{
    match T::read(alloc, &InBody, value) {
        Ok(part) => Ok(part),
        Err(PartFault::WrongForm) => Err(JsonFault::WrongKind(Str::new(alloc, key)?)),
        Err(PartFault::NoMemory) => Err(JsonFault::NoMemory),
    }
}
