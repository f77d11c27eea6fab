//! From bytes to a schema, one test after the other.
ghost use Rattle.std.specs.Prelude.{◌≡◌, ◌≢◌, ◌≤◌, [], length, map, option_map, Some, None, Ok, Err, IfOk, IfErr};
ghost use Rattle.std.specs.Prelude.{IfNone};
ghost use Rattle.desk_base.specs.declared.limits.TheConstants.{MAX_WORD};
ghost use Rattle.toml.specs.Data.{get_member};
ghost use Rattle.toml.specs.View.{view, items_view, table_view};
ghost use Rattle.schema_core.specs.Reading.{document_of, is_known_key, keys_known, texts_in, attribute_fault};
ghost use Rattle.schema_core.specs.Reading.{first_fault, schema_with, schema_of_values, schema_of_document};

use crate::fault::SchemaFault;
use crate::schema::Schema;
use desk_base::{List, MAX_ATTRIBUTES, Text, has_text, is_name, is_word};
use std::alloc::Global;
use toml::{Table, Value};

/// The document that the bytes write.
pub(crate) fn parse(alloc: Global, bytes: &[u8]) -> Result<Table, SchemaFault>
    ensures document { IfOk result (λ table. document_of bytes.now ≡ Some (table_view table)) }
    ensures fault { IfErr result (λ fault. fault ≢ SchemaFault.NoMemory
        → (fault ≡ SchemaFault.NotToml) × (document_of bytes.now ≡ None)) }
{
    match toml::table_from_slice(alloc, bytes) {
        Ok(table) => Ok(table),
        Err(error) if error.is_memory() => Err(SchemaFault::NoMemory),
        Err(_) => Err(SchemaFault::NotToml),
    }
}

/// The schema of a document.
pub(crate) fn schema_of(alloc: Global, table: &Table) -> Result<Schema, SchemaFault>
    ensures schema { IfOk result (λ schema.
        schema_of_document (table_view table.now) ≡ Ok schema) }
    ensures fault { IfErr result (λ fault. fault ≢ SchemaFault.NoMemory
        → schema_of_document (table_view table.now) ≡ Err fault) }
{
    if !has_known_keys(table) {
        return Err(SchemaFault::UnknownKey);
    }
    let Some(name) = value_at(table, "name") else {
        return Err(SchemaFault::MissingKey(1));
    };
    let Some(attributes) = value_at(table, "attributes") else {
        return Err(SchemaFault::MissingKey(2));
    };
    schema_of_values(alloc, name, attributes)
}

fn has_known_keys(table: &Table) -> bool
    ensures { result ≡ keys_known (table_view table.now) }
{
    table.keys().all(|key| is_known_key(key.as_str()))
}

/// Whether this is a key of a schema.
pub fn is_known_key(key: &str) -> bool
    ensures { result ≡ is_known_key key.now }
{
    key == "name" || key == "attributes"
}

fn value_at<'a>(table: &'a Table, key: &str) -> Option<&'a Value>
    ensures { option_map (λ value. view value.now) result
        ≡ get_member key.now (table_view table.now) }
{
    table.get(key)
}

/// The schema of the values at the two keys.
fn schema_of_values(alloc: Global, name: &Value, attributes: &Value) -> Result<Schema, SchemaFault>
    ensures schema { IfOk result (λ schema.
        schema_of_values (Some (view name.now)) (Some (view attributes.now)) ≡ Ok schema) }
    ensures fault { IfErr result (λ fault. fault ≢ SchemaFault.NoMemory
        → schema_of_values (Some (view name.now)) (Some (view attributes.now)) ≡ Err fault) }
{
    let Some(name) = name.as_str() else {
        return Err(SchemaFault::WrongKind(1));
    };
    let Some(items) = attributes.as_array() else {
        return Err(SchemaFault::WrongKind(2));
    };
    let attributes = strings_in(alloc, items.as_slice())?;
    schema_with(alloc, name, attributes.as_slice())
}

/// The strings of an array that holds nothing else.
fn strings_in<'a>(alloc: Global, items: &'a [Value]) -> Result<Vec<&'a str>, SchemaFault>
    ensures strings { IfOk result (λ strings.
        texts_in (items_view items.now) ≡ Some (map (λ text. text.now) strings.items)) }
    ensures fault { IfErr result (λ fault. fault ≢ SchemaFault.NoMemory
        → (fault ≡ SchemaFault.WrongKind 2) × (texts_in (items_view items.now) ≡ None)) }
{
    let mut strings = Vec::new(alloc);
    'items: for item in items {
        let Some(string) = item.as_str() else {
            return Err(SchemaFault::WrongKind(2));
        };
        strings.push(string)?;
    }
    Ok(strings)
}

/// The schema of a name and attributes.
fn schema_with(alloc: Global, name: &str, attributes: &[&str]) -> Result<Schema, SchemaFault>
    ensures schema { IfOk result (λ schema.
        schema_with name.now (map (λ text. text.now) attributes.now) ≡ Ok schema) }
    ensures fault { IfErr result (λ fault. fault ≢ SchemaFault.NoMemory
        → schema_with name.now (map (λ text. text.now) attributes.now) ≡ Err fault) }
{
    if !is_name(name.as_bytes()) {
        return Err(SchemaFault::BadName(0));
    }
    if attributes.is_empty() || attributes.len() > MAX_ATTRIBUTES {
        return Err(SchemaFault::BadCount(attributes.len() as u64));
    }
    let attributes = attributes_of(alloc, attributes)?;
    let name = Text::of(alloc, name)?;
    Ok(Schema { name, attributes })
}

/// The attributes, where each is a word and none stands twice.
fn attributes_of(alloc: Global, strings: &[&str]) -> Result<List<Text>, SchemaFault>
    ensures attributes { IfOk result (λ attributes.
        attributes ≡ map (λ text. text.now) strings.now) }
    ensures sound { IfOk result (λ attributes. first_fault [] attributes ≡ None) }
    ensures fault { IfErr result (λ fault. fault ≢ SchemaFault.NoMemory
        → first_fault [] (map (λ text. text.now) strings.now) ≡ Some fault) }
{
    let mut attributes = List::new(alloc);
    'strings: for string in strings {
        if let Some(fault) = attribute_fault(attributes.as_slice(), string) {
            return Err(fault);
        }
        attributes.push(Text::of(alloc, string)?)?;
    }
    Ok(attributes)
}

/// What is wrong with an attribute after the earlier ones.
fn attribute_fault(earlier: &[Text], attribute: &str) -> Option<SchemaFault>
    ensures fault { result ≡ attribute_fault earlier.now attribute.now }
    ensures short { IfNone result (length attribute.now ≤ MAX_WORD) }
{
    let position = earlier.len() as u64 + 1;
    if !is_word(attribute.as_bytes()) {
        Some(SchemaFault::BadName(position))
    } else if has_text(earlier, attribute) {
        Some(SchemaFault::Twice(position))
    } else {
        None
    }
}
