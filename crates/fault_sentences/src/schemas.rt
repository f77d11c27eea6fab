//! The sentences on schemas.
ghost use Rattle.std.specs.Prelude.{◌≡◌, ◌++◌, ◌≤◌, [], codes, decimal, length, option_map, position};
ghost use Rattle.std.specs.Prelude.{unwrap_or, IfOk, OnOk};
ghost use Rattle.std.specs.List.{list_all};
ghost use Rattle.std.specs.Str.{bytes_eq};
ghost use Rattle.toml.specs.Data.{as_str, get_member, no_members};
ghost use Rattle.toml.specs.View.{items_view, table_view, view};
ghost use Rattle.rule_text.specs.Tokens.{comment_length};
ghost use Rattle.schema_core.specs.Reading.{document_of, texts_in, texts_of};
ghost use Rattle.fault_sentences.specs.Printable.{IsPrintable, is_printable};
ghost use Rattle.fault_sentences.specs.Schemas.{IsSchemaSentence, attribute_at, attributes_in, attributes_kind};
ghost use Rattle.fault_sentences.specs.Schemas.{bad_attribute, bad_count, bad_name, document_sentence, first_position};
ghost use Rattle.fault_sentences.specs.Schemas.{first_unknown, here_shown, item_kind, kind_of, line_from, missing_key};
ghost use Rattle.fault_sentences.specs.Schemas.{no_toml, plain_schema_sentence, schema_keys};
ghost use Rattle.fault_sentences.specs.Schemas.{not_toml, twice, unknown_key, value_at, wants_list, wants_text};
ghost use Rattle.fault_sentences.specs.Schemas.{wrong_kind};

use crate::sentence::Sentence;
use desk_base::{List, NoMemory, Str, is_utf8};
use schema_core::{SchemaFault, is_known_key};
use std::alloc::Global;
use toml::{Table, Value};

/// Says why a text is no schema: the place, the key or the attribute, what stands there, and what was expected or what
/// to do. Of a text that is no TOML the place and the cause are those that `toml` tells.
pub fn schema_sentence(alloc: Global, fault: SchemaFault, text: &[u8]) -> Result<Sentence, NoMemory>
    ensures { IfOk result (IsSchemaSentence fault text.now) }
{
    match fault {
        SchemaFault::NotToml => not_toml_sentence(alloc, text),
        _ => read_sentence(alloc, fault, text),
    }
}

/// Says the same, but where a text is UTF-8 and no TOML: there it tells no place, and the sentence is always this one.
pub fn plain_schema_sentence(
    alloc: Global,
    fault: SchemaFault,
    text: &[u8],
) -> Result<Sentence, NoMemory>
    ensures { IfOk result (λ sentence. sentence ≡ plain_schema_sentence fault text.now) }
{
    match fault {
        SchemaFault::NotToml => plain_not_toml(alloc, text),
        _ => read_sentence(alloc, fault, text),
    }
}

/// Says that a text is no TOML, or where it is not UTF-8.
#[tactic(auto, unfolding(crate::specs::Schemas::no_toml))]
fn plain_not_toml(alloc: Global, text: &[u8]) -> Result<Sentence, NoMemory>
    ensures { IfOk result (λ sentence. sentence ≡ plain_schema_sentence SchemaFault.NotToml text.now) }
{
    let mut out = Sentence::new(alloc);
    if is_utf8(text) {
        out.words(
            "the text is no TOML; write name = \"address\" on a line, and attributes = [\"zip\", \"city\"] on another",
        )?;
    } else {
        out.not_utf8(text)?;
    }
    Ok(out)
}

/// Says why the document that a text writes is no schema.
fn read_sentence(alloc: Global, fault: SchemaFault, text: &[u8]) -> Result<Sentence, NoMemory>
    ensures { IfOk result (λ sentence.
        sentence ≡ document_sentence fault (unwrap_or (document_of text.now) no_members)) }
{
    let document = document_of(alloc, text)?;
    document_sentence(alloc, fault, &document)
}

/// The document that a text writes, an empty one where it writes none.
fn document_of(alloc: Global, text: &[u8]) -> Result<Table, NoMemory>
    ensures { IfOk result (λ table. table_view table ≡ unwrap_or (document_of text.now) no_members) }
{
    match toml::table_from_slice(alloc, text) {
        Ok(table) => Ok(table),
        Err(error) if error.is_memory() => Err(NoMemory),
        Err(_) => Ok(Table::new(alloc)),
    }
}

/// Says where a text is no TOML, and why.
fn not_toml_sentence(alloc: Global, text: &[u8]) -> Result<Sentence, NoMemory>
    ensures { IfOk result (IsSchemaSentence SchemaFault.NotToml text.now) }
{
    let mut out = Sentence::new(alloc);
    if !is_utf8(text) {
        out.not_utf8(text)?;
        return Ok(out);
    }
    match toml::table_from_slice(alloc, text) {
        Ok(_) => not_toml(&mut out, text, 0, "")?,
        Err(error) => match error.span() {
            Some(span) => not_toml(&mut out, text, span.start, printable_cause(error.message()))?,
            None => return Err(NoMemory),
        },
    }
    Ok(out)
}

/// A cause, where it is printable ASCII. Each that `toml` tells is, but no clause of it says so.
fn printable_cause(cause: &str) -> &str
    ensures { IsPrintable result.now }
{
    if are_printable(cause.as_bytes()) {
        cause
    } else {
        "it does not read"
    }
}

fn are_printable(bytes: &[u8]) -> bool
    ensures { result ≡ list_all is_printable bytes.now }
{
    bytes.iter().all(|byte| *byte >= b' ' && *byte <= b'~')
}

/// A text that is no TOML from an index on, and why.
#[tactic(auto, unfolding(crate::specs::Schemas::not_toml))]
fn not_toml(out: &mut Sentence, text: &[u8], index: usize, why: &str) -> Result<(), NoMemory>
    requires { index ≤ length text.now }
    ensures { OnOk result (out.new ≡ out.old ++ not_toml text.now index why.now) }
{
    out.place_in(text, index)?;
    out.words("no TOML at ")?;
    here_shown(out, line_from(text, index))?;
    out.words(": ")?;
    out.words(why)
}

/// What stands on a line from an index on.
fn line_from(text: &[u8], index: usize) -> &[u8]
    requires { index ≤ length text.now }
    ensures { result.now ≡ line_from text.now index }
{
    let rest = &text[index..];
    &rest[..line_length(rest)]
}

/// How many bytes there are up to the end of the line.
fn line_length(bytes: &[u8]) -> usize
    ensures length { result ≡ comment_length bytes.now }
    ensures within { result ≤ length bytes.now }
{
    bytes.iter().take_while(|byte| **byte != b'\n').count()
}

fn here_shown(out: &mut Sentence, line: &[u8]) -> Result<(), NoMemory>
    ensures { OnOk result (out.new ≡ out.old ++ here_shown line.now) }
{
    if line.is_empty() {
        out.words("the end of the line")
    } else {
        out.shown(line)
    }
}

/// Says why a document is no schema.
#[tactic(auto, unfolding(crate::specs::Schemas::document_sentence))]
fn document_sentence(
    alloc: Global,
    fault: SchemaFault,
    document: &Table,
) -> Result<Sentence, NoMemory>
    ensures { IfOk result (λ sentence. sentence ≡ document_sentence fault (table_view document.now)) }
{
    let mut out = Sentence::new(alloc);
    match fault {
        SchemaFault::NotToml => {}
        SchemaFault::UnknownKey => unknown_key(&mut out, document)?,
        SchemaFault::MissingKey(key) => missing_key(&mut out, key)?,
        SchemaFault::WrongKind(key) => wrong_kind(&mut out, key, document)?,
        SchemaFault::BadName(position) => bad_name(&mut out, position, document)?,
        SchemaFault::BadCount(count) => bad_count(&mut out, count)?,
        SchemaFault::Twice(position) => twice_in(&mut out, position, document)?,
        SchemaFault::NoMemory => out.no_memory()?,
    }
    Ok(out)
}

/// Another key.
#[tactic(auto, unfolding(crate::specs::Schemas::unknown_key))]
fn unknown_key(out: &mut Sentence, document: &Table) -> Result<(), NoMemory>
    ensures { OnOk result (out.new ≡ out.old ++ unknown_key (table_view document.now)) }
{
    out.words("the key ")?;
    out.shown(first_unknown(document).as_bytes())?;
    schema_keys(out)
}

/// The keys of a schema, of which one is none.
#[tactic(auto, unfolding(crate::specs::Schemas::schema_keys))]
fn schema_keys(out: &mut Sentence) -> Result<(), NoMemory>
    ensures { OnOk result (out.new ≡ out.old ++ schema_keys) }
{
    out.words(
        " is none of a schema, which has name and attributes alone; rename it, or take it out",
    )
}

/// The first key in byte order that is no key of a schema.
fn first_unknown(document: &Table) -> &str
    ensures { result.now ≡ first_unknown (table_view document.now) }
{
    'keys: for key in document.keys() {
        if !is_known_key(key.as_str()) {
            return key.as_str();
        }
    }
    ""
}

/// A key that is missing.
#[tactic(auto, unfolding(crate::specs::Schemas::missing_key))]
fn missing_key(out: &mut Sentence, key: u64) -> Result<(), NoMemory>
    ensures { OnOk result (out.new ≡ out.old ++ missing_key key) }
{
    if key == 1 {
        out.words("the key name is missing; give the schema a name, as name = \"address\"")
    } else {
        out.words(
            "the key attributes is missing; list the attributes, as attributes = [\"zip\", \"city\"]",
        )
    }
}

/// A value of another kind.
#[tactic(auto, unfolding(crate::specs::Schemas::wrong_kind))]
fn wrong_kind(out: &mut Sentence, key: u64, document: &Table) -> Result<(), NoMemory>
    ensures { OnOk result (out.new ≡ out.old ++ wrong_kind key (table_view document.now)) }
{
    if key == 1 {
        let name = value_at(out.allocator(), document, "name")?;
        out.words("name")?;
        wants_text(out, &name)
    } else {
        let attributes = value_at(out.allocator(), document, "attributes")?;
        attributes_kind(out, &attributes)
    }
}

/// The value at a key, a blank text where there is none.
fn value_at(alloc: Global, document: &Table, key: &str) -> Result<Value, NoMemory>
    ensures { IfOk result (λ value. view value ≡ value_at key.now (table_view document.now)) }
{
    match found_at(document, key) {
        Some(value) => Ok(value.clone()?),
        None => Ok(Value::string(alloc, "")?),
    }
}

fn found_at<'a>(document: &'a Table, key: &str) -> Option<&'a Value>
    ensures { option_map (λ value. view value.now) result ≡ get_member key.now (table_view document.now) }
{
    document.get(key)
}

/// What stands where a text is wanted.
#[tactic(auto, unfolding(crate::specs::Schemas::wants_text))]
fn wants_text(out: &mut Sentence, value: &Value) -> Result<(), NoMemory>
    ensures { OnOk result (out.new ≡ out.old ++ wants_text (view value.now)) }
{
    kind_told(out, " is ", value, ", and is to be a text between quotes")
}

/// What a value is, between words.
fn kind_told(out: &mut Sentence, before: &str, value: &Value, after: &str) -> Result<(), NoMemory>
    ensures { OnOk result (out.new ≡ out.old ++ (before.now ++ kind_of (view value.now) ++ after.now)) }
{
    out.words(before)?;
    out.words(kind_of(value))?;
    out.words(after)
}

/// What a value is.
#[tactic(auto, unfolding(crate::specs::Schemas::kind_of))]
fn kind_of(value: &Value) -> &'static str
    ensures { result.now ≡ kind_of (view value.now) }
{
    if value.is_str() {
        "a text"
    } else if value.is_integer() {
        "a whole number"
    } else if value.is_float() {
        "a number"
    } else if value.is_bool() {
        "true or false"
    } else if value.is_datetime() {
        "a date or a time"
    } else if value.is_array() {
        "a list"
    } else {
        "a table"
    }
}

/// What stands at `attributes` where a list of texts is wanted.
fn attributes_kind(out: &mut Sentence, value: &Value) -> Result<(), NoMemory>
    ensures { OnOk result (out.new ≡ out.old ++ attributes_kind (view value.now)) }
{
    match value.as_array() {
        Some(items) => item_kind(out, items.as_slice()),
        None => wants_list(out, value),
    }
}

#[tactic(auto, unfolding(crate::specs::Schemas::wants_list))]
fn wants_list(out: &mut Sentence, value: &Value) -> Result<(), NoMemory>
    ensures { OnOk result (out.new ≡ out.old ++ wants_list (view value.now)) }
{
    kind_told(
        out,
        "attributes is ",
        value,
        ", and is to be a list of texts, as [\"zip\", \"city\"]",
    )
}

/// The first item that is no text.
fn item_kind(out: &mut Sentence, items: &[Value]) -> Result<(), NoMemory>
    ensures { OnOk result (out.new ≡ out.old ++ item_kind 1 (items_view items.now)) }
{
    let mut place = 1;
    'items: for item in items {
        if !item.is_str() {
            return item_told(out, place, item);
        }
        place += 1;
    }
    Ok(())
}

fn item_told(out: &mut Sentence, place: u64, item: &Value) -> Result<(), NoMemory>
    ensures { OnOk result (out.new ≡ out.old ++ codes "attribute " ++ decimal place ++ wants_text (view item.now)) }
{
    out.words("attribute ")?;
    out.number(place)?;
    wants_text(out, item)
}

/// A name or an attribute that has not its form.
#[tactic(auto, unfolding(crate::specs::Schemas::bad_name))]
fn bad_name(out: &mut Sentence, position: u64, document: &Table) -> Result<(), NoMemory>
    ensures { OnOk result (out.new ≡ out.old ++ bad_name position (table_view document.now)) }
{
    if position == 0 {
        let name = value_at(out.allocator(), document, "name")?;
        out.words("the name ")?;
        out.shown(text_of(&name).as_bytes())?;
        out.name_form()
    } else {
        let value = value_at(out.allocator(), document, "attributes")?;
        let attributes = texts_of(out.allocator(), &value)?;
        bad_attribute(out, position, attributes.as_slice())
    }
}

/// A text, and nothing of another value.
fn text_of(value: &Value) -> &str
    ensures { result.now ≡ unwrap_or (as_str (view value.now)) [] }
{
    match value.as_str() {
        Some(text) => text,
        None => "",
    }
}

#[tactic(auto, unfolding(crate::specs::Schemas::bad_attribute))]
fn bad_attribute(out: &mut Sentence, position: u64, attributes: &[Str]) -> Result<(), NoMemory>
    ensures { OnOk result (out.new ≡ out.old ++ bad_attribute position attributes.now) }
{
    out.numbered(
        "attribute ",
        position,
        attribute_at(attributes, position).as_bytes(),
    )?;
    out.words(", is no word; take a letter or _, and then letters, digits or _, at most 32 bytes")
}

/// The texts of an array that holds nothing else, and none of another value.
fn texts_of(alloc: Global, value: &Value) -> Result<List<Str>, NoMemory>
    ensures { IfOk result (λ texts. texts ≡ unwrap_or (texts_of (view value.now)) []) }
{
    match value.as_array() {
        Some(items) => texts_in(alloc, items.as_slice()),
        None => Ok(List::new(alloc)),
    }
}

fn texts_in(alloc: Global, items: &[Value]) -> Result<List<Str>, NoMemory>
    ensures { IfOk result (λ texts. texts ≡ unwrap_or (texts_in (items_view items.now)) []) }
{
    let mut texts = List::new(alloc);
    'items: for item in items {
        let Some(text) = item.as_str() else {
            return Ok(List::new(alloc));
        };
        texts.push(Str::new(alloc, text)?)?;
    }
    Ok(texts)
}

/// The attribute at a position, counted from 1, empty past the last.
fn attribute_at(attributes: &[Str], position: u64) -> &str
    ensures { result.now ≡ attribute_at attributes.now position }
{
    match attributes.get(position.saturating_sub(1) as usize) {
        Some(attribute) => attribute.as_str(),
        None => "",
    }
}

/// The position of the first attribute of this name, counted from 1.
fn first_position(attributes: &[Str], name: &str) -> u64
    ensures { result ≡ first_position attributes.now name.now }
{
    match place_of(attributes, name) {
        Some(place) => place as u64 + 1,
        None => 1,
    }
}

fn place_of(attributes: &[Str], name: &str) -> Option<usize>
    ensures { result ≡ position (bytes_eq name.now) attributes.now }
{
    attributes.iter().position(|one| name == one.as_str())
}

/// A number of attributes that a schema can not have.
#[tactic(auto, unfolding(crate::specs::Schemas::bad_count))]
fn bad_count(out: &mut Sentence, count: u64) -> Result<(), NoMemory>
    ensures { OnOk result (out.new ≡ out.old ++ bad_count count) }
{
    if count == 0 {
        return out.words("the list of attributes is empty; name at least one");
    }
    out.words("there are ")?;
    out.number(count)?;
    out.words(" attributes, and a schema has at most 48; leave some out")
}

/// An attribute that equals an earlier one.
fn twice_in(out: &mut Sentence, position: u64, document: &Table) -> Result<(), NoMemory>
    ensures { OnOk result (out.new ≡ out.old ++ twice position (attributes_in (table_view document.now))) }
{
    let value = value_at(out.allocator(), document, "attributes")?;
    let attributes = texts_of(out.allocator(), &value)?;
    twice(out, position, attributes.as_slice())
}

#[tactic(auto, unfolding(crate::specs::Schemas::twice))]
fn twice(out: &mut Sentence, position: u64, attributes: &[Str]) -> Result<(), NoMemory>
    ensures { OnOk result (out.new ≡ out.old ++ twice position attributes.now) }
{
    let name = attribute_at(attributes, position);
    let earlier = first_position(attributes, name);
    out.equals_earlier("attribute ", position, name.as_bytes(), earlier)?;
    out.words("; keep one of the two")
}
