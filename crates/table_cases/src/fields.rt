//! The fields of a row, with one space between them.
use desk_base::{List, Text};
use desk_words::{Act, Stage};
use std::alloc::Global;
use std::test::Fail;

/// The first field, and what stands after it.
pub fn field(line: &str) -> Result<(&str, &str), Fail> {
    match line.split_once(" ") {
        Some(parts) => Ok(parts),
        None => Err(Fail::new("a row has too few fields")),
    }
}

/// A field that is a number.
pub fn number(field: &str) -> Result<u32, Fail> {
    match field.parse() {
        Ok(number) => Ok(number),
        Err(_) => Err(Fail::new("a row has a field that is no number")),
    }
}

/// A field that is a text.
pub fn text(alloc: Global, field: &str) -> Result<Text, Fail> {
    match Text::new(alloc, field.as_bytes()) {
        Ok(text) => Ok(text),
        Err(_) => Err(Fail::new("a row has a field that is no text")),
    }
}

/// The numbers of a field, with commas between: `-` is none.
pub fn numbers(alloc: Global, field: &str) -> Result<List<u32>, Fail> {
    let mut numbers = List::new(alloc);
    if field == "-" {
        return Ok(numbers);
    }
    for word in field.split(",") {
        numbers.push(number(word)?)?;
    }
    Ok(numbers)
}

/// The attributes of a field, with commas between: `-` is none.
pub fn attributes(alloc: Global, field: &str) -> Result<List<u16>, Fail> {
    let mut attributes = List::new(alloc);
    if field == "-" {
        return Ok(attributes);
    }
    for word in field.split(",") {
        match word.parse() {
            Ok(attribute) => attributes.push(attribute)?,
            Err(_) => return Err(Fail::new("a row has a field that is no attribute")),
        }
    }
    Ok(attributes)
}

/// The texts of a field, with commas between: `-` is none.
pub fn texts(alloc: Global, field: &str) -> Result<List<Text>, Fail> {
    let mut texts = List::new(alloc);
    if field == "-" {
        return Ok(texts);
    }
    for word in field.split(",") {
        texts.push(text(alloc, word)?)?;
    }
    Ok(texts)
}

/// The flags of a field, `y` or `n` each: `-` is none.
pub fn flags(alloc: Global, field: &str) -> Result<List<bool>, Fail> {
    let mut flags = List::new(alloc);
    if field == "-" {
        return Ok(flags);
    }
    for byte in field.as_bytes() {
        flags.push(*byte == b'y')?;
    }
    Ok(flags)
}

/// What a request did.
pub fn act(field: &str) -> Result<Act, Fail> {
    match field {
        "nothing" => Ok(Act::Nothing),
        "clerk" => Ok(Act::Clerk),
        "schema" => Ok(Act::Schema),
        "master" => Ok(Act::Master),
        "rulebook" => Ok(Act::Rulebook),
        "edition" => Ok(Act::Edition),
        "region" => Ok(Act::Region),
        "opened" => Ok(Act::Opened),
        "changed" => Ok(Act::Changed),
        "committed" => Ok(Act::Committed),
        "batched" => Ok(Act::Batched),
        _ => Err(Fail::new("a row has an unknown act")),
    }
}

/// How far a session has come.
pub fn stage(field: &str) -> Result<Stage, Fail> {
    match field {
        "active" => Ok(Stage::Active),
        "committed" => Ok(Stage::Committed),
        "abandoned" => Ok(Stage::Abandoned),
        _ => Err(Fail::new("a row has an unknown stage")),
    }
}

/// The bytes after the other fields.
pub fn body(alloc: Global, rest: &str) -> Result<List<u8>, Fail> {
    Ok(List::from_vec(Vec::from_slice(alloc, rest.as_bytes())?))
}
