//! The schema `big`.
ghost use Rattle.std.specs.Prelude.{◌≡◌, ◌<◌, ◌++◌, map, IfOk, OnOk};
ghost use Rattle.rule_text.specs.Printing.{listed, separator};
ghost use Rattle.schema_core.specs.Schemas.{IsSchema};
ghost use Rattle.desk_made.specs.Schema.{attribute, big, quoted, schema_text};

use desk_base::{List, NoMemory, Text};
use schema_core::Schema;
use std::alloc::Global;

/// The schema `big`, with the attributes a01 to a48.
pub fn big(alloc: Global) -> Result<Schema, NoMemory>
    ensures schema { IfOk result (λ schema. schema ≡ big) }
    ensures sound { IfOk result IsSchema }
{
    let mut attributes = List::new(alloc);
    'places: for place in 0..48 {
        attributes.push(attribute(alloc, place + 1)?)?;
    }
    let name = Text::of(alloc, "big")?;
    Ok(Schema { name, attributes })
}

/// The attribute with a number.
fn attribute(alloc: Global, number: u32) -> Result<Text, NoMemory>
    requires { number < 100 }
    ensures { IfOk result (λ text. text ≡ attribute number) }
{
    let tens = number / 10;
    let ones = number % 10;
    let text = format!(in alloc; "a{tens}{ones}")?;
    Text::of(alloc, text.as_str())
}

/// A schema as two lines of TOML.
#[tactic(auto, unfolding(crate::specs::Schema::schema_text))]
pub fn schema_text(alloc: Global, schema: &Schema) -> Result<Vec<u8>, NoMemory>
    ensures { IfOk result (λ text. text.items ≡ schema_text schema.now) }
{
    let mut text = Vec::new(alloc);
    text.extend_from_slice(b"name = ")?;
    push_quoted(&mut text, &schema.name)?;
    text.extend_from_slice(b"\nattributes = [")?;
    push_listed(&mut text, schema.attributes.as_slice())?;
    text.extend_from_slice(b"]\n")?;
    Ok(text)
}

fn push_listed(text: &mut Vec<u8>, words: &[Text]) -> Result<(), NoMemory>
    ensures { OnOk result (text.new.items ≡ text.old.items ++ listed (map quoted words.now)) }
{
    'words: for (place, word) in words.iter().enumerate() {
        push_separator(text, place)?;
        push_quoted(text, word)?;
    }
    Ok(())
}

/// Puts what stands between a word and the one before it after a text.
fn push_separator(text: &mut Vec<u8>, place: usize) -> Result<(), NoMemory>
    ensures { OnOk result (text.new.items ≡ text.old.items ++ separator place) }
{
    match place {
        0 => Ok(()),
        _ => Ok(text.extend_from_slice(b", ")?),
    }
}

fn push_quoted(text: &mut Vec<u8>, word: &Text) -> Result<(), NoMemory>
    ensures { OnOk result (text.new.items ≡ text.old.items ++ quoted word.now) }
{
    text.push(b'"')?;
    text.extend_from_slice(word.as_str().as_bytes())?;
    text.push(b'"')?;
    Ok(())
}
