//! Schemas, and what is said of texts that are none.
ghost use Rattle.std.specs.Prelude.{IfOk};
ghost use Rattle.schema_core.specs.Schemas.{IsSchema};

use desk_base::{Duplicate, Text};
use desk_cases::{Answer, Case};
use fault_sentences::{Sentence, schema_sentence};
use schema_core::{Schema, SchemaFault};
use std::alloc::{AllocError, Global};
use std::test::Fail;

/// The schema of rules, where a case has none of its own.
pub const ADDRESS: &[u8] =
    b"name = \"address\"\nattributes = [\"zip\", \"street\", \"city\", \"region\", \"country\"]\n";

/// The name and the attributes of a copy of the schema that is read, each with a line end; or the fault.
pub fn schema(case: &Case, answer: &mut Answer) -> Result<(), Fail> {
    match Schema::read(answer.alloc(), case.bytes("toml")?) {
        Ok(schema) => add_schema(&schema, answer),
        Err(SchemaFault::NoMemory) => Err(Fail::new("there was no memory")),
        Err(fault) => answer.shown("wanted", &fault),
    }
}

fn add_schema(schema: &Schema, answer: &mut Answer) -> Result<(), Fail> {
    let mut lines = String::new(answer.alloc());
    let copy = schema.copy()?;
    add_line(&mut lines, &copy.name)?;
    add_lines(&mut lines, copy.attributes.as_slice())?;
    answer.text("wanted", lines.as_str())
}

/// Adds texts, and a line end after each.
pub fn add_lines(lines: &mut String, texts: &[Text]) -> Result<(), AllocError> {
    for text in texts {
        add_line(lines, text)?;
    }
    Ok(())
}

/// Adds a text and a line end.
pub fn add_line(lines: &mut String, text: &Text) -> Result<(), AllocError> {
    lines.push_str(text.as_str())?;
    lines.push_str("\n")
}

/// What is said of a text that is no schema.
pub fn schema_said(case: &Case, answer: &mut Answer) -> Result<(), Fail> {
    let text = case.bytes("toml")?;
    match Schema::read(answer.alloc(), text).err() {
        None => answer.text("says", "a schema"),
        Some(fault) => says(&schema_sentence(answer.alloc(), fault, text)?, answer),
    }
}

/// Adds the part that says it.
pub fn says(sentence: &Sentence, answer: &mut Answer) -> Result<(), Fail> {
    answer.text("says", sentence.as_str())
}

/// The schema of the attributes of a case, which are parted by blanks; without any that of addresses.
pub fn schema_of(alloc: Global, case: &Case) -> Result<Schema, Fail>
    ensures { IfOk result IsSchema }
{
    let Some(words) = case.text("attributes") else {
        return Ok(Schema::read(alloc, ADDRESS)?);
    };
    let mut text = String::new(alloc);
    tell(&mut text, words)?;
    Ok(Schema::read(alloc, text.as_bytes())?)
}

/// The text of a schema with these attributes.
fn tell(text: &mut String, attributes: &str) -> Result<(), AllocError> {
    text.push_str("name = \"person\"\nattributes = [")?;
    for word in attributes.split(' ') {
        write!(text, "\"{word}\",")?;
    }
    text.push_str("]\n")
}
