//! Texts of rules over a schema, and what is said of those that do not read.
ghost use Rattle.schema_core.specs.Schemas.{IsSchema};
ghost use Rattle.rule_text.specs.Rulebooks.{IsRulebook};

use crate::schemas::{says, schema_of};
use desk_base::Duplicate;
use desk_cases::{Answer, Case};
use fault_sentences::rules_sentence;
use rule_text::{Rulebook, print, read};
use schema_core::Schema;
use std::test::Fail;

/// What the text reads as: a rulebook, whose copy is printed where the case has a print, or a fault.
pub fn rules(case: &Case, answer: &mut Answer) -> Result<(), Fail> {
    let schema = schema_of(answer.alloc(), case)?;
    rules_over(case, &schema, answer)
}

fn rules_over(case: &Case, schema: &Schema, answer: &mut Answer) -> Result<(), Fail>
    requires { IsSchema schema.now }
{
    match read(answer.alloc(), case.bytes("text")?, schema) {
        Ok(rulebook) => add_rulebook(case, schema, &rulebook, answer),
        Err(fault) => answer.shown("wanted", &fault),
    }
}

fn add_rulebook(
    case: &Case,
    schema: &Schema,
    rulebook: &Rulebook,
    answer: &mut Answer,
) -> Result<(), Fail>
    requires schema { IsSchema schema.now }
    requires rulebook { IsRulebook schema.now rulebook.now }
{
    if case.part("printed").is_none() {
        return answer.text("wanted", "a rulebook");
    }
    let copy = rulebook.copy()?;
    let printed = print(answer.alloc(), &copy, schema)?;
    answer.bytes("printed", printed.as_slice())
}

/// What is said of a text that is no rulebook.
pub fn rules_said(case: &Case, answer: &mut Answer) -> Result<(), Fail> {
    let schema = schema_of(answer.alloc(), case)?;
    said_over(case, &schema, answer)
}

fn said_over(case: &Case, schema: &Schema, answer: &mut Answer) -> Result<(), Fail>
    requires { IsSchema schema.now }
{
    let text = case.bytes("text")?;
    match read(answer.alloc(), text, schema).err() {
        None => answer.text("says", "a rulebook"),
        Some(fault) => says(
            &rules_sentence(answer.alloc(), fault, schema, text)?,
            answer,
        ),
    }
}
