//! What is said where something is not there, stands twice or is too much.
use crate::schemas::{ADDRESS, says};
use desk_cases::{Answer, Case};
use fault_sentences::{
    Published, Sentence, absent_sentence, bad_name_sentence, cells_sentence, folded_sentence,
    full_sentence, index_sentence, masters_sentence, twice_sentence,
};
use schema_core::Schema;
use std::alloc::Global;
use std::test::Fail;

/// What is said by the sentence that a case names.
pub fn told(case: &Case, answer: &mut Answer) -> Result<(), Fail> {
    let name = case.text("name").unwrap_or("");
    let count = case.number("count").unwrap_or(0);
    let sentence = match case.text("what").unwrap_or("") {
        "name" => bad_name_sentence(answer.alloc(), name)?,
        "folded" => folded(answer.alloc(), name)?,
        "twice folded" => twice_sentence(answer.alloc(), "folded", name)?,
        "twice masters" => twice_sentence(answer.alloc(), "masters", name)?,
        "masters" => masters_sentence(answer.alloc(), count)?,
        "full schema" => full_sentence(answer.alloc(), Published::Schema, count)?,
        "full master" => full_sentence(answer.alloc(), Published::Master, count)?,
        "full rulebook" => full_sentence(answer.alloc(), Published::Rulebook, count)?,
        "full edition" => full_sentence(answer.alloc(), Published::Edition, count)?,
        "cells" => cells_sentence(answer.alloc())?,
        "index" => index_sentence(answer.alloc(), count)?,
        what => absent(answer.alloc(), what, name, case)?,
    };
    says(&sentence, answer)
}

fn folded(alloc: Global, name: &str) -> Result<Sentence, Fail> {
    let schema = Schema::read(alloc, ADDRESS)?;
    Ok(folded_sentence(alloc, name, &schema)?)
}

fn absent(alloc: Global, what: &str, name: &str, case: &Case) -> Result<Sentence, Fail> {
    let what = match what {
        "absent schema" => Published::Schema,
        "absent master" => Published::Master,
        "absent rulebook" => Published::Rulebook,
        "absent edition" => Published::Edition,
        _ => return Err(Fail::new("a case names no sentence")),
    };
    let (version, newest) = (number(case, "version", 0)?, number(case, "newest", 0)?);
    Ok(absent_sentence(alloc, what, name, version, newest)?)
}

/// The number of a version, and another where a case has none.
pub fn number(case: &Case, part: &str, other: u64) -> Result<u32, Fail> {
    match u32::try_from(case.number(part).unwrap_or(other)) {
        Ok(number) => Ok(number),
        Err(_) => Err(Fail::new("a version has no such number")),
    }
}
