//! Calls of `run` as cases state them.
use crate::indexes::{line_over_map, line_over_sorted};
use case_json::pointer_of;
use desk_cases::{Answer, Case, Part};
use desk_trials::{Call, Told};
use std::alloc::Global;
use std::test::Fail;

/// The call of a case with its words, in which no call of the link fails.
pub fn call_of<'a>(case: &'a Case, words: &'a [String]) -> Result<Call<'a>, Fail> {
    let mut call = Call::new(words, case.bytes("input")?);
    call.cut = case.cut();
    Ok(call)
}

/// The words of a case: its parts `word`. Where it has none the word is `once`, but for a case that says of its
/// `words` that there are none.
pub fn words(alloc: Global, case: &Case) -> Result<Vec<String>, Fail> {
    let mut words = Vec::new(alloc);
    for part in &case.parts {
        if part.name.as_str() == "word" {
            words.push(text(alloc, part)?)?;
        }
    }
    if words.is_empty() && case.part("words").is_none() {
        words.push(String::from_str(alloc, "once")?)?;
    }
    Ok(words)
}

fn text(alloc: Global, part: &Part) -> Result<String, Fail> {
    match std::str::from_utf8(part.content.as_slice()) {
        Ok(text) => Ok(String::from_str(alloc, text)?),
        Err(_) => Err(Fail::new("a word is no UTF-8")),
    }
}

/// The status and the output of a case's call. Where it is answered with status 0 and an index of the masters leads to
/// another line, that line is a part besides.
pub fn told(case: &Case, answer: &mut Answer) -> Result<(), Fail> {
    let words = words(answer.alloc(), case)?;
    let call = call_of(case, words.as_slice())?;
    let made = call.make_alone(answer.alloc())?;
    add_told(case, call.input, &made, answer)
}

fn add_told(case: &Case, input: &[u8], told: &Told, answer: &mut Answer) -> Result<(), Fail> {
    answer.number("status", u64::from(told.status))?;
    if case.part("output").is_some() {
        answer.bytes("output", line(told.output.as_slice()))?;
    }
    if told.status == 7 {
        add_pointer(input, answer)?;
    }
    if told.status == 0 {
        add_over_map(input, told, answer)?;
        add_over_sorted(input, told, answer)?;
    }
    Ok(())
}

/// Adds which part keeps a JSON text from being a case.
fn add_pointer(input: &[u8], answer: &mut Answer) -> Result<(), Fail> {
    match pointer_of(answer.alloc(), input)? {
        Some(pointer) if pointer.is_empty() => answer.text("pointer", "itself"),
        Some(pointer) => answer.bytes("pointer", pointer.as_slice()),
        None => Ok(()),
    }
}

/// Adds the line over a map of the masters, where that is not the one that was told.
fn add_over_map(input: &[u8], told: &Told, answer: &mut Answer) -> Result<(), Fail> {
    let other = line_over_map(answer.alloc(), input)?;
    add_other("output over a map", other.as_slice(), told, answer)
}

/// Adds the line over a sorted index of the masters, where that is not the one that was told.
fn add_over_sorted(input: &[u8], told: &Told, answer: &mut Answer) -> Result<(), Fail> {
    let other = line_over_sorted(answer.alloc(), input)?;
    add_other("output over a sorted index", other.as_slice(), told, answer)
}

fn add_other(name: &str, other: &[u8], told: &Told, answer: &mut Answer) -> Result<(), Fail> {
    if other == told.output.as_slice() {
        return Ok(());
    }
    answer.bytes(name, line(other))
}

/// A line without the LF at its end.
pub fn line(output: &[u8]) -> &[u8] {
    match output {
        [line @ .., b'\n'] => line,
        [] => output,
        _ => b"(no line feed at the end)",
    }
}
