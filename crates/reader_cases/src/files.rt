//! Files of cases, and their judge.
use desk_cases::{Answer, Case, CaseFault, Difference, Part, cases, differences};
use std::alloc::AllocError;
use std::test::Fail;

/// The title of each case of a file, after `== `, and its parts, each as its name, `=` and its content; or why the
/// file is none of cases.
pub fn file(case: &Case, answer: &mut Answer) -> Result<(), Fail> {
    match cases(answer.alloc(), case.bytes("file")?) {
        Ok(found) => add_cases(found.as_slice(), answer),
        Err(CaseFault::NoMemory) => Err(Fail::new("there was no memory")),
        Err(fault) => answer.shown("wanted", &fault),
    }
}

fn add_cases(found: &[Case], answer: &mut Answer) -> Result<(), Fail> {
    let mut lines = Vec::new(answer.alloc());
    tell_cases(&mut lines, found)?;
    answer.bytes("wanted", lines.as_slice())
}

fn tell_cases(lines: &mut Vec<u8>, found: &[Case]) -> Result<(), AllocError> {
    for case in found {
        lines.extend_from_slice(b"== ")?;
        lines.extend_from_slice(case.title.as_bytes())?;
        lines.extend_from_slice(b"\n")?;
        tell_parts(lines, case)?;
    }
    Ok(())
}

fn tell_parts(lines: &mut Vec<u8>, case: &Case) -> Result<(), AllocError> {
    for part in &case.parts {
        lines.extend_from_slice(part.name.as_bytes())?;
        lines.extend_from_slice(b"=")?;
        lines.extend_from_slice(part.content.as_slice())?;
        lines.extend_from_slice(b"\n")?;
    }
    Ok(())
}

/// How the parts of the second case of a file differ from those of the first, which are wanted: a line for each
/// difference.
pub fn judge(case: &Case, answer: &mut Answer) -> Result<(), Fail> {
    let mut read = cases(answer.alloc(), case.bytes("file")?)?;
    match (read.pop(), read.pop()) {
        (Some(answered), Some(wanted)) => add_judged(&wanted, answered, answer),
        _ => Err(Fail::new("a file has not two cases")),
    }
}

fn add_judged(wanted: &Case, answered: Case, answer: &mut Answer) -> Result<(), Fail> {
    let mut asked = Vec::new(answer.alloc());
    for part in &wanted.parts {
        asked.push(part)?;
    }
    add_differences(asked.as_slice(), answered.parts, answer)
}

fn add_differences(wanted: &[&Part], answered: Vec<Part>, answer: &mut Answer) -> Result<(), Fail> {
    let found = differences(answer.alloc(), wanted, answered)?;
    let mut lines = Vec::new(answer.alloc());
    for difference in &found {
        tell_difference(&mut lines, difference)?;
    }
    answer.bytes("wanted", lines.as_slice())
}

/// The name of a part, what is wanted, and what was answered.
fn tell_difference(lines: &mut Vec<u8>, difference: &Difference<'_>) -> Result<(), AllocError> {
    lines.extend_from_slice(difference.name().as_bytes())?;
    lines.extend_from_slice(b": ")?;
    lines.extend_from_slice(content_of(difference.wanted))?;
    lines.extend_from_slice(b", got ")?;
    lines.extend_from_slice(content_of(difference.got.as_ref()))?;
    lines.extend_from_slice(b"\n")
}

fn content_of(part: Option<&Part>) -> &[u8] {
    match part {
        Some(part) => part.content.as_slice(),
        None => b"nothing",
    }
}
