//! Runs as cases state them.
ghost use Rattle.clean_run.specs.Prepared.{IsPrepared};

use crate::devices::{Device, Plan};
use crate::told::Told;
use clean_run::{Job, MemFile, MemFiles, Task, show, task_of};
use desk_cases::{Answer, Case, Part};
use std::alloc::Global;
use std::test::Fail;

/// What a case's run told.
pub fn told(case: &Case, files: &MemFiles, answer: &mut Answer) -> Result<(), Fail> {
    let alloc = answer.alloc();
    let words = words(alloc, case)?;
    let plan = Plan {
        cut: case.cut(),
        fails: None,
    };
    match task_of(alloc, files, words.as_slice()) {
        Ok(Task::Clean(job)) => {
            let told = cleaned(alloc, case, &job, &plan);
            drop(job);
            add(told, answer)
        }
        Ok(Task::Show(text)) => add(shown(alloc, text.as_str(), &plan), answer),
        Err(ended) => add(Ok(Told::unwritten(alloc, ended)), answer),
    }
}

/// Adds what a run told.
fn add(told: Result<Told, Fail>, answer: &mut Answer) -> Result<(), Fail> {
    told?.add(answer)
}

/// The name of the file that a part is, if it is one.
pub fn file_name(part: &Part) -> Option<&str> {
    part.name.as_str().strip_prefix("file ")
}

/// Adds the files of a case.
pub fn add_files(alloc: Global, case: &Case, files: &mut Vec<MemFile>) -> Result<(), Fail> {
    for part in &case.parts {
        if let Some(name) = file_name(part) {
            files.push(MemFile {
                name: String::from_str(alloc, name)?,
                bytes: part.content.clone()?,
            })?;
        }
    }
    Ok(())
}

/// The words of a case: those of its parts `words`, with spaces between, and each part `word`, in their order.
pub fn words<'c>(alloc: Global, case: &'c Case) -> Result<Vec<&'c str>, Fail> {
    let mut words = Vec::new(alloc);
    for part in &case.parts {
        add_words(&mut words, part)?;
    }
    Ok(words)
}

fn add_words<'c>(words: &mut Vec<&'c str>, part: &'c Part) -> Result<(), Fail> {
    let Ok(text) = std::str::from_utf8(part.content.as_slice()) else {
        return Ok(());
    };
    match part.name.as_str() {
        "word" => words.push(text)?,
        "words" => {
            for word in text.split_whitespace() {
                words.push(word)?;
            }
        }
        _ => {}
    }
    Ok(())
}

/// What is told where a text was asked for.
fn shown(alloc: Global, text: &str, plan: &Plan) -> Result<Told, Fail> {
    let mut out = plan.sink(alloc, Device::Clean)?;
    let ended = show(alloc, text, &mut out);
    Told::with_clean(alloc, ended, &out)
}

/// What is told where the sheet of a case was cleaned.
pub fn cleaned(alloc: Global, case: &Case, job: &Job<'_>, plan: &Plan) -> Result<Told, Fail>
    requires { IsPrepared job.now.prepared }
{
    let mut source = plan.source(alloc, case.part("sheet").unwrap_or(b""))?;
    let mut outputs = plan.outputs(alloc)?;
    let ended = job.clean(alloc, &mut source, &mut outputs);
    Told::of(alloc, ended, job, &outputs)
}
