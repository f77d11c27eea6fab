//! Trying the cases of files, and telling which differ.
ghost use Rattle.std.specs.Prelude.{◌≡◌, ◌+◌, ◌^◌, ◌-◌, min, if◌then◌else◌};

use crate::answer::Answer;
use crate::case::{Case, Part};
use crate::judging::{Difference, differences};
use crate::reading::cases;
use std::alloc::Global;
use std::env::Env;
use std::rt::Files;
use std::test::Fail;
use std::{env, fs};

/// What answers cases. The kind of a case is the name of its file up to its first `-` or `.`.
pub trait Subject {
    /// Whether a part of a case is read as input. Every other part is wanted.
    fn reads(&self, kind: &str, case: &Case, part: &Part) -> bool;

    /// Adds the parts that answer a case: those that are wanted of it.
    fn answer(&mut self, kind: &str, case: &Case, answer: &mut Answer) -> Result<(), Fail>;
}

/// How many cases were tried, and how many of them differ.
#[derive(Clone, Copy, Debug)]
pub struct Tally {
    pub cases: u64,
    pub differing: u64,
}

impl Tally {
    /// No case was tried yet.
    pub fn new() -> Tally
        ensures { result ≡ record { cases = 0; differing = 0 } }
    {
        Tally {
            cases: 0,
            differing: 0,
        }
    }

    /// Counts a case. Both counts stand at 2^64 - 1.
    pub fn count(&mut self, is_as_wanted: bool)
        ensures cases { self.new.cases ≡ min (self.old.cases + 1) (2 ^ 64 - 1) }
        ensures differing { self.new.differing ≡ (if is_as_wanted then self.old.differing
            else min (self.old.differing + 1) (2 ^ 64 - 1)) }
    {
        self.cases = self.cases.saturating_add(1);
        if !is_as_wanted {
            self.differing = self.differing.saturating_add(1);
        }
    }
}

/// Tries the cases of the files that the program's words name. Each case that differs is told on standard
/// output, and at the end how many there were, as `7 cases, 0 differ`.
pub fn try_files<R: Env + Files + Print + AllocGlobal, S: Subject>(
    rt: &R,
    subject: &mut S,
) -> Result<(), Fail> {
    let files = env::args(rt)?.skip(1).collect::<Vec<_>>(rt.alloc())?;
    let mut tally = Tally::new();
    for file in &files {
        try_file(rt, subject, &mut tally, file.as_str())?;
    }
    println!(rt; "{} cases, {} differ", tally.cases, tally.differing)?;
    Ok(())
}

fn try_file<R: Files + Print + AllocGlobal, S: Subject>(
    rt: &R,
    subject: &mut S,
    tally: &mut Tally,
    file: &str,
) -> Result<(), Fail> {
    let bytes = fs::read(rt, file)?;
    let found = cases(rt.alloc(), bytes.as_slice())?;
    for case in &found {
        let is_as_wanted = try_case(rt, subject, file, case)?;
        tally.count(is_as_wanted);
    }
    Ok(())
}

/// Tries a case, tells each difference, and answers whether there is none.
fn try_case<R: Print + AllocGlobal, S: Subject>(
    rt: &R,
    subject: &mut S,
    file: &str,
    case: &Case,
) -> Result<bool, Fail> {
    let kind = kind_of(file);
    let answer = answer_to(rt.alloc(), subject, kind, case)?;
    let wanted = wanted_of(rt.alloc(), subject, kind, case)?;
    let found = differences(rt.alloc(), wanted.as_slice(), answer)?;
    for difference in &found {
        tell(rt, file, case, difference)?;
    }
    Ok(found.is_empty())
}

/// The parts that a case is answered by.
fn answer_to<S: Subject>(
    alloc: Global,
    subject: &mut S,
    kind: &str,
    case: &Case,
) -> Result<Vec<Part>, Fail> {
    let mut answer = Answer::new(alloc);
    subject.answer(kind, case, &mut answer)?;
    Ok(answer.into_parts())
}

/// The parts of a case that are wanted: those that are not read.
fn wanted_of<'c, S: Subject>(
    alloc: Global,
    subject: &S,
    kind: &str,
    case: &'c Case,
) -> Result<Vec<&'c Part>, Fail> {
    let mut wanted = Vec::new(alloc);
    for part in &case.parts {
        if !subject.reads(kind, case, part) {
            wanted.push(part)?;
        }
    }
    Ok(wanted)
}

/// The name of a file, after its folders, up to its first `-` or `.`.
fn kind_of(file: &str) -> &str {
    let name = file.rsplit('/').next().unwrap_or(file);
    name.split(['-', '.']).next().unwrap_or(name)
}

/// Tells a difference: the part, what is wanted of it, and what was answered.
fn tell<R: Print + AllocGlobal>(
    rt: &R,
    file: &str,
    case: &Case,
    difference: &Difference<'_>,
) -> Result<(), Fail> {
    println!(rt; "{file}: {}: {}", case.title, difference.name())?;
    tell_side(rt, "wanted", difference.wanted)?;
    tell_side(rt, "got   ", difference.got.as_ref())
}

/// Tells the content of a part after a word, or that there is no such part.
fn tell_side<R: Print + AllocGlobal>(rt: &R, word: &str, part: Option<&Part>) -> Result<(), Fail> {
    match part {
        Some(part) => {
            let content = String::from_utf8_lossy(rt.alloc(), part.content.as_slice())?;
            println!(rt; "  {word} {:?}", content.as_str())?;
        }
        None => println!(rt; "  {word} no such part")?,
    }
    Ok(())
}
