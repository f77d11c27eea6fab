//! Tries the cases in `data/`: what the program that cleans sheets does with words, over files, a source and sinks in
//! memory.
//!
//! The words are the files of cases; a file's name up to its first `-` says what is tried. `docs/cases.md` says how
//! a case is written, and the README which parts these have.
#![tactic(auto)]

mod devices;
mod runs;
mod sweeps;
mod told;

use clean_run::{MemFile, MemFiles};
use desk_cases::{Answer, Case, Part, Subject, try_files};
use runs::file_name;
use std::alloc::Global;
use std::test::Fail;

/// What cleans sheets. The files of the last case of the kind `files` stand for the cases after it.
#[derive(Drop)]
struct Cleans {
    standing: Vec<MemFile>,
}

impl Subject for Cleans {
    fn reads(&self, _kind: &str, _case: &Case, part: &Part) -> bool {
        matches!(part.name.as_str(), "word" | "words" | "sheet" | "cut")
            || file_name(part).is_some()
    }

    fn answer(&mut self, kind: &str, case: &Case, answer: &mut Answer) -> Result<(), Fail> {
        match kind {
            "files" => self.keep(case, answer),
            "clean" => runs::told(case, &self.files(answer.alloc(), case)?, answer),
            "fails" => sweeps::each_call_fails(case, &self.files(answer.alloc(), case)?, answer),
            _ => Err(Fail::new("a file of cases has an unknown kind")),
        }
    }
}

impl Cleans {
    /// Keeps the files of a case, and tells how many there are.
    fn keep(&mut self, case: &Case, answer: &mut Answer) -> Result<(), Fail> {
        let mut files = Vec::new(answer.alloc());
        runs::add_files(answer.alloc(), case, &mut files)?;
        answer.number("files", files.len() as u64)?;
        self.standing = files;
        Ok(())
    }

    /// The files of a case, and those that stand.
    fn files(&self, alloc: Global, case: &Case) -> Result<MemFiles, Fail> {
        let mut files = Vec::new(alloc);
        runs::add_files(alloc, case, &mut files)?;
        for file in &self.standing {
            files.push(MemFile {
                name: file.name.clone()?,
                bytes: file.bytes.clone()?,
            })?;
        }
        Ok(MemFiles { files })
    }
}

fn main(rt: HostRuntime) -> Result<(), Fail> {
    let standing = Vec::new(rt.alloc());
    try_files(&rt, &mut Cleans { standing })
}
