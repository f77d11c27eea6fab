//! Tries the cases in `data/`: `run` with its words over links in memory, what answers a case over an index, and the
//! indexes themselves.
//!
//! The words are the files of cases; a file's name up to its first `-` says what is tried. `docs/cases.md` says how
//! a case is written, and the README which parts these have.
#![tactic(auto)]

mod calls;
mod finds;
mod indexes;
mod limits;
mod looks;
mod shelves;
mod sweeps;

use desk_cases::{Answer, Case, Part, Subject, try_files};
use std::test::Fail;

/// What runs the command `once` and words that are no command, and builds indexes.
#[derive(Drop)]
struct Runs;

impl Subject for Runs {
    fn reads(&self, _kind: &str, _case: &Case, part: &Part) -> bool {
        matches!(
            part.name.as_str(),
            "word"
                | "words"
                | "input"
                | "cut"
                | "triples"
                | "keys"
                | "sought"
                | "stem"
                | "put"
                | "get"
        )
    }

    fn answer(&mut self, kind: &str, case: &Case, answer: &mut Answer) -> Result<(), Fail> {
        match kind {
            "find" => finds::told(case, answer),
            "index" => limits::told(case, answer),
            "look" => looks::told(case, answer),
            "once" => calls::told(case, answer),
            "shelf" => shelves::told(case, answer),
            "reads" => sweeps::each_read_fails(case, answer),
            "writes" => sweeps::each_write_fails(case, answer),
            _ => Err(Fail::new("a file of cases has an unknown kind")),
        }
    }
}

fn main(rt: HostRuntime) -> Result<(), Fail> {
    try_files(&rt, &mut Runs)
}
