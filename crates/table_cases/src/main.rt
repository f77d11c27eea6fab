//! Tries the cases in `data/`: tables, with the damage that is found in them, their copies, and calls of a keeper in
//! memory.
//!
//! The words are the files of cases. `docs/cases.md` says how a case is written, and the README how a row is.
#![tactic(auto)]

mod copies;
mod fields;
mod judging;
mod keeping;
mod own;
mod rows;

use desk_cases::{Answer, Case, Part, Subject, try_files};
use std::test::Fail;

/// What finds damage, copies, and calls keepers.
#[derive(Drop)]
struct Desk;

impl Subject for Desk {
    fn reads(&self, _kind: &str, _case: &Case, part: &Part) -> bool {
        part.name.as_str() != "wanted"
    }

    fn answer(&mut self, kind: &str, case: &Case, answer: &mut Answer) -> Result<(), Fail> {
        match kind {
            "tables" => judging::told(case, answer),
            "copies" => copies::told(case, answer),
            "keeper" => keeping::told(case, answer),
            _ => Err(Fail::new("a file of cases has an unknown kind")),
        }
    }
}

fn main(rt: HostRuntime) -> Result<(), Fail> {
    try_files(&rt, &mut Desk)
}
