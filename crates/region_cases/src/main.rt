//! Tries the cases in `data/`: steps, first runs, regions that are checked, what is suggested for a record, and why an
//! attribute is fixed.
//!
//! The words are the files of cases; a file's name up to its first `-` says what is tried. `docs/cases.md` says how a
//! case is written, and the README which parts these have.
#![tactic(auto)]

mod reasons;
mod record;
mod regions;
mod runs;
mod steps;
mod telling;

use desk_cases::{Answer, Case, Part, Subject, try_files};
use std::test::Fail;

/// What makes steps and runs, checks regions and suggests.
#[derive(Drop)]
struct Suggester;

impl Subject for Suggester {
    fn reads(&self, _kind: &str, _case: &Case, part: &Part) -> bool {
        matches!(
            part.name.as_str(),
            "input" | "attribute" | "region" | "step"
        )
    }

    fn answer(&mut self, kind: &str, case: &Case, answer: &mut Answer) -> Result<(), Fail> {
        match kind {
            "reason" => reasons::told(case, answer),
            "region" => telling::told(case, answer),
            "run" => runs::told(case, answer),
            "step" => steps::told(case, answer),
            _ => Err(Fail::new("a file of cases has an unknown kind")),
        }
    }
}

fn main(rt: HostRuntime) -> Result<(), Fail> {
    try_files(&rt, &mut Suggester)
}
