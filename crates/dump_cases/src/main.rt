//! Tries the cases in `data/`: dumps that are restored over a source, an output and a keeper in memory, and dumped
//! again.
//!
//! The words are the files of cases. `docs/cases.md` says how a case is written, and the README which parts these have.
#![tactic(auto)]

mod desks;
mod restoring;

use desk_cases::{Answer, Case, Part, Subject, try_files};
use std::test::Fail;

/// What restores dumps.
#[derive(Drop)]
struct Dumps;

impl Subject for Dumps {
    fn reads(&self, _kind: &str, _case: &Case, part: &Part) -> bool {
        matches!(
            part.name.as_str(),
            "dump" | "words" | "cut" | "room" | "reads" | "writes" | "fails" | "steward" | "sent"
        )
    }

    fn answer(&mut self, kind: &str, case: &Case, answer: &mut Answer) -> Result<(), Fail> {
        match kind {
            "restored" => restoring::told(case, answer),
            _ => Err(Fail::new("a file of cases has an unknown kind")),
        }
    }
}

fn main(rt: HostRuntime) -> Result<(), Fail> {
    try_files(&rt, &mut Dumps)
}
