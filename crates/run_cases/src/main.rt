//! Tries the cases in `data/`: calls of `run` over links and keepers in memory, most of them streams of requests to an
//! empty desk.
//!
//! The words are the files of cases, that of the script first; a file's name up to its first `-` says what is tried.
//! `docs/cases.md` says how a case is written, and the README which parts these have.
#![tactic(auto)]

mod making;
mod streams;
mod sweeps;

use desk_cases::{Answer, Case, Part, Subject, try_files};
use desk_trials::Script;
use std::test::Fail;

/// What calls `run`, with the script as far as it was read.
#[derive(Drop)]
struct Runs {
    script: Script,
}

impl Subject for Runs {
    fn reads(&self, kind: &str, case: &Case, part: &Part) -> bool {
        let name = part.name.as_str();
        match kind {
            "desk" => name == "request",
            "stream" => streams::reads(case, name),
            "each" => matches!(name, "request" | "words"),
            "made" => matches!(name, "sessions" | "start"),
            _ => matches!(name, "bytes" | "cut" | "requests"),
        }
    }

    fn answer(&mut self, kind: &str, case: &Case, answer: &mut Answer) -> Result<(), Fail> {
        let script = &self.script;
        match kind {
            "desk" => {
                streams::next(script, case, answer)?;
                self.script.add(answer.alloc(), case)
            }
            "stream" => streams::told(script, case, answer),
            "each" => streams::each(case, answer),
            "made" => making::told(case, answer),
            "early" => sweeps::each_end(script, case, answer),
            "reads" => sweeps::each_read_fails(script, case, answer),
            "writes" => sweeps::each_write_fails(script, case, answer),
            _ => Err(Fail::new("a file of cases has an unknown kind")),
        }
    }
}

fn main(rt: HostRuntime) -> Result<(), Fail> {
    let script = Script::new(rt.alloc());
    try_files(&rt, &mut Runs { script })
}
