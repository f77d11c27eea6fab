//! Tries the cases in `data/`: calls of `serve` and `serve_pages` over doors, keepers and outputs in memory, and streams over a front, with
//! the desk of `session_machine`.
//!
//! The words are the files of cases; a file's name up to its first `-` says what is tried. `docs/cases.md` says how a
//! case is written, and the README which parts these have.
#![tactic(auto)]

mod answers;
mod calls;
mod doors;
mod fronts;
mod pages;
mod visits;

use crate::calls::Called;
use desk_cases::{Answer, Case, Part, Subject, try_files};
use std::test::Fail;

/// The parts whose words name other parts.
const NAMING: [&str; 3] = ["links", "answers", "tables"];

/// What calls `serve`.
#[derive(Drop)]
struct Serves;

impl Subject for Serves {
    fn reads(&self, kind: &str, case: &Case, part: &Part) -> bool {
        let name = part.name.as_str();
        match kind {
            "serve" | "pages" => is_setting(name) || case.has_word(&NAMING, name),
            "front" => matches!(name, "bytes" | "port") || case.has_word(&NAMING, name),
            _ => name == "words",
        }
    }

    fn answer(&mut self, kind: &str, case: &Case, answer: &mut Answer) -> Result<(), Fail> {
        match kind {
            "serve" => visits::told(Called::Serve, case, answer),
            "pages" => visits::told(Called::Pages, case, answer),
            "front" => fronts::told(case, answer),
            "words" => visits::each(Called::Serve, case, answer),
            "page_words" => visits::each(Called::Pages, case, answer),
            _ => Err(Fail::new("a file of cases has an unknown kind")),
        }
    }
}

/// Whether a part says how a call is made.
fn is_setting(name: &str) -> bool {
    matches!(
        name,
        "words" | "links" | "cut" | "reads" | "writes" | "door" | "fails" | "steward" | "room"
    )
}

fn main(rt: HostRuntime) -> Result<(), Fail> {
    try_files(&rt, &mut Serves)
}
