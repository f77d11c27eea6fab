//! Tries the cases in `data/`: calls of `run` over keepers whose tables stand in SQL tables, in memory, on disks that
//! stop and in files of the folder that it runs in.
//!
//! The words are the files of cases, that of the script first; a file's name up to its first `-` says what is tried.
//! `docs/cases.md` says how a case is written, and the README which parts these have.
#![tactic(auto)]

mod disks;
mod files;
mod lines;
mod loads;
mod sent;
mod stopping_store;
mod stops;
mod stored;

use crate::sent::Sending;
use crate::stopping_store::FusedStore;
use crate::stored::Stored;
use desk_cases::{Answer, Case, Part, Subject, try_files};
use desk_trials::Script;
use std::test::Fail;

/// What calls `run`, with the script as far as it was read, and with what opens files.
#[derive(Drop)]
struct Runs<'r> {
    rt: &'r HostRuntime,
    script: Script,
}

impl<'r> Subject for Runs<'r> {
    fn reads(&self, _kind: &str, _case: &Case, part: &Part) -> bool {
        matches!(
            part.name.as_str(),
            "request"
                | "sent"
                | "sent 2"
                | "sent 3"
                | "sent beside"
                | "file"
                | "from"
                | "stands"
                | "log stands"
                | "rows"
                | "words"
                | "words 2"
                | "requests"
        )
    }

    fn answer(&mut self, kind: &str, case: &Case, answer: &mut Answer) -> Result<(), Fail> {
        if kind == "file" {
            let script = &self.script;
            return files::told(self.rt, Sending { script, case }, answer);
        }
        let mut stored = Stored::holding(answer.alloc(), case.text("rows"))?;
        let answered = self.answer_over(kind, case, &mut stored, answer);
        drop(stored);
        answered
    }
}

impl<'r> Runs<'r> {
    /// Adds the parts that answer a case, over a keeper of a database in memory in which its rows stand.
    fn answer_over(
        &mut self,
        kind: &str,
        case: &Case,
        stored: &mut Stored,
        answer: &mut Answer,
    ) -> Result<(), Fail> {
        let script = &self.script;
        let sending = Sending { script, case };
        match kind {
            "desk" => {
                sending.add_next(stored, answer)?;
                self.script.add(answer.alloc(), case)
            }
            "script" => sending.add_streams(stored, answer),
            "rows" => loads::told(case, stored, answer),
            "stop" => stops::told::<FusedStore>(sending, stored, answer),
            _ => Err(Fail::new("a file of cases has an unknown kind")),
        }
    }
}

fn main(rt: HostRuntime) -> Result<(), Fail> {
    let script = Script::new(rt.alloc());
    try_files(&rt, &mut Runs { rt: &rt, script })
}
