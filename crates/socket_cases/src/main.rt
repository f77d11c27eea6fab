//! Tries the cases in `data/`: whole connections over sockets of this machine, each accepted, read, answered and closed
//! by `serve`, with the desk of `session_machine` and its tables in memory.
//!
//! The words are the files of cases. `docs/cases.md` says how a case is written, and the README which parts these have.
#![tactic(auto)]

mod door;
mod peers;
mod visits;

use desk_cases::{Answer, Case, Part, Subject, try_files};
use peers::is_sent;
use std::test::Fail;

/// What opens sockets.
#[derive(Drop)]
struct Sockets<'r> {
    rt: &'r HostRuntime,
}

impl Subject for Sockets<'_> {
    fn reads(&self, _kind: &str, _case: &Case, part: &Part) -> bool {
        is_sent(part)
    }

    fn answer(&mut self, kind: &str, case: &Case, answer: &mut Answer) -> Result<(), Fail> {
        match kind {
            "socket" => visits::told(self.rt, case, answer),
            _ => Err(Fail::new("a file of cases has an unknown kind")),
        }
    }
}

fn main(rt: HostRuntime) -> Result<(), Fail> {
    try_files(&rt, &mut Sockets { rt: &rt })
}
