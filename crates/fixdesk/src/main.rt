//! The program `fixdesk`: standard streams, and the tables in `desk.db`, handed to `file_desk`.
#![tactic(auto)]

use desk_base::Str;
use desk_links::std_link;
use file_desk::{Called, Program, end, run_over, start};
use fixdesk_run::Said;
use sqlite::Unknown;
use std::process::ExitCode;

fn main(rt: HostRuntime) -> ExitCode {
    start(&rt, &Fixdesk)
}

/// The program.
#[derive(Drop)]
struct Fixdesk;

impl Program for Fixdesk {
    fn name(&self) -> &str {
        "fixdesk"
    }

    /// Runs over files of which nothing is known beforehand.
    fn run(&self, rt: &HostRuntime, called: Called<'_>, path: Str) -> u8 {
        let mut link = std_link(rt);
        let mut said = Said::nothing();
        let run = run_over(rt, called.words, path, Unknown, &mut link, &mut said);
        end(rt, called, run, &said)
    }
}
