//! The program `fixdesk_restore`: standard streams, and the tables in `desk.db`, handed to `file_desk`.
#![tactic(auto)]

use desk_base::Str;
use desk_links::std_link;
use file_desk::{Called, Program, end_restoring, is_there, restore_over, start};
use restore_run::RestoreEnd;
use sqlite::Unknown;
use std::process::ExitCode;

fn main(rt: HostRuntime) -> ExitCode {
    start(&rt, &FixdeskRestore)
}

/// The program.
#[derive(Drop)]
struct FixdeskRestore;

impl Program for FixdeskRestore {
    fn name(&self) -> &str {
        "fixdesk_restore"
    }

    /// Restores into the files, of which nothing is known beforehand, unless they are there.
    fn run(&self, rt: &HostRuntime, called: Called<'_>, path: Str) -> u8 {
        if called.words.is_empty() && is_there(rt, path.as_str()) {
            called.tell_restoring(rt, RestoreEnd::Standing, None);
            return RestoreEnd::Standing.code();
        }
        let mut link = std_link(rt);
        let restoring = restore_over(rt, called.words, path, Unknown, &mut link);
        end_restoring(rt, called, restoring)
    }
}
