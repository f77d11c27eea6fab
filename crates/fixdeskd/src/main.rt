//! The program `fixdeskd`: a door on the loopback address, standard output, and the tables in `desk.db`, handed to
//! `file_desk`.
#![tactic(auto)]

use desk_base::{StdSink, Str};
use file_desk::{Called, Program, end, serve_over, start};
use fixdesk_run::Said;
use sqlite::Unknown;
use std::process::ExitCode;
use tcp_door::TcpDoor;

fn main(rt: HostRuntime) -> ExitCode {
    start(&rt, &Fixdeskd)
}

/// The program.
#[derive(Drop)]
struct Fixdeskd;

impl Program for Fixdeskd {
    fn name(&self) -> &str {
        "fixdeskd"
    }

    /// Serves over files of which nothing is known beforehand.
    fn run(&self, rt: &HostRuntime, called: Called<'_>, path: Str) -> u8 {
        let mut door = TcpDoor::new(rt);
        let mut out = StdSink::new(rt.stdout());
        let run = serve_over(rt, called.words, path, Unknown, &mut door, &mut out);
        end(rt, called, run, &Said::nothing())
    }
}
