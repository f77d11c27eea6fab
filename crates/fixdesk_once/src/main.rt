//! The command `once` as a program of its own: a case on standard input, its answer on standard output.
#![tactic(auto)]

use desk_links::std_link;
use once_run::{Said, once, tell_said};
use std::process::ExitCode;

fn main(rt: HostRuntime) -> ExitCode {
    let mut link = std_link(&rt);
    let mut said = Said::nothing();
    let code = once(rt.alloc(), &mut link, &mut said).code();
    tell_said(&rt, "fixdesk_once", code, &said);
    ExitCode::from(code)
}
