//! The program `fixdesk_clean`: a sheet on standard input, cleaned by rules over masters, to standard output.
#![tactic(auto)]

mod files;
mod made_file;
mod running;
mod telling;
mod watched;

use running::run;
use std::process::ExitCode;
use telling::tell;

fn main(rt: HostRuntime) -> ExitCode {
    let ended = run(&rt);
    tell(&rt, &ended);
    ExitCode::from(ended.status.code())
}
