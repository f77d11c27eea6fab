//! The program `fixdesk` with its tables in memory: words and standard streams, handed to `fixdesk_run` with the desk.
#![tactic(auto)]

use desk_base::{List, NoMemory};
use desk_links::std_link;
use desk_words::Tables;
use fixdesk_run::{Said, Status, run, tell_said};
use keeper_core::MemKeeper;
use session_machine::Desk;
use std::alloc::{AllocError, Global};
use std::env;
use std::io::ErrorKind;
use std::process::ExitCode;

fn main(rt: HostRuntime) -> ExitCode {
    let mut said = Said::nothing();
    let code = match words(&rt) {
        Ok(words) => run_words(&rt, words.as_slice(), &mut said),
        Err(AllocError) => Status::NoMemory.code(),
    };
    tell_said(&rt, "fixdesk_try", code, &said);
    ExitCode::from(code)
}

/// The words of the program, without its name.
fn words(rt: &HostRuntime) -> Result<Vec<String>, AllocError> {
    match env::args(rt) {
        Ok(words) => words.skip(1).collect(rt.alloc()),
        Err(error) if error.kind() == ErrorKind::OutOfMemory => Err(AllocError),
        // Words that are not UTF-8 are no command, like no words at all.
        Err(_) => Ok(Vec::new(rt.alloc())),
    }
}

/// Runs over the tables of an empty desk.
fn run_words(rt: &HostRuntime, words: &[String], said: &mut Said) -> u8 {
    let mut link = std_link(rt);
    match keeper(rt.alloc()) {
        Ok(mut keeper) => {
            let code = run::<Desk, _, _, _>(rt.alloc(), words, &mut keeper, &mut link, said);
            drop(keeper);
            code
        }
        Err(NoMemory) => Status::NoMemory.code(),
    }
}

/// What keeps the tables while the program runs: none stand at its beginning, and none are left after it.
fn keeper(alloc: Global) -> Result<MemKeeper, NoMemory> {
    Ok(MemKeeper::new(Tables::empty(alloc)?, List::new(alloc)))
}
