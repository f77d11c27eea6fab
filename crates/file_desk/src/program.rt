//! A program over `desk.db`: how it begins, and what it says where it can't.
use crate::command_line::words;
use crate::telling::Called;
use desk_base::{NoMemory, Str};
use fixdesk_run::{Status, tell};
use std::alloc::AllocError;
use std::process::ExitCode;

/// A program over the tables in `desk.db`.
pub trait Program {
    /// Its name.
    fn name(&self) -> &str;

    /// Does what its words ask for over the files at a path, and answers the exit status.
    fn run(&self, rt: &HostRuntime, called: Called<'_>, path: Str) -> u8;
}

/// Runs a program over `desk.db`, in the folder where it is started, with the words that it is started with.
pub fn start<P: Program>(rt: &HostRuntime, program: &P) -> ExitCode {
    let code = match words(rt) {
        Ok(words) => run_words(rt, program, words.as_slice()),
        Err(AllocError) => no_memory(rt, program.name()),
    };
    ExitCode::from(code)
}

fn run_words<P: Program>(rt: &HostRuntime, program: &P, words: &[String]) -> u8 {
    let called = Called {
        program: program.name(),
        words,
    };
    match Str::new(rt.alloc(), "desk.db") {
        Ok(path) => program.run(rt, called, path),
        Err(NoMemory) => no_memory(rt, program.name()),
    }
}

/// Says that there is no memory to begin with, and gives that status.
pub fn no_memory(rt: &HostRuntime, program: &str) -> u8 {
    let code = Status::NoMemory.code();
    tell(rt, program, code);
    code
}
