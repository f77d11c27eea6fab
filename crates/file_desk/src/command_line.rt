//! The words that a program is started with.
use std::alloc::{AllocError, AllocGlobal};
use std::env;
use std::env::Env;
use std::io::ErrorKind;

/// The words, without the program's name. Words that are not UTF-8 are no command, like no words at all.
pub fn words<R: Env + AllocGlobal>(rt: &R) -> Result<Vec<String>, AllocError> {
    match env::args(rt) {
        Ok(words) => words.skip(1).collect(rt.alloc()),
        Err(error) if error.kind() == ErrorKind::OutOfMemory => Err(AllocError),
        Err(_) => Ok(Vec::new(rt.alloc())),
    }
}
