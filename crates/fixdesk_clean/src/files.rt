//! The files of the machine.
use clean_run::{FileFault, Files};
use std::fs;
use std::io::ErrorKind;

/// The files under their paths. What stands in them is not told.
#[derive(Clone, Copy)]
pub struct StdFiles<'r> {
    pub rt: &'r HostRuntime,
}

impl<'r> Files for StdFiles<'r> {
    ghost tells = { λ _ _. ⊥ };

    fn read(&self, name: &str) -> Result<Vec<u8>, FileFault> {
        match fs::read(self.rt, name) {
            Ok(bytes) => Ok(bytes),
            Err(error) if error.kind() == ErrorKind::OutOfMemory => Err(FileFault::NoMemory),
            Err(_) => Err(FileFault::Unreadable),
        }
    }
}
