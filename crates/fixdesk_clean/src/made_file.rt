//! A sink that makes its file with its first write.
ghost use Rattle.std.specs.Prelude.{◌≡◌, ◌≤◌, None, IfOk, length};
ghost use Rattle.desk_base.specs.Faults.{CountsFaults};

use desk_base::{Failed, FaultCount, Sink};
use std::fs::File;
use std::io::Write;
use std::{fs, io};

/// A file that is made, or emptied where it stood, when the first bytes are written to it.
#[derive(Drop)]
pub struct MadeFile<'r> {
    rt: &'r HostRuntime,
    path: String,
    file: Option<File>,
    faults: FaultCount,
}

impl<'r> MadeFile<'r> {
    /// The file at this path, which is not made yet.
    pub fn at(rt: &'r HostRuntime, path: String) -> MadeFile<'r> {
        MadeFile {
            rt,
            path,
            file: None,
            faults: FaultCount::at(0),
        }
    }
}

impl<'r> Sink for MadeFile<'r> {
    ghost written = { λ _. None };

    ghost write_faults = { λ f. f.faults };

    ghost takes = { λ _ _. ⊥ };

    // The count rises exactly with a fault.
    ghost writes = { λ before after _ result. CountsFaults before.faults after.faults result };

    fn write(&mut self, piece: &[u8]) -> Result<usize, Failed> {
        match self.write_first(piece) {
            Ok(count) if count > 0 => Ok(count),
            Ok(_) | Err(_) => {
                self.faults.rise();
                Err(Failed)
            }
        }
    }
}

impl<'r> MadeFile<'r> {
    /// Writes to the file, which it makes if it was not made.
    fn write_first(&mut self, piece: &[u8]) -> io::Result<usize>
        ensures within { IfOk result (λ count. count ≤ length piece.now) }
        ensures faults { self.new.faults ≡ self.old.faults }
    {
        if self.file.is_none() {
            self.file = Some(fs::create(self.rt, self.path.as_str())?);
        }
        match &mut self.file {
            Some(file) => file.write(piece),
            None => Ok(0),
        }
    }
}
