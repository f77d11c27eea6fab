//! Files in memory.
ghost use Rattle.std.specs.Prelude.{◌≡◌, ℕ, List, find, option_map, string_bytes};
ghost use Rattle.std.specs.Str.{bytes_eq};
ghost use Rattle.clean_run.specs.Held.{held};

use crate::files::{FileFault, Files};

/// A file in memory.
#[derive(Debug, Drop)]
pub struct MemFile {
    pub name: String,
    pub bytes: Vec<u8>,
}

/// Files in memory: of those of one name the first counts.
#[derive(Debug, Drop)]
pub struct MemFiles {
    pub files: Vec<MemFile>,
}

impl Files for MemFiles {
    ghost tells = { λ f folder. (name : List ℕ) → folder name ≡ held f.files.items name };

    fn read(&self, name: &str) -> Result<Vec<u8>, FileFault> {
        match first_named(&self.files, name) {
            Some(file) => match file.bytes.clone() {
                Ok(bytes) => Ok(bytes),
                Err(_) => Err(FileFault::NoMemory),
            },
            None => Err(FileFault::Unreadable),
        }
    }
}

/// The first file of this name.
fn first_named<'a>(files: &'a [MemFile], name: &str) -> Option<&'a MemFile>
    ensures { option_map (λ file. file.now) result
        ≡ find (λ file. bytes_eq name.now (string_bytes file.name)) files.now }
{
    files.iter().find(|file| name == file.name.as_str())
}
