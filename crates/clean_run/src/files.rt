//! Files that are read whole.
ghost use Rattle.std.specs.Prelude.{◌≡◌, IfOk, IsErrOf, None, Some};
ghost use Rattle.clean_run.specs.Files.{Folder};

/// Where files stand under names.
pub trait Files {
    /// They are this folder, where they tell it.
    ghost tells: { Self → Folder → Type 0 };

    /// The bytes of the file under this name.
    fn read(&self, name: &str) -> Result<Vec<u8>, FileFault>
        ensures bytes { (folder : Folder) → tells self.now folder
            → IfOk result (λ bytes. folder name.now ≡ Some bytes.items) }
        ensures unreadable { (folder : Folder) → tells self.now folder
            → IsErrOf result FileFault.Unreadable → folder name.now ≡ None };
}

/// Why a file is not read.
#[derive(Clone, Copy, Debug, PartialEq, Eq)]
pub enum FileFault {
    /// There is no such file, or it can't be read.
    Unreadable,
    /// There was no memory. It may come in place of any other answer.
    NoMemory,
}
