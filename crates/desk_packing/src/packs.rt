//! What is written as bytes and read back from the front of bytes.
ghost use Rattle.std.specs.Prelude.{◌≡◌, ◌++◌, Some, None, IfOk, OnOk, IsErrOf};
ghost use Rattle.desk_packing.specs.Formats.{Format, whole};

use crate::error::{FieldFault, UnpackFault};
use std::alloc::Global;

/// A value with a format (`specs/Formats.antt`).
pub trait Packs: Sized {
    /// How the value is written and read.
    ghost format: { Format Self };

    /// Writes the value after the bytes.
    fn pack(&self, bytes: &mut Vec<u8>) -> Result<(), FieldFault>
        ensures packed { OnOk result (bytes.new.items ≡ bytes.old.items ++ format.print self.now) }
        ensures fits { OnOk result (format.Fits self.now) }
        ensures too_long { IsErrOf result FieldFault.TooLong → format.Fits self.now → ⊥ };

    /// Reads the value in front of the bytes, and answers it with the bytes after it.
    fn unpack(alloc: Global, bytes: &[u8]) -> Result<(Self, &[u8]), UnpackFault>
        ensures read { IfOk result (λ found. format.parse bytes.now ≡ Some (found.0, found.1.now)) }
        ensures damaged { IsErrOf result UnpackFault.Damaged → format.parse bytes.now ≡ None };
}

/// Reads the value of which these are all the bytes.
pub fn unpack_whole<T: Packs + Drop>(alloc: Global, bytes: &[u8]) -> Result<T, UnpackFault>
    ensures read { IfOk result (λ value. whole T.format bytes.now ≡ Some value) }
    ensures damaged { IsErrOf result UnpackFault.Damaged → whole T.format bytes.now ≡ None }
{
    let (value, rest) = T::unpack(alloc, bytes)?;
    if rest.is_empty() {
        Ok(value)
    } else {
        Err(UnpackFault::Damaged)
    }
}
