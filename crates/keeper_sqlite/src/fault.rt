//! Why a keeper refuses, by what refused it.
ghost use Rattle.std.specs.Prelude.{◌≡◌, ◌↔◌};

use desk_packing::{PackFault, UnpackFault};
use keeper_core::KeepFail;
use row_store::OpenFault;
use sqlite::{Error, ErrorCode};

/// What the database refuses is a failure, but for want of memory.
pub fn store_fail(error: Error) -> KeepFail
    ensures { (result ≡ KeepFail.NoMemory) ↔ (error ≡ Error.SqliteFailure ErrorCode.OutOfMemory) }
{
    match error {
        Error::SqliteFailure(ErrorCode::OutOfMemory) => KeepFail::NoMemory,
        _ => KeepFail::Failed,
    }
}

/// Rows that can't be packed are a failure.
pub fn pack_fail(fault: PackFault) -> KeepFail
    ensures { (result ≡ KeepFail.NoMemory) ↔ (fault ≡ PackFault.NoMemory) }
{
    match fault {
        PackFault::NoMemory => KeepFail::NoMemory,
        PackFault::Misfit | PackFault::TooLong => KeepFail::Failed,
    }
}

/// Rows that can't be unpacked are a failure.
pub fn unpack_fail(fault: UnpackFault) -> KeepFail
    ensures { (result ≡ KeepFail.NoMemory) ↔ (fault ≡ UnpackFault.NoMemory) }
{
    match fault {
        UnpackFault::NoMemory => KeepFail::NoMemory,
        UnpackFault::Damaged => KeepFail::Failed,
    }
}

/// Files that are not opened are a failure, but for want of memory.
pub fn open_fail(fault: OpenFault) -> KeepFail {
    match fault {
        OpenFault::Refused(error) | OpenFault::Uncopied(error) => store_fail(error),
        OpenFault::Foreign => KeepFail::Failed,
    }
}
