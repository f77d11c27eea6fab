//! Why no bytes come.
ghost use Rattle.std.specs.Prelude.{◌≡◌};
ghost use Rattle.sheet_blocks.specs.declared.fault.BlocksFault.TheVariants as fault;

use desk_base::{Failed, NoMemory};
use std::alloc::AllocError;
use thiserror::Error;

/// Why no bytes come.
#[derive(Clone, Copy, Debug, PartialEq, Eq, Error)]
pub enum BlocksFault {
    /// A read failed.
    #[error("a read failed")]
    Failed,
    /// There was no memory.
    #[error("there was no memory")]
    NoMemory,
}

impl From<Failed> for BlocksFault {
    ghost from_gives = { λ _ result. result ≡ fault.Failed };

    fn from(_failed: Failed) -> BlocksFault {
        BlocksFault::Failed
    }
}

impl From<NoMemory> for BlocksFault {
    ghost from_gives = { λ _ result. result ≡ fault.NoMemory };

    fn from(_want: NoMemory) -> BlocksFault {
        BlocksFault::NoMemory
    }
}

impl From<AllocError> for BlocksFault {
    ghost from_gives = { λ _ result. result ≡ fault.NoMemory };

    fn from(_want: AllocError) -> BlocksFault {
        BlocksFault::NoMemory
    }
}
