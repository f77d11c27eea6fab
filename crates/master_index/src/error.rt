//! Why an index is not built.
use thiserror::Error;

/// Why there is no index of a kit.
#[derive(Clone, Copy, Debug, PartialEq, Eq, Error)]
pub enum BuildFault {
    /// The kit has so many entries, more than `MAX_ENTRIES` of `desk_base`.
    #[error("the kit has {0} entries, too many for an index")]
    TooWide(u64),
    /// There was no memory for it.
    #[error("there was no memory for an index")]
    NoMemory,
}
