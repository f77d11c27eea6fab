//! What a write of the steward makes.
use desk_words::{Act, Change};

/// What an accepted write of the steward makes, and what the steward's row keeps of it.
#[derive(Debug, Drop)]
pub struct Making {
    /// The change that makes it.
    pub change: Change,
    /// What the steward's row says that the last write did.
    pub act: Act,
    /// The place of the row that is made, counted from 0.
    pub target: u32,
}
