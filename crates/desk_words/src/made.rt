//! What a request made.
use desk_base::Text;

/// What the steward made. A number beside a name is the version.
#[derive(Debug, Drop)]
pub enum Made {
    Clerk(Text),
    Schema(Text, u32),
    Master(Text, u32),
    Rulebook(Text, u32),
    Edition(Text, u32),
    /// A region, by its number among those of its edition, counted from 1, with the number of its rows of each
    /// verdict.
    Region {
        region: u32,
        certain: u32,
        partial: u32,
        conflict: u32,
    },
}

/// A batch as it stands: its number and that of its first session, counted from 1, how many sessions it has, and
/// how many of them have each verdict.
#[derive(Clone, Copy, Debug, PartialEq, Eq)]
pub struct Batched {
    pub batch: u32,
    pub first: u32,
    pub rows: u32,
    pub certain: u32,
    pub partial: u32,
    pub conflict: u32,
}
