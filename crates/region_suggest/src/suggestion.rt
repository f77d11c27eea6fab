//! What is suggested to the clerk.
use desk_base::List;

/// What a clerk may confirm next.
#[derive(Debug, Drop)]
pub struct Suggestion {
    /// The region rows that are offered, each as its region and its row, both counted from 1.
    pub regions: List<(u32, u32)>,
    /// The attributes that have yet to be confirmed, counted from 0, in their order.
    pub need: List<u16>,
    /// For each uncovered attribute, counted from 0, how many further attributes it is hoped to gain.
    pub gains: List<(u16, u16)>,
}
