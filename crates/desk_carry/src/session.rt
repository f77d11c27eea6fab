//! A session over other attributes than those that it was entered over.
use desk_base::{List, Text};

/// The texts and flags of a session over other attributes than those that it was entered over.
#[derive(Debug, Drop)]
pub struct Moved {
    /// The typed text of each attribute.
    pub typed: List<Text>,
    /// For each attribute whether the clerk vouches for the typed text.
    pub confirmed: List<bool>,
    /// The places, among the attributes after, of those that were not there before, from 0 and ascending.
    pub added: List<u16>,
    /// The places, among the attributes before, of those that are not there after, from 0 and ascending.
    pub dropped: List<u16>,
}
