//! What a proposal would come to.
use desk_base::{List, Text};

/// What would be made of a proposal that fits, by its name and the version that it would get.
#[derive(Debug, Drop)]
pub enum Fits {
    Schema {
        name: Text,
        version: u32,
        attributes: List<Text>,
    },
    Master {
        name: Text,
        version: u32,
        columns: List<Text>,
        /// How many rows there are after the header.
        rows: u64,
    },
    Rulebook {
        name: Text,
        version: u32,
        /// The names of the rules, in their order.
        rules: List<Text>,
    },
    Edition {
        name: Text,
        version: u32,
        /// How many entries its index would have.
        entries: u64,
    },
}
