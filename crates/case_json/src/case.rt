//! The case of one run: the record that is keyed, and the rules and master data that fix it.
use desk_base::{List, Text};
use fix_model::{Kit, State};

/// A case, as the bytes of one input state it.
#[derive(Debug, Drop)]
pub struct Case {
    /// The words of the attributes, 1 to 48 and each another.
    pub attributes: List<Text>,
    /// The rules over these attributes, with their master data.
    pub kit: Kit,
    /// The typed texts, and which of them are confirmed.
    pub state: State,
}
