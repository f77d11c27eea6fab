//! The answer to a case over the indexes of its masters.
use case_json::{Case, case_of};
use desk_base::List;
use master_index::{MapBook, SortedBook};
use once_run::answer_over;
use std::alloc::Global;
use std::test::Fail;

/// The line that answers the case of an input over a map of its masters.
pub fn line_over_map(alloc: Global, input: &[u8]) -> Result<List<u8>, Fail> {
    let Case {
        attributes,
        kit,
        state,
    } = case_of(alloc, input)?;
    let book = MapBook::build(alloc, kit)?;
    Ok(answer_over::<MapBook>(alloc, attributes.as_slice(), &book, state)?)
}

/// The line that answers the case of an input over a sorted index of its masters.
pub fn line_over_sorted(alloc: Global, input: &[u8]) -> Result<List<u8>, Fail> {
    let Case {
        attributes,
        kit,
        state,
    } = case_of(alloc, input)?;
    let book = SortedBook::build(alloc, kit)?;
    Ok(answer_over::<SortedBook>(alloc, attributes.as_slice(), &book, state)?)
}
