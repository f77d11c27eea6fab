//! What a step that dissents says.
use desk_base::Text;
use fix_model::Step;

/// What a record has, and what a step would have given it.
#[derive(Debug, Drop)]
pub struct Dissent {
    /// The head of the step's rule, counted from 0.
    pub attribute: u16,
    /// The text that the record has there.
    pub text: Text,
    pub step: Step,
    /// The text that the step would have copied.
    pub other: Text,
}
