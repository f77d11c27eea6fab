//! What the ends of two runs leave to choose between.
use desk_base::Text;
use fix_model::Step;

/// What an attribute has at the end of a run.
#[derive(Debug, Drop)]
pub struct Ending {
    pub text: Text,
    /// The step that fixed it there, or none where the run leaves it as it was.
    pub step: Option<Step>,
}

/// An attribute whose texts differ at the ends of two runs.
#[derive(Debug, Drop)]
pub struct Choice {
    /// Counted from 0.
    pub attribute: u16,
    pub first: Ending,
    pub second: Ending,
}
