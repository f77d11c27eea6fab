//! What an answer is about, as it is shown.
use desk_base::{List, Text};

/// A step by the names of its rule and of that rule's master, with the row counted from 1.
#[derive(Debug, Drop)]
pub struct ShownStep {
    pub rule: Text,
    pub master: Text,
    pub row: u32,
}

/// What an attribute has at the end of a run.
#[derive(Debug, Drop)]
pub struct ShownEnd {
    pub text: Text,
    /// The step that fixed it there, or none.
    pub step: Option<ShownStep>,
}

/// An attribute whose texts differ at the ends of the two runs of a conflict.
#[derive(Debug, Drop)]
pub struct ShownChoice {
    pub name: Text,
    pub first: ShownEnd,
    pub second: ShownEnd,
}

/// What a record has at the end of a fix, and what the least step that dissents would have copied.
#[derive(Debug, Drop)]
pub struct ShownDissent {
    pub name: Text,
    pub text: Text,
    pub step: ShownStep,
    pub other: Text,
}

/// What a session is about: the choices of a conflict, or the dissent from a fix.
#[derive(Debug, Drop)]
pub struct Choices {
    /// The session's number among its clerk's, counted from 1.
    pub session: u32,
    pub choices: List<ShownChoice>,
    pub dissent: Option<ShownDissent>,
}
