//! What a clerk looks at.
use desk_base::{List, Str};

/// What a clerk looks at. A session is named by its number among the clerk's, counted from 1.
#[derive(Debug, Drop)]
pub enum Look {
    View {
        session: u32,
    },
    /// The regions that would fit, and which attributes to confirm next.
    Suggest {
        session: u32,
    },
    /// The view that a Confirm of these cells would give.
    Preview {
        session: u32,
        cells: List<(Str, Str)>,
    },
    Report,
    /// The clerk's records over a version of an edition.
    Records {
        edition: Str,
        version: u32,
    },
    /// Why the attribute with this word is fixed.
    Explain {
        session: u32,
        name: Str,
    },
    /// What a Carry to this version would change.
    Carry {
        session: u32,
        version: u32,
    },
    /// The clerk's sessions from this number on.
    Sessions {
        from: u32,
    },
    /// What the session's conflict, or the dissent from its fix, is about.
    Choices {
        session: u32,
    },
    /// What stands in the way of each attribute that is not covered.
    Blocked {
        session: u32,
    },
}
