//! What a steward would publish.
use desk_base::{List, Str};

/// What would be published, as it is tried before.
#[derive(Debug, Drop)]
pub enum Proposal {
    /// The body names the schema.
    Schema {
        body: List<u8>,
    },
    Master {
        name: Str,
        body: List<u8>,
    },
    /// A rulebook over a version of a schema.
    Rulebook {
        name: Str,
        schema: Str,
        version: u32,
        body: List<u8>,
    },
    /// A version of a rulebook with versions of masters, and the attributes that are compared without regard to
    /// ASCII case.
    Edition {
        name: Str,
        rulebook: (Str, u32),
        masters: List<(Str, u32)>,
        folded: List<Str>,
    },
}
