//! What is looked at at the desk.
use crate::proposal::Proposal;
use desk_base::{List, Str};

/// What is published as a text, which stays as it was sent.
#[derive(Clone, Copy, Debug, PartialEq, Eq)]
pub enum Publication {
    Schema,
    Master,
    Rulebook,
}

/// What is looked at at the desk, whoever asks. Nothing changes.
#[derive(Debug)]
pub enum DeskLook {
    /// The report over the sessions of all clerks.
    Report,
    /// The rows that a master of a version of an edition gives for pairs of an attribute and a column.
    Derive {
        edition: Str,
        version: u32,
        master: Str,
        pairs: List<(Str, Str)>,
    },
    /// What stands, by its names.
    Published,
    /// What a version of an edition was made of.
    Edition {
        edition: Str,
        version: u32,
    },
    /// A row of a version of a master, counted from 1.
    Row {
        master: Str,
        version: u32,
        row: u32,
    },
    /// A region of a version of an edition, counted from 1 among those of the edition.
    Region {
        edition: Str,
        version: u32,
        region: u32,
    },
    /// A version of a schema, a master or a rulebook, as it was published.
    Body {
        what: Publication,
        name: Str,
        version: u32,
    },
    /// Where the master of a rule of a version of an edition contradicts itself.
    Contradictions {
        edition: Str,
        version: u32,
        rule: Str,
    },
    /// What publishing this next would come to.
    Check(Proposal),
    /// All rows of all tables.
    Dump,
}

/// One call lets it go (`docs/gate.md`).
impl Drop for DeskLook {
    fn drop(self) {
        match self {
            DeskLook::Report | DeskLook::Published | DeskLook::Dump => {}
            DeskLook::Derive {
                edition,
                version: _,
                master,
                pairs,
            } => {
                drop(edition);
                drop(master);
                drop(pairs);
            }
            DeskLook::Edition {
                edition: name,
                version: _,
            }
            | DeskLook::Row {
                master: name,
                version: _,
                row: _,
            }
            | DeskLook::Region {
                edition: name,
                version: _,
                region: _,
            }
            | DeskLook::Body {
                what: _,
                name,
                version: _,
            } => drop(name),
            DeskLook::Contradictions {
                edition,
                version: _,
                rule,
            } => {
                drop(edition);
                drop(rule);
            }
            DeskLook::Check(proposal) => drop(proposal),
        }
    }
}
