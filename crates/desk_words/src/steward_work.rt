//! What the steward writes.
use crate::proposal::Proposal;
use desk_base::{List, Str};

/// What the steward writes. Nothing that is published is ever changed.
#[derive(Debug)]
pub enum StewardWork {
    AddClerk {
        name: Str,
    },
    /// The next version of what is proposed.
    Publish(Proposal),
    /// A region of a version of an edition: in each row a text for each of the attributes.
    AddRegion {
        edition: Str,
        version: u32,
        attrs: List<Str>,
        rows: List<List<Str>>,
    },
    /// A region of a version of an edition, of rows that one of its masters gives for pairs of an attribute and a
    /// column: those from a place on, counted from 1, and no more than a region may have.
    AddDerived {
        edition: Str,
        version: u32,
        master: Str,
        pairs: List<(Str, Str)>,
        from: u32,
    },
}

/// One call lets it go (`docs/gate.md`).
impl Drop for StewardWork {
    fn drop(self) {
        match self {
            StewardWork::AddClerk { name } => drop(name),
            StewardWork::Publish(proposal) => drop(proposal),
            StewardWork::AddRegion {
                edition,
                version: _,
                attrs,
                rows,
            } => {
                drop(edition);
                drop(attrs);
                drop(rows);
            }
            StewardWork::AddDerived {
                edition,
                version: _,
                master,
                pairs,
                from: _,
            } => {
                drop(edition);
                drop(master);
                drop(pairs);
            }
        }
    }
}
