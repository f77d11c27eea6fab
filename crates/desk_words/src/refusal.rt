//! Why a request is refused.
use crate::limit::Which;
use crate::rows::session::Stage;
use desk_base::Str;

/// What is not there.
#[derive(Clone, Copy, Debug, PartialEq, Eq)]
pub enum Kind {
    Schema,
    Master,
    Rulebook,
    Edition,
    Session,
    Region,
    Row,
    Rule,
}

/// Which reader refuses a body.
#[derive(Clone, Copy, Debug, PartialEq, Eq)]
pub enum Reader {
    Schema,
    Sheet,
    Rules,
    Bind,
    Index,
}

/// Why a request is refused.
#[derive(Debug, Drop)]
pub enum Refusal {
    /// No clerk has the name.
    NoClerk,
    /// The number is below the last accepted one, which is this.
    Stale(u64),
    /// The number is above the one that follows the last accepted one, which is this.
    Gap(u64),
    /// The number is the last accepted one, which is this, of another request.
    Reused(u64),
    NoSuch(Kind),
    /// The session is not active.
    Closed(Stage),
    /// The schema has no attribute with this name.
    UnknownAttr(Str),
    /// The text for this attribute has more than 200 bytes.
    ValueLong(Str),
    /// So many attributes are uncovered, and the commit takes none.
    NotCertain(u64),
    /// Two maximal runs end in two records.
    InConflict,
    /// The attribute with this name is not confirmed.
    NotConfirmed(Str),
    /// More than this number of these would stand.
    Limit(Which, u64),
    /// This reader refuses the body with this code and these two numbers (`docs/formats.md`).
    BadText(Reader, u64, u64, u64),
    /// The keeper failed.
    Unavailable,
    /// There was no memory.
    NoMemory,
    /// An attribute, a master or a column with this name stands twice.
    Twice(Str),
    /// A caller has this name.
    Taken(Str),
    /// The text is no name.
    BadName(Str),
    /// The row of a region with this number, counted from 1, has not one text for each attribute.
    RowWidth(u64),
    /// No rule fixes the attribute with this name.
    NotFixed(Str),
    /// The master has no column with this name.
    NoColumn(Str),
    /// The session stands on this version of its edition, and the one that is asked for is no newer.
    NotNewer(u64),
}
