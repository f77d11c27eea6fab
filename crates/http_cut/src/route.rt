//! What targets ask for, and the table of their patterns.
ghost use Rattle.std.specs.Prelude.{◌≡◌, ◌≤◌};
ghost use Rattle.desk_base.specs.declared.limits.TheConstants.{MAX_LONG_BODY};
ghost use Rattle.http_cut.specs.Routes.{method_of, route_limit};

use crate::digits::{NUMBER_DIGITS, WRITE_DIGITS};
use desk_base::{MAX_BATCH_BODY, MAX_BODY, MAX_LONG_BODY};

/// The methods that routes have.
#[derive(Clone, Copy, Debug, PartialEq, Eq)]
pub enum Method {
    Get,
    Post,
}

/// What a target asks for, by who asks.
#[derive(Clone, Copy, Debug, PartialEq, Eq)]
pub enum Route {
    /// A write of the steward.
    Steward(StewardRoute),
    /// A write of a clerk.
    Clerk(ClerkRoute),
    /// A look of a clerk.
    Look(LookRoute),
    /// What whoever stands at the desk asks for.
    Desk(DeskRoute),
}

/// The writes of the steward.
#[derive(Clone, Copy, Debug, PartialEq, Eq)]
pub enum StewardRoute {
    AddClerk,
    AddSchema,
    AddMaster,
    AddRulebook,
    AddEdition,
    AddRegion,
    AddDerived,
}

/// The writes of a clerk.
#[derive(Clone, Copy, Debug, PartialEq, Eq)]
pub enum ClerkRoute {
    Enter,
    Confirm,
    Withdraw,
    Commit,
    Abandon,
    Batch,
    Carry,
}

/// The looks of a clerk.
#[derive(Clone, Copy, Debug, PartialEq, Eq)]
pub enum LookRoute {
    View,
    Suggest,
    Preview,
    Report,
    Records,
    Explain,
    SeeCarry,
    Sessions,
    Choices,
    Blocked,
}

/// What is asked for at the desk, by no clerk.
#[derive(Clone, Copy, Debug, PartialEq, Eq)]
pub enum DeskRoute {
    DeskReport,
    DeskDerive,
    DeskPublished,
    DeskEdition,
    DeskRow,
    DeskRegion,
    SchemaBody,
    MasterBody,
    RulebookBody,
    DeskContradictions,
    CheckSchema,
    CheckMaster,
    CheckRulebook,
    CheckEdition,
    DeskDump,
}

/// The table: each pattern with what it asks for (`docs/formats.md`, *Routes*).
pub const PATTERNS: [(&str, Route); 39] = [
    (
        "/steward/{n}/clerks",
        Route::Steward(StewardRoute::AddClerk),
    ),
    (
        "/steward/{n}/schemas",
        Route::Steward(StewardRoute::AddSchema),
    ),
    (
        "/steward/{n}/masters/{name}",
        Route::Steward(StewardRoute::AddMaster),
    ),
    (
        "/steward/{n}/rulebooks/{name}/{schema}/{version}",
        Route::Steward(StewardRoute::AddRulebook),
    ),
    (
        "/steward/{n}/editions/{name}",
        Route::Steward(StewardRoute::AddEdition),
    ),
    (
        "/steward/{n}/regions/{edition}/{version}",
        Route::Steward(StewardRoute::AddRegion),
    ),
    (
        "/steward/{n}/derive/{edition}/{version}",
        Route::Steward(StewardRoute::AddDerived),
    ),
    (
        "/do/{clerk}/{n}/open/{edition}",
        Route::Clerk(ClerkRoute::Enter),
    ),
    (
        "/do/{clerk}/{n}/confirm/{session}",
        Route::Clerk(ClerkRoute::Confirm),
    ),
    (
        "/do/{clerk}/{n}/withdraw/{session}",
        Route::Clerk(ClerkRoute::Withdraw),
    ),
    (
        "/do/{clerk}/{n}/commit/{session}",
        Route::Clerk(ClerkRoute::Commit),
    ),
    (
        "/do/{clerk}/{n}/abandon/{session}",
        Route::Clerk(ClerkRoute::Abandon),
    ),
    (
        "/do/{clerk}/{n}/batch/{edition}",
        Route::Clerk(ClerkRoute::Batch),
    ),
    (
        "/do/{clerk}/{n}/carry/{session}",
        Route::Clerk(ClerkRoute::Carry),
    ),
    (
        "/see/{clerk}/sessions/{session}",
        Route::Look(LookRoute::View),
    ),
    (
        "/see/{clerk}/suggest/{session}",
        Route::Look(LookRoute::Suggest),
    ),
    (
        "/see/{clerk}/preview/{session}",
        Route::Look(LookRoute::Preview),
    ),
    ("/see/{clerk}/report", Route::Look(LookRoute::Report)),
    (
        "/see/{clerk}/records/{edition}/{version}",
        Route::Look(LookRoute::Records),
    ),
    (
        "/see/{clerk}/explain/{session}/{name}",
        Route::Look(LookRoute::Explain),
    ),
    (
        "/see/{clerk}/carry/{session}/{version}",
        Route::Look(LookRoute::SeeCarry),
    ),
    ("/desk/report", Route::Desk(DeskRoute::DeskReport)),
    (
        "/desk/derive/{edition}/{version}",
        Route::Desk(DeskRoute::DeskDerive),
    ),
    ("/see/{clerk}/list/{from}", Route::Look(LookRoute::Sessions)),
    ("/desk/published", Route::Desk(DeskRoute::DeskPublished)),
    (
        "/desk/editions/{edition}/{version}",
        Route::Desk(DeskRoute::DeskEdition),
    ),
    (
        "/desk/rows/{master}/{version}/{row}",
        Route::Desk(DeskRoute::DeskRow),
    ),
    (
        "/desk/regions/{edition}/{version}/{region}",
        Route::Desk(DeskRoute::DeskRegion),
    ),
    (
        "/see/{clerk}/choices/{session}",
        Route::Look(LookRoute::Choices),
    ),
    (
        "/see/{clerk}/blocked/{session}",
        Route::Look(LookRoute::Blocked),
    ),
    (
        "/desk/schemas/{name}/{version}",
        Route::Desk(DeskRoute::SchemaBody),
    ),
    (
        "/desk/masters/{name}/{version}",
        Route::Desk(DeskRoute::MasterBody),
    ),
    (
        "/desk/rulebooks/{name}/{version}",
        Route::Desk(DeskRoute::RulebookBody),
    ),
    (
        "/desk/contradictions/{edition}/{version}/{rule}",
        Route::Desk(DeskRoute::DeskContradictions),
    ),
    ("/desk/check/schema", Route::Desk(DeskRoute::CheckSchema)),
    (
        "/desk/check/master/{name}",
        Route::Desk(DeskRoute::CheckMaster),
    ),
    (
        "/desk/check/rulebook/{name}/{schema}/{version}",
        Route::Desk(DeskRoute::CheckRulebook),
    ),
    (
        "/desk/check/edition/{name}",
        Route::Desk(DeskRoute::CheckEdition),
    ),
    ("/desk/dump", Route::Desk(DeskRoute::DeskDump)),
];

/// The parameters of patterns that are numbers, each with the most digits that it has.
pub const NUMBERS: [(&str, usize); 6] = [
    ("n", WRITE_DIGITS),
    ("version", NUMBER_DIGITS),
    ("session", NUMBER_DIGITS),
    ("from", NUMBER_DIGITS),
    ("row", NUMBER_DIGITS),
    ("region", NUMBER_DIGITS),
];

impl Route {
    /// The method by which it is asked for: what keeps nothing is asked for by GET, but for a preview, for what a
    /// master gives and for checks, which have a body.
    pub fn method(self) -> Method
        ensures { result ≡ method_of self }
    {
        match self {
            Route::Look(LookRoute::Preview) | Route::Desk(DeskRoute::DeskDerive) => Method::Post,
            Route::Desk(DeskRoute::CheckSchema | DeskRoute::CheckMaster) => Method::Post,
            Route::Desk(DeskRoute::CheckRulebook | DeskRoute::CheckEdition) => Method::Post,
            Route::Look(_) | Route::Desk(_) => Method::Get,
            Route::Steward(_) | Route::Clerk(_) => Method::Post,
        }
    }

    /// The most bytes of its body: long are the bodies of a master, published or checked, of a region's rows and of a
    /// batch.
    pub fn body_limit(self) -> u64
        ensures limit { result ≡ route_limit self }
        ensures few { result ≤ MAX_LONG_BODY }
    {
        match self {
            Route::Steward(StewardRoute::AddMaster | StewardRoute::AddRegion) =>
                MAX_LONG_BODY as u64,
            Route::Desk(DeskRoute::CheckMaster) => MAX_LONG_BODY as u64,
            Route::Clerk(ClerkRoute::Batch) => MAX_BATCH_BODY as u64,
            _ => MAX_BODY as u64,
        }
    }
}
