//! Where a request goes.
use desk_base::Str;
use desk_words::Publication;

/// The route of a request, with its parameters: the number `n` of a write among its caller's, and the names and numbers
/// of what it is about (docs/api.md).
#[derive(Debug, Drop)]
pub enum Route {
    AddClerk {
        n: u64,
    },
    AddSchema {
        n: u64,
    },
    AddMaster {
        n: u64,
        name: Str,
    },
    AddRulebook {
        n: u64,
        name: Str,
        schema: Str,
        version: u32,
    },
    AddEdition {
        n: u64,
        name: Str,
    },
    AddRegion {
        n: u64,
        edition: Str,
        version: u32,
    },
    Enter {
        clerk: Str,
        n: u64,
        edition: Str,
    },
    Confirm {
        clerk: Str,
        n: u64,
        session: u32,
    },
    Withdraw {
        clerk: Str,
        n: u64,
        session: u32,
    },
    Commit {
        clerk: Str,
        n: u64,
        session: u32,
    },
    Abandon {
        clerk: Str,
        n: u64,
        session: u32,
    },
    Batch {
        clerk: Str,
        n: u64,
        edition: Str,
    },
    View {
        clerk: Str,
        session: u32,
    },
    Suggest {
        clerk: Str,
        session: u32,
    },
    Preview {
        clerk: Str,
        session: u32,
    },
    Report {
        clerk: Str,
    },
    Records {
        clerk: Str,
        edition: Str,
        version: u32,
    },
    DeskReport,
    Explain {
        clerk: Str,
        session: u32,
        name: Str,
    },
    DeskDerive {
        edition: Str,
        version: u32,
    },
    AddDerived {
        n: u64,
        edition: Str,
        version: u32,
    },
    SeeCarry {
        clerk: Str,
        session: u32,
        version: u32,
    },
    Carry {
        clerk: Str,
        n: u64,
        session: u32,
    },
    Sessions {
        clerk: Str,
        from: u32,
    },
    DeskPublished,
    DeskEdition {
        edition: Str,
        version: u32,
    },
    DeskRow {
        master: Str,
        version: u32,
        row: u32,
    },
    DeskRegion {
        edition: Str,
        version: u32,
        region: u32,
    },
    Choices {
        clerk: Str,
        session: u32,
    },
    Blocked {
        clerk: Str,
        session: u32,
    },
    Body {
        what: Publication,
        name: Str,
        version: u32,
    },
    DeskContradictions {
        edition: Str,
        version: u32,
        rule: Str,
    },
    CheckSchema,
    CheckMaster {
        name: Str,
    },
    CheckRulebook {
        name: Str,
        schema: Str,
        version: u32,
    },
    CheckEdition {
        name: Str,
    },
    DeskDump,
}
