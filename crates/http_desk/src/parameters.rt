//! The parameters of a target, and its route with them.
ghost use Rattle.std.specs.Prelude.{◌≤◌, ◌<◌, ◌^◌, IfOk};
ghost use Rattle.http_cut.specs.declared.digits.TheConstants.{NUMBER_DIGITS};
ghost use Rattle.http_cut.specs.declared.route.DeskRoute.TheVariants as of_desk;
ghost use Rattle.http_cut.specs.declared.route.LookRoute.TheVariants as of_look;
ghost use Rattle.http_cut.specs.declared.route.Route.TheVariants as targets;
ghost use Rattle.http_desk.specs.Checked.{Finds};
ghost use Rattle.http_desk.specs.Parameters.{body_form, desk_form, look_form, made_in, number_at, route_in, text_at, write_in};

use crate::declined::Declined;
use crate::refusal::Refused;
use desk_base::Str;
use desk_json::Route;
use desk_words::Publication;
use http_cut::{
    ClerkRoute, DeskRoute, LookRoute, NUMBER_DIGITS, Route as Target, RouteMatch, StewardRoute,
    WRITE_DIGITS, positive,
};
use std::alloc::Global;

/// The route that a target asks for, with its parameters.
pub fn route_in(alloc: Global, found: &RouteMatch<'_, '_>) -> Result<Route, Declined>
    ensures { Finds result (route_in found.now.0 found.now.1) }
{
    match found.route() {
        Target::Steward(asked) => steward_route(alloc, found, asked),
        Target::Clerk(asked) => clerk_route(alloc, found, asked),
        Target::Look(asked) => look_route(alloc, found, asked),
        Target::Desk(asked) => desk_route(alloc, found, asked),
    }
}

/// The route of a write of the steward.
fn steward_route(
    alloc: Global,
    found: &RouteMatch<'_, '_>,
    asked: StewardRoute,
) -> Result<Route, Declined>
    ensures { Finds result (route_in (targets.Steward asked) found.now.1) }
{
    let n = write_in(found)?;
    match asked {
        StewardRoute::AddClerk => Ok(Route::AddClerk { n }),
        StewardRoute::AddSchema => Ok(Route::AddSchema { n }),
        StewardRoute::AddMaster => Ok(Route::AddMaster {
            n,
            name: text_at(alloc, found, "name")?,
        }),
        StewardRoute::AddRulebook => Ok(Route::AddRulebook {
            n,
            name: text_at(alloc, found, "name")?,
            schema: text_at(alloc, found, "schema")?,
            version: number_at(found, "version")?,
        }),
        StewardRoute::AddEdition => Ok(Route::AddEdition {
            n,
            name: text_at(alloc, found, "name")?,
        }),
        StewardRoute::AddRegion => Ok(Route::AddRegion {
            n,
            edition: text_at(alloc, found, "edition")?,
            version: number_at(found, "version")?,
        }),
        StewardRoute::AddDerived => Ok(Route::AddDerived {
            n,
            edition: text_at(alloc, found, "edition")?,
            version: number_at(found, "version")?,
        }),
    }
}

/// The route of a write of a clerk.
fn clerk_route(
    alloc: Global,
    found: &RouteMatch<'_, '_>,
    asked: ClerkRoute,
) -> Result<Route, Declined>
    ensures { Finds result (route_in (targets.Clerk asked) found.now.1) }
{
    let clerk = text_at(alloc, found, "clerk")?;
    let n = write_in(found)?;
    match asked {
        ClerkRoute::Enter => Ok(Route::Enter {
            clerk,
            n,
            edition: text_at(alloc, found, "edition")?,
        }),
        ClerkRoute::Confirm => Ok(Route::Confirm {
            clerk,
            n,
            session: number_at(found, "session")?,
        }),
        ClerkRoute::Withdraw => Ok(Route::Withdraw {
            clerk,
            n,
            session: number_at(found, "session")?,
        }),
        ClerkRoute::Commit => Ok(Route::Commit {
            clerk,
            n,
            session: number_at(found, "session")?,
        }),
        ClerkRoute::Abandon => Ok(Route::Abandon {
            clerk,
            n,
            session: number_at(found, "session")?,
        }),
        ClerkRoute::Batch => Ok(Route::Batch {
            clerk,
            n,
            edition: text_at(alloc, found, "edition")?,
        }),
        ClerkRoute::Carry => Ok(Route::Carry {
            clerk,
            n,
            session: number_at(found, "session")?,
        }),
    }
}

/// The route of a look of a clerk.
fn look_route(
    alloc: Global,
    found: &RouteMatch<'_, '_>,
    asked: LookRoute,
) -> Result<Route, Declined>
    ensures { Finds result (route_in (targets.Look asked) found.now.1) }
{
    let clerk = text_at(alloc, found, "clerk")?;
    match asked {
        LookRoute::View => Ok(Route::View {
            clerk,
            session: number_at(found, "session")?,
        }),
        LookRoute::Suggest => Ok(Route::Suggest {
            clerk,
            session: number_at(found, "session")?,
        }),
        LookRoute::Preview => Ok(Route::Preview {
            clerk,
            session: number_at(found, "session")?,
        }),
        LookRoute::Report => Ok(Route::Report { clerk }),
        LookRoute::Records => records_route(alloc, found, clerk),
        LookRoute::Explain => explain_route(alloc, found, clerk),
        LookRoute::SeeCarry => carry_route(found, clerk),
        LookRoute::Sessions => Ok(Route::Sessions {
            clerk,
            from: number_at(found, "from")?,
        }),
        LookRoute::Choices => Ok(Route::Choices {
            clerk,
            session: number_at(found, "session")?,
        }),
        LookRoute::Blocked => Ok(Route::Blocked {
            clerk,
            session: number_at(found, "session")?,
        }),
    }
}

/// The route of a look at the records of an edition.
fn records_route(alloc: Global, found: &RouteMatch<'_, '_>, clerk: Str) -> Result<Route, Declined>
    ensures { Finds result (made_in (look_form clerk of_look.Records) found.now.1) }
{
    Ok(Route::Records {
        clerk,
        edition: text_at(alloc, found, "edition")?,
        version: number_at(found, "version")?,
    })
}

/// The route of a look at why an attribute is fixed.
fn explain_route(alloc: Global, found: &RouteMatch<'_, '_>, clerk: Str) -> Result<Route, Declined>
    ensures { Finds result (made_in (look_form clerk of_look.Explain) found.now.1) }
{
    Ok(Route::Explain {
        clerk,
        session: number_at(found, "session")?,
        name: text_at(alloc, found, "name")?,
    })
}

/// The route of a look at a session that is carried to another version.
fn carry_route(found: &RouteMatch<'_, '_>, clerk: Str) -> Result<Route, Declined>
    ensures { Finds result (made_in (look_form clerk of_look.SeeCarry) found.now.1) }
{
    Ok(Route::SeeCarry {
        clerk,
        session: number_at(found, "session")?,
        version: number_at(found, "version")?,
    })
}

/// The route of what is asked for at the desk.
fn desk_route(
    alloc: Global,
    found: &RouteMatch<'_, '_>,
    asked: DeskRoute,
) -> Result<Route, Declined>
    ensures { Finds result (route_in (targets.Desk asked) found.now.1) }
{
    match asked {
        DeskRoute::DeskReport => Ok(Route::DeskReport),
        DeskRoute::DeskDerive => derive_route(alloc, found),
        DeskRoute::DeskPublished => Ok(Route::DeskPublished),
        DeskRoute::DeskEdition => edition_route(alloc, found),
        DeskRoute::DeskRow => row_route(alloc, found),
        DeskRoute::DeskRegion => region_route(alloc, found),
        DeskRoute::SchemaBody => body_route(alloc, found, Publication::Schema),
        DeskRoute::MasterBody => body_route(alloc, found, Publication::Master),
        DeskRoute::RulebookBody => body_route(alloc, found, Publication::Rulebook),
        DeskRoute::DeskContradictions => contradictions_route(alloc, found),
        DeskRoute::CheckSchema => Ok(Route::CheckSchema),
        DeskRoute::CheckMaster => Ok(Route::CheckMaster {
            name: text_at(alloc, found, "name")?,
        }),
        DeskRoute::CheckRulebook => rulebook_check_route(alloc, found),
        DeskRoute::CheckEdition => Ok(Route::CheckEdition {
            name: text_at(alloc, found, "name")?,
        }),
        DeskRoute::DeskDump => Ok(Route::DeskDump),
    }
}

/// The route of what rows a master gives for a region.
fn derive_route(alloc: Global, found: &RouteMatch<'_, '_>) -> Result<Route, Declined>
    ensures { Finds result (made_in (desk_form of_desk.DeskDerive) found.now.1) }
{
    Ok(Route::DeskDerive {
        edition: text_at(alloc, found, "edition")?,
        version: number_at(found, "version")?,
    })
}

/// The route of a version of an edition.
fn edition_route(alloc: Global, found: &RouteMatch<'_, '_>) -> Result<Route, Declined>
    ensures { Finds result (made_in (desk_form of_desk.DeskEdition) found.now.1) }
{
    Ok(Route::DeskEdition {
        edition: text_at(alloc, found, "edition")?,
        version: number_at(found, "version")?,
    })
}

/// The route of a row of a master.
fn row_route(alloc: Global, found: &RouteMatch<'_, '_>) -> Result<Route, Declined>
    ensures { Finds result (made_in (desk_form of_desk.DeskRow) found.now.1) }
{
    Ok(Route::DeskRow {
        master: text_at(alloc, found, "master")?,
        version: number_at(found, "version")?,
        row: number_at(found, "row")?,
    })
}

/// The route of a region of an edition.
fn region_route(alloc: Global, found: &RouteMatch<'_, '_>) -> Result<Route, Declined>
    ensures { Finds result (made_in (desk_form of_desk.DeskRegion) found.now.1) }
{
    Ok(Route::DeskRegion {
        edition: text_at(alloc, found, "edition")?,
        version: number_at(found, "version")?,
        region: number_at(found, "region")?,
    })
}

/// The route of the contradictions that a rule finds in its master.
fn contradictions_route(alloc: Global, found: &RouteMatch<'_, '_>) -> Result<Route, Declined>
    ensures { Finds result (made_in (desk_form of_desk.DeskContradictions) found.now.1) }
{
    Ok(Route::DeskContradictions {
        edition: text_at(alloc, found, "edition")?,
        version: number_at(found, "version")?,
        rule: text_at(alloc, found, "rule")?,
    })
}

/// The route of a check of a rulebook.
fn rulebook_check_route(alloc: Global, found: &RouteMatch<'_, '_>) -> Result<Route, Declined>
    ensures { Finds result (made_in (desk_form of_desk.CheckRulebook) found.now.1) }
{
    Ok(Route::CheckRulebook {
        name: text_at(alloc, found, "name")?,
        schema: text_at(alloc, found, "schema")?,
        version: number_at(found, "version")?,
    })
}

/// The route of what was published as a text.
fn body_route(
    alloc: Global,
    found: &RouteMatch<'_, '_>,
    what: Publication,
) -> Result<Route, Declined>
    ensures { Finds result (made_in (body_form what) found.now.1) }
{
    Ok(Route::Body {
        what,
        name: text_at(alloc, found, "name")?,
        version: number_at(found, "version")?,
    })
}

/// The text at a parameter.
fn text_at(alloc: Global, found: &RouteMatch<'_, '_>, name: &str) -> Result<Str, Declined>
    ensures { Finds result (text_at name.now found.now.1) }
{
    match found.text(name) {
        Some(text) => Ok(Str::new(alloc, text)?),
        None => Err(Declined::Refused(Refused::NoRoute)),
    }
}

/// The number of a write among its caller's.
fn write_in(found: &RouteMatch<'_, '_>) -> Result<u64, Declined>
    ensures { Finds result (write_in found.now.1) }
{
    digits_at(found, "n", WRITE_DIGITS)
}

/// The version or the number of a session at a parameter.
fn number_at(found: &RouteMatch<'_, '_>, name: &str) -> Result<u32, Declined>
    ensures { Finds result (number_at NUMBER_DIGITS name.now found.now.1) }
{
    let number = digits_at(found, name, NUMBER_DIGITS)?;
    Ok(number as u32)
}

/// The number of at most so many digits at a parameter.
fn digits_at(found: &RouteMatch<'_, '_>, name: &str, most: usize) -> Result<u64, Declined>
    requires { most ≤ 19 }
    ensures number { Finds result (number_at most name.now found.now.1) }
    ensures few { IfOk result (λ number. number < 10 ^ most) }
{
    let Some(text) = found.text(name) else {
        return Err(Declined::Refused(Refused::NoRoute));
    };
    match positive(text.as_bytes(), most) {
        Some(number) => Ok(number),
        None => Err(Declined::Refused(Refused::NoRoute)),
    }
}
