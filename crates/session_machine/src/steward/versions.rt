//! A clerk, and new versions of schemas, masters, rulebooks and editions, each with its reply.
ghost use Rattle.std.specs.Prelude.{◌≡◌, ◌<◌, ◌^◌};
ghost use Rattle.desk_words.specs.Tables.{rows_of};
ghost use Rattle.desk_words.specs.declared.proposal.Proposal.{Proposal};
ghost use Rattle.desk_words.specs.declared.steward_work.StewardWork.{StewardWork};
ghost use Rattle.desk_valid.specs.Tallies.{master_cells};
ghost use Rattle.desk_valid.specs.Valid.{AreValid};
ghost use Rattle.machine_core.specs.Outcomes.{Answers};
ghost use Rattle.session_machine.specs.Made.{made_by};

use desk_base::{Duplicate, List, Str};
use desk_words::{Act, Change, Made, Proposal, Tables};
use machine_core::{Making, Stop, clerk_row, edition_row, master_row, rulebook_row, schema_row};
use std::alloc::Global;

/// A new clerk.
pub fn add_clerk(alloc: Global, tables: &Tables, name: &Str) -> Result<(Made, Making), Stop>
    requires { AreValid (rows_of tables.now) }
    ensures { Answers result (made_by (rows_of tables.now) (StewardWork.AddClerk name.now)) }
{
    let rows = tables.clerks.as_slice();
    let row = clerk_row(alloc, rows, name)?;
    let made = Made::Clerk(row.name.copy()?);
    let target = rows.len() as u32;
    let change = Change::Clerk(target, row);
    Ok((
        made,
        Making {
            change,
            act: Act::Clerk,
            target,
        },
    ))
}

/// The next version of what is proposed, where the masters so far have so many cells.
pub fn publish(
    alloc: Global,
    tables: &Tables,
    cells: u64,
    proposal: &Proposal,
) -> Result<(Made, Making), Stop>
    requires valid { AreValid (rows_of tables.now) }
    requires cells { cells ≡ master_cells tables.now.masters.items }
    requires few { cells < 2 ^ 63 }
    ensures { Answers result (made_by (rows_of tables.now) (StewardWork.Publish proposal.now)) }
{
    match proposal {
        Proposal::Schema { body } => add_schema(alloc, tables, body),
        Proposal::Master { name, body } => add_master(alloc, tables, cells, name, body),
        Proposal::Rulebook {
            name,
            schema,
            version,
            body,
        } => add_rulebook(alloc, tables, name, schema, *version, body),
        Proposal::Edition {
            name,
            rulebook,
            masters,
            folded,
        } => add_edition(alloc, tables, name, rulebook, masters, folded),
    }
}

/// The next version of a schema's name.
fn add_schema(alloc: Global, tables: &Tables, body: &List<u8>) -> Result<(Made, Making), Stop>
    requires { AreValid (rows_of tables.now) }
    ensures { Answers result (made_by (rows_of tables.now) (StewardWork.Publish (Proposal.Schema body.now))) }
{
    let rows = tables.schemas.as_slice();
    let row = schema_row(alloc, rows, body)?;
    let made = Made::Schema(row.name.copy()?, row.version);
    let target = rows.len() as u32;
    let change = Change::Schema(row);
    Ok((
        made,
        Making {
            change,
            act: Act::Schema,
            target,
        },
    ))
}

/// The next version of a master's name, where the masters so far have so many cells.
fn add_master(
    alloc: Global,
    tables: &Tables,
    cells: u64,
    name: &Str,
    body: &List<u8>,
) -> Result<(Made, Making), Stop>
    requires valid { AreValid (rows_of tables.now) }
    requires cells { cells ≡ master_cells tables.now.masters.items }
    requires few { cells < 2 ^ 63 }
    ensures { Answers result (made_by (rows_of tables.now) (StewardWork.Publish (Proposal.Master name.now body.now))) }
{
    let rows = tables.masters.as_slice();
    let row = master_row(alloc, rows, cells, name, body)?;
    let made = Made::Master(row.name.copy()?, row.version);
    let target = rows.len() as u32;
    let change = Change::Master(row);
    Ok((
        made,
        Making {
            change,
            act: Act::Master,
            target,
        },
    ))
}

/// The next version of a rulebook's name, over a version of a schema.
fn add_rulebook(
    alloc: Global,
    tables: &Tables,
    name: &Str,
    schema: &Str,
    version: u32,
    body: &List<u8>,
) -> Result<(Made, Making), Stop>
    requires { AreValid (rows_of tables.now) }
    ensures { Answers result
        (made_by (rows_of tables.now) (StewardWork.Publish (Proposal.Rulebook name.now schema.now version body.now))) }
{
    let row = rulebook_row(alloc, tables, name, schema, version, body)?;
    let made = Made::Rulebook(row.name.copy()?, row.version);
    let target = tables.rulebooks.len() as u32;
    let change = Change::Rulebook(row);
    Ok((
        made,
        Making {
            change,
            act: Act::Rulebook,
            target,
        },
    ))
}

/// The next version of an edition's name, of a version of a rulebook and versions of masters.
fn add_edition(
    alloc: Global,
    tables: &Tables,
    name: &Str,
    rulebook: &(Str, u32),
    masters: &List<(Str, u32)>,
    folded: &List<Str>,
) -> Result<(Made, Making), Stop>
    requires { AreValid (rows_of tables.now) }
    ensures { Answers result (made_by (rows_of tables.now)
        (StewardWork.Publish (Proposal.Edition name.now rulebook.now masters.now folded.now))) }
{
    let (masters, folded) = (masters.as_slice(), folded.as_slice());
    let row = edition_row(alloc, tables, name, rulebook, masters, folded)?;
    let made = Made::Edition(row.name.copy()?, row.version);
    let target = tables.editions.len() as u32;
    let change = Change::Edition(row);
    Ok((
        made,
        Making {
            change,
            act: Act::Edition,
            target,
        },
    ))
}
