//! The bodies that are TOML, CSV or rule text, which are passed on as they stand.
ghost use Rattle.std.specs.Prelude.{◌≡◌, IfOk};
ghost use Rattle.desk_words.specs.declared.clerk_work.ClerkWork.TheVariants as clerk_works;
ghost use Rattle.desk_words.specs.declared.proposal.Proposal.TheVariants as proposals;

use desk_base::{Duplicate, List, NoMemory, Str};
use desk_words::{ClerkWork, Proposal};
use std::alloc::Global;

fn bytes(alloc: Global, body: &[u8]) -> Result<List<u8>, NoMemory>
    ensures { IfOk result (λ made. made ≡ body.now) }
{
    Ok(List::from_vec(Vec::from_slice(alloc, body)?))
}

pub fn proposed_schema(alloc: Global, body: &[u8]) -> Result<Proposal, NoMemory>
    ensures { IfOk result (λ proposal. proposal ≡ proposals.Schema body.now) }
{
    Ok(Proposal::Schema {
        body: bytes(alloc, body)?,
    })
}

pub fn proposed_master(alloc: Global, name: &Str, body: &[u8]) -> Result<Proposal, NoMemory>
    ensures { IfOk result (λ proposal. proposal ≡ proposals.Master name.now body.now) }
{
    Ok(Proposal::Master {
        name: name.copy()?,
        body: bytes(alloc, body)?,
    })
}

pub fn proposed_rulebook(
    alloc: Global,
    name: &Str,
    schema: &Str,
    version: u32,
    body: &[u8],
) -> Result<Proposal, NoMemory>
    ensures { IfOk result (λ proposal. proposal ≡ proposals.Rulebook name.now schema.now version body.now) }
{
    Ok(Proposal::Rulebook {
        name: name.copy()?,
        schema: schema.copy()?,
        version,
        body: bytes(alloc, body)?,
    })
}

pub fn batch(alloc: Global, edition: &Str, body: &[u8]) -> Result<ClerkWork, NoMemory>
    ensures { IfOk result (λ work. work ≡ clerk_works.Batch edition.now body.now) }
{
    Ok(ClerkWork::Batch {
        edition: edition.copy()?,
        body: bytes(alloc, body)?,
    })
}
