//! The changes that the lines of rows tell, one kind of row a function.
ghost use Rattle.std.specs.Prelude.{◌≡◌, map, Some, None, IfOk, IsErrOf};
ghost use Rattle.serde_json.specs.View.{view};
ghost use Rattle.desk_restore.specs.Reading.{batch_in, clerk_in, edition_in, record_in, region_in, rulebook_in};
ghost use Rattle.desk_restore.specs.Reading.{session_in, text_row_in};

use crate::parts::{InDump, body};
use desk_base::{List, Shared, Text};
use desk_words::{
    Act, BatchRow, Change, ClerkRow, Digest, EditionRow, RecordRow, RegionRow, RulebookRow,
    SessionRow, Stage, TextRow,
};
use fix_model::Region;
use json_parts::{Part, PartFault};
use serde_json::Value;
use std::alloc::Global;

/// A caller at a place.
pub fn clerk(alloc: Global, values: &[Value]) -> Result<Change, PartFault>
    ensures change { IfOk result (λ change. clerk_in (map view values.now) ≡ Some change) }
    ensures none { IsErrOf result PartFault.WrongForm → clerk_in (map view values.now) ≡ None }
{
    let [place, name, last, digest, act, target] = values else {
        return Err(PartFault::WrongForm);
    };
    let place = u32::read(alloc, &InDump, place)?;
    let name = Text::read(alloc, &InDump, name)?;
    let last = u64::read(alloc, &InDump, last)?;
    let digest = Digest::read(alloc, &InDump, digest)?;
    let act = Act::read(alloc, &InDump, act)?;
    let target = u32::read(alloc, &InDump, target)?;
    Ok(Change::Clerk(
        place,
        ClerkRow {
            name,
            last,
            digest,
            act,
            target,
        },
    ))
}

/// A schema or a master.
pub fn text_row(alloc: Global, values: &[Value]) -> Result<TextRow, PartFault>
    ensures row { IfOk result (λ row. text_row_in (map view values.now) ≡ Some row) }
    ensures none { IsErrOf result PartFault.WrongForm → text_row_in (map view values.now) ≡ None }
{
    let [_, name, version, text] = values else {
        return Err(PartFault::WrongForm);
    };
    let name = Text::read(alloc, &InDump, name)?;
    let version = u32::read(alloc, &InDump, version)?;
    let body = body(alloc, text)?;
    Ok(TextRow {
        name,
        version,
        body,
    })
}

/// A rulebook.
pub fn rulebook(alloc: Global, values: &[Value]) -> Result<Change, PartFault>
    ensures change { IfOk result (λ change. rulebook_in (map view values.now) ≡ Some change) }
    ensures none { IsErrOf result PartFault.WrongForm → rulebook_in (map view values.now) ≡ None }
{
    let [_, name, version, schema, text] = values else {
        return Err(PartFault::WrongForm);
    };
    let name = Text::read(alloc, &InDump, name)?;
    let version = u32::read(alloc, &InDump, version)?;
    let schema = u32::read(alloc, &InDump, schema)?;
    let body = body(alloc, text)?;
    Ok(Change::Rulebook(RulebookRow {
        name,
        version,
        schema,
        body,
    }))
}

/// An edition.
pub fn edition(alloc: Global, values: &[Value]) -> Result<Change, PartFault>
    ensures change { IfOk result (λ change. edition_in (map view values.now) ≡ Some change) }
    ensures none { IsErrOf result PartFault.WrongForm → edition_in (map view values.now) ≡ None }
{
    let [_, name, version, rulebook, masters, folded] = values else {
        return Err(PartFault::WrongForm);
    };
    let name = Text::read(alloc, &InDump, name)?;
    let version = u32::read(alloc, &InDump, version)?;
    let rulebook = u32::read(alloc, &InDump, rulebook)?;
    let masters = List::<u32>::read(alloc, &InDump, masters)?;
    let folded = List::<u16>::read(alloc, &InDump, folded)?;
    Ok(Change::Edition(EditionRow {
        name,
        version,
        rulebook,
        masters,
        folded,
    }))
}

/// A region.
pub fn region(alloc: Global, values: &[Value]) -> Result<Change, PartFault>
    ensures change { IfOk result (λ change. region_in (map view values.now) ≡ Some change) }
    ensures none { IsErrOf result PartFault.WrongForm → region_in (map view values.now) ≡ None }
{
    let [_, edition, attributes, rows] = values else {
        return Err(PartFault::WrongForm);
    };
    let edition = u32::read(alloc, &InDump, edition)?;
    let attrs = List::<u16>::read(alloc, &InDump, attributes)?;
    let rows = List::<List<Text>>::read(alloc, &InDump, rows)?;
    Ok(Change::Region(RegionRow {
        edition,
        region: Region { attrs, rows },
    }))
}

/// A session of a clerk at a place.
pub fn session(alloc: Global, values: &[Value]) -> Result<Change, PartFault>
    ensures change { IfOk result (λ change. session_in (map view values.now) ≡ Some change) }
    ensures none { IsErrOf result PartFault.WrongForm → session_in (map view values.now) ≡ None }
{
    let [clerk, place, edition, typed, confirmed, stage, batch] = values else {
        return Err(PartFault::WrongForm);
    };
    let clerk = u32::read(alloc, &InDump, clerk)?;
    let place = u32::read(alloc, &InDump, place)?;
    let edition = u32::read(alloc, &InDump, edition)?;
    let typed = List::<Text>::read(alloc, &InDump, typed)?;
    let confirmed = List::<bool>::read(alloc, &InDump, confirmed)?;
    let stage = Stage::read(alloc, &InDump, stage)?;
    let batch = u32::read(alloc, &InDump, batch)?;
    Ok(Change::Session(
        clerk,
        place,
        SessionRow {
            edition,
            typed: Shared::of(typed)?,
            confirmed: Shared::of(confirmed)?,
            stage,
            batch,
        },
    ))
}

/// A record of a clerk.
pub fn record_of(alloc: Global, values: &[Value]) -> Result<Change, PartFault>
    ensures change { IfOk result (λ change. record_in (map view values.now) ≡ Some change) }
    ensures none { IsErrOf result PartFault.WrongForm → record_in (map view values.now) ≡ None }
{
    let [clerk, _, session, texts, certain] = values else {
        return Err(PartFault::WrongForm);
    };
    let clerk = u32::read(alloc, &InDump, clerk)?;
    let session = u32::read(alloc, &InDump, session)?;
    let texts = List::<Text>::read(alloc, &InDump, texts)?;
    let certain = bool::read(alloc, &InDump, certain)?;
    Ok(Change::Record(
        clerk,
        RecordRow {
            session,
            texts,
            certain,
        },
    ))
}

/// A batch of a clerk.
pub fn batch(alloc: Global, values: &[Value]) -> Result<Change, PartFault>
    ensures change { IfOk result (λ change. batch_in (map view values.now) ≡ Some change) }
    ensures none { IsErrOf result PartFault.WrongForm → batch_in (map view values.now) ≡ None }
{
    let [clerk, _, edition, first, count] = values else {
        return Err(PartFault::WrongForm);
    };
    let clerk = u32::read(alloc, &InDump, clerk)?;
    let edition = u32::read(alloc, &InDump, edition)?;
    let first = u32::read(alloc, &InDump, first)?;
    let count = u32::read(alloc, &InDump, count)?;
    Ok(Change::Batch(
        clerk,
        BatchRow {
            edition,
            first,
            count,
        },
    ))
}
