//! Suggest: the region rows that fit a session, and what may be confirmed next.
ghost use Rattle.std.specs.Prelude.{◌≡◌, ◌<◌, All, IfOk, OnOk, length, map};
ghost use Rattle.desk_words.specs.Tables.{published_of, rows_of};
ghost use Rattle.desk_valid.specs.declared.bound.Bound.{Bound as BoundOf};
ghost use Rattle.desk_valid.specs.Valid.{AreValid};
ghost use Rattle.machine_workplace.specs.Ready.{IsReady};
ghost use Rattle.region_suggest.specs.Suggestions.{IsSuggestion};
ghost use Rattle.machine_core.specs.Answers.{state_of};
ghost use Rattle.machine_core.specs.Look.Suggest.{named_suggestion, regions_of, suggestion_of};
ghost use Rattle.machine_core.specs.Outcomes.{Answers};
ghost use Rattle.machine_core.specs.Own.{IsOwn};
ghost use Rattle.machine_core.specs.Shelves.{IsFullRoom, bound_on};
ghost use Rattle.machine_core.specs.Views.{name_at};
ghost use Rattle.machine_views.specs.Answered.{IsBookFor};
ghost use Rattle.machine_views.specs.Looking.{IsSessionFirst, IsSuggestedFor};

use crate::answers::{Asked, book_for};
use crate::views::{name_at, named_attributes};
use desk_base::{Duplicate, List, NoMemory, Steps, Text};
use desk_words::{RegionRow, SessionRow, Suggested, Tables};
use fix_engine::Work;
use fix_model::Region;
use machine_core::{Own, Stop, active_session, hold, state_of};
use machine_workplace::Workplace;
use master_index::Shelved;
use region_suggest::{Suggestion, suggest};
use std::alloc::Global;

/// What may be confirmed next in the active session of this number, counted from 1. Its edition comes first on the
/// shelf.
pub fn suggestion_of(
    tables: &Tables,
    workplace: &mut Workplace,
    own: &Own,
    number: u32,
) -> Result<Suggested, Stop>
    requires ready { IsReady (rows_of tables.now) workplace.old }
    requires own { IsOwn (rows_of tables.now) own.now }
    ensures suggestion { Answers result (suggestion_of (published_of (rows_of tables.now)) own.now number) }
    ensures first { OnOk result (IsSessionFirst own.now.sessions number workplace.new.shelf) }
    ensures ready { IsReady (rows_of tables.now) workplace.new }
{
    let session = active_session(own.sessions(), number)?;
    workplace.hold(tables, session.edition)?;
    let shelved = book_for(tables, &workplace.shelf, session);
    let asked = Asked { shelved, session };
    Ok(suggestion_on(workplace.alloc, tables, &asked, &mut workplace.room)?)
}

/// What is suggested for a session, by the book of its edition and with its names.
fn suggestion_on(
    alloc: Global,
    tables: &Tables,
    asked: &Asked,
    work: &mut Work,
) -> Result<Suggested, NoMemory>
    requires valid { AreValid (rows_of tables.now) }
    requires book { IsBookFor (published_of (rows_of tables.now)) asked.now.session.now asked.now.shelved.now }
    requires room { IsFullRoom work.old }
    ensures suggestion { IfOk result
        (IsSuggestedFor (published_of (rows_of tables.now)) asked.now.session.now (bound_on asked.now.shelved.now)) }
    ensures room { IsFullRoom work.new }
{
    let suggestion = advice_on(alloc, tables, asked, work)?;
    named_suggestion(alloc, asked.shelved.names.attributes.as_slice(), suggestion)
}

/// What is suggested for a session, by the book of its edition.
fn advice_on(
    alloc: Global,
    tables: &Tables,
    asked: &Asked,
    work: &mut Work,
) -> Result<Suggestion, NoMemory>
    requires valid { AreValid (rows_of tables.now) }
    requires book { IsBookFor (published_of (rows_of tables.now)) asked.now.session.now asked.now.shelved.now }
    requires room { IsFullRoom work.old }
    ensures suggestion { IfOk result (IsSuggestion asked.now.shelved.now.book (state_of asked.now.session.now)
        (regions_of tables.now.regions.items asked.now.session.now.edition)) }
    ensures room { IsFullRoom work.new }
{
    let regions = regions_of(alloc, tables.regions.as_slice(), asked.session.edition)?;
    let mut state = state_of(alloc, asked.session)?;
    suggest(
        alloc,
        work,
        &asked.shelved.book,
        &mut state,
        regions.as_slice(),
        &mut Steps::new(()),
    )
}

/// The regions of an edition, in their order.
fn regions_of(alloc: Global, rows: &[RegionRow], edition: u32) -> Result<List<Region>, NoMemory>
    ensures { IfOk result (λ regions. regions ≡ regions_of rows.now edition) }
{
    let mut regions = List::new(alloc);
    'rows: for row in rows {
        if row.edition == edition {
            regions.push(row.region.copy()?)?;
        }
    }
    Ok(regions)
}

/// A suggestion with the names of its attributes.
fn named_suggestion(
    alloc: Global,
    names: &[Text],
    suggestion: Suggestion,
) -> Result<Suggested, NoMemory>
    requires need { All (λ attribute. attribute < length names.now) suggestion.need }
    requires gains { All (λ gain. gain.0 < length names.now) suggestion.gains }
    ensures { IfOk result (λ named. (bound : BoundOf) → bound.names.attributes ≡ names.now
        → named ≡ named_suggestion bound suggestion) }
{
    let need = named_attributes(alloc, names, suggestion.need.as_slice())?;
    let gains = named_gains(alloc, names, suggestion.gains.as_slice())?;
    Ok(Suggested {
        regions: suggestion.regions,
        need,
        gains,
    })
}

/// What confirming attributes is hoped to gain, by their names.
fn named_gains(
    alloc: Global,
    names: &[Text],
    gains: &[(u16, u16)],
) -> Result<List<(Text, u16)>, NoMemory>
    requires { All (λ gain. gain.0 < length names.now) gains.now }
    ensures { IfOk result (λ named. named ≡ map (λ gain. (name_at names.now gain.0, gain.1)) gains.now) }
{
    let mut named = List::new(alloc);
    'gains: for gain in gains {
        named.push((name_at(names, usize::from(gain.0))?, gain.1))?;
    }
    Ok(named)
}
