//! Withdraw: attributes of a session are confirmed no longer. Their texts stay.
ghost use Rattle.std.specs.Prelude.{◌≡◌, ◌<◌, ◌≤◌, All, OnOk, IfOk, length};
ghost use Rattle.desk_words.specs.Tables.{published_of, rows_of};
ghost use Rattle.machine_workplace.specs.Ready.{IsReady};
ghost use Rattle.machine_core.specs.Checked.{each};
ghost use Rattle.machine_core.specs.Clerk.Withdraw.{cleared, confirmed_place, withdraw, withdraw_row};
ghost use Rattle.machine_core.specs.Outcomes.{Finds};
ghost use Rattle.machine_core.specs.Own.{IsOwn};

use crate::clerk::opening::{open_session, with_texts};
use desk_base::{Duplicate, List, NoMemory, Shared, Str, Text};
use desk_words::{Act, Refusal, SessionRow, Tables};
use machine_core::{Deed, Own, Stop, attribute_of};
use machine_workplace::Workplace;
use std::alloc::Global;

/// Withdraw: attributes of a session are confirmed no longer. All names are tested against the session as it stands.
pub fn withdraw_deed(
    tables: &Tables,
    workplace: &mut Workplace,
    own: &Own,
    number: u32,
    names: &[Str],
) -> Result<Deed, Stop>
    requires ready { IsReady (rows_of tables.now) workplace.old }
    requires own { IsOwn (rows_of tables.now) own.now }
    ensures finds { Finds result (withdraw (published_of (rows_of tables.now)) own.now number names.now) }
    ensures ready { IsReady (rows_of tables.now) workplace.new }
{
    let session = withdraw_row(tables, workplace, own, number, names)?;
    Ok(Deed::puts(workplace.alloc, number - 1, session, Act::Changed)?)
}

/// The session without these attributes confirmed.
fn withdraw_row(
    tables: &Tables,
    workplace: &mut Workplace,
    own: &Own,
    number: u32,
    names: &[Str],
) -> Result<SessionRow, Stop>
    requires ready { IsReady (rows_of tables.now) workplace.old }
    requires own { IsOwn (rows_of tables.now) own.now }
    ensures finds { Finds result (withdraw_row (published_of (rows_of tables.now)) own.now number names.now) }
    ensures counted { OnOk result (1 ≤ number) }
    ensures ready { IsReady (rows_of tables.now) workplace.new }
{
    let session = open_session(tables, workplace, own, number)?;
    let attributes = workplace.attributes(session.edition);
    let places = confirmed_places(
        workplace.alloc,
        attributes,
        session.confirmed.as_slice(),
        names,
    )?;
    Ok(without_flags(workplace.alloc, session, places.as_slice())?)
}

/// The session with the flags at these places taken off.
fn without_flags(
    alloc: Global,
    session: &SessionRow,
    places: &[usize],
) -> Result<SessionRow, NoMemory>
    requires { All (λ place. place < length session.now.confirmed) places.now }
    ensures { IfOk result (λ after. after ≡ record session.now {
      confirmed = cleared session.now.confirmed places.now;
    }) }
{
    let typed = session.typed.copy()?;
    let mut confirmed = session.confirmed.to_list(alloc)?;
    clear(&mut confirmed, places);
    Ok(with_texts(session, typed, Shared::of(confirmed)?))
}

/// The places of confirmed attributes with these names.
fn confirmed_places(
    alloc: Global,
    attributes: &[Text],
    confirmed: &[bool],
    names: &[Str],
) -> Result<List<usize>, Stop>
    requires { length confirmed.now ≡ length attributes.now }
    ensures finds { Finds result (each (confirmed_place attributes.now confirmed.now) names.now) }
    ensures within { IfOk result (All (λ place. place < length confirmed.now)) }
{
    let mut places = List::new(alloc);
    'names: for name in names {
        let place = confirmed_place(attributes, confirmed, name)?;
        places.push(place)?;
    }
    Ok(places)
}

/// The place of a confirmed attribute with this name.
fn confirmed_place(attributes: &[Text], confirmed: &[bool], name: &Str) -> Result<usize, Stop>
    requires { length confirmed.now ≡ length attributes.now }
    ensures finds { Finds result (confirmed_place attributes.now confirmed.now name.now) }
    ensures within { IfOk result (λ place. place < length confirmed.now) }
{
    let place = attribute_of(attributes, name)?;
    if confirmed[place] {
        Ok(place)
    } else {
        Err(Stop::Refused(Refusal::NotConfirmed(name.copy()?)))
    }
}

/// Takes the flags at these places off.
fn clear(flags: &mut List<bool>, places: &[usize])
    requires { All (λ place. place < length flags.old) places.now }
    ensures { flags.new ≡ cleared flags.old places.now }
{
    'places: for place in places {
        flags.set(*place, false);
    }
}
