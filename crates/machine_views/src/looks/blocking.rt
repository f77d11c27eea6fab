//! Blocked: what stands in the way of each attribute that is not covered at the end of a fix.
ghost use Rattle.std.specs.Prelude.{◌≡◌, ◌<◌, All, IfOk, Ok, length, map};
ghost use Rattle.desk_words.specs.Tables.{published_of, rows_of};
ghost use Rattle.machine_workplace.specs.Ready.{IsReady};
ghost use Rattle.fix_model.specs.Run.{IsFinal};
ghost use Rattle.fix_model.specs.States.{Fits};
ghost use Rattle.machine_core.specs.Checked.{Gives};
ghost use Rattle.machine_core.specs.Look.Blocked.{blocked_at, blocked_in, blocked_on, shown_blocked, shown_blocker};
ghost use Rattle.machine_core.specs.Look.Blocked.{shown_rule};
ghost use Rattle.machine_core.specs.Outcomes.{Answers};
ghost use Rattle.machine_core.specs.Own.{IsOwn};
ghost use Rattle.machine_core.specs.Shelves.{IsFullRoom, bound_on};
ghost use Rattle.machine_views.specs.Answered.{IsNamedBook, Suits};
ghost use Rattle.machine_views.specs.Naming.{IsBlockedOf, IsBlockedRuleOf, IsBlockerOf};

use crate::answers::{Asked, answer_to, book_for, brought_session};
use crate::looks::explaining::not_in_conflict;
use crate::views::{master_name, name_at, named_attributes};
use desk_base::{List, NoMemory};
use desk_words::{Blocked, ShownBlocked, ShownBlocker, ShownRule, Tables};
use fix_blockers::{BlockedAttribute, BlockedRule, Blocker, blocked};
use fix_engine::Work;
use fix_model::State;
use machine_core::{Own, Stop};
use machine_workplace::Workplace;
use master_index::{Shelved, SortedBook};
use std::alloc::Global;

/// What is blocked in the session of this number, counted from 1. Its edition comes first on the shelf.
pub fn blocked_at(
    tables: &Tables,
    workplace: &mut Workplace,
    own: &Own,
    number: u32,
) -> Result<Blocked, Stop>
    requires ready { IsReady (rows_of tables.now) workplace.old }
    requires own { IsOwn (rows_of tables.now) own.now }
    ensures blocked { Answers result (blocked_at (published_of (rows_of tables.now)) own.now number) }
    ensures ready { IsReady (rows_of tables.now) workplace.new }
{
    let session = brought_session(tables, workplace, own, number)?;
    let shelved = book_for(tables, &workplace.shelf, session);
    let asked = Asked { shelved, session };
    blocked_on(workplace.alloc, &asked, &mut workplace.room, number)
}

/// What is blocked in a session, by the book of its edition and with its names.
fn blocked_on(alloc: Global, asked: &Asked, work: &mut Work, number: u32) -> Result<Blocked, Stop>
    requires suits { Suits asked.now.shelved.now asked.now.session.now }
    requires room { IsFullRoom work.old }
    ensures blocked { Answers result (blocked_on number (bound_on asked.now.shelved.now) asked.now.session.now) }
    ensures room { IsFullRoom work.new }
{
    let answered = answer_to(alloc, work, asked.shelved, asked.session)?;
    not_in_conflict(answered.verdict)?;
    Ok(blocked_in(alloc, asked.shelved, number, &answered.shown)?)
}

/// What is blocked at a state where nothing fires, by names.
fn blocked_in(
    alloc: Global,
    shelved: &Shelved,
    number: u32,
    end: &State,
) -> Result<Blocked, NoMemory>
    requires named { IsNamedBook shelved.now }
    requires fits { Fits shelved.now.book end.now }
    requires ended { IsFinal shelved.now.book end.now }
    ensures { IfOk result (λ told. Gives (blocked_in number (bound_on shelved.now) end.now) (Ok told)) }
{
    let blocked = blocked::<(), SortedBook>(alloc, &shelved.book, end)?;
    let attributes = shown_attributes(alloc, shelved, blocked.as_slice())?;
    Ok(Blocked {
        session: number,
        attributes,
    })
}

/// Attributes with their rules, by names and in their order.
fn shown_attributes(
    alloc: Global,
    shelved: &Shelved,
    blocked: &[BlockedAttribute],
) -> Result<List<ShownBlocked>, NoMemory>
    requires named { IsNamedBook shelved.now }
    requires blocked { All (IsBlockedOf shelved.now.book) blocked.now }
    ensures { IfOk result (λ shown. shown ≡ map (shown_blocked (bound_on shelved.now)) blocked.now) }
{
    let mut shown = List::new(alloc);
    'attributes: for one in blocked {
        shown.push(shown_blocked(alloc, shelved, one)?)?;
    }
    Ok(shown)
}

/// An attribute with its rules, by names.
fn shown_blocked(
    alloc: Global,
    shelved: &Shelved,
    one: &BlockedAttribute,
) -> Result<ShownBlocked, NoMemory>
    requires named { IsNamedBook shelved.now }
    requires one { IsBlockedOf shelved.now.book one.now }
    ensures { IfOk result (λ shown. shown ≡ shown_blocked (bound_on shelved.now) one.now) }
{
    let names = shelved.names.attributes.as_slice();
    Ok(ShownBlocked {
        name: name_at(names, usize::from(one.attribute))?,
        rules: shown_rules(alloc, shelved, one.rules.as_slice())?,
    })
}

/// Rules with what stands in their way, by names and in their order.
fn shown_rules(
    alloc: Global,
    shelved: &Shelved,
    rules: &[BlockedRule],
) -> Result<List<ShownRule>, NoMemory>
    requires named { IsNamedBook shelved.now }
    requires rules { All (IsBlockedRuleOf shelved.now.book) rules.now }
    ensures { IfOk result (λ shown. shown ≡ map (shown_rule (bound_on shelved.now)) rules.now) }
{
    let mut shown = List::new(alloc);
    'rules: for one in rules {
        shown.push(shown_rule(alloc, shelved, one)?)?;
    }
    Ok(shown)
}

/// A rule with what stands in its way, by names.
fn shown_rule(alloc: Global, shelved: &Shelved, one: &BlockedRule) -> Result<ShownRule, NoMemory>
    requires named { IsNamedBook shelved.now }
    requires one { IsBlockedRuleOf shelved.now.book one.now }
    ensures { IfOk result (λ shown. shown ≡ shown_rule (bound_on shelved.now) one.now) }
{
    let names = shelved.names.rules.as_slice();
    Ok(ShownRule {
        rule: name_at(names, usize::from(one.rule))?,
        blocker: shown_blocker(alloc, shelved, one.rule, &one.blocker)?,
    })
}

/// What stands in the way of the rule at a place, counted from 0, by names.
fn shown_blocker(
    alloc: Global,
    shelved: &Shelved,
    rule: u16,
    blocker: &Blocker,
) -> Result<ShownBlocker, NoMemory>
    requires named { IsNamedBook shelved.now }
    requires rule { rule < length shelved.now.book.rules }
    requires blocker { IsBlockerOf shelved.now.book blocker.now }
    ensures { IfOk result (λ shown. shown ≡ shown_blocker (bound_on shelved.now) rule blocker.now) }
{
    let names = shelved.names.attributes.as_slice();
    match blocker {
        Blocker::Unknown(attributes) => {
            let unknown = named_attributes(alloc, names, attributes.as_slice())?;
            Ok(ShownBlocker::Unknown(unknown))
        }
        Blocker::Pattern(attribute) => {
            Ok(ShownBlocker::Pattern(name_at(names, usize::from(*attribute))?))
        }
        Blocker::NoRow => Ok(ShownBlocker::NoRow(master_name(shelved, rule)?)),
    }
}
