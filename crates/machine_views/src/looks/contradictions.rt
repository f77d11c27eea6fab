//! Contradictions: where the master of a rule contradicts itself, with the texts that differ.
ghost use Rattle.std.specs.Prelude.{◌≡◌, ◌<◌, All, IfOk, length, map};
ghost use Rattle.desk_words.specs.Tables.{published_of, rows_of};
ghost use Rattle.machine_workplace.specs.Ready.{IsReady};
ghost use Rattle.fix_model.specs.Rules.{IsStepOf, from_text, rule_at};
ghost use Rattle.rule_contradictions.specs.Contradictions.{AreContradictions};
ghost use Rattle.machine_core.specs.DeskLook.Contradictions.{contradiction_line, contradiction_sheet};
ghost use Rattle.machine_core.specs.DeskLook.Contradictions.{contradictions_on, contradictions_shown};
ghost use Rattle.machine_core.specs.Outcomes.{Answers};
ghost use Rattle.machine_core.specs.Shelves.{bound_on};
ghost use Rattle.machine_views.specs.Answered.{IsNamedBook};
ghost use Rattle.machine_views.specs.Naming.{IsContradictionOf};

use crate::views::{master_name, name_at, rules};
use desk_base::{List, NoMemory, Str, Text, place_of};
use desk_words::{ContradictionLine, ContradictionSheet, Kind, Refusal, Tables};
use fix_model::{Book, Step};
use machine_core::{Stop, hold, named, shelved};
use machine_workplace::Workplace;
use master_index::{Shelved, SortedBook};
use rule_contradictions::{Contradiction, contradictions};
use std::alloc::Global;

/// The contradictions of the rule of this name, of the edition of this name and version. The edition comes first on the
/// shelf, and the entries that its index keeps for the rule are gone through once.
pub fn contradictions_shown(
    tables: &Tables,
    workplace: &mut Workplace,
    edition: &Str,
    version: u32,
    name: &Str,
) -> Result<ContradictionSheet, Stop>
    requires ready { IsReady (rows_of tables.now) workplace.old }
    ensures contradictions { Answers result
        (contradictions_shown (published_of (rows_of tables.now)) edition.now version name.now) }
    ensures ready { IsReady (rows_of tables.now) workplace.new }
{
    let place = named(tables.editions.as_slice(), edition, version, Kind::Edition)?;
    workplace.hold(tables, place)?;
    contradictions_on(workplace.alloc, shelved(&workplace.shelf, place), name)
}

/// The contradictions of the rule of this name, by the book of its edition and with its names.
fn contradictions_on(
    alloc: Global,
    shelved: &Shelved,
    name: &Str,
) -> Result<ContradictionSheet, Stop>
    requires named { IsNamedBook shelved.now }
    ensures { Answers result (contradictions_on (bound_on shelved.now) name.now) }
{
    let Some(place) = place_of(shelved.names.rules.as_slice(), name.as_str()) else {
        return Err(Stop::Refused(Refusal::NoSuch(Kind::Rule)));
    };
    let rule = place as u16;
    let found = contradictions(alloc, &shelved.book, rule)?;
    Ok(contradiction_sheet(alloc, shelved, rule, found.as_slice())?)
}

/// Contradictions of the rule at a place, counted from 0, by the names of the rule, of its master and of its head.
fn contradiction_sheet(
    alloc: Global,
    shelved: &Shelved,
    rule: u16,
    found: &[Contradiction],
) -> Result<ContradictionSheet, NoMemory>
    requires named { IsNamedBook shelved.now }
    requires rule { rule < length shelved.now.book.rules }
    requires found { AreContradictions shelved.now.book (rule_at shelved.now.book rule) found.now }
    ensures { IfOk result (λ sheet. sheet ≡ contradiction_sheet (bound_on shelved.now) rule found.now) }
{
    let place = usize::from(rule);
    let head = rules(&shelved.book)[place].head;
    Ok(ContradictionSheet {
        rule: name_at(shelved.names.rules.as_slice(), place)?,
        master: master_name(shelved, rule)?,
        attribute: name_at(shelved.names.attributes.as_slice(), usize::from(head))?,
        lines: contradiction_lines(alloc, shelved, rule, found)?,
    })
}

/// Contradictions of the rule at a place with their texts, in their order.
fn contradiction_lines(
    alloc: Global,
    shelved: &Shelved,
    rule: u16,
    found: &[Contradiction],
) -> Result<List<ContradictionLine>, NoMemory>
    requires named { IsNamedBook shelved.now }
    requires found { All (IsContradictionOf shelved.now.book rule) found.now }
    ensures { IfOk result (λ lines.
        lines ≡ map (contradiction_line shelved.now.book (rule_at shelved.now.book rule)) found.now) }
{
    let mut lines = List::new(alloc);
    'contradictions: for it in found {
        lines.push(contradiction_line(alloc, shelved, rule, *it)?)?;
    }
    Ok(lines)
}

/// A contradiction with its texts, and with rows counted from 1.
fn contradiction_line(
    alloc: Global,
    shelved: &Shelved,
    rule: u16,
    it: Contradiction,
) -> Result<ContradictionLine, NoMemory>
    requires named { IsNamedBook shelved.now }
    requires it { IsContradictionOf shelved.now.book rule it }
    ensures { IfOk result (λ line.
        line ≡ contradiction_line shelved.now.book (rule_at shelved.now.book rule) it) }
{
    Ok(ContradictionLine {
        row: it.row + 1,
        text: copied_text(alloc, &shelved.book, rule, it.row)?,
        other_row: it.other_row + 1,
        other_text: copied_text(alloc, &shelved.book, rule, it.other_row)?,
    })
}

/// The text that the rule at a place copies from a row, both counted from 0.
fn copied_text(alloc: Global, book: &SortedBook, rule: u16, row: u32) -> Result<Text, NoMemory>
    requires { IsStepOf book.now (record { rule = rule; row = row }) }
    ensures { IfOk result (λ text. text ≡ from_text book.now (rule_at book.now rule) row) }
{
    Text::of(alloc, Book::<()>::text(book, Step { rule, row }))
}
