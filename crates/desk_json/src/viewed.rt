//! How a session is shown.
ghost use Rattle.std.specs.Prelude.{◌≡◌, OnOk};
ghost use Rattle.json_parts.specs.Writing.{with_value};
ghost use Rattle.desk_json.specs.Viewed.{conflict_shown, fix_shown, fixed_shown, plain_shown};
ghost use Rattle.desk_json.specs.Viewed.{view_cell_shown, view_shown};

use crate::shown::{Show, field};
use desk_base::{List, Text};
use desk_words::{Outcome, Shown, View, ViewCell};
use json_parts::JsonText;
use std::alloc::AllocError;

/// An attribute with its value, and how it came to it.
impl Show for ViewCell {
    ghost shown = { view_cell_shown };

    fn show(&self, out: &mut JsonText) -> Result<(), AllocError> {
        match &self.shown {
            Shown::Uncovered => show_plain(out, self, "open"),
            Shown::Confirmed => show_plain(out, self, "confirmed"),
            Shown::Fixed { rule, master, row } => show_fixed(out, self, rule, master, *row),
        }
    }
}

/// A cell that no rule fixes.
fn show_plain(out: &mut JsonText, cell: &ViewCell, word: &str) -> Result<(), AllocError>
    ensures { OnOk result (out.new ≡ with_value out.old (plain_shown cell.now word.now)) }
{
    out.begin_array()?;
    cell.name.show(out)?;
    cell.value.show(out)?;
    word.show(out)?;
    out.end_array()
}

/// A cell that is fixed by this rule with this row of this master.
fn show_fixed(
    out: &mut JsonText,
    cell: &ViewCell,
    rule: &Text,
    master: &Text,
    row: u32,
) -> Result<(), AllocError>
    ensures { OnOk result (out.new ≡ with_value out.old (fixed_shown cell.now rule.now master.now row)) }
{
    out.begin_array()?;
    cell.name.show(out)?;
    cell.value.show(out)?;
    out.string("fixed")?;
    rule.show(out)?;
    master.show(out)?;
    row.show(out)?;
    out.end_array()
}

/// A session as it stands.
impl Show for View {
    ghost shown = { view_shown };

    fn show(&self, out: &mut JsonText) -> Result<(), AllocError> {
        match &self.outcome {
            Outcome::Fix { certain, dissent } => show_fix(out, self, *certain, dissent),
            Outcome::Conflict { second } => show_conflict(out, self, second),
        }
    }
}

/// A session whose fix is unique.
fn show_fix(
    out: &mut JsonText,
    session: &View,
    certain: bool,
    dissent: &Option<(Text, u32)>,
) -> Result<(), AllocError>
    ensures { OnOk result (out.new ≡ with_value out.old (fix_shown session.now certain dissent.now)) }
{
    out.begin_object()?;
    field(out, "answer", &"fix")?;
    field(out, "cells", &session.cells)?;
    field(out, "certain", &certain)?;
    field(out, "dissent", dissent)?;
    field(out, "edition", &session.edition)?;
    field(out, "first", &session.first)?;
    field(out, "session", &session.session)?;
    field(out, "stage", &session.stage)?;
    field(out, "version", &session.version)?;
    out.end_object()
}

/// A session with a conflict.
fn show_conflict(
    out: &mut JsonText,
    session: &View,
    second: &List<(Text, u32)>,
) -> Result<(), AllocError>
    ensures { OnOk result (out.new ≡ with_value out.old (conflict_shown session.now second.now)) }
{
    out.begin_object()?;
    field(out, "answer", &"conflict")?;
    field(out, "cells", &session.cells)?;
    field(out, "edition", &session.edition)?;
    field(out, "first", &session.first)?;
    field(out, "second", second)?;
    field(out, "session", &session.session)?;
    field(out, "stage", &session.stage)?;
    field(out, "version", &session.version)?;
    out.end_object()
}
