//! How it is shown what carrying a session to a newer version of its edition would change.
ghost use Rattle.std.specs.Prelude.{◌≡◌, OnOk};
ghost use Rattle.json_parts.specs.Writing.{with_value};
ghost use Rattle.desk_json.specs.Carried.{answer_word, carried_shown, cell_at_shown, change_shown, changes_shown};
ghost use Rattle.desk_json.specs.Carried.{is_certain};

use crate::shown::{Show, field};
use desk_words::{Carried, Outcome, ViewCell};
use json_parts::JsonText;
use std::alloc::AllocError;

/// What would change.
impl Show for Carried {
    ghost shown = { carried_shown };

    fn show(&self, out: &mut JsonText) -> Result<(), AllocError> {
        let before = self.before.cells.as_slice();
        let after = self.after.cells.as_slice();
        out.begin_object()?;
        field(out, "added", &self.added)?;
        field(out, "answer", &answer_word(&self.after.outcome))?;
        field(out, "certain", &is_certain(&self.after.outcome))?;
        out.key("changed")?;
        show_changes(out, before, after, self.changed.as_slice())?;
        field(out, "dropped", &self.dropped)?;
        field(out, "session", &self.after.session)?;
        field(out, "version", &self.after.version)?;
        out.end_object()
    }
}

/// The cells that would change, each as it stands and as it would stand.
fn show_changes(
    out: &mut JsonText,
    before: &[ViewCell],
    after: &[ViewCell],
    changed: &[(u16, u16)],
) -> Result<(), AllocError>
    ensures { OnOk result (out.new ≡ with_value out.old (changes_shown before.now after.now changed.now)) }
{
    out.begin_array()?;
    'changed: for places in changed {
        show_change(out, before, after, *places)?;
    }
    out.end_array()
}

/// A cell as it stands and as it would stand, by its places.
fn show_change(
    out: &mut JsonText,
    before: &[ViewCell],
    after: &[ViewCell],
    places: (u16, u16),
) -> Result<(), AllocError>
    ensures { OnOk result (out.new ≡ with_value out.old (change_shown before.now after.now places)) }
{
    out.begin_array()?;
    show_cell_at(out, before, places.0)?;
    show_cell_at(out, after, places.1)?;
    out.end_array()
}

/// The cell at a place, or null where none is there.
fn show_cell_at(out: &mut JsonText, cells: &[ViewCell], place: u16) -> Result<(), AllocError>
    ensures { OnOk result (out.new ≡ with_value out.old (cell_at_shown cells.now place)) }
{
    match cells.get(usize::from(place)) {
        None => out.null(),
        Some(cell) => cell.show(out),
    }
}

fn answer_word(outcome: &Outcome) -> &'static str
    ensures { result.now ≡ answer_word outcome.now }
{
    match outcome {
        Outcome::Fix { .. } => "fix",
        Outcome::Conflict { .. } => "conflict",
    }
}

fn is_certain(outcome: &Outcome) -> bool
    ensures { result ≡ is_certain outcome.now }
{
    match outcome {
        Outcome::Fix { certain, .. } => *certain,
        Outcome::Conflict { .. } => false,
    }
}
