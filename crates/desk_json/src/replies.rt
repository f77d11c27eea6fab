//! How a reply is shown, and the texts of replies.
ghost use Rattle.std.specs.Prelude.{◌≡◌, ◌≢◌, option_map, None, Some, IfOk, OnOk};
ghost use Rattle.serde_json.specs.Written.{compact_text};
ghost use Rattle.json_parts.specs.Writing.{with_value};
ghost use Rattle.desk_json.specs.Replies.{batched_shown, committed_shown, explained_shown, made_shown, clerk_shown};
ghost use Rattle.desk_json.specs.Replies.{page_shown, region_shown, reply_shown, session_shown, suggested_shown};
ghost use Rattle.desk_json.specs.Replies.{version_shown};

use crate::fits::fits_text;
use crate::refusals::unfit_text;
use crate::shown::{Show, field, text};
use desk_base::{List, NoMemory, Text};
use desk_words::{Batched, Explained, Kind, Made, Reply, SessionLine, SessionPage, Suggested};
use json_parts::JsonText;
use std::alloc::{AllocError, Global};

/// The JSON text of a reply that is no report, no records, no derived rows, no contradictions, nothing that was
/// published and no dump: compact, with its keys in byte order (docs/api.md).
pub fn text_of(alloc: Global, reply: &Reply) -> Result<List<u8>, NoMemory>
    requires json { reply_shown reply.now ≢ None }
    ensures { IfOk result (λ text. option_map compact_text (reply_shown reply.now) ≡ Some text) }
{
    match reply {
        Reply::Made(made) => text(alloc, made),
        Reply::Opened(session) => text(alloc, session),
        Reply::View(session) => text(alloc, session),
        Reply::Committed {
            number,
            session,
            certain,
        } => {
            text(
                alloc,
                &Kept {
                    number: *number,
                    session: *session,
                    certain: *certain,
                },
            )
        }
        Reply::Batched(batch) => text(alloc, batch),
        Reply::Suggested(suggested) => text(alloc, suggested),
        Reply::Explained(explained) => text(alloc, explained),
        Reply::Carried(carried) => text(alloc, carried),
        Reply::Sessions(page) => text(alloc, page),
        Reply::Catalogue(catalogue) => text(alloc, catalogue),
        Reply::Edition(sheet) => text(alloc, sheet),
        Reply::MasterRow(sheet) => text(alloc, sheet),
        Reply::Region(sheet) => text(alloc, sheet),
        Reply::Choices(told) => text(alloc, told),
        Reply::Blocked(told) => text(alloc, told),
        Reply::Fits { fits, notes } => fits_text(alloc, fits, notes.as_slice()),
        Reply::Unfit { refusal, says } => unfit_text(alloc, refusal, says),
        Reply::Refused(refusal) => text(alloc, refusal),
        Reply::Report(_) | Reply::Records(_) => unreachable!(),
        Reply::Derived(_) | Reply::Contradictions(_) => unreachable!(),
        Reply::Body(_, _) | Reply::Dump(_) => unreachable!(),
    }
}

/// What the steward made.
impl Show for Made {
    ghost shown = { made_shown };

    fn show(&self, out: &mut JsonText) -> Result<(), AllocError> {
        match self {
            Made::Clerk(name) => show_clerk(out, name),
            Made::Schema(name, version) => show_version(out, Kind::Schema, name, *version),
            Made::Master(name, version) => show_version(out, Kind::Master, name, *version),
            Made::Rulebook(name, version) => show_version(out, Kind::Rulebook, name, *version),
            Made::Edition(name, version) => show_version(out, Kind::Edition, name, *version),
            Made::Region {
                region,
                certain,
                partial,
                conflict,
            } => { show_region(out, *region, *certain, *partial, *conflict) }
        }
    }
}

/// A clerk.
fn show_clerk(out: &mut JsonText, name: &Text) -> Result<(), AllocError>
    ensures { OnOk result (out.new ≡ with_value out.old (clerk_shown name.now)) }
{
    out.begin_object()?;
    field(out, "made", &"clerk")?;
    field(out, "name", name)?;
    out.end_object()
}

/// What was published, with its name and version.
fn show_version(out: &mut JsonText, made: Kind, name: &Text, version: u32) -> Result<(), AllocError>
    ensures { OnOk result (out.new ≡ with_value out.old (version_shown made name.now version)) }
{
    out.begin_object()?;
    field(out, "made", &made)?;
    field(out, "name", name)?;
    field(out, "version", &version)?;
    out.end_object()
}

/// A region, with the number of its rows of each verdict.
fn show_region(
    out: &mut JsonText,
    region: u32,
    certain: u32,
    partial: u32,
    conflict: u32,
) -> Result<(), AllocError>
    ensures { OnOk result (out.new ≡ with_value out.old (region_shown region certain partial conflict)) }
{
    out.begin_object()?;
    field(out, "certain", &certain)?;
    field(out, "conflict", &conflict)?;
    field(out, "made", &"region")?;
    field(out, "partial", &partial)?;
    field(out, "region", &region)?;
    out.end_object()
}

/// A batch.
impl Show for Batched {
    ghost shown = { batched_shown };

    fn show(&self, out: &mut JsonText) -> Result<(), AllocError> {
        out.begin_object()?;
        field(out, "batch", &self.batch)?;
        field(out, "certain", &self.certain)?;
        field(out, "conflict", &self.conflict)?;
        field(out, "first", &self.first)?;
        field(out, "partial", &self.partial)?;
        field(out, "rows", &self.rows)?;
        out.end_object()
    }
}

/// A suggestion.
impl Show for Suggested {
    ghost shown = { suggested_shown };

    fn show(&self, out: &mut JsonText) -> Result<(), AllocError> {
        out.begin_object()?;
        field(out, "gains", &self.gains)?;
        field(out, "need", &self.need)?;
        field(out, "regions", &self.regions)?;
        out.end_object()
    }
}

/// Why an attribute is fixed.
impl Show for Explained {
    ghost shown = { explained_shown };

    fn show(&self, out: &mut JsonText) -> Result<(), AllocError> {
        out.begin_object()?;
        field(out, "attribute", &self.attribute)?;
        field(out, "steps", &self.steps)?;
        field(out, "uses", &self.uses)?;
        out.end_object()
    }
}

/// A session on a page.
impl Show for SessionLine {
    ghost shown = { session_shown };

    fn show(&self, out: &mut JsonText) -> Result<(), AllocError> {
        out.begin_array()?;
        self.number.show(out)?;
        self.edition.show(out)?;
        self.version.show(out)?;
        self.stage.show(out)?;
        out.end_array()
    }
}

/// A page of sessions.
impl Show for SessionPage {
    ghost shown = { page_shown };

    fn show(&self, out: &mut JsonText) -> Result<(), AllocError> {
        out.begin_object()?;
        field(out, "next", &self.next)?;
        field(out, "sessions", &self.lines)?;
        out.end_object()
    }
}

/// A record that was kept.
#[derive(Clone, Copy)]
struct Kept {
    number: u32,
    session: u32,
    certain: bool,
}

impl Show for Kept {
    ghost shown = { λ kept. committed_shown kept.number kept.session kept.certain };

    fn show(&self, out: &mut JsonText) -> Result<(), AllocError> {
        out.begin_object()?;
        field(out, "certain", &self.certain)?;
        field(out, "record", &self.number)?;
        field(out, "session", &self.session)?;
        out.end_object()
    }
}
