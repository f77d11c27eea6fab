//! The rows of the nine tables, as a dump has them.
ghost use Rattle.std.specs.Prelude.{◌≡◌, OnOk};
ghost use Rattle.json_parts.specs.Writing.{with_value};
ghost use Rattle.desk_dump.specs.Fields.{batch_fields, body_shown, clerk_fields, edition_fields, record_fields};
ghost use Rattle.desk_dump.specs.Fields.{region_fields, rulebook_fields, session_fields, text_fields};

use crate::writing::DumpRow;
use desk_base::List;
use desk_json::{Show, show_all};
use desk_words::{
    BatchRow, ClerkRow, EditionRow, RecordRow, RegionRow, RulebookRow, SessionRow, TextRow,
};
use json_parts::JsonText;
use std::alloc::AllocError;

impl DumpRow for ClerkRow {
    ghost fields = { clerk_fields };

    fn write_fields(&self, out: &mut JsonText) -> Result<(), AllocError> {
        self.name.show(out)?;
        self.last.show(out)?;
        show_all(out, &self.digest.bytes)?;
        out.string(self.act.word())?;
        self.target.show(out)
    }
}

impl DumpRow for TextRow {
    ghost fields = { text_fields };

    fn write_fields(&self, out: &mut JsonText) -> Result<(), AllocError> {
        self.name.show(out)?;
        self.version.show(out)?;
        write_body(out, &self.body)
    }
}

impl DumpRow for RulebookRow {
    ghost fields = { rulebook_fields };

    fn write_fields(&self, out: &mut JsonText) -> Result<(), AllocError> {
        self.name.show(out)?;
        self.version.show(out)?;
        self.schema.show(out)?;
        write_body(out, &self.body)
    }
}

impl DumpRow for EditionRow {
    ghost fields = { edition_fields };

    fn write_fields(&self, out: &mut JsonText) -> Result<(), AllocError> {
        self.name.show(out)?;
        self.version.show(out)?;
        self.rulebook.show(out)?;
        self.masters.show(out)?;
        self.folded.show(out)
    }
}

impl DumpRow for RegionRow {
    ghost fields = { region_fields };

    fn write_fields(&self, out: &mut JsonText) -> Result<(), AllocError> {
        self.edition.show(out)?;
        self.region.attrs.show(out)?;
        self.region.rows.show(out)
    }
}

impl DumpRow for SessionRow {
    ghost fields = { session_fields };

    fn write_fields(&self, out: &mut JsonText) -> Result<(), AllocError> {
        self.edition.show(out)?;
        show_all(out, self.typed.as_slice())?;
        show_all(out, self.confirmed.as_slice())?;
        self.stage.show(out)?;
        self.batch.show(out)
    }
}

impl DumpRow for RecordRow {
    ghost fields = { record_fields };

    fn write_fields(&self, out: &mut JsonText) -> Result<(), AllocError> {
        self.session.show(out)?;
        self.texts.show(out)?;
        self.certain.show(out)
    }
}

impl DumpRow for BatchRow {
    ghost fields = { batch_fields };

    fn write_fields(&self, out: &mut JsonText) -> Result<(), AllocError> {
        self.edition.show(out)?;
        self.first.show(out)?;
        self.count.show(out)
    }
}

/// Writes what was published: a string where it is UTF-8, else its bytes as numbers.
fn write_body(out: &mut JsonText, body: &List<u8>) -> Result<(), AllocError>
    ensures { OnOk result (out.new ≡ with_value out.old (body_shown body.now)) }
{
    match std::str::from_utf8(body.as_slice()) {
        Ok(text) => out.string(text),
        Err(_) => body.show(out),
    }
}
