//! The words that replies and refusals have for kinds, limits and readers, and how they are shown.
ghost use Rattle.std.specs.Prelude.{◌≡◌};
ghost use Rattle.serde_json.specs.Data.{string};
ghost use Rattle.desk_words.specs.Words.{stage_word};
ghost use Rattle.desk_json.specs.Words.{kind_word, limit_word, reader_word, verdict_word};

use crate::shown::Show;
use desk_words::{Kind, Reader, Stage, Which};
use fix_model::RowVerdict;
use json_parts::JsonText;
use std::alloc::AllocError;

impl Show for Stage {
    ghost shown = { λ stage. string (stage_word stage) };

    fn show(&self, out: &mut JsonText) -> Result<(), AllocError> {
        out.string(self.word())
    }
}

impl Show for Kind {
    ghost shown = { λ kind. string (kind_word kind) };

    fn show(&self, out: &mut JsonText) -> Result<(), AllocError> {
        out.string(kind_word(*self))
    }
}

impl Show for RowVerdict {
    ghost shown = { λ verdict. string (verdict_word verdict) };

    fn show(&self, out: &mut JsonText) -> Result<(), AllocError> {
        out.string(verdict_word(*self))
    }
}

impl Show for Which {
    ghost shown = { λ which. string (limit_word which) };

    fn show(&self, out: &mut JsonText) -> Result<(), AllocError> {
        out.string(limit_word(*self))
    }
}

impl Show for Reader {
    ghost shown = { λ reader. string (reader_word reader) };

    fn show(&self, out: &mut JsonText) -> Result<(), AllocError> {
        out.string(reader_word(*self))
    }
}

fn kind_word(kind: Kind) -> &'static str
    ensures { result.now ≡ kind_word kind }
{
    match kind {
        Kind::Schema => "schema",
        Kind::Master => "master",
        Kind::Rulebook => "rulebook",
        Kind::Edition => "edition",
        Kind::Session => "session",
        Kind::Region => "region",
        Kind::Row => "row",
        Kind::Rule => "rule",
    }
}

fn verdict_word(verdict: RowVerdict) -> &'static str
    ensures { result.now ≡ verdict_word verdict }
{
    match verdict {
        RowVerdict::Certain => "certain",
        RowVerdict::Partial => "partial",
        RowVerdict::Conflict => "conflict",
    }
}

fn limit_word(which: Which) -> &'static str
    ensures { result.now ≡ limit_word which }
{
    match which {
        Which::Clerks => "clerks",
        Which::Schemas => "schemas",
        Which::Masters => "masters",
        Which::MasterCells => "master_cells",
        Which::Rulebooks => "rulebooks",
        Which::EditionMasters => "edition_masters",
        Which::Editions => "editions",
        Which::RegionRows => "region_rows",
        Which::Regions => "regions",
        Which::ActiveSessions => "active_sessions",
        Which::Sessions => "sessions",
        Which::Bytes => "bytes",
        Which::BatchRows => "batch_rows",
        Which::Batches => "batches",
    }
}

fn reader_word(reader: Reader) -> &'static str
    ensures { result.now ≡ reader_word reader }
{
    match reader {
        Reader::Schema => "schema",
        Reader::Sheet => "sheet",
        Reader::Rules => "rules",
        Reader::Bind => "bind",
        Reader::Index => "index",
    }
}
