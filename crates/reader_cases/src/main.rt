//! Tries the cases in `data/`: texts, lists and streams of the base, files of cases and their judge, schemas, sheets and
//! rules, what is said of those that are refused, and what is noted of those that are taken.
//!
//! The words are the files of cases; a file's name up to its first `-` says what is tried. `docs/cases.md` says
//! how a case is written.
#![tactic(auto)]

mod base;
mod binding;
mod files;
mod lists;
mod notes;
mod published;
mod rules;
mod schemas;
mod sheets;

use desk_cases::{Answer, Case, Part, Subject, try_files};
use std::test::Fail;

/// What reads, prints and binds, and says why it does not.
#[derive(Drop)]
struct Readers;

impl Subject for Readers {
    fn reads(&self, kind: &str, _case: &Case, part: &Part) -> bool {
        match part.name.as_str() {
            "bytes" | "file" | "cells" | "numbers" | "texts" | "sought" | "listed" | "text" => true,
            "cut" | "fails" | "calls" | "toml" | "sheet" | "attributes" | "over" => true,
            "what" | "version" | "newest" | "count" => true,
            "name" => kind == "edition",
            name => kind == "sink" && name == "room",
        }
    }

    fn answer(&mut self, kind: &str, case: &Case, answer: &mut Answer) -> Result<(), Fail> {
        match kind {
            "adapter" => lists::adapter(case, answer),
            "file" => files::file(case, answer),
            "grid" => lists::grid(case, answer),
            "judge" => files::judge(case, answer),
            "list" => lists::list(case, answer),
            "places" => lists::places(case, answer),
            "text" => base::text(case, answer),
            "word" => base::word(case, answer),
            "source" => base::source(case, answer),
            "sink" => base::sink(case, answer),
            "schema" => schemas::schema(case, answer),
            "schema_said" => schemas::schema_said(case, answer),
            "sheet" => sheets::sheet(case, answer),
            "sheet_size" => sheets::sheet_size(case, answer),
            "sheet_cells" => sheets::sheet_cells(case, answer),
            "sheet_said" => sheets::sheet_said(case, answer),
            "rules" => rules::rules(case, answer),
            "rules_said" => rules::rules_said(case, answer),
            "bind" => binding::bound(case, answer),
            "bind_said" => binding::bound_said(case, answer),
            "edition" => published::told(case, answer),
            "notes" => notes::told(case, answer),
            _ => Err(Fail::new("a file of cases has an unknown kind")),
        }
    }
}

fn main(rt: HostRuntime) -> Result<(), Fail> {
    try_files(&rt, &mut Readers)
}
