//! How refusals, and the faults of bodies, are shown.
ghost use Rattle.std.specs.Prelude.{◌≡◌, codes, IfOk, MatchOption, OnOk};
ghost use Rattle.serde_json.specs.Data.{string};
ghost use Rattle.serde_json.specs.Written.{compact_text};
ghost use Rattle.json_parts.specs.Writing.{with_member, with_value};
ghost use Rattle.desk_json.specs.Faults.{fault_at, fault_saying};
ghost use Rattle.desk_json.specs.Refusals.{bad_text, limit, plain, refusal_saying, refusal_shown, sentence_of, tells};
ghost use Rattle.desk_json.specs.Refusals.{tells_last, unfit_shown};

use crate::fault::JsonFault;
use crate::shown::{Show, field};
use desk_base::{List, NoMemory, Str};
use desk_words::{Reader, Refusal, Which};
use json_parts::JsonText;
use std::alloc::{AllocError, Global};

impl Show for Refusal {
    ghost shown = { refusal_shown };

    fn show(&self, out: &mut JsonText) -> Result<(), AllocError> {
        show_refusal(out, self, None)
    }
}

/// The text of why a proposal does not fit, with a sentence for a person.
pub fn unfit_text(alloc: Global, refusal: &Refusal, says: &Str) -> Result<List<u8>, NoMemory>
    ensures { IfOk result (λ text. text ≡ compact_text (unfit_shown refusal.now says.now)) }
{
    let mut out = JsonText::new(alloc)?;
    show_refusal(&mut out, refusal, Some(says.as_str()))?;
    Ok(out.into_bytes())
}

/// A refusal, with a sentence for a person where there is one.
fn show_refusal(out: &mut JsonText, refusal: &Refusal, says: Option<&str>) -> Result<(), AllocError>
    ensures { OnOk result (out.new
        ≡ with_value out.old (refusal_saying refusal.now (sentence_of says.entry))) }
{
    match refusal {
        Refusal::NoClerk => plain(out, "no_clerk", says),
        Refusal::Stale(last) => tells(out, "stale", "last", last, says),
        Refusal::Gap(last) => tells(out, "gap", "last", last, says),
        Refusal::Reused(last) => tells(out, "reused", "last", last, says),
        Refusal::NoSuch(kind) => tells(out, "no_such", "kind", kind, says),
        Refusal::Closed(stage) => tells_last(out, "closed", "stage", stage, says),
        Refusal::UnknownAttr(name) => tells(out, "unknown_attr", "name", name, says),
        Refusal::ValueLong(name) => tells(out, "value_long", "name", name, says),
        Refusal::NotCertain(open) => tells(out, "not_certain", "open", open, says),
        Refusal::InConflict => plain(out, "in_conflict", says),
        Refusal::NotConfirmed(name) => tells(out, "not_confirmed", "name", name, says),
        Refusal::Limit(which, most) => limit(out, *which, *most, says),
        Refusal::BadText(reader, code, first, second) => {
            bad_text(out, *reader, *code, (*first, *second), says)
        }
        Refusal::Unavailable => plain(out, "unavailable", says),
        Refusal::NoMemory => plain(out, "no_memory", says),
        Refusal::Twice(name) => tells(out, "twice", "name", name, says),
        Refusal::Taken(name) => tells(out, "taken", "name", name, says),
        Refusal::BadName(name) => tells(out, "bad_name", "name", name, says),
        Refusal::RowWidth(row) => tells(out, "row_width", "row", row, says),
        Refusal::NotFixed(name) => tells(out, "not_fixed", "name", name, says),
        Refusal::NoColumn(name) => tells(out, "no_column", "name", name, says),
        Refusal::NotNewer(version) => tells_last(out, "not_newer", "version", version, says),
    }
}

/// The key `says`, with a sentence for a person, where there is one.
fn said(out: &mut JsonText, says: Option<&str>) -> Result<(), AllocError>
    ensures { OnOk result (MatchOption says.entry (out.new ≡ out.old)
        (λ sentence. out.new ≡ with_member out.old (codes "says") (string sentence.now))) }
{
    match says {
        None => Ok(()),
        Some(sentence) => field(out, "says", &sentence),
    }
}

/// An error of which nothing more is told.
fn plain(out: &mut JsonText, word: &str, says: Option<&str>) -> Result<(), AllocError>
    ensures { OnOk result (out.new ≡ with_value out.old (plain word.now (sentence_of says.entry))) }
{
    out.begin_object()?;
    field(out, "error", &word)?;
    said(out, says)?;
    out.end_object()
}

/// An error, and one more thing that it tells, whose key stands before `says`.
fn tells<T: Show>(
    out: &mut JsonText,
    word: &str,
    key: &str,
    value: &T,
    says: Option<&str>,
) -> Result<(), AllocError>
    ensures { OnOk result (out.new
        ≡ with_value out.old (tells word.now key.now (T.shown value.now) (sentence_of says.entry))) }
{
    out.begin_object()?;
    field(out, "error", &word)?;
    field(out, key, value)?;
    said(out, says)?;
    out.end_object()
}

/// An error, and one more thing that it tells, whose key stands after `says`.
fn tells_last<T: Show>(
    out: &mut JsonText,
    word: &str,
    key: &str,
    value: &T,
    says: Option<&str>,
) -> Result<(), AllocError>
    ensures { OnOk result (out.new
        ≡ with_value out.old (tells_last word.now key.now (T.shown value.now) (sentence_of says.entry))) }
{
    out.begin_object()?;
    field(out, "error", &word)?;
    said(out, says)?;
    field(out, key, value)?;
    out.end_object()
}

/// What a limit counts, and how much of it there may be.
fn limit(out: &mut JsonText, which: Which, most: u64, says: Option<&str>) -> Result<(), AllocError>
    ensures { OnOk result (out.new ≡ with_value out.old (limit which most (sentence_of says.entry))) }
{
    out.begin_object()?;
    field(out, "error", &"limit")?;
    field(out, "most", &most)?;
    said(out, says)?;
    field(out, "which", &which)?;
    out.end_object()
}

/// Which reader refuses a text, with what and where.
fn bad_text(
    out: &mut JsonText,
    reader: Reader,
    code: u64,
    at: (u64, u64),
    says: Option<&str>,
) -> Result<(), AllocError>
    ensures { OnOk result (out.new
        ≡ with_value out.old (bad_text reader code at.0 at.1 (sentence_of says.entry))) }
{
    out.begin_object()?;
    field(out, "at", &at)?;
    field(out, "code", &code)?;
    field(out, "error", &"bad_text")?;
    field(out, "reader", &reader)?;
    said(out, says)?;
    out.end_object()
}

/// The JSON text of the fault of a body, with a sentence for a person where there is one: compact, with its keys in byte
/// order (docs/api.md).
pub fn fault_text(
    alloc: Global,
    fault: &JsonFault,
    says: Option<&str>,
) -> Result<List<u8>, NoMemory>
    ensures { IfOk result (λ text. text ≡ compact_text (fault_saying fault.now (sentence_of says.entry))) }
{
    let mut out = JsonText::new(alloc)?;
    show_fault(&mut out, fault, says)?;
    Ok(out.into_bytes())
}

/// The fault of a body, with a sentence for a person where there is one.
fn show_fault(out: &mut JsonText, fault: &JsonFault, says: Option<&str>) -> Result<(), AllocError>
    ensures { OnOk result (out.new
        ≡ with_value out.old (fault_saying fault.now (sentence_of says.entry))) }
{
    match fault {
        JsonFault::NotJson => at_key(out, "not_json", "", says),
        JsonFault::Missing(key) => at_key(out, "missing", key.as_str(), says),
        JsonFault::WrongKind(key) => at_key(out, "wrong_kind", key.as_str(), says),
        JsonFault::Unknown(key) => at_key(out, "unknown", key.as_str(), says),
        JsonFault::NoMemory => plain(out, "no_memory", says),
    }
}

/// A fault of this kind at this key.
fn at_key(out: &mut JsonText, kind: &str, key: &str, says: Option<&str>) -> Result<(), AllocError>
    ensures { OnOk result (out.new
        ≡ with_value out.old (fault_at kind.now key.now (sentence_of says.entry))) }
{
    out.begin_object()?;
    field(out, "error", &"json")?;
    field(out, "fault", &kind)?;
    field(out, "key", &key)?;
    said(out, says)?;
    out.end_object()
}
