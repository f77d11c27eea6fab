//! The sentences that say why the program ends.
ghost use Rattle.std.specs.Prelude.{◌≡◌, IfOk};

use crate::ended::{Ended, Status};
use crate::naming::shown;
use desk_base::{NoMemory, Text};
use fault_sentences::Sentence;
use sheet_clean::{Setting, SheetFault};
use std::alloc::{AllocError, Global};

/// A file can't be read.
pub(crate) fn unreadable(alloc: Global, name: &str) -> Result<Ended, AllocError>
    ensures { IfOk result (λ ended. ended.status ≡ Status.Unreadable) }
{
    let name = shown(alloc, name)?;
    let why = format!(in alloc; "{} can't be read", name.as_str())?;
    Ok(Ended::because(Status::Unreadable, why))
}

/// A file is refused, for what this sentence says.
pub(crate) fn refused(
    alloc: Global,
    name: &str,
    sentence: Result<Sentence, NoMemory>,
) -> Result<Ended, NoMemory>
    ensures { IfOk result (λ ended. ended.status ≡ Status.Refused) }
{
    let sentence = sentence?;
    let name = shown(alloc, name)?;
    let why = format!(in alloc; "{}: {}", name.as_str(), sentence.as_str())?;
    Ok(Ended::because(Status::Refused, why))
}

/// Why the sheet is refused.
pub(crate) fn sheet_sentence(
    alloc: Global,
    setting: &Setting,
    fault: SheetFault,
) -> Result<String, AllocError> {
    let attributes = setting.names.attributes.as_slice();
    match fault {
        SheetFault::NoHeader => format!(in alloc; "the sheet has no header"),
        SheetFault::NotUtf8(0) => format!(in alloc; "the header is not UTF-8"),
        SheetFault::NotUtf8(row) => format!(in alloc; "row {row} is not UTF-8"),
        SheetFault::MarkedColumn(column) => {
            format!(in alloc; "column {column} begins with a byte order mark")
        }
        SheetFault::AttributeTwice(attribute) => {
            format!(in alloc;
                "the column \"{}\" stands twice",
                name_of(attributes, attribute)
            )
        }
        SheetFault::NoColumn(attribute) => {
            format!(in alloc;
                "there is no column \"{}\", which --known names",
                name_of(attributes, attribute)
            )
        }
        SheetFault::VerdictTaken => {
            let name = match &setting.verdict {
                Some(name) => shown(alloc, name.as_str())?,
                None => String::new(alloc),
            };
            format!(in alloc;
                "the sheet has a column {} already, which --verdict names",
                name.as_str()
            )
        }
        SheetFault::Ragged(row, fields, columns) => {
            let fields_word = if fields == 1 { "field" } else { "fields" };
            format!(in alloc; "row {row} has {fields} {fields_word}, and the header has {columns}")
        }
        SheetFault::CellLong(row, attribute) => format!(in alloc;
            "row {row} has more than 200 bytes in the column \"{}\", which --known names",
            name_of(attributes, attribute)
        ),
    }
}

fn name_of(attributes: &[Text], attribute: u64) -> &str {
    match attributes.get(attribute as usize) {
        Some(name) => name.as_str(),
        None => "",
    }
}
