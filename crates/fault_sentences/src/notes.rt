//! What is told of what is taken though it is likely a slip: of each kind one sentence, on the first, with how many
//! more there are.
ghost use Rattle.std.specs.Prelude.{◌≡◌, ◌++◌, ◌∷◌, [], IfOk, OnOk};
ghost use Rattle.fault_sentences.specs.Notes.{has_byte, parted_note, parted_notes, schema_notes, sheet_notes, so_more};

use crate::sentence::Sentence;
use crate::slips::{Slip, note_cells};
use crate::twins::note_twins;
use desk_base::{List, NoMemory, Str, Text};
use master_rows::Master;
use schema_core::Schema;
use std::alloc::Global;

/// The notes on a schema: its attributes that equal earlier ones up to case.
pub fn schema_notes(alloc: Global, schema: &Schema) -> Result<List<Str>, NoMemory>
    ensures { IfOk result (λ notes. notes ≡ schema_notes schema.now) }
{
    let mut notes = List::new(alloc);
    note_twins(&mut notes, "attribute ", schema.attributes.as_slice())?;
    Ok(notes)
}

/// The notes on a sheet: a header of one column that seems to be more, cells with line ends or lone quotes, cells with
/// spaces at their ends, and columns that equal earlier ones up to case.
pub fn sheet_notes(alloc: Global, master: &Master) -> Result<List<Str>, NoMemory>
    ensures { IfOk result (λ notes. notes ≡ sheet_notes master.now) }
{
    let mut notes = List::new(alloc);
    note_parted(&mut notes, master.columns.as_slice())?;
    note_cells(&mut notes, Slip::Torn, master)?;
    note_cells(&mut notes, Slip::Spaced, master)?;
    note_twins(&mut notes, "column ", master.columns.as_slice())?;
    Ok(notes)
}

/// Adds a note on one column whose name has a semicolon or a tab.
fn note_parted(notes: &mut List<Str>, columns: &[Text]) -> Result<(), NoMemory>
    ensures { OnOk result (notes.new ≡ notes.old ++ parted_notes columns.now) }
{
    let [column] = columns else {
        return Ok(());
    };
    let name = column.as_str().as_bytes();
    if has_byte(name, b';') {
        add(notes, &parted_note(notes.allocator(), name, "a semicolon")?)
    } else if has_byte(name, b'\t') {
        add(notes, &parted_note(notes.allocator(), name, "a tab")?)
    } else {
        Ok(())
    }
}

fn has_byte(text: &[u8], byte: u8) -> bool
    ensures { result ≡ has_byte byte text.now }
{
    text.iter().any(|one| byte == *one)
}

#[tactic(auto, unfolding(crate::specs::Notes::parted_note))]
fn parted_note(alloc: Global, column: &[u8], mark: &str) -> Result<Sentence, NoMemory>
    ensures { IfOk result (λ note. note ≡ parted_note column.now mark.now) }
{
    let mut out = Sentence::new(alloc);
    out.words("the sheet has one column, ")?;
    out.quoted(column)?;
    out.words("; if ")?;
    out.words(mark)?;
    out.words(" parts its columns, put a comma there")?;
    Ok(out)
}

/// Adds a sentence to notes.
pub(crate) fn add(notes: &mut List<Str>, sentence: &Sentence) -> Result<(), NoMemory>
    ensures { OnOk result (notes.new ≡ notes.old ++ sentence.now ∷ []) }
{
    let note = Str::new(notes.allocator(), sentence.as_str())?;
    notes.push(note)
}

impl Sentence {
    /// Adds how many more there are: nothing, the words for one, or their number between the other words.
    #[tactic(auto, unfolding(crate::specs::Notes::so_more))]
    pub(crate) fn so_more(
        &mut self,
        one: &str,
        some: &str,
        units: &str,
        count: usize,
    ) -> Result<(), NoMemory>
        ensures { OnOk result (self.new ≡ self.old ++ so_more one.now some.now units.now count) }
    {
        match count {
            0 => Ok(()),
            1 => self.words(one),
            _ => {
                self.words(some)?;
                self.number(count as u64)?;
                self.words(units)
            }
        }
    }
}
