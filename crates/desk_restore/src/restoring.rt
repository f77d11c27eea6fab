//! The tables that a dump restores.
ghost use Rattle.std.specs.Prelude.{◌≡◌, ◌↔◌, ℕ, List, [], ◌∷◌, ◌++◌, Some, option_map, IfOk, OnOk, IsErrOf, IsTrue};
ghost use Rattle.desk_words.specs.declared.change.Change.{Change as ChangeOf};
ghost use Rattle.desk_words.specs.Changes.{Fits, FitAll, changed_all};
ghost use Rattle.desk_words.specs.Tables.{AreTables, Rows, empty_rows, rows_of};
ghost use Rattle.desk_dump.specs.Dumps.{dump_of};
ghost use Rattle.desk_restore.specs.Ranges.{AreInRange};
ghost use Rattle.desk_restore.specs.Made.{IsMade};
ghost use Rattle.desk_restore.specs.Reading.{changes_in, line_changes, lines_in};

use crate::fault::RestoreFault;
use crate::fitting::fits;
use crate::lines::{lines_of, told_by};
use desk_base::{Duplicate, List, NoMemory};
use desk_dump::dump_text;
use desk_words::{Change, Tables};
use json_parts::PartFault;
use keeper_core::{change_all, make_room};
use std::alloc::{AllocError, Global};

/// What a dump restores: tables, and the changes that make them over those of a new desk.
#[derive(Debug)]
pub struct Restored {
    pub changes: List<Change>,
    pub tables: Tables,
}

/// One call lets it go (`docs/gate.md`).
impl Drop for Restored {
    fn drop(self) {
        let Restored { changes, tables } = self;
        drop(changes);
        drop(tables);
    }
}

/// The tables whose dump the text is.
pub fn restore(alloc: Global, text: &[u8]) -> Result<Restored, RestoreFault>
    ensures made { IfOk result (λ made. IsMade made) }
    ensures dumped { IfOk result (λ made. dump_of (rows_of made.tables) ≡ text.now) }
    ensures only { (rows : Rows) → AreTables rows → AreInRange rows → dump_of rows ≡ text.now
        → IfOk result (λ made. rows_of made.tables ≡ rows) }
    ensures refused { (line : ℕ) → IsErrOf result (RestoreFault.Refused line)
        → (rows : Rows) → AreTables rows → AreInRange rows → dump_of rows ≡ text.now → ⊥ }
{
    let mut restored = Restored::new(alloc)?;
    let read = restored.read(alloc, text);
    if let Err(PartFault::NoMemory) = read {
        return Err(RestoreFault::NoMemory);
    }
    let dump = dump_text(alloc, &restored.tables)?;
    if read.is_ok() && is_same(dump.as_slice(), text) {
        return Ok(restored);
    }
    Err(RestoreFault::Refused {
        line: first_other_line(dump.as_slice(), text),
    })
}

impl Restored {
    /// The tables of a new desk, and no changes.
    fn new(alloc: Global) -> Result<Restored, NoMemory>
        ensures made { IfOk result (λ made. IsMade made) }
        ensures none { IfOk result (λ made. made.changes ≡ []) }
    {
        Ok(Restored {
            changes: List::new(alloc),
            tables: Tables::empty(alloc)?,
        })
    }

    /// Puts the rows of all lines.
    fn read(&mut self, alloc: Global, text: &[u8]) -> Result<(), PartFault>
        requires made { IsMade self.old }
        requires none { self.old.changes ≡ [] }
        ensures made { IsMade self.new }
        ensures changes { OnOk result (changes_in (lines_in text.now) ≡ Some self.new.changes) }
        ensures refused { IsErrOf result PartFault.WrongForm → (changes : List ChangeOf)
            → changes_in (lines_in text.now) ≡ Some changes → FitAll empty_rows changes → ⊥ }
    {
        let lines = match lines_of(alloc, text) {
            Ok(lines) => lines,
            Err(AllocError) => return Err(PartFault::NoMemory),
        };
        'lines: for line in lines.iter() {
            self.read_line(alloc, line)?;
        }
        Ok(())
    }

    /// Puts the row of a line, if it has one.
    fn read_line(&mut self, alloc: Global, line: &[u8]) -> Result<(), PartFault>
        requires made { IsMade self.old }
        ensures made { IsMade self.new }
        ensures changes { OnOk result (option_map (λ more. self.old.changes ++ more) (line_changes line.now)
            ≡ Some self.new.changes) }
        ensures refused { IsErrOf result PartFault.WrongForm → (more : List ChangeOf)
            → line_changes line.now ≡ Some more → FitAll (changed_all empty_rows self.old.changes) more → ⊥ }
    {
        if line.is_empty() {
            return Ok(());
        }
        match told_by(alloc, line)? {
            Some(change) => self.put(alloc, change),
            None => Ok(()),
        }
    }

    /// Makes a change, where it fits.
    fn put(&mut self, alloc: Global, change: Change) -> Result<(), PartFault>
        requires made { IsMade self.old }
        ensures made { IsMade self.new }
        ensures changes { OnOk result (self.new.changes ≡ self.old.changes ++ change ∷ []) }
        ensures refused { IsErrOf result PartFault.WrongForm
            → Fits (changed_all empty_rows self.old.changes) change → ⊥ }
    {
        if !fits(&self.tables, &change) {
            return Err(PartFault::WrongForm);
        }
        let mut one = List::new(alloc);
        one.push(change.copy()?)?;
        let fresh = make_room(alloc, &mut self.tables, one.as_slice())?;
        self.changes.push(change)?;
        change_all(&mut self.tables, fresh, one);
        Ok(())
    }
}

/// Whether two texts are the same.
fn is_same(text: &[u8], other: &[u8]) -> bool
    ensures { IsTrue result ↔ (text.now ≡ other.now) }
{
    text == other
}

/// The first line, counted from 1, in which two texts differ.
fn first_other_line(text: &[u8], other: &[u8]) -> u64 {
    let mut line: u64 = 1;
    'bytes: for (byte, there) in text.iter().zip(other) {
        if byte != there {
            return line;
        }
        if *byte == b'\n' {
            line = line.saturating_add(1);
        }
    }
    line
}
