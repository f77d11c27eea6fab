//! What a sheet of contradictions tells of its rule.
//!
//! What holds of contradictions, whatever the rules and the masters are, stands in the laws of `rule_contradictions`.
ghost use Rattle.std.specs.Prelude.{◌≡◌, List, []};
ghost use Rattle.desk_words.specs.declared.change.Change.{Change as ChangeOf};
ghost use Rattle.desk_words.specs.declared.contradictions.ContradictionSheet.{ContradictionSheet as SheetOf};
ghost use Rattle.desk_words.specs.Tables.{rows_of};
ghost use Rattle.machine_core.specs.Machine.{IsStep};
ghost use Rattle.machine_laws.specs.Contradicting.{GivesOneText};

use desk_base::Str;
use desk_words::{Command, DeskLook, Reply, Tables};

/// A rule whose sheet of contradictions has only its header never gives two texts for one attribute.
pub fn no_line_no_two_texts(tables: &Tables, edition: &Str, version: u32, name: &Str)
    ensures { (sheet : SheetOf) (changes : List ChangeOf)
        → IsStep (rows_of tables.now) (Command.Desk (DeskLook.Contradictions edition.now version name.now))
        (Reply.Contradictions sheet) changes
        → sheet.lines ≡ []
        → GivesOneText (rows_of tables.now) edition.now version name.now }
{}
