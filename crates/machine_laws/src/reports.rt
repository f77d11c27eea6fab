//! The numbers of a report add up.
ghost use Rattle.std.specs.Prelude.{List};
ghost use Rattle.desk_words.specs.declared.change.Change.{Change as ChangeOf};
ghost use Rattle.desk_words.specs.declared.report.ReportSheet.{ReportSheet as SheetOf};
ghost use Rattle.desk_words.specs.Tables.{published_of, rows_of};
ghost use Rattle.desk_valid.specs.Valid.{AreValid};
ghost use Rattle.machine_core.specs.Machine.{IsStep};
ghost use Rattle.machine_laws.specs.Sums.{AddsUp};

use desk_base::Str;
use desk_words::{Command, DeskLook, Look, Reply, Tables};

/// In a clerk's report and in the desk's, each line adds up, and the lines add up to the total.
pub fn reports_add_up(tables: &Tables, name: &Str)
    requires { AreValid (rows_of tables.now) }
    ensures clerk { (sheet : SheetOf) (changes : List ChangeOf)
        → IsStep (rows_of tables.now) (Command.Look name.now Look.Report) (Reply.Report sheet) changes
        → AddsUp (published_of (rows_of tables.now)) sheet }
    ensures desk { (sheet : SheetOf) (changes : List ChangeOf)
        → IsStep (rows_of tables.now) (Command.Desk DeskLook.Report) (Reply.Report sheet) changes
        → AddsUp (published_of (rows_of tables.now)) sheet }
{}
