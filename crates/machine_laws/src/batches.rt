//! A batch enters each row of a sheet as an Enter would.
ghost use Rattle.std.specs.Prelude.{◌≡◌, ◌≢◌, List, [], Ok};
ghost use Rattle.master_rows.specs.declared.master.Master.{Master as MasterOf};
ghost use Rattle.master_rows.specs.Sheet.{read_sheet};
ghost use Rattle.desk_words.specs.Changes.{changed_all};
ghost use Rattle.desk_words.specs.declared.change.Change.{Change as ChangeOf};
ghost use Rattle.desk_words.specs.declared.reply.Reply.{Reply as ReplyOf};
ghost use Rattle.desk_words.specs.Tables.{rows_of};
ghost use Rattle.desk_valid.specs.Valid.{AreValid};
ghost use Rattle.machine_core.specs.Machine.{IsStep};
ghost use Rattle.machine_laws.specs.Events.{AreAnswered, Event, tables_after};
ghost use Rattle.machine_laws.specs.OneByOne.{EnterAll, IsOneByOne};

use desk_base::Str;
use desk_words::{ClerkWork, Command, Tables, Ticket};

/// An accepted batch leaves the sessions that are left when its rows are entered one by one instead, under the numbers
/// from its own on, but for the field of the batch.
pub fn a_batch_enters_row_by_row(
    tables: &Tables,
    name: &Str,
    ticket: &Ticket,
    edition: &Str,
    body: &[u8],
)
    requires { AreValid (rows_of tables.now) }
    ensures { (sheet : MasterOf) (answer : ReplyOf) (changes : List ChangeOf) (events : List Event)
        → read_sheet body.now ≡ Ok sheet
        → IsStep (rows_of tables.now) (Command.Clerk name.now ticket.now (ClerkWork.Batch edition.now body.now)) answer
        changes
        → changes ≢ []
        → EnterAll name.now edition.now sheet.columns ticket.now.number sheet.grid.rows events
        → AreAnswered (rows_of tables.now) events
        → IsOneByOne name.now (rows_of tables.now) (changed_all (rows_of tables.now) changes)
        (tables_after (rows_of tables.now) events) }
{}
