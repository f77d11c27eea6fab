//! Valid tables stay valid.
ghost use Rattle.std.specs.Prelude.{◌≡◌, List, []};
ghost use Rattle.desk_words.specs.Changes.{FitAll, changed_all};
ghost use Rattle.desk_words.specs.declared.change.Change.{Change as ChangeOf};
ghost use Rattle.desk_words.specs.declared.refusal.Refusal.{Refusal as RefusalOf};
ghost use Rattle.desk_words.specs.declared.reply.Reply.{Reply as ReplyOf};
ghost use Rattle.desk_words.specs.Tables.{rows_of};
ghost use Rattle.desk_valid.specs.Valid.{AreValid};
ghost use Rattle.machine_core.specs.Machine.{IsStep};
ghost use Rattle.machine_core.specs.Ticket.{IsNumbered};

use desk_base::Str;
use desk_words::{Command, DeskLook, Look, Reply, Tables};

/// What a request changes fits the tables, and leaves valid ones.
pub fn tables_stay_valid(tables: &Tables, command: &Command)
    requires valid { AreValid (rows_of tables.now) }
    requires numbered { IsNumbered command.now }
    ensures fit { (answer : ReplyOf) (changes : List ChangeOf)
        → IsStep (rows_of tables.now) command.now answer changes → FitAll (rows_of tables.now) changes }
    ensures valid { (answer : ReplyOf) (changes : List ChangeOf)
        → IsStep (rows_of tables.now) command.now answer changes
        → AreValid (changed_all (rows_of tables.now) changes) }
{}

/// A refusal changes nothing.
pub fn refusals_change_nothing(tables: &Tables, command: &Command)
    ensures { (refusal : RefusalOf) (changes : List ChangeOf)
        → IsStep (rows_of tables.now) command.now (Reply.Refused refusal) changes → changes ≡ [] }
{}

/// A look changes nothing, be it a clerk's or at the desk.
pub fn looks_change_nothing(tables: &Tables, name: &Str, look: &Look, at_desk: &DeskLook)
    ensures look { (answer : ReplyOf) (changes : List ChangeOf)
        → IsStep (rows_of tables.now) (Command.Look name.now look.now) answer changes → changes ≡ [] }
    ensures desk { (answer : ReplyOf) (changes : List ChangeOf)
        → IsStep (rows_of tables.now) (Command.Desk at_desk.now) answer changes → changes ≡ [] }
{}
