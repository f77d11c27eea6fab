//! One step of the machine.
ghost use Rattle.std.specs.Prelude.{◌≡◌, List};
ghost use Rattle.desk_words.specs.declared.change.Change.{Change as ChangeOf};
ghost use Rattle.desk_words.specs.declared.reply.Reply.{Reply as ReplyOf};
ghost use Rattle.desk_words.specs.Tables.{rows_of};
ghost use Rattle.desk_valid.specs.Valid.{AreValid};
ghost use Rattle.machine_core.specs.Machine.{IsStep};
ghost use Rattle.machine_core.specs.Ticket.{IsNumbered};

use desk_words::{Command, Tables};

/// A request has one reply and one list of changes at most, whatever the tables are.
pub fn one_step(tables: &Tables, command: &Command)
    ensures { (answer other : ReplyOf) (changes others : List ChangeOf)
        → IsStep (rows_of tables.now) command.now answer changes
        → IsStep (rows_of tables.now) command.now other others
        → (answer ≡ other) × (changes ≡ others) }
{}

/// Over valid tables each request has a reply and a list of changes.
pub fn every_request_has_a_step(tables: &Tables, command: &Command)
    requires valid { AreValid (rows_of tables.now) }
    requires numbered { IsNumbered command.now }
    ensures { (answer : ReplyOf) × (changes : List ChangeOf)
        × IsStep (rows_of tables.now) command.now answer changes }
{}
