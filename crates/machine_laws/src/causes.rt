//! Each refusal has its cause.
//!
//! `specs/Causes.antt` of `machine_core` has the causes, one equation a refusal, in words and without any order.
ghost use Rattle.std.specs.Prelude.{List};
ghost use Rattle.desk_words.specs.declared.change.Change.{Change as ChangeOf};
ghost use Rattle.desk_words.specs.declared.refusal.Refusal.{Refusal as RefusalOf};
ghost use Rattle.desk_words.specs.Tables.{rows_of};
ghost use Rattle.desk_valid.specs.Valid.{AreValid};
ghost use Rattle.machine_core.specs.Causes.{Cause};
ghost use Rattle.machine_core.specs.Machine.{IsStep};

use desk_words::{Command, Reply, Tables};

/// A request that is answered by a refusal is refused for its cause; none is refused for a failure of the keeper or for
/// want of memory.
pub fn refusals_have_their_causes(tables: &Tables, command: &Command)
    requires { AreValid (rows_of tables.now) }
    ensures { (refusal : RefusalOf) (changes : List ChangeOf)
        → IsStep (rows_of tables.now) command.now (Reply.Refused refusal) changes
        → Cause (rows_of tables.now) command.now refusal }
{}
