//! What an explanation tells is the reason.
//!
//! `specs/Explanations.antt` says what is told of which session. What holds of a reason and of its uses stands in the
//! laws of `fix_explain`.
ghost use Rattle.std.specs.Prelude.{List};
ghost use Rattle.desk_words.specs.declared.change.Change.{Change as ChangeOf};
ghost use Rattle.desk_words.specs.declared.reply.Explained.{Explained as ExplainedOf};
ghost use Rattle.desk_words.specs.Tables.{rows_of};
ghost use Rattle.machine_core.specs.Machine.{IsStep};
ghost use Rattle.machine_laws.specs.Explanations.{TellsReason};

use desk_base::Str;
use desk_words::{Command, Look, Reply, Tables};

/// An explanation tells the names of the reason why the session's first run fixes the attribute, and those of its uses.
pub fn an_explanation_is_the_reason(tables: &Tables, name: &Str, session: u32, word: &Str)
    ensures { (told : ExplainedOf) (changes : List ChangeOf)
        → IsStep (rows_of tables.now) (Command.Look name.now (Look.Explain session word.now)) (Reply.Explained told)
        changes
        → TellsReason (rows_of tables.now) name.now session word.now told }
{}
