//! What was published is shown.
//!
//! `specs/Publishing.antt` says which request publishes a text, and `specs/Events.antt` what requests one after another
//! are.
ghost use Rattle.std.specs.Prelude.{List};
ghost use Rattle.desk_words.specs.Tables.{rows_of};
ghost use Rattle.desk_valid.specs.Valid.{AreValid};
ghost use Rattle.machine_laws.specs.Events.{AreAnswered, Event};
ghost use Rattle.machine_laws.specs.Publishing.{ShowWhatWasPublished};

use desk_words::Tables;

/// In any list of requests, what one published as a schema, a master or a rulebook is shown ever after: each later look
/// at the name and the version that it was answered shows its body, byte for byte, whatever was asked between.
pub fn what_was_published_is_shown(tables: &Tables)
    requires { AreValid (rows_of tables.now) }
    ensures { (events : List Event) → AreAnswered (rows_of tables.now) events → ShowWhatWasPublished events }
{}
