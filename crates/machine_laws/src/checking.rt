//! A check tells what publishing next would be answered.
ghost use Rattle.desk_words.specs.Tables.{rows_of};
ghost use Rattle.desk_valid.specs.Valid.{AreValid};
ghost use Rattle.machine_laws.specs.Checking.{TellsPublishing};

use desk_words::Tables;

/// A check of a schema, a master, a rulebook or an edition fits exactly where publishing it next is accepted, with the
/// name and the version that it then gets, and is refused as publishing is.
pub fn a_check_tells_what_publishing_does(tables: &Tables)
    requires { AreValid (rows_of tables.now) }
    ensures { TellsPublishing (rows_of tables.now) }
{}
