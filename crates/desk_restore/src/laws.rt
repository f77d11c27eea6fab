//! What holds of dumps, whatever rows they are of.
ghost use Rattle.std.specs.Prelude.{◌≡◌};
ghost use Rattle.desk_words.specs.Tables.{AreTables, Rows};
ghost use Rattle.desk_dump.specs.Dumps.{dump_of};
ghost use Rattle.desk_restore.specs.Ranges.{AreInRange};

/// Equal dumps are of equal rows.
pub fn equal_dumps_are_of_equal_rows()
    ensures { (one other : Rows) → AreTables one → AreTables other → AreInRange one → AreInRange other
        → dump_of one ≡ dump_of other → one ≡ other }
{}
