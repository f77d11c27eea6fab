//! What holds of packed rows and of lines, whatever they are.
ghost use Rattle.std.specs.Prelude.{◌≡◌, ◌↔◌, false, true, List, Some, IsPermutation};
ghost use Rattle.std.specs.List.{AllByRecursion};
ghost use Rattle.desk_words.specs.declared.change.Change.{Change};
ghost use Rattle.desk_words.specs.Changes.{FitAll, changed_all};
ghost use Rattle.desk_words.specs.Tables.{AreTables, Rows, empty_rows};
ghost use Rattle.desk_packing.specs.declared.kinds.TheConstants.{VERSION, CLERKS, SCHEMAS, MASTERS, RULEBOOKS};
ghost use Rattle.desk_packing.specs.declared.kinds.TheConstants.{EDITIONS, REGIONS, SESSIONS, RECORDS, BATCHES};
ghost use Rattle.desk_packing.specs.Formats.{IsApart, IsExact};
ghost use Rattle.desk_packing.specs.Lines.{Line, put_lines};
ghost use Rattle.desk_packing.specs.Reading.{rows_in};
ghost use Rattle.desk_packing.specs.RowFormats.{batch, clerk, committed, edition, old_edition, region, text_row};
ghost use Rattle.desk_packing.specs.RowFormats.{rulebook, session};
ghost use Rattle.desk_packing.specs.Shapes.{FitLengths, FitsFields, grown_all, lines_of_changes, migration_lines};
ghost use Rattle.desk_packing.specs.Shapes.{shape_of};
ghost use Rattle.desk_packing.specs.Stands.{StandFor, StandIn, lines_of, old_lines_of};

/// The kinds of rows are these numbers (docs/formats.md, *The stored tables*): a file that was written once is read by
/// them.
pub fn the_kinds_are()
    ensures version { VERSION ≡ 0 }
    ensures clerks { CLERKS ≡ 1 }
    ensures schemas { SCHEMAS ≡ 2 }
    ensures masters { MASTERS ≡ 3 }
    ensures rulebooks { RULEBOOKS ≡ 4 }
    ensures editions { EDITIONS ≡ 5 }
    ensures regions { REGIONS ≡ 6 }
    ensures sessions { SESSIONS ≡ 7 }
    ensures records { RECORDS ≡ 8 }
    ensures batches { BATCHES ≡ 9 }
{}

/// A packed row is read back, whatever stands after it; and what is read was packed so.
pub fn packed_rows_are_read_back()
    ensures clerks { IsExact clerk }
    ensures texts { IsExact text_row }
    ensures rulebooks { IsExact rulebook }
    ensures editions { IsExact edition }
    ensures old_editions { IsExact old_edition }
    ensures regions { IsExact region }
    ensures sessions { IsExact session }
    ensures records { IsExact committed }
    ensures batches { IsExact batch }
{}

/// Lines stand for at most one value of the tables: the one that is read from them.
pub fn lines_stand_for_what_is_read()
    ensures { (lines : List Line) (rows : Rows) → (rows_in lines ≡ Some rows) ↔ StandFor lines rows }
{}

/// The lines of changes, put over the lines of tables, give the lines of the changed tables; and for the lengths of the
/// changed tables nothing but the lengths and the changes has to be known.
pub fn changes_put_their_lines()
    ensures lines { (rows : Rows) (changes : List Change) → AreTables rows → FitAll rows changes
        → IsPermutation (put_lines (lines_of rows) (lines_of_changes (shape_of rows) changes))
        (lines_of (changed_all rows changes)) }
    ensures shape { (rows : Rows) (changes : List Change)
        → shape_of (changed_all rows changes) ≡ grown_all (shape_of rows) changes }
    ensures fit { (rows : Rows) (changes : List Change) → AreTables rows → FitAll rows changes
        → FitLengths (shape_of rows) changes }
    ensures stand { (lines : List Line) (rows : Rows) (changes : List Change) → StandIn false lines rows
        → FitAll rows changes → AllByRecursion FitsFields changes
        → StandIn false (put_lines lines (lines_of_changes (shape_of rows) changes)) (changed_all rows changes) }
{}

/// The lines of the migration, put over the lines of the old version, give those of the new one.
pub fn a_migration_loses_nothing()
    ensures lines { (rows : Rows)
        → IsPermutation (put_lines (old_lines_of rows) (migration_lines rows)) (lines_of rows) }
    ensures stand { (lines : List Line) (rows : Rows) → StandIn true lines rows
        → StandIn false (put_lines lines (migration_lines rows)) rows }
{}

/// The rows of a new desk stand for its tables.
pub fn a_new_desk_stands()
    ensures { StandIn false (lines_of empty_rows) empty_rows }
{}

/// Equal bytes are those of one row.
pub fn equal_bytes_are_of_one_row()
    ensures clerks { IsApart clerk }
    ensures texts { IsApart text_row }
    ensures rulebooks { IsApart rulebook }
    ensures editions { IsApart edition }
    ensures old_editions { IsApart old_edition }
    ensures regions { IsApart region }
    ensures sessions { IsApart session }
    ensures records { IsApart committed }
    ensures batches { IsApart batch }
{}
