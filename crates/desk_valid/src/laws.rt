//! What holds of valid tables.
ghost use Rattle.std.specs.Prelude.{◌<◌, length, IsSomeAnd};
ghost use Rattle.desk_words.specs.Tables.{published_of, rows_of};
ghost use Rattle.desk_valid.specs.Bindings.{IsNamedKit, bound_at};
ghost use Rattle.desk_valid.specs.Valid.{AreValid};

use desk_words::Tables;

/// Each edition of valid tables has a kit, which is valid, with a name for each attribute, rule and master.
pub fn editions_have_kits(tables: &Tables, edition: u32)
    requires valid { AreValid (rows_of tables.now) }
    requires edition { edition < length tables.now.editions.items }
    ensures { IsSomeAnd (bound_at (published_of (rows_of tables.now)) edition) IsNamedKit }
{}
