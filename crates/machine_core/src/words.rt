//! The words of an edition's attributes.
ghost use Rattle.std.specs.Prelude.{◌≡◌, ◌<◌, ◌≤◌, Some, length, IfOk};
ghost use Rattle.desk_base.specs.declared.limits.TheConstants.{MAX_ATTRIBUTES};
ghost use Rattle.desk_words.specs.Tables.{published_of, rows_of};
ghost use Rattle.desk_valid.specs.Valid.{AreValid};
ghost use Rattle.machine_core.specs.Words.{words_at};

use desk_base::{List, NoMemory, Text};
use desk_valid::schema_of;
use desk_words::Tables;
use std::alloc::Global;

/// The words of the attributes of the edition at a place, counted from 0. Of what it names the schema alone is read.
pub fn words_of(alloc: Global, tables: &Tables, edition: u32) -> Result<List<Text>, NoMemory>
    requires valid { AreValid (rows_of tables.now) }
    requires edition { edition < length tables.now.editions.items }
    ensures words { IfOk result (λ words. words_at (published_of (rows_of tables.now)) edition ≡ Some words) }
    ensures few { IfOk result (λ words. length words ≤ MAX_ATTRIBUTES) }
{
    let row = &tables.editions.as_slice()[edition as usize];
    let rulebook = &tables.rulebooks.as_slice()[row.rulebook as usize];
    let schema = schema_of(alloc, tables, rulebook.schema)?;
    Ok(schema.attributes)
}
