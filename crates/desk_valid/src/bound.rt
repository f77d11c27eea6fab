//! The kit of an edition.
ghost use Rattle.std.specs.Prelude.{◌≡◌, ◌<◌, ◌≤◌, length, Some, IfOk, IsSome};
ghost use Rattle.desk_base.specs.declared.limits.TheConstants.{MAX_ENTRIES};
ghost use Rattle.desk_words.specs.Tables.{published_of, rows_of};
ghost use Rattle.fix_model.specs.Entries.{entries};
ghost use Rattle.fix_model.specs.Valid.{IsValid};
ghost use Rattle.desk_valid.specs.Bindings.{AreBindable, bound_at, bound_of};
ghost use Rattle.desk_valid.specs.Valid.{AreValid};

use crate::parts::{Parts, parts_of};
use desk_base::NoMemory;
use desk_words::Tables;
use fix_model::{Kit, Names};
use rule_text::{BindFault, bind, names_in};
use std::alloc::Global;

/// A kit, with the names of its attributes, rules and masters, each in their order.
#[derive(Debug, Drop)]
pub struct Bound {
    pub kit: Kit,
    pub names: Names,
}

/// The kit of the edition at a place, counted from 0, with its names: its rulebook, bound to its schema, masters
/// and folded attributes. An index over it has at most 2,000,000 entries.
pub fn kit_of(alloc: Global, tables: &Tables, edition: u32) -> Result<Bound, NoMemory>
    requires valid { AreValid (rows_of tables.now) }
    requires edition { edition < length tables.now.editions.items }
    ensures bound { IfOk result (λ made. bound_at (published_of (rows_of tables.now)) edition ≡ Some made) }
    ensures valid { IfOk result (λ made. IsValid made.kit) }
    ensures narrow { IfOk result (λ made. entries made.kit ≤ MAX_ENTRIES) }
{
    let row = &tables.editions.as_slice()[edition as usize];
    let Some(parts) = parts_of(alloc, tables, row)? else {
        // In valid tables the parts of an edition read.
        unreachable!()
    };
    bound_of(alloc, parts, row.folded.as_slice())
}

/// The kit that the parts bind to, with its names.
fn bound_of(alloc: Global, parts: Parts, folded: &[u16]) -> Result<Bound, NoMemory>
    requires bindable { AreBindable parts folded.now }
    requires binds { IsSome (bound_of parts folded.now) }
    ensures bound { IfOk result (λ made. bound_of parts folded.now ≡ Some made) }
    ensures valid { IfOk result (λ made. IsValid made.kit) }
{
    let rules = &parts.rules;
    let masters = parts.masters.as_slice();
    match bind(alloc, &rules.rulebook, &rules.schema, masters, folded) {
        Ok(kit) => {
            let names = names_in(alloc, &rules.schema, &rules.rulebook, masters)?;
            Ok(Bound { kit, names })
        }
        Err(BindFault::NoMemory) => Err(NoMemory),
        // In valid tables the parts of an edition bind.
        Err(_) => unreachable!(),
    }
}
